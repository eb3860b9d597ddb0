// The names of variables and channels, by the call to which they belong.
ghost use Rattle.std.specs.Prelude.{◌≡◌, None, length};
ghost use Rattle.dap_views.specs.Around.{around, call_of_branch, call_of_place};
ghost use Rattle.dap_views.specs.Named.{call_named, differs, has_name, is_named, own_in, prefix_in, same_thing};

use crate::words::Words;
use address::Address;
use machine::Machine;
use source_calls::{Call, Calls};
use std::alloc::{AllocError, Global};
use std::str;
use typed_source::typed_source;
use types::{LocalKind, Procedure};

/// The most names that are told of those that may be meant.
const MOST_TOLD: u64 = 10;

/// A variable or a channel.
#[derive(Clone, Copy, Debug, PartialEq, Eq)]
pub enum Thing {
    Variable(u32),
    Channel(u32),
}

/// The name of a thing, as it was declared.
#[derive(Drop)]
pub struct Named {
    /// the index of the instance to which it belongs
    pub instance: usize,
    pub own: String,
    pub thing: Thing,
    /// whether it is a port, which stands for a channel of the call around
    pub stands: bool,
}

/// All names. An instance is a call: its names begin with the numbers of the calls around it and its own, a `:` behind
/// each. The root has no such beginning, and stands first.
#[derive(Drop)]
pub struct Index {
    calls: Calls,
    /// the index of the instance in which each branch of the body begins
    begins: Vec<usize>,
    /// how many instances there are of each procedure
    counts: Vec<u64>,
    /// the variables by their numbers, then the channels so, then the ports of the calls
    pub names: Vec<Named>,
}

impl Index {
    ghost use Rattle.dap_views.specs.Named as model;

    /// The names of a source that was accepted. It is an error if there is no memory.
    pub fn new(alloc: Global, source: &[u8]) -> Result<Index, AllocError> {
        let calls = calls_of(alloc, source)?;
        let begins = calls.branches(alloc)?;
        let counts = counts_of(alloc, &calls)?;
        let names = names_of(alloc, &calls)?;
        Ok(Index {
            calls,
            begins,
            counts,
            names,
        })
    }

    /// How many instances there are.
    pub fn count(&self) -> usize
        ensures { result ≡ length self.now.calls.list.items }
    {
        self.calls.as_slice().len()
    }

    /// What stands before the names of the instance at this index; nothing for one that is not there.
    pub fn prefix(&self, instance: usize) -> &str {
        match self.calls.as_slice().get(instance) {
            Some(call) => call.prefix.as_str(),
            None => "",
        }
    }

    /// The index of the instance around this one; none for the root.
    pub fn around(&self, instance: usize) -> Option<usize>
        ensures { result ≡ around self.now instance }
    {
        if instance == 0 {
            return None;
        }
        let call = self.calls.as_slice().get(instance)?;
        Some(call.parent)
    }

    /// The line on which the instance is called, from 1; 0 for the root.
    pub fn line_of_call(&self, instance: usize) -> u64 {
        match self.calls.as_slice().get(instance) {
            Some(call) => call.line,
            None => 0,
        }
    }

    /// Adds what the instance at this index is called: its procedure, and the number of its call where there is more
    /// than one of it.
    pub fn add_title(&self, instance: usize, words: &mut Words) {
        let Some(procedure) = self.calls.procedure(instance) else {
            return;
        };
        words.bytes(procedure.name.text());
        if self.has_others(instance) {
            let prefix = self.prefix(instance);
            words.add(" ");
            words.add(prefix.strip_suffix(':').unwrap_or(prefix));
        }
    }

    /// Whether there are other instances of the same procedure.
    fn has_others(&self, instance: usize) -> bool {
        let Some(call) = self.calls.as_slice().get(instance) else {
            return false;
        };
        match self.counts.as_slice().get(call.procedure) {
            Some(count) => *count > 1,
            None => false,
        }
    }

    /// The index of the instance to which a place belongs as the machine stands; the root for a place of the
    /// environment.
    pub fn instance_at(&self, machine: &Machine, place: &Address) -> usize
        ensures { result ≡ call_of_place machine.now self.now place.now }
    {
        self.calls.at(machine.live_events(), place).unwrap_or(0)
    }

    /// The index of the instance in which this branch of the body begins; the root for another branch.
    pub fn instance_of_branch(&self, branch: u32) -> usize
        ensures { result ≡ call_of_branch self.now branch }
    {
        match self.begins.as_slice().get(branch as usize) {
            Some(begin) => *begin,
            None => 0,
        }
    }

    /// The index of the instance whose names begin so.
    pub fn instance(&self, prefix: &str) -> Option<usize>
        ensures { result ≡ model.call_named 0 self.now.calls.list.items prefix.now }
    {
        call_named(self.calls.as_slice(), prefix)
    }

    /// What a name means that is read in an instance: what that declares; else, where all that declare it mean the same
    /// by it, that; or a whole name, as `1:x`. None where it is not declared, and where it may mean more than one
    /// thing.
    pub fn find(&self, instance: usize, name: &str) -> Option<Thing>
        ensures { result ≡ model.found self.now instance name.now }
    {
        let (prefix, own) = parts_of(name);
        self.find_behind(instance, prefix, own)
    }

    /// What a name means that is read in an instance, with these numbers of calls before it, if there are some.
    fn find_behind(&self, instance: usize, prefix: &str, own: &str) -> Option<Thing>
        ensures { result ≡ model.found_behind self.now instance prefix.now own.now }
    {
        match prefix.as_bytes() {
            [] => self.meant(instance, own),
            _ => match self.instance(prefix) {
                Some(call) => self.own(call, own),
                None => None,
            },
        }
    }

    /// What a name that is no whole one means in this instance.
    fn meant(&self, instance: usize, own: &str) -> Option<Thing>
        ensures { result ≡ model.meant self.now.names.items instance own.now }
    {
        match self.own(instance, own) {
            Some(thing) => Some(thing),
            None => self.agreed(own),
        }
    }

    /// What the instance declares by this name.
    fn own(&self, instance: usize, own: &str) -> Option<Thing>
        ensures { result ≡ model.declared self.now.names.items instance own.now }
    {
        for named in &self.names {
            if is_named(named, instance, own) {
                return Some(named.thing);
            }
        }
        None
    }

    /// What all that declare the name mean by it.
    fn agreed(&self, own: &str) -> Option<Thing>
        ensures { result ≡ model.agreed None self.now.names.items own.now }
    {
        let mut found = None;
        for named in &self.names {
            if has_name(named, own) {
                if differs(found, named.thing) {
                    return None;
                }
                found = Some(named.thing);
            }
        }
        found
    }

    /// Whether something has the name, wherever it is declared.
    pub fn is_declared(&self, own: &str) -> bool
        ensures { result ≡ model.is_declared self.now.names.items own.now }
    {
        for named in &self.names {
            if has_name(named, own) {
                return true;
            }
        }
        false
    }

    /// Adds the whole names that this one may mean, at most ten.
    pub fn add_candidates(&self, own: &str, words: &mut Words) {
        let mut count = 0u64;
        for named in &self.names {
            if has_name(named, own) {
                if count < MOST_TOLD {
                    words.add(if count > 0 { ", " } else { "" });
                    words.add(self.prefix(named.instance));
                    words.add(own);
                }
                count = count.saturating_add(1);
            }
        }
        if count > MOST_TOLD {
            words.add(" and ");
            words.number(count.saturating_sub(MOST_TOLD));
            words.add(" more");
        }
    }
}

/// The index of the first of these calls whose names begin so.
fn call_named(calls: &[Call], prefix: &str) -> Option<usize>
    ensures { result ≡ call_named 0 calls.now prefix.now }
{
    for (index, call) in calls.iter().enumerate() {
        if call.prefix.as_bytes() == prefix.as_bytes() {
            return Some(index);
        }
    }
    None
}

/// Whether it is declared in this instance, and has the name.
fn is_named(named: &Named, instance: usize, own: &str) -> bool
    ensures { result ≡ is_named instance own.now named.now }
{
    named.instance == instance && has_name(named, own)
}

/// Whether it has the name.
fn has_name(named: &Named, own: &str) -> bool
    ensures { result ≡ has_name own.now named.now }
{
    named.own.as_bytes() == own.as_bytes()
}

/// Whether the thing is another one than was found.
fn differs(found: Option<Thing>, thing: Thing) -> bool
    ensures { result ≡ differs found thing }
{
    match found {
        Some(found) => !same_thing(found, thing),
        None => false,
    }
}

/// Whether both are one thing.
fn same_thing(one: Thing, other: Thing) -> bool
    ensures { result ≡ same_thing one other }
{
    match (one, other) {
        (Thing::Variable(one), Thing::Variable(other)) => one == other,
        (Thing::Channel(one), Thing::Channel(other)) => one == other,
        _ => false,
    }
}

/// The calls of a source that was accepted.
fn calls_of(alloc: Global, source: &[u8]) -> Result<Calls, AllocError> {
    match typed_source(alloc, source) {
        Ok(typed) => Calls::new(alloc, typed),
        // It was accepted, so there is no memory.
        Err(_) => Err(AllocError),
    }
}

/// How many calls there are of each procedure.
fn counts_of(alloc: Global, calls: &Calls) -> Result<Vec<u64>, AllocError> {
    let mut counts = zeros(alloc, calls.procedures().len())?;
    for call in calls.as_slice() {
        if let Some(count) = counts.as_mut_slice().get_mut(call.procedure) {
            *count = count.saturating_add(1);
        }
    }
    Ok(counts)
}

/// So many times 0.
fn zeros(alloc: Global, count: usize) -> Result<Vec<u64>, AllocError> {
    let mut zeros = Vec::new(alloc);
    for _ in 0..count {
        zeros.push(0)?;
    }
    Ok(zeros)
}

/// The names of the calls.
fn names_of(alloc: Global, calls: &Calls) -> Result<Vec<Named>, AllocError> {
    let mut names = Vec::new(alloc);
    add_locals(alloc, calls, true, &mut names)?;
    add_root_ports(alloc, calls, &mut names)?;
    add_locals(alloc, calls, false, &mut names)?;
    add_ports(alloc, calls, &mut names)?;
    Ok(names)
}

/// Adds the variables of all calls, or their channels.
fn add_locals(
    alloc: Global,
    calls: &Calls,
    variables: bool,
    names: &mut Vec<Named>,
) -> Result<(), AllocError> {
    for (instance, call) in calls.as_slice().iter().enumerate() {
        if let Some(procedure) = calls.procedures().get(call.procedure) {
            add_locals_of(alloc, instance, call, procedure, variables, names)?;
        }
    }
    Ok(())
}

/// Adds the variables of a call, or its channels.
fn add_locals_of(
    alloc: Global,
    instance: usize,
    call: &Call,
    procedure: &Procedure,
    variables: bool,
    names: &mut Vec<Named>,
) -> Result<(), AllocError> {
    for (place, local) in procedure.locals.as_slice().iter().enumerate() {
        let number = number_at(call.locals.as_slice(), place);
        let thing = thing_of(local.kind, number);
        if is_variable(thing) == variables {
            add(alloc, instance, local.name.text(), thing, false, names)?;
        }
    }
    Ok(())
}

/// What a local of this kind and this number is.
fn thing_of(kind: LocalKind, number: u32) -> Thing {
    match kind {
        LocalKind::Variable(_) | LocalKind::SharedVariable(_) => Thing::Variable(number),
        LocalKind::Channel(_) | LocalKind::Sync => Thing::Channel(number),
    }
}

/// Whether the thing is a variable.
fn is_variable(thing: Thing) -> bool {
    matches!(thing, Thing::Variable(_))
}

/// The number at the place.
fn number_at(numbers: &[u32], place: usize) -> u32 {
    numbers.get(place).copied().unwrap_or(u32::MAX)
}

/// Adds the ports of the root, which are channels of its own.
fn add_root_ports(alloc: Global, calls: &Calls, names: &mut Vec<Named>) -> Result<(), AllocError> {
    match (calls.as_slice().first(), calls.procedure(0)) {
        (Some(root), Some(procedure)) => { add_ports_of(alloc, 0, root, procedure, false, names) }
        _ => Ok(()),
    }
}

/// Adds the ports of the other calls.
fn add_ports(alloc: Global, calls: &Calls, names: &mut Vec<Named>) -> Result<(), AllocError> {
    for (instance, call) in calls.as_slice().iter().enumerate() {
        if let (true, Some(procedure)) = (instance > 0, calls.procedure(instance)) {
            add_ports_of(alloc, instance, call, procedure, true, names)?;
        }
    }
    Ok(())
}

/// Adds the ports of a call.
fn add_ports_of(
    alloc: Global,
    instance: usize,
    call: &Call,
    procedure: &Procedure,
    stands: bool,
    names: &mut Vec<Named>,
) -> Result<(), AllocError> {
    for (place, port) in procedure.ports.as_slice().iter().enumerate() {
        let thing = Thing::Channel(number_at(call.ports.as_slice(), place));
        add(alloc, instance, port.name.text(), thing, stands, names)?;
    }
    Ok(())
}

/// Adds a name.
fn add(
    alloc: Global,
    instance: usize,
    text: &[u8],
    thing: Thing,
    stands: bool,
    names: &mut Vec<Named>,
) -> Result<(), AllocError> {
    let own = String::from_str(alloc, str::from_utf8(text).unwrap_or("?"))?;
    names.push(Named {
        instance,
        own,
        thing,
        stands,
    })?;
    Ok(())
}

/// The numbers of calls before a name, with the `:` behind the last, and what was declared.
fn parts_of(name: &str) -> (&str, &str)
    ensures prefix { result.0.now ≡ prefix_in name.now }
    ensures own { result.1.now ≡ own_in name.now }
{
    match name.rfind(':') {
        Some(at) => match name.split_at_checked(at.saturating_add(1)) {
            Some(parts) => parts,
            None => ("", name),
        },
        None => ("", name),
    }
}
