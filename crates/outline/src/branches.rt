// The branches of a system, by their numbers.
ghost use Rattle.std.specs.Prelude.{◌≡◌, ◌≤◌, ◌+◌, ◌++◌, ◌∷◌, [], length, IfOk, OnOk};
ghost use Rattle.std.specs.Option.{option_copied};
ghost use Rattle.address.specs.declared.Entry.TheVariants as entry;
ghost use Rattle.system_places.specs.SystemBranches.{parallel_of};
ghost use Rattle.outline.specs.Branches as model;

use crate::ends::{End, Way, ends_of};
use address::{Address, Entry};
use std::alloc::{AllocError, Global};
use syntax::Items;
use system::{Action, Branch, Command, System};

/// What a branch is.
#[derive(Clone, Copy)]
pub enum Part {
    /// the root's body, or a child of it where that is a parallel; with its line, from 1
    Body(u64),
    /// the environment at a port
    Port,
}

/// A branch of a system.
#[derive(Drop)]
pub struct BranchEntry {
    /// by which `branch` and the workers call it
    pub number: u32,
    /// what acts in it acts here or below
    pub place: Address,
    pub part: Part,
    /// the ends of channels that it uses, in the order of the source
    pub ends: Items<End>,
}

/// All branches, in order of their numbers.
pub(crate) fn branches_of(alloc: Global, system: &System) -> Result<Items<BranchEntry>, AllocError>
    ensures all { IfOk result (λ branches. branches ≡ model.branches_of system.now) }
    ensures numbered { IfOk result (λ branches. length branches ≤ 4294967296) }
{
    let mut branches = Items::new(alloc);
    match parallel_of(&system.main) {
        Some(children) => add_children(alloc, children.as_slice(), &mut branches)?,
        None => add_body(alloc, &system.main, &mut branches)?,
    }
    add_ports(alloc, system.environment.as_slice(), &mut branches)?;
    if branches.len() > 4294967296 {
        return Err(AllocError);
    }
    Ok(branches)
}

/// The children of a command that is a parallel.
fn parallel_of(command: &Command) -> Option<&Items<Command>>
    ensures { option_copied result ≡ parallel_of command.now }
{
    match command.action.get() {
        Action::Parallel(children) => Some(children),
        _ => None,
    }
}

/// Adds the whole body as one branch.
fn add_body(
    alloc: Global,
    body: &Command,
    branches: &mut Items<BranchEntry>,
) -> Result<(), AllocError>
    requires { branches.old ≡ [] }
    ensures { OnOk result (branches.new ≡ model.of_body body.now ∷ []) }
{
    let place = place_of(alloc, &[Entry::Branch(0)])?;
    let ends = ends_of(alloc, body)?;
    branches.push(BranchEntry {
        number: 0,
        place,
        part: Part::Body(body.line),
        ends,
    })
}

/// Adds the children of the body, a branch each.
fn add_children(
    alloc: Global,
    children: &[Command],
    branches: &mut Items<BranchEntry>,
) -> Result<(), AllocError>
    requires { branches.old ≡ [] }
    ensures { OnOk result (branches.new ≡ model.of_children 0 children.now) }
{
    for (index, child) in children.iter().enumerate() {
        branches.push(child_entry(alloc, index, child)?)?;
    }
    Ok(())
}

/// The branch that is the child of this number.
fn child_entry(alloc: Global, index: usize, child: &Command) -> Result<BranchEntry, AllocError>
    ensures { IfOk result (λ made. made ≡ model.of_child index child.now) }
{
    let number = as_number(index)?;
    let place = place_of(alloc, &[Entry::Branch(0), Entry::Branch(number)])?;
    let ends = ends_of(alloc, child)?;
    Ok(BranchEntry {
        number,
        place,
        part: Part::Body(child.line),
        ends,
    })
}

/// Adds the environment's side of each port, a branch each, behind those of the body.
fn add_ports(
    alloc: Global,
    environment: &[Branch],
    branches: &mut Items<BranchEntry>,
) -> Result<(), AllocError>
    ensures { OnOk result (branches.new ≡ branches.old ++ model.of_ports (model.count branches.old) 1 environment.now) }
{
    let first = branches.len();
    for (index, outside) in environment.iter().enumerate() {
        branches.push(port_entry(alloc, first, index, outside)?)?;
    }
    Ok(())
}

/// The branch of the environment at the port of this index, where the first has the number `first`.
fn port_entry(
    alloc: Global,
    first: usize,
    index: usize,
    outside: &Branch,
) -> Result<BranchEntry, AllocError>
    ensures { IfOk result (λ made. made ≡ model.of_port (first + index) (index + 1) outside.now) }
{
    let number = as_number(first.saturating_add(index))?;
    let port = as_number(index.saturating_add(1))?;
    let place = place_of(alloc, &[Entry::Branch(port)])?;
    let mut ends = Items::new(alloc);
    ends.push(outer_end(outside))?;
    Ok(BranchEntry {
        number,
        place,
        part: Part::Port,
        ends,
    })
}

/// The end that the environment uses at a port.
fn outer_end(outside: &Branch) -> End
    ensures { result ≡ model.outer_end outside.now }
{
    match outside {
        Branch::Feed(channel, _, _) => outer(*channel, Way::Sends),
        Branch::Drain(channel) => outer(*channel, Way::Receives),
        Branch::Syncs(channel, _) => outer(*channel, Way::Syncs),
    }
}

/// An end of the environment, which has no line.
fn outer(channel: u32, way: Way) -> End
    ensures { result ≡ model.outer channel way }
{
    End {
        channel,
        line: None,
        way,
    }
}

/// An address with these entries.
fn place_of(alloc: Global, entries: &[Entry]) -> Result<Address, AllocError>
    ensures { IfOk result (λ made. made ≡ entries.now) }
{
    Address::new(alloc, entries)
}

/// The number in 32 bits. It is an error if it has more, which no description reaches that fits into the limits of
/// size.
pub(crate) fn as_number(count: usize) -> Result<u32, AllocError>
    ensures { IfOk result (λ number. number ≡ count) }
{
    if count <= 4294967295 {
        Ok(count as u32)
    } else {
        Err(AllocError)
    }
}
