// Variables, channels and the newest steps, as a client unfolds them.
ghost use Rattle.std.specs.Prelude.{◌≡◌, ◌++◌, ◌+◌, [], ◌∷◌, ℕ, List, Option, false, true, if◌then◌else◌, bytes_eq, codes, map, string_bytes, ◌↔◌, IsTrue, MatchOption, Some, slice_get};
ghost use Rattle.serde_json.specs.Data.{Data, array, string, unsigned};
ghost use Rattle.serde_json.specs.Data as json;
ghost use Rattle.serde_json.specs.View.{items_view, view};
ghost use Rattle.system_places.specs.SystemBranches.{branch_count};
ghost use Rattle.dap_messages.specs.Arguments.{number_named};
ghost use Rattle.dap_messages.specs.Notes.{IsRefusal};
ghost use Rattle.dap_messages.specs.Written.{Has};
ghost use Rattle.dap_messages.specs.declared.members.Listed.{Listed as List_of};
ghost use Rattle.dap_views.specs.declared.handles.Handle as unfolds;
ghost use Rattle.dap_views.specs.Around.{around};
ghost use Rattle.dap_views.specs.declared.index.Named.{Named as Name};
ghost use Rattle.dap_threads.specs.Frames.{FindsNamed};
ghost use Rattle.dap_threads.specs.Scopes.{GivesScopes, ListsScopes, scopes_of};
ghost use Rattle.dap_threads.specs.Unfolded.{HasHandle, IsFound, NamesHandle, instance_count, is_shown};
ghost use Rattle.dap_threads.specs.Variables.{ListsVariables, Shows, calls_in, calls_within, channels_of, is_call, is_channel_of, is_variable_of, variables_of};
ghost use Rattle.dap_threads.specs.internal.Listing.{AddsUnfolded, HasReference, ListsLeaves, ListsNamed, ListsUnfolded};

use crate::frames::frame_in;
use dap_messages::{Answer, Listed, Members, Request};
use dap_views::{
    Handle, Index, Named, Program, Sight, Thing, Words, add_action, add_who, channel_of,
    event_words, handle_of, newest_below, reference,
};
use machine::Machine;
use runs::Event;
use std::alloc::Global;
use system_places::branch_count;

/// How many steps are shown of a thread.
const MOST_STEPS: u32 = 10;

/// Answers `scopes`. It is refused where no frame is named, or none that there is.
pub fn scopes(
    alloc: Global,
    machine: &Machine,
    program: &Program,
    request: &Request,
    answer: &mut Answer,
)
    ensures { answer.new.lacks ≡ false
        → ListsScopes machine.now program.now.index program.now.sight (view request.now.arguments) answer.new }
{
    match request.number("frameId") {
        Some(_) => scopes_in(alloc, machine, program, request, answer),
        None => answer.refuse(104, "`frameId` is missing or no number"),
    }
}

/// The same of the frame that is named.
fn scopes_in(
    alloc: Global,
    machine: &Machine,
    program: &Program,
    request: &Request,
    answer: &mut Answer,
)
    ensures { answer.new.lacks ≡ false → (found : Option (ℕ × ℕ))
        × FindsNamed machine.now program.now.index program.now.sight
        (number_named (codes "frameId") (view request.now.arguments)) found
        × GivesScopes found answer.new.outcome }
{
    match frame_in(alloc, machine, program, request, answer) {
        Some((branch, instance)) => {
            let list = scope_list(alloc, program, branch, instance as u64);
            answer.body(listing(alloc, "scopes", list));
        }
        None => {}
    }
}

/// A list of this name.
pub(crate) fn listing(alloc: Global, name: &str, list: Listed) -> Members
    ensures lists { Has result name.now (array (items_view list.made.items)) }
    ensures whole { result.lacks ≡ false → list.lacks ≡ false }
{
    let mut body = Members::new(alloc);
    body.list(name, list);
    body
}

/// The scopes of a frame.
fn scope_list(alloc: Global, program: &Program, branch: u32, instance: u64) -> Listed
    ensures { ListsUnfolded result (scopes_of branch instance) }
{
    let mut title = Words::new(alloc);
    if instance > 0 {
        program.index.add_title(instance as usize, &mut title);
    }
    scopes_titled(alloc, title.as_str(), branch, instance)
}

/// The scopes of a frame of the instance that is called so.
fn scopes_titled(alloc: Global, title: &str, branch: u32, instance: u64) -> Listed
    ensures { ListsUnfolded result (scopes_of branch instance) }
{
    let thread = u64::from(branch) + 1;
    let mut list = Listed::new(alloc);
    list.push(scope(
        alloc,
        "Variables",
        title,
        Handle::Variables(instance),
        false,
    ));
    list.push(scope(alloc, "Channels", title, Handle::Channels(instance), false));
    list.push(scope(
        alloc,
        "Steps of this thread",
        "",
        Handle::Steps(thread),
        false,
    ));
    list.push(scope(alloc, "All calls", "", Handle::Instance(0), true));
    list
}

/// A scope.
fn scope(alloc: Global, name: &str, title: &str, handle: Handle, is_wide: bool) -> Members
    ensures { HasReference result handle }
{
    let mut words = Words::of(alloc, name);
    if !title.is_empty() {
        words.add(" of ");
        words.add(title);
    }
    let mut scope = Members::new(alloc);
    scope.text("name", words.as_str());
    scope.number("variablesReference", reference(handle));
    scope.flag("expensive", is_wide);
    add_hint(handle, &mut scope);
    scope
}

/// Adds how a scope is to be shown.
fn add_hint(handle: Handle, scope: &mut Members)
    ensures { (name : List ℕ) (d : Data) → bytes_eq name (codes "presentationHint") ≡ false → Has scope.old name d
        → Has scope.new name d }
{
    if let Handle::Variables(_) = handle {
        scope.text("presentationHint", "locals");
    }
}

/// Answers `variables`. It is refused where nothing is named that is shown.
pub fn variables(
    alloc: Global,
    machine: &Machine,
    program: &Program,
    request: &Request,
    answer: &mut Answer,
)
    ensures { answer.new.lacks ≡ false
        → ListsVariables machine.now program.now.index (view request.now.arguments) answer.new }
{
    match handle_named(machine, program, request, answer) {
        Some(handle) => {
            let list = unfolded(alloc, machine, program, handle);
            answer.body(listing(alloc, "variables", list));
        }
        None => {}
    }
}

/// What the request names, of all that is shown. It is refused where there is none with this number.
pub fn handle_named(
    machine: &Machine,
    program: &Program,
    request: &Request,
    answer: &mut Answer,
) -> Option<Handle>
    ensures handle { NamesHandle (instance_count program.now.index) (branch_count machine.now.checked)
        (number_named (codes "variablesReference") (view request.now.arguments)) result }
    ensures outcome { MatchOption result (IsRefusal answer.new.outcome × (answer.new.notes ≡ answer.old.notes))
        (λ _. answer.new ≡ answer.old) }
{
    let threads = branch_count(machine.checked().system());
    handle_in(request, instance_count(&program.index), threads, answer)
}

/// How many instances there are, 4294967295 where they are more.
fn instance_count(index: &Index) -> u32
    ensures { result ≡ instance_count index.now }
{
    index.count().min(4294967295) as u32
}

/// What the request names, of so many instances and threads. It is refused where there is none with this number.
fn handle_in(request: &Request, instances: u32, threads: u32, answer: &mut Answer) -> Option<Handle>
    ensures handle { NamesHandle instances threads
        (number_named (codes "variablesReference") (view request.now.arguments)) result }
    ensures outcome { MatchOption result (IsRefusal answer.new.outcome × (answer.new.notes ≡ answer.old.notes))
        (λ _. answer.new ≡ answer.old) }
{
    let Some(number) = request.number("variablesReference") else {
        answer.refuse(104, "`variablesReference` is missing or no number");
        return None;
    };
    let Some(handle) = handle_at(number, instances, threads) else {
        answer.refuse(110, "there are no variables with this reference");
        return None;
    };
    Some(handle)
}

/// What has this number, of so many instances and threads.
fn handle_at(number: u64, instances: u32, threads: u32) -> Option<Handle>
    ensures { IsFound instances threads number result }
{
    match handle_of(number) {
        Some(handle) if has_number(handle, number, instances, threads) => Some(handle),
        _ => None,
    }
}

/// Whether this is shown, and has the number.
fn has_number(handle: Handle, number: u64, instances: u32, threads: u32) -> bool
    ensures { IsTrue result ↔ HasHandle instances threads number handle }
{
    is_shown(handle, instances, threads) && reference(handle) == number
}

/// Whether it is one of so many instances, or a thread of so many.
fn is_shown(handle: Handle, instances: u32, threads: u32) -> bool
    ensures { result ≡ is_shown instances threads handle }
{
    match handle {
        Handle::Variables(number) | Handle::Channels(number) | Handle::Instance(number) => {
            number < u64::from(instances)
        }
        Handle::Steps(thread) => thread >= 1 && thread <= u64::from(threads),
    }
}

/// What is unfolded.
fn unfolded(alloc: Global, machine: &Machine, program: &Program, handle: Handle) -> Listed
    ensures { result.lacks ≡ false → Shows program.now.index handle (map view result.made.items) }
{
    match handle {
        Handle::Variables(number) => variables_of(alloc, machine, program, number as usize),
        Handle::Channels(number) => channels_of(alloc, machine, program, number as usize),
        Handle::Steps(thread) => steps_of(alloc, machine, branch_of(thread)),
        Handle::Instance(number) => instance_of(alloc, machine, program, number as usize),
    }
}

/// The variables of an instance, and the calls that are made in it.
fn instance_of(alloc: Global, machine: &Machine, program: &Program, instance: usize) -> Listed
    ensures { result.lacks ≡ false
        → Shows program.now.index (unfolds.Handle.Instance instance) (map view result.made.items) }
{
    let mut list = variables_of(alloc, machine, program, instance);
    add_calls(alloc, program, instance, &mut list);
    list
}

/// The branch that the thread of this number is.
fn branch_of(thread: u64) -> u32 {
    u32::try_from(thread.saturating_sub(1)).unwrap_or(u32::MAX)
}

/// The variables of an instance.
fn variables_of(alloc: Global, machine: &Machine, program: &Program, instance: usize) -> Listed
    ensures { ListsNamed result (variables_of program.now.index.names.items instance) }
{
    let mut list = Listed::new(alloc);
    for named in &program.index.names {
        add_variable(alloc, machine, named, instance, &mut list);
    }
    list
}

/// Adds what is declared by a name, if it is a variable of the instance.
fn add_variable(alloc: Global, machine: &Machine, named: &Named, instance: usize, list: &mut Listed)
    ensures { (names : List Name) → ListsNamed list.old names
        → ListsNamed list.new (names ++ (if is_variable_of instance named.now then named.now ∷ [] else [])) }
{
    match variable_in(named, instance) {
        Some(number) => list.push(variable(alloc, machine, named, number)),
        None => {}
    }
}

/// The variable that is declared by a name, if it is one of the instance.
fn variable_in(named: &Named, instance: usize) -> Option<u32>
    ensures { MatchOption result (is_variable_of instance named.now ≡ false)
        (λ _. is_variable_of instance named.now ≡ true) }
{
    match named.thing {
        Thing::Variable(number) => {
            if named.instance == instance {
                Some(number)
            } else {
                None
            }
        }
        Thing::Channel(_) => None,
    }
}

/// A variable with its value.
fn variable(alloc: Global, machine: &Machine, named: &Named, number: u32) -> Members
    ensures name_is { Has result (codes "name") (string (string_bytes named.now.own)) }
    ensures leaf { Has result (codes "variablesReference") (json.number (unsigned 0)) }
{
    let mut value = Words::new(alloc);
    let mut width = Words::new(alloc);
    if let Some(found) = machine.value(number) {
        value.number(found.bits());
        width.number(u64::from(found.width()));
        width.add(" bits");
    }
    let mut whole = Words::new(alloc);
    whole.variable(alloc, machine.checked().system(), number);
    let mut members = Members::new(alloc);
    members.text("name", named.own.as_str());
    members.text("value", value.as_str());
    members.text("type", width.as_str());
    members.text("evaluateName", whole.as_str());
    members.number("variablesReference", 0);
    members
}

/// The channels of an instance and its ports, each with who stands there; a port with the channel for which it stands.
fn channels_of(alloc: Global, machine: &Machine, program: &Program, instance: usize) -> Listed
    ensures { ListsNamed result (channels_of program.now.index.names.items instance) }
{
    match &program.sight {
        Some(sight) => channels_in(alloc, machine, program, sight, instance),
        None => lacking(alloc),
    }
}

/// A list that has no memory.
pub(crate) fn lacking(alloc: Global) -> Listed
    ensures { result.lacks ≡ true }
{
    let mut list = Listed::new(alloc);
    list.lack();
    list
}

/// The same where the state is seen so.
fn channels_in(
    alloc: Global,
    machine: &Machine,
    program: &Program,
    sight: &Sight,
    instance: usize,
) -> Listed
    ensures { ListsNamed result (channels_of program.now.index.names.items instance) }
{
    let mut list = Listed::new(alloc);
    for named in &program.index.names {
        add_channel(alloc, machine, program, sight, named, instance, &mut list);
    }
    list
}

/// Adds what is declared by a name, if it is a channel or a port of the instance.
fn add_channel(
    alloc: Global,
    machine: &Machine,
    program: &Program,
    sight: &Sight,
    named: &Named,
    instance: usize,
    list: &mut Listed,
)
    ensures { (names : List Name) → ListsNamed list.old names
        → ListsNamed list.new (names ++ (if is_channel_of instance named.now then named.now ∷ [] else [])) }
{
    match channel_in(named, instance) {
        Some(number) => list.push(channel(alloc, machine, program, sight, named, number)),
        None => {}
    }
}

/// The channel that is declared by a name, if it is one of the instance.
fn channel_in(named: &Named, instance: usize) -> Option<u32>
    ensures { MatchOption result (is_channel_of instance named.now ≡ false)
        (λ _. is_channel_of instance named.now ≡ true) }
{
    match named.thing {
        Thing::Channel(number) => {
            if named.instance == instance {
                Some(number)
            } else {
                None
            }
        }
        Thing::Variable(_) => None,
    }
}

/// A channel or a port, with who stands there.
fn channel(
    alloc: Global,
    machine: &Machine,
    program: &Program,
    sight: &Sight,
    named: &Named,
    number: u32,
) -> Members
    ensures name_is { Has result (codes "name") (string (string_bytes named.now.own)) }
    ensures leaf { Has result (codes "variablesReference") (json.number (unsigned 0)) }
{
    let mut words = Words::new(alloc);
    if named.stands {
        words.add("stands for ");
        words.channel(alloc, machine.checked().system(), number);
        words.add(": ");
    }
    words.add(channel_words(alloc, machine, program, sight, number).as_str());
    plain(alloc, named.own.as_str(), words.as_str())
}

/// Who stands at a channel, and what each does there.
pub fn channel_words(
    alloc: Global,
    machine: &Machine,
    program: &Program,
    sight: &Sight,
    channel: u32,
) -> Words {
    let mut words = Words::new(alloc);
    let mut count = 0u64;
    for offered in sight.actions.as_slice() {
        if channel_of(&offered.action) == Some(channel) {
            words.add(if count > 0 { "; " } else { "" });
            add_who(machine, &program.lines, &offered.place, &mut words);
            words.add(": ");
            add_action(alloc, machine, &offered.action, &mut words);
            count = count.saturating_add(1);
        }
    }
    match count {
        0 => {
            words.add("nobody at ");
            words.channel(alloc, machine.checked().system(), channel);
        }
        1 => words.add(" (waits)"),
        _ => {}
    }
    words
}

/// Something that is not unfolded further.
fn plain(alloc: Global, name: &str, value: &str) -> Members
    ensures name_is { Has result (codes "name") (string name.now) }
    ensures leaf { Has result (codes "variablesReference") (json.number (unsigned 0)) }
{
    let mut members = Members::new(alloc);
    members.text("name", name);
    members.text("value", value);
    members.number("variablesReference", 0);
    members
}

/// The newest steps in which the branch took part, and what keeps each from being taken back.
fn steps_of(alloc: Global, machine: &Machine, branch: u32) -> Listed
    ensures { ListsLeaves result }
{
    let mut list = newest_steps(alloc, machine, branch);
    if list.is_empty() {
        list.push(plain(alloc, "none", "no step of this thread is live"));
    }
    list
}

/// The same; none where it took part in no live step.
fn newest_steps(alloc: Global, machine: &Machine, branch: u32) -> Listed
    ensures { ListsLeaves result }
{
    let live = machine.live_events();
    let mut list = Listed::new(alloc);
    let mut below = live.len();
    for _ in 0..MOST_STEPS {
        match newest_below(
            machine.checked().system(),
            live,
            branch,
            below.min(live.len()),
        ) {
            Some(index) => {
                add_step(alloc, machine, index, &mut list);
                below = index;
            }
            None => break,
        }
    }
    list
}

/// Adds the live step at this index.
fn add_step(alloc: Global, machine: &Machine, index: usize, list: &mut Listed)
    ensures { ListsLeaves list.old → ListsLeaves list.new }
{
    match machine.live_events().pair_at(index as u64) {
        Some((ticket, event)) => list.push(step(alloc, machine, index, ticket, event)),
        None => {}
    }
}

/// The live step at this index, which has this ticket.
fn step(alloc: Global, machine: &Machine, index: usize, ticket: u64, event: &Event) -> Members
    requires { slice_get machine.now.live index ≡ Some (ticket, event.now) }
    ensures { Has result (codes "variablesReference") (json.number (unsigned 0)) }
{
    let mut name = Words::of(alloc, "step ");
    name.number(ticket);
    let mut words = event_words(alloc, machine, event);
    if let Some(first) = machine.live_events().first_dependent(ticket) {
        words.add(" (step ");
        words.number(first);
        words.add(" depends on it)");
    }
    plain(alloc, name.as_str(), words.as_str())
}

/// Adds the calls that are made in an instance.
fn add_calls(alloc: Global, program: &Program, instance: usize, list: &mut Listed)
    ensures { AddsUnfolded list.old (map (λ (k : ℕ). unfolds.Handle.Instance k) (calls_in program.now.index instance))
        list.new }
{
    for index in 0..program.index.count() {
        add_call(alloc, program, index, instance, list);
    }
}

/// Adds the call of this index, if it is made in the instance.
fn add_call(alloc: Global, program: &Program, index: usize, instance: usize, list: &mut Listed)
    ensures { (before : List_of)
        → AddsUnfolded before
        (map (λ (k : ℕ). unfolds.Handle.Instance k) (calls_within program.now.index instance index)) list.old
        → AddsUnfolded before
        (map (λ (k : ℕ). unfolds.Handle.Instance k) (calls_within program.now.index instance (index + 1))) list.new }
{
    if is_call(program.index.around(index), instance) {
        list.push(call(alloc, program, index));
    }
}

/// Whether there is an instance around, and it is this.
fn is_call(around: Option<usize>, instance: usize) -> bool
    ensures { result ≡ is_call instance around }
{
    match around {
        Some(outer) => outer == instance,
        None => false,
    }
}

/// A call, which can be unfolded.
fn call(alloc: Global, program: &Program, index: usize) -> Members
    ensures { HasReference result (unfolds.Handle.Instance index) }
{
    let mut words = Words::new(alloc);
    program.index.add_title(index, &mut words);
    let mut call = Members::new(alloc);
    call.text("name", words.as_str());
    call.text("value", "");
    call.number(
        "variablesReference",
        reference(Handle::Instance(index as u64)),
    );
    call
}
