// What a state offers: the steps that are ready, and the actions of events.
ghost use Rattle.std.specs.Prelude.{◌≡◌, IfOk};
ghost use Rattle.runs.specs.Object.{Reaches};
ghost use Rattle.runs.specs.Ready.{ReadyList};
ghost use Rattle.runs.specs.Steps.{State};
ghost use Rattle.runs.specs.Tests.{same_place};
ghost use Rattle.local_actions.specs.Actions.{OffersExactly};
ghost use Rattle.machine.specs.AtMachine.{object};
ghost use Rattle.dap_views.specs.Ranks.{is_at, is_there, rank_of};
ghost use Rattle.dap_views.specs.Seen.{SeesState, acting_branch, first_branch};

use crate::lines::Lines;
use crate::words::Words;
use address::Address;
use dependence::line_after;
use local_actions::{ActionKind, LocalAction};
use machine::Machine;
use runs::Event;
use std::alloc::{AllocError, Global};
use syntax::Items;
use system_places::branch_at;

/// The steps that are ready, and the actions that are offered.
#[derive(Drop)]
pub struct Sight {
    /// in order of acting address, then arm
    pub ready: Items<Event>,
    /// in order of place
    pub actions: Items<LocalAction>,
}

/// How far a place is from going on. A lesser one stands before a greater one.
#[derive(Clone, Copy, Debug, PartialEq, Eq)]
pub enum Rank {
    /// a step acts there
    Acts,
    /// its partner's step acts
    Joins,
    /// it waits
    Waits,
}

/// What the state of the machine offers. It is an error if there is no memory.
pub fn sight_of(machine: &Machine) -> Result<Sight, AllocError>
    ensures { IfOk result (λ sight. SeesState machine.now sight) }
{
    machine.is_sound();
    let actions = local_actions(machine)?;
    let ready = ready_events(machine)?;
    Ok(Sight { ready, actions })
}

/// The actions that are offered now. It is an error if there is no memory.
fn local_actions(machine: &Machine) -> Result<Items<LocalAction>, AllocError>
    ensures { IfOk result (λ actions. (T : State) × Reaches (object machine.now) T × OffersExactly T actions) }
{
    match machine.actions() {
        Ok(actions) => Ok(actions),
        // No other refusal is told.
        Err(_) => Err(AllocError),
    }
}

/// The steps that may be taken now. It is an error if there is no memory.
fn ready_events(machine: &Machine) -> Result<Items<Event>, AllocError>
    ensures { IfOk result (λ events. (T : State) × Reaches (object machine.now) T × ReadyList T events) }
{
    match machine.ready() {
        Ok(events) => Ok(Items::from_vec(events)),
        // No other refusal is told.
        Err(_) => Err(AllocError),
    }
}

impl Sight {
    /// How far the place is from going on.
    pub fn rank(&self, place: &Address) -> Rank
        ensures { result ≡ rank_of self.now.ready place.now }
    {
        rank_among(self.ready.as_slice(), place)
    }

    /// The branch of the first step that is ready; the first where none is.
    pub fn able(&self, machine: &Machine) -> u32
        ensures { result ≡ first_branch machine.now self.now.ready }
    {
        match self.ready.as_slice() {
            [event, ..] => acting_branch(machine, event),
            [] => 0,
        }
    }
}

/// The branch in which the event acts.
fn acting_branch(machine: &Machine, event: &Event) -> u32
    ensures { result ≡ acting_branch machine.now event.now }
{
    branch_at(machine.checked().system(), event.acting_place()).unwrap_or(0)
}

/// How far the place is from going on where these steps are ready.
fn rank_among(events: &[Event], place: &Address) -> Rank
    ensures { result ≡ rank_of events.now place.now }
{
    let mut rank = Rank::Waits;
    for event in events {
        if same_place(event.acting_place(), place) {
            return Rank::Acts;
        }
        if is_at(event, place) {
            rank = Rank::Joins;
        }
    }
    rank
}

/// Whether one of the places of the event is this.
fn is_at(event: &Event, place: &Address) -> bool
    ensures { result ≡ is_at event.now place.now }
{
    same_place(&event.first, place) || is_there(place, &event.second)
}

/// Whether there is a place, and it is this.
fn is_there(place: &Address, found: &Option<Address>) -> bool
    ensures { result ≡ is_there place.now found.now }
{
    match found {
        Some(other) => same_place(other, place),
        None => false,
    }
}

/// Whether both are one place.
pub fn same_place(one: &Address, other: &Address) -> bool
    ensures { result ≡ same_place one.now other.now }
{
    one.equals(other)
}

/// The channel that the action uses.
pub fn channel_of(action: &ActionKind) -> Option<u32> {
    match action {
        ActionKind::Sends(channel, _, _)
        | ActionKind::Receives(channel, _)
        | ActionKind::Syncs(channel)
        | ActionKind::Opens(channel, _)
        | ActionKind::Releases(channel)
        | ActionKind::Closes(channel) => Some(*channel),
        ActionKind::Assigns(_, _, _) | ActionKind::Tests(_, _) | ActionKind::Turns => None,
    }
}

/// A variable of the command, if it is known to use one.
pub fn variable_of(action: &ActionKind) -> Option<u32> {
    match action {
        ActionKind::Assigns(variable, _, _) | ActionKind::Receives(_, Some(variable)) => Some(
            *variable,
        ),
        ActionKind::Sends(_, _, read) | ActionKind::Tests(_, read) => read
            .as_slice()
            .first()
            .copied(),
        _ => None,
    }
}

/// Adds the action in a few words.
pub fn add_action(alloc: Global, machine: &Machine, action: &ActionKind, words: &mut Words) {
    let system = machine.checked().system();
    match action {
        ActionKind::Assigns(variable, value, _) => {
            words.variable(alloc, system, *variable);
            words.add(" := ");
            words.number(value.bits());
        }
        ActionKind::Tests(_, _) => words.add("test"),
        ActionKind::Turns => words.add("loop"),
        ActionKind::Sends(channel, value, _) => {
            words.channel(alloc, system, *channel);
            words.add(" <- ");
            words.number(value.bits());
        }
        ActionKind::Receives(channel, Some(variable)) => {
            words.channel(alloc, system, *channel);
            words.add(" -> ");
            words.variable(alloc, system, *variable);
        }
        ActionKind::Receives(channel, None) => named(
            alloc,
            machine,
            words,
            "takes from ",
            *channel,
            "",
        ),
        ActionKind::Syncs(channel) => named(alloc, machine, words, "sync ", *channel, ""),
        ActionKind::Opens(channel, _) => named(alloc, machine, words, "", *channel, " -> then"),
        ActionKind::Releases(channel) => named(alloc, machine, words, "held on ", *channel, ""),
        ActionKind::Closes(channel) => named(
            alloc, machine, words, "end of ", *channel, " -> then",
        ),
    }
}

/// Adds the name of a channel between two texts.
fn named(
    alloc: Global,
    machine: &Machine,
    words: &mut Words,
    before: &str,
    channel: u32,
    behind: &str,
) {
    words.add(before);
    words.channel(alloc, machine.checked().system(), channel);
    words.add(behind);
}

/// The line of a place, where a command has it.
pub fn line_at(machine: &Machine, place: &Address) -> Option<u64> {
    line_after(machine.checked(), machine.live_events(), place)
}

/// Adds who stands at a place.
pub fn add_who(machine: &Machine, lines: &Lines, place: &Address, words: &mut Words) {
    match line_at(machine, place) {
        Some(line) => {
            words.add("line ");
            words.number(line);
            words.add(" of ");
            words.add(lines.procedure(line));
        }
        None => words.add("the environment"),
    }
}

/// Adds for whom the action waits: who stands at its channel, or who is missing there.
pub fn add_waits(
    alloc: Global,
    machine: &Machine,
    lines: &Lines,
    sight: &Sight,
    offered: &LocalAction,
    words: &mut Words,
) {
    let Some(channel) = channel_of(&offered.action) else {
        return;
    };
    words.channel(alloc, machine.checked().system(), channel);
    words.add(": ");
    let mut found = false;
    for other in sight.actions.as_slice() {
        if channel_of(&other.action) == Some(channel) && !other.place.equals(&offered.place) {
            words.add(if found { " and " } else { "" });
            add_who(machine, lines, &other.place, words);
            found = true;
        }
    }
    if !found {
        words.add(missing(&offered.action));
    }
}

/// Who is missing where the action waits alone.
fn missing(action: &ActionKind) -> &'static str {
    match action {
        ActionKind::Sends(_, _, _) => "nobody receives",
        ActionKind::Receives(_, _) => "nobody sends",
        ActionKind::Opens(_, _) => "nobody offers",
        ActionKind::Syncs(_) => "nobody else syncs",
        ActionKind::Releases(_) => "its partner has not ended what it does",
        ActionKind::Assigns(_, _, _)
        | ActionKind::Tests(_, _)
        | ActionKind::Turns
        | ActionKind::Closes(_) => "",
    }
}
