// What a run looks at: variables and channels that are watched, and steps before which it has stopped already.
ghost use Rattle.std.specs.Prelude.{◌≡◌, ◌↔◌, IsTrue};
ghost use Rattle.syntax.specs.Lists.{In};
ghost use Rattle.runs.specs.Choices.{choice_of};
ghost use Rattle.machine.specs.Branching.{is_branch};
ghost use Rattle.dap_moves.specs.Running.{Keeps, Sees, is_hit, is_watched};

use dap_views::Watched;
use runs::{Choice, Event};
use std::alloc::Global;

/// Whether the event writes a variable that is watched, or is on a channel that is.
pub fn is_watched(watched: &[Watched], event: &Event) -> bool
    ensures { result ≡ is_watched watched.now event.now }
{
    for one in watched {
        if is_hit(*one, event) {
            return true;
        }
    }
    false
}

/// Whether the event writes this variable, or is on this channel.
fn is_hit(watched: Watched, event: &Event) -> bool
    ensures { result ≡ is_hit watched event.now }
{
    match watched {
        Watched::Variable(number) => is_number(number, event.written),
        Watched::Channel(number) => is_number(number, event.channel),
    }
}

/// Whether this is the number.
fn is_number(number: u32, found: Option<u32>) -> bool
    ensures { result ≡ is_branch number found }
{
    match found {
        Some(one) => one == number,
        None => false,
    }
}

/// Whether this is the choice of the event.
pub fn has_choice(choice: &Choice, event: &Event) -> bool
    ensures { IsTrue result ↔ (choice.now ≡ choice_of event.now) }
{
    if is_arm(choice, event) {
        choice.place.equals(event.acting_place())
    } else {
        false
    }
}

/// Whether the arm is the one that the event opens.
fn is_arm(choice: &Choice, event: &Event) -> bool
    ensures { IsTrue result ↔ (choice.now.arm ≡ (choice_of event.now).arm) }
{
    choice.arm == event.arm_to_open()
}

/// Whether one of the choices is that of the event.
#[tactic(auto, using(crate::proofs::Passing::seen_among))]
pub(crate) fn is_seen(seen: &[Choice], event: &Event) -> bool
    ensures { IsTrue result ↔ In (choice_of event.now) seen.now }
{
    for choice in seen {
        if has_choice(choice, event) {
            return true;
        }
    }
    false
}

/// Keeps the choice of the event in mind, unless it is there already. Without memory for it nothing changes, and it
/// returns `false`.
pub fn see(alloc: Global, seen: &mut Vec<Choice>, event: &Event) -> bool
    ensures { Sees result seen.old.items (choice_of event.now) seen.new.items }
{
    if is_seen(seen.as_slice(), event) {
        true
    } else {
        keep(alloc, seen, event)
    }
}

/// Keeps the choice of the event in mind, behind the others. Without memory for it nothing changes, and it returns
/// `false`.
pub(crate) fn keep(alloc: Global, seen: &mut Vec<Choice>, event: &Event) -> bool
    ensures { Keeps result seen.old.items (choice_of event.now) seen.new.items }
{
    match event.choice(alloc) {
        Ok(choice) => add(seen, choice),
        Err(_) => false,
    }
}

/// Adds the choice. Without memory for it nothing changes, and it returns `false`.
fn add(seen: &mut Vec<Choice>, choice: Choice) -> bool
    ensures { Keeps result seen.old.items choice seen.new.items }
{
    match seen.push(choice) {
        Ok(()) => true,
        Err(_) => false,
    }
}
