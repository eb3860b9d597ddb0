// What is told of a command that was refused.
use crate::Scene;
use crate::steps::{add_numbers, add_step, steps_word};
use address::Address;
use locked_execution::Command;
use plain_words::{Text, add_reason, consequences_of};
use runs::{Event, Refusal};

/// Adds why the command was refused, and what helps.
pub(crate) fn add_refused(text: &mut Text, scene: &Scene<'_>, command: &Command, why: Refusal) {
    match (command, why) {
        (Command::Undo(ticket), Refusal::NeededBy(other)) => add_needed(
            text, scene, *ticket, other,
        ),
        (Command::Step(choice), Refusal::NotReady) => add_not_ready(text, scene, &choice.place),
        _ => add_plain_reason(text, why),
    }
}

/// Adds why.
fn add_plain_reason(text: &mut Text, why: Refusal) {
    text.add(b"  ");
    add_reason(text, why);
    text.add(b"\n");
}

/// Adds that no step can be taken at the place: a live one was, or there is none.
fn add_not_ready(text: &mut Text, scene: &Scene<'_>, place: &Address) {
    match taken_at(scene, place) {
        Some(ticket) => {
            text.add(b"  it is taken, as ");
            add_step(text, scene, ticket);
            text.add(b"\n  `ready` numbers the steps that can be taken now\n");
        }
        None => add_plain_reason(text, Refusal::NotReady),
    }
}

/// The ticket of the live step that has the place on one of its sides, if there is one.
fn taken_at(scene: &Scene<'_>, place: &Address) -> Option<u64> {
    for index in 0..scene.machine().live_events().len() as u64 {
        if let Some((ticket, event)) = scene.machine().live_at(index) {
            if has_place(event, place) {
                return Some(ticket);
            }
        }
    }
    None
}

/// Whether the event acts at the place, or has it as its first one.
fn has_place(event: &Event, place: &Address) -> bool {
    event.acting_place() == place || event.first == *place
}

/// Adds that a step stays since another depends on it, and what a rollback of it takes back.
fn add_needed(text: &mut Text, scene: &Scene<'_>, ticket: u64, other: u64) {
    text.add_counted(b"  step ", ticket, b" stays: ");
    add_step(text, scene, other);
    text.add(b" depends on it\n");
    text.add_counted(b"  `roll ", ticket, b"` takes back ");
    match consequences_of(scene.alloc, scene.machine(), ticket) {
        Ok(tickets) => {
            let count = tickets.len() as u64;
            text.add_number(count);
            text.add(steps_word(count));
            text.add(b": ");
            add_numbers(text, tickets.as_slice());
        }
        Err(_) => text.add(b"all of them"),
    }
    text.add(b"\n");
}
