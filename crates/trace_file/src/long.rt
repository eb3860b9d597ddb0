// A line with a long place: where no ready event acts so deep, it is refused without its place being made.
ghost use Rattle.std.specs.Prelude.{◌≡◌, ◌↔◌, ◌<◌, ℕ, List, length, false, IsTrue, IfOk, IfErr};
ghost use Rattle.syntax.specs.Lists.{Every};
ghost use Rattle.address.specs.Reading.{IsTextOf};
ghost use Rattle.address.specs.declared.Entry.{Entry};
ghost use Rattle.runs.specs.Events.{acting};
ghost use Rattle.runs.specs.Object.{Reaches};
ghost use Rattle.runs.specs.Ready.{ReadyList};
ghost use Rattle.runs.specs.Steps.{State};
ghost use Rattle.machine.specs.AtMachine.{object};
ghost use Rattle.trace_file.specs.internal.Fields.{AreFields};
ghost use Rattle.trace_file.specs.internal.OneStep.{LineStops, RefusesLong};

use crate::Fault;
use crate::line::read_arm;
use address::read_entry;
use machine::Machine;
use runs::Event;
use std::alloc::AllocError;
use syntax::Items;

/// The most bytes of a place that is read without a look at how deep the ready events act.
const LONG_PLACE: usize = 65_536;

/// The most bytes of an entry: a mark and ten digits.
const ENTRY_BYTES: usize = 11;

/// Refuses the line of this number with this place and this arm, where the place is longer than that of any ready event.
pub(crate) fn refuse_long(
    machine: &Machine,
    place: &[u8],
    arm: &[u8],
    number: u64,
) -> Result<(), Fault>
    ensures { (text after : List ℕ) → AreFields text place.now arm.now after →
        IfErr result (λ fault. LineStops machine.now text number fault) }
{
    if place.len() <= LONG_PLACE {
        return Ok(());
    }
    let ready = ready_events(machine)?;
    if acts_so_deep(ready.as_slice(), place.len() / ENTRY_BYTES) {
        return Ok(());
    }
    Err(long_fault(place, arm, number))
}

/// Why the line of this number with this place and this arm is refused, where no event acts at the place. It takes no
/// memory.
fn long_fault(place: &[u8], arm: &[u8], number: u64) -> Fault
    ensures { RefusesLong place.now arm.now number result }
{
    let Some(_) = read_arm(arm) else {
        return Fault::BadLine(number);
    };
    if !is_place(place) {
        return Fault::BadLine(number);
    }
    Fault::NotAStep(number)
}

/// The events that may be taken now, in order. It is an error if there is no memory.
fn ready_events(machine: &Machine) -> Result<Items<Event>, AllocError>
    ensures { IfOk result (λ events. (T : State) × Reaches (object machine.now) T × ReadyList T events) }
{
    match machine.ready() {
        Ok(events) => Ok(Items::from_vec(events)),
        // No other refusal is told.
        Err(_) => Err(AllocError),
    }
}

/// Whether one of the events acts at a place of this many entries or more.
fn acts_so_deep(events: &[Event], depth: usize) -> bool
    ensures { result ≡ false → Every (λ e. length (acting e) < depth) events.now }
{
    for event in events {
        if event.acting_place().entries().len() >= depth {
            return true;
        }
    }
    false
}

/// Whether a place has the text, which is gone through entry by entry.
fn is_place(text: &[u8]) -> bool
    ensures { IsTrue result ↔ ((a : List Entry) × IsTextOf a text.now) }
{
    let mut rest = text;
    while !rest.is_empty() {
        let Some((_, after)) = read_entry(rest) else {
            return false;
        };
        rest = after;
    }
    true
}
