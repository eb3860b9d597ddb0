ghost use Rattle.std.specs.Prelude.{IfOk};
ghost use Rattle.runs.specs.Object.{Reaches};
ghost use Rattle.runs.specs.Ready.{ReadyList};
ghost use Rattle.runs.specs.Steps.{State};
ghost use Rattle.machine.specs.AtMachine.{object};
ghost use Rattle.source_view.specs.View.{IsView};

use crate::lines::room_for_lines;
use crate::marks::marks_of;
use crate::text::write_lines;
use machine::{Breaks, Machine};
use runs::Event;
use std::alloc::{AllocError, Global};
use syntax::Items;

/// The lines of the source, each behind its number and its marks: `>` where an event is ready, `*` where a breakpoint
/// is, `!` where a `select` begins that two or more ready events would open in different arms. It is an error if there
/// is no memory.
pub fn view(
    alloc: Global,
    machine: &Machine,
    breaks: &Breaks,
    source: &[u8],
) -> Result<Vec<u8>, AllocError>
    ensures { IfOk result (λ bytes. IsView machine.now breaks.now source.now bytes.items) }
{
    let ready = ready_events(machine)?;
    let count = room_for_lines(source);
    let marks = marks_of(alloc, machine, breaks, ready.as_slice(), count)?;
    write_lines(alloc, marks.as_slice(), source)
}

/// The events that may be taken now, in order. It is an error if there is no memory.
fn ready_events(machine: &Machine) -> Result<Items<Event>, AllocError>
    ensures { IfOk result (λ events. (T : State) × Reaches (object machine.now) T × ReadyList T events) }
{
    match machine.ready() {
        Ok(events) => Ok(Items::from_vec(events)),
        // No other refusal is told.
        Err(_) => Err(AllocError),
    }
}
