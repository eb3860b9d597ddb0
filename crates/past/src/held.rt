// What each variable holds while the lines of a past are told one after another.
ghost use Rattle.std.specs.Prelude.{◌≡◌, IfOk, slice_set};
ghost use Rattle.past.specs.PastText as model;

use runs::Event;
use std::alloc::{AllocError, Global};
use system::System;

/// What a variable holds, and which step wrote it.
#[derive(Clone, Copy)]
pub(crate) struct Held {
    pub(crate) bits: u64,
    /// the ticket of the step; `None` where no step wrote it
    pub(crate) writer: Option<u64>,
}

/// Every variable at 0, written by no step.
pub(crate) fn zeros(alloc: Global, system: &System) -> Result<Vec<Held>, AllocError>
    ensures { IfOk result (λ values. values.items ≡ model.zeros system.now) }
{
    let unwritten = Held {
        bits: 0,
        writer: None,
    };
    Ok(vec![in alloc; unwritten; system.variables.len()]?)
}

/// Keeps what the event of this ticket wrote.
pub(crate) fn note(values: &mut [Held], ticket: u64, event: &Event)
    ensures { values.new ≡ model.noted ticket event.now values.old }
{
    if let (Some(variable), Some(value)) = (event.written, event.value) {
        let held = Held {
            bits: value.bits(),
            writer: Some(ticket),
        };
        keep(values, variable, held);
    }
}

/// Keeps what a variable holds.
#[tactic(auto, using(crate::proofs::Values::past_end, crate::proofs::Values::not_within))]
fn keep(values: &mut [Held], variable: u32, held: Held)
    ensures { values.new ≡ slice_set values.old variable held }
{
    let index = variable as usize;
    if index < values.len() {
        values[index] = held;
    }
}
