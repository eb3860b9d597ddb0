ghost use Rattle.std.specs.Prelude.{◌≡◌, IfOk, MatchResult};
ghost use Rattle.trace_file.specs.Loading.{IsRefused};
ghost use Rattle.questions.specs.Asking.{IsWaitingText};
ghost use Rattle.waiting.specs.Told.{TellsWaits};
ghost use Rattle.waiting.specs.WaitingText as model;
ghost use Rattle.waiting.specs.declared.waiting.Waiting as told;

use machine::Machine;
use sharing_check::Checked;
use std::alloc::{AllocError, Global};
use trace_file::{Fault, load_text};
use waiting::who_waits;

/// The text that tells who waits behind the trace, as `who_waits` answers on the machine that it is loaded to.
///
/// It is an error if the text is no trace of the system, or if there is no memory; the fault says which.
pub fn waiting_text(alloc: Global, checked: Checked, trace: &[u8]) -> Result<Vec<u8>, Fault>
    ensures { MatchResult result (λ text. IsWaitingText checked trace.now text.items)
        (λ fault. IsRefused checked trace.now fault) }
{
    let machine = load_text(alloc, checked, trace)?;
    Ok(waiting_on(alloc, &machine)?)
}

/// The text that tells who waits on this machine.
fn waiting_on(alloc: Global, machine: &Machine) -> Result<Vec<u8>, AllocError>
    ensures { IfOk result (λ text. (w : told.Waiting) × TellsWaits machine.now w
        × (text.items ≡ model.waiting_text machine.now w)) }
{
    let waiting = who_waits(alloc, machine)?;
    let mut text = Vec::new(alloc);
    waiting.write_to(machine, &mut text)?;
    Ok(text)
}
