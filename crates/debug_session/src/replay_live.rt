ghost use Rattle.std.specs.Prelude.{◌≡◌, ◌++◌, MatchResult, OnOk};
ghost use Rattle.locked_execution.specs.declared.command.Command as asked;
ghost use Rattle.locked_execution.specs.declared.command.Reply as told;
ghost use Rattle.debug_session.specs.ReplyText.{answer_text};
ghost use Rattle.debug_session.specs.Replaying.{Replays, RefusesTrace};
ghost use Rattle.debug_session.specs.declared.fault.Fault.TheVariants.{Memory};

use crate::Fault;
use dependence::Live;
use line_text::{add_entry, add_numbered};
use locked_execution::Machine;
use sharing_check::Checked;
use std::alloc::{AllocError, Global};
use std::mem;
use trace_file::load_text;

/// The answer of the line `live` on a machine that has taken the steps of the trace with this text. It is an error if
/// the text is no trace of the system, or if there is no memory; the fault says which. The machine is not taken apart:
/// this is for a program that ends behind the answer.
pub fn replay(alloc: Global, checked: Checked, trace: &[u8]) -> Result<Vec<u8>, Fault>
    ensures { MatchResult result
        (λ answer. Replays checked trace.now answer.items)
        (λ fault. RefusesTrace checked trace.now fault) }
{
    let machine = load_text(alloc, checked, trace)?;
    let answer = live_on(alloc, &machine);
    // The process ends behind this answer: to free the execution event by event would only take time.
    mem::forget(machine);
    answer
}

/// The answer of the line `live` on this machine.
fn live_on(alloc: Global, machine: &Machine) -> Result<Vec<u8>, Fault>
    ensures { MatchResult result
        (λ answer.
        answer.items ≡ answer_text machine.now.checked asked.Command.Live (told.Reply.Live machine.now.live))
        (λ fault. fault ≡ Memory) }
{
    let mut out = Vec::new(alloc);
    add_live_events(&mut out, machine.checked(), machine.live_events())?;
    Ok(out)
}

/// Adds the answer of the line `live` where these events are live. They are shown as they stand, and none is copied.
fn add_live_events(out: &mut Vec<u8>, checked: &Checked, live: &Live) -> Result<(), AllocError>
    ensures { OnOk result (out.new.items
        ≡ out.old.items ++ answer_text checked.now asked.Command.Live (told.Reply.Live live.now.live)) }
{
    add_numbered(out, b"live", live.len() as u64)?;
    for (ticket, event) in live.iter() {
        // The first of the two spaces of its line stands in place of a word.
        add_entry(out, b" ", checked.system(), ticket, event)?;
    }
    Ok(())
}
