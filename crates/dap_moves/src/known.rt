// What is asked of a desk, which changes nothing.
ghost use Rattle.std.specs.Prelude.{◌≡◌, IfErr, IfOk, IfSome};
ghost use Rattle.runs.specs.Object.{Reaches};
ghost use Rattle.runs.specs.Ready.{ReadyList};
ghost use Rattle.runs.specs.Steps.{State};
ghost use Rattle.runs.specs.declared.command.Refusal as refusals;
ghost use Rattle.locked_execution.specs.AtDesk.{execution};
ghost use Rattle.dap_moves.specs.Known.{HasValue};

use crate::QUIET;
use locked_execution::{Command, Desk, Reply};
use runs::{Event, Refusal};
use syntax::Items;
use value::Value;

/// The events that may be taken now, in order of acting address, then arm. It is refused for want of memory alone.
pub fn ready_events(desk: &mut Desk) -> Result<Items<Event>, Refusal>
    ensures memory { IfErr result (λ why. why ≡ refusals.Refusal.Memory) }
    ensures ready { IfOk result (λ events. (T : State) × Reaches (execution desk.old) T × ReadyList T events) }
    ensures same { desk.new ≡ desk.old }
{
    match desk.perform(QUIET, &Command::Ready) {
        Reply::Ready(events) => Ok(events),
        // It is refused for nothing else.
        _ => Err(Refusal::Memory),
    }
}

/// The value of the variable now; `None` where there is no such variable. It takes no memory.
pub fn value_of(desk: &mut Desk, variable: u32) -> Option<Value>
    ensures value { IfSome result (λ v. HasValue desk.old variable v) }
    ensures same { desk.new ≡ desk.old }
{
    match desk.perform(QUIET, &Command::Value(variable)) {
        Reply::Value(value) => Some(value),
        _ => None,
    }
}
