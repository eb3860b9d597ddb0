// Which ready events are in conflict.
ghost use Rattle.std.specs.Prelude.{◌≡◌};
ghost use Rattle.runs.specs.Tests.{same_place};
ghost use Rattle.source_view.specs.View.{are_in_conflict};
ghost use Rattle.source_view.specs.internal.Marking.{conflicts_with_next};

use address::Address;
use machine::Machine;
use runs::Event;

/// Whether the event is in conflict with the one behind it.
pub(crate) fn conflicts_with_next(machine: &Machine, event: &Event, after: &[Event]) -> bool
    ensures { result ≡ conflicts_with_next machine.now event.now after.now }
{
    match after {
        [next, ..] => are_in_conflict(machine, event, next),
        [] => false,
    }
}

/// Whether the events open different arms of one `select`.
fn are_in_conflict(machine: &Machine, one: &Event, other: &Event) -> bool
    ensures { result ≡ are_in_conflict machine.now one.now other.now }
{
    let place = one.acting_place();
    same_place(place, other.acting_place())
        && one.arm_to_open() != other.arm_to_open()
        && machine.select(place)
}

/// Whether both are one place.
fn same_place(one: &Address, other: &Address) -> bool
    ensures { result ≡ same_place one.now other.now }
{
    one.equals(other)
}
