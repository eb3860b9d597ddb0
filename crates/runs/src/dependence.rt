// Which event depends directly on which.
ghost use Rattle.std.specs.Prelude.{◌≡◌, ◌↔◌, Some, IsTrue};
ghost use Rattle.address.specs.Places.{Before};
ghost use Rattle.syntax.specs.Lists.{In};
ghost use Rattle.system.specs.Expression.{is_in};
ghost use Rattle.runs.specs.Moves.{Place};
ghost use Rattle.runs.specs.Events.{places};
ghost use Rattle.runs.specs.Dependence.{Directly, SomeBefore, OnOneChannel, WritesFor};

use crate::event::Event;
use address::{Address, before};

/// Whether the later of two events of a run depends directly on the earlier one: an address of the earlier is before an
/// address of the later, or both are on one channel, or one writes a variable that the other reads or writes.
pub fn depends_directly(earlier: &Event, later: &Event) -> bool
    ensures { IsTrue result ↔ Directly earlier.now later.now }
{
    let by_channel = on_one_channel(earlier, later);
    let by_writing = writes_for(earlier, later);
    let by_reading = writes_for(later, earlier);
    by_channel || by_writing || by_reading || some_before(earlier, later)
}

/// Whether an address of the first event is before an address of the second.
pub fn some_before(earlier: &Event, later: &Event) -> bool
    ensures { IsTrue result ↔ SomeBefore earlier.now later.now }
{
    if before_some(&earlier.first, later) {
        return true;
    }
    match &earlier.second {
        Some(place) => before_some(place, later),
        None => false,
    }
}

/// Whether the address is before one of the event's.
fn before_some(place: &Address, later: &Event) -> bool
    ensures { IsTrue result ↔ ((b : Place) × In b (places later.now) × Before place.now b) }
{
    if before(place, &later.first) {
        return true;
    }
    match &later.second {
        Some(other) => before(place, other),
        None => false,
    }
}

/// Whether both are on one channel.
fn on_one_channel(one: &Event, other: &Event) -> bool
    ensures { IsTrue result ↔ OnOneChannel one.now other.now }
{
    match (one.channel, other.channel) {
        (Some(a), Some(b)) => a == b,
        _ => false,
    }
}

/// Whether the first event writes a variable that the other reads or writes.
fn writes_for(writer: &Event, other: &Event) -> bool
    ensures { IsTrue result ↔ WritesFor writer.now other.now }
{
    match writer.written {
        Some(variable) => reads(other.read.as_slice(), variable) || writes(other, variable),
        None => false,
    }
}

/// Whether the event writes the variable of this number.
pub fn writes(event: &Event, variable: u32) -> bool
    ensures { IsTrue result ↔ (event.now.written ≡ Some variable) }
{
    match event.written {
        Some(written) => written == variable,
        None => false,
    }
}

/// Whether the variable is among those that are read.
fn reads(read: &[u32], variable: u32) -> bool
    ensures { result ≡ is_in variable read.now }
{
    for held in read {
        if *held == variable {
            return true;
        }
    }
    false
}
