// From which depth on a place may be stood at.
ghost use Rattle.std.specs.Prelude.{◌≡◌, ◌⊎◌, ◌+◌, ◌<◌, ◌≤◌, ℕ, Some, length, slice_get, slice_index, IfOk, IsTrue, OnOk, ◌↔◌};
ghost use Rattle.address.specs.Places.{Before};
ghost use Rattle.syntax.specs.Lists.{In};
ghost use Rattle.dependence.specs.LastEvents.{IsAt, Orderly, PutAt};
ghost use Rattle.runs.specs.Moves.{Place};
ghost use Rattle.dependence.specs.internal.Tabled.{Placed};
ghost use Rattle.run_depths.specs.Depths.{AreBelow, AreDepths};
ghost use Rattle.run_depths.specs.Since.{AreSince, IsEventSince, IsSince};
ghost use Rattle.run_depths.specs.internal.PlacesHeld.{BehindLast, GreatestBehind, HoldsTo};

use crate::depth::{depth_after, larger};
use address::Address;
use dependence::{Live, PlaceTable};
use runs::Event;
use std::alloc::{AllocError, Global};

/// From which depth on each of the two places of each live event may have been stood at: one more than the greatest
/// depth of an event with a place before it, and 0 where there is none. Of an event with one place it is told twice.
///
/// It is an error if there is no memory.
pub fn all_since(
    alloc: Global,
    live: &Live,
    depths: &[usize],
) -> Result<Vec<(usize, usize)>, AllocError>
    requires placed { Placed live.now.live }
    requires depths { AreDepths live.now.live depths.now }
    requires small { AreBelow depths.now }
    ensures { IfOk result (λ since. AreSince live.now.live depths.now since.items) }
{
    live.is_sound();
    let mut table = PlaceTable::new(alloc);
    let mut since = Vec::with_capacity(alloc, live.len())?;
    for (index, (ticket, event)) in live.iter().enumerate() {
        since.push(event_since(alloc, live, depths, &mut table, index, ticket, event)?)?;
    }
    Ok(since)
}

/// The same of the event at an index, of this ticket, where the table has the places of those before it.
fn event_since(
    alloc: Global,
    live: &Live,
    depths: &[usize],
    table: &mut PlaceTable,
    index: usize,
    ticket: u64,
    event: &Event,
) -> Result<(usize, usize), AllocError>
    requires stands { slice_get live.now.live index ≡ Some (ticket, event.now) }
    requires table { HoldsTo live.now.live index table.old }
    requires placed { Placed live.now.live }
    requires depths { AreDepths live.now.live depths.now }
    requires small { AreBelow depths.now }
    ensures since { IfOk result (λ since. IsEventSince live.now.live depths.now event.now since) }
    ensures table { OnOk result (HoldsTo live.now.live (index + 1) table.new) }
{
    live.is_sound();
    let first = put_since(alloc, depths, table, &event.first, index)?;
    match &event.second {
        Some(second) => {
            let other = put_since(alloc, depths, table, second, index)?;
            Ok((first, other))
        }
        None => Ok((first, first)),
    }
}

/// Puts the place of the event at an index into the table; one more than the greatest depth of the last events before
/// it, and 0 where there are none.
fn put_since(
    alloc: Global,
    depths: &[usize],
    table: &mut PlaceTable,
    place: &Address,
    index: usize,
) -> Result<usize, AllocError>
    requires orderly { Orderly table.old place.now }
    requires inside { (a : Place) (i : ℕ) → IsAt table.old a i → i < length depths.now }
    requires small { AreBelow depths.now }
    ensures put { OnOk result (PutAt table.old place.now index table.new) }
    ensures since { IfOk result (BehindLast table.old depths.now place.now) }
{
    let mut found = Vec::new(alloc);
    table.put(place, index as u64, &mut found)?;
    Ok(greatest_behind(depths, found.as_slice()))
}

/// One more than the greatest depth of the events at these indexes, and 0 where there are none.
fn greatest_behind(depths: &[usize], found: &[u64]) -> usize
    requires inside { (i : ℕ) → In i found.now → i < length depths.now }
    requires small { AreBelow depths.now }
    ensures { GreatestBehind depths.now found.now result }
{
    let mut since = 0;
    for index in found {
        since = larger(since, depth_after(depths, *index as usize));
    }
    since
}
