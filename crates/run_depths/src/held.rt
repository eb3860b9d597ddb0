// The places of live events in one order, to ask how deep it stands before a place.
ghost use Rattle.std.specs.Prelude.{◌≡◌, ℕ, ◌<◌, ◌≤◌, ◌+◌, List, Some, true, length, not, take, slice_get, IfOk, OnOk};
ghost use Rattle.std.specs.List.Sorted.{IsPermutation};
ghost use Rattle.std.specs.Ordering.{is_lt};
ghost use Rattle.address.specs.Order.{order_of};
ghost use Rattle.dependence.specs.internal.Forks.{is_ordered_entry};
ghost use Rattle.runs.specs.Live as events;
ghost use Rattle.run_depths.specs.Depths.{AreBelow, AreDepths};
ghost use Rattle.run_depths.specs.Since.{IsSince};
ghost use Rattle.run_depths.specs.internal.Held.{AllHeld, AreReaches, CountsLess, CountsTo, GreatestBefore, GreatestOver, HoldsPlaces, IsHeldFor, IsInOrder, IsOrdered, IsReach};

use crate::depth::{depth_after, larger};
use address::{Address, Entry, compare};
use dependence::Live;
use runs::Event;
use std::alloc::{AllocError, Global};
use std::cmp::Ordering;

/// A place of a live event.
#[derive(Clone, Copy)]
pub(crate) struct HeldPlace<'a> {
    pub(crate) place: &'a Address,
    /// one more than the depth of its event
    pub(crate) behind: usize,
}

/// From the first of some places on, the greatest that `behind` is.
#[derive(Clone, Copy)]
pub(crate) struct Reach {
    first: usize,
    most: usize,
}

/// The places of live events, in the order of addresses.
#[derive(Drop)]
pub struct HeldPlaces<'a> {
    pub(crate) places: Vec<HeldPlace<'a>>,
    /// for each place one that ends with it
    pub(crate) reaches: Vec<Reach>,
}

/// How many places a reach has at most.
const LONGEST: usize = 64;

/// The places of all live events, which have these depths. It is an error if there is no memory.
pub fn held_places<'a>(
    alloc: Global,
    live: &'a Live,
    depths: &[usize],
) -> Result<HeldPlaces<'a>, AllocError>
    requires depths { AreDepths live.now.live depths.now }
    requires small { AreBelow depths.now }
    ensures { IfOk result (λ held. HoldsPlaces live.now.live depths.now held) }
{
    let mut places = all_places(alloc, live, depths)?;
    put_in_order(&mut places)?;
    let reaches = all_reaches(alloc, places.as_slice())?;
    Ok(HeldPlaces { places, reaches })
}

/// The places of all live events.
fn all_places<'a>(
    alloc: Global,
    live: &'a Live,
    depths: &[usize],
) -> Result<Vec<HeldPlace<'a>>, AllocError>
    requires depths { AreDepths live.now.live depths.now }
    requires small { AreBelow depths.now }
    ensures { IfOk result (λ places. AllHeld live.now.live depths.now (length live.now.live) places.items) }
{
    let mut places = Vec::with_capacity(alloc, live.len())?;
    for (index, (_, event)) in live.iter().enumerate() {
        add_places(event, depth_after(depths, index), &mut places)?;
    }
    Ok(places)
}

/// Adds the places of an event, where `behind` is one more than its depth.
fn add_places<'a>(
    event: &'a Event,
    behind: usize,
    places: &mut Vec<HeldPlace<'a>>,
) -> Result<(), AllocError>
    ensures { OnOk result (IsHeldFor event.now behind places.old.items places.new.items) }
{
    let place = &event.first;
    places.push(HeldPlace { place, behind })?;
    match &event.second {
        Some(place) => {
            places.push(HeldPlace { place, behind })?;
            Ok(())
        }
        None => Ok(()),
    }
}

/// Puts places in the order of addresses.
fn put_in_order(places: &mut Vec<HeldPlace<'_>>) -> Result<(), AllocError>
    ensures moved { IsPermutation places.old.items places.new.items }
    ensures ordered { OnOk result (IsOrdered places.new.items) }
{
    places.sort_by(
        |one: &HeldPlace<'_>, other: &HeldPlace<'_>| -> Ordering
            ensures { result ≡ order_of one.now.place.now other.now.place.now }
        { compare(one.place, other.place) },
    )?;
    Ok(())
}

/// For each of the places a reach that ends with it.
fn all_reaches(alloc: Global, places: &[HeldPlace<'_>]) -> Result<Vec<Reach>, AllocError>
    ensures { IfOk result (λ reaches. AreReaches places.now reaches.items) }
{
    let mut reaches = Vec::with_capacity(alloc, places.len())?;
    let mut reach = Reach { first: 0, most: 0 };
    for (index, held) in places.iter().enumerate() {
        reach = longer(reach, index, held.behind);
        reaches.push(reach)?;
    }
    Ok(reaches)
}

/// The reach with the place of an index behind it, or where it is long, one of that place alone.
fn longer(reach: Reach, index: usize, behind: usize) -> Reach
    requires { reach.first ≤ index }
    ensures first { result.first ≤ index }
    ensures most { (ps : List HeldPlace) (p : HeldPlace) → slice_get ps index ≡ Some p → p.behind ≡ behind →
        GreatestOver ps reach.first index reach.most → GreatestOver ps result.first (index + 1) result.most }
{
    if index - reach.first < LONGEST {
        Reach {
            first: reach.first,
            most: larger(reach.most, behind),
        }
    } else {
        Reach {
            first: index,
            most: behind,
        }
    }
}

/// From which depth on a place may be stood at behind all live events, whose places are held. It takes two searches by
/// halves for each entry of the place, and a step for each 64 places that part from it there.
pub fn since_now(held: &HeldPlaces<'_>, place: &Address) -> usize
    requires { IsInOrder held.now }
    ensures { (l : events.Live) (depths : List ℕ) → HoldsPlaces l depths held.now → IsSince l depths place.now result }
{
    let way = place.entries();
    let mut since = 0;
    for index in 0..way.len() {
        since = with_fork(held, way, index, since);
    }
    since
}

/// The greater of what is known of the first entries, and of the places that part from them at the next one.
fn with_fork(held: &HeldPlaces<'_>, entries: &[Entry], index: usize, since: usize) -> usize
    requires order { IsInOrder held.now }
    requires inside { index < length entries.now }
    requires known { GreatestBefore held.now.places.items (take index entries.now) since }
    ensures { GreatestBefore held.now.places.items (take (index + 1) entries.now) result }
{
    if is_ordered(entries, index) {
        return with_sequence(held, entries, index, since);
    }
    since
}

/// Whether the entry of this index is the number of a place in a sequence. Before the number of a branch stands none.
fn is_ordered(entries: &[Entry], index: usize) -> bool
    ensures { result ≡ is_ordered_entry (slice_get entries.now index) }
{
    match entries.get(index) {
        Some(Entry::Ordered(_)) => true,
        _ => false,
    }
}

/// The same of an entry that is the number of a place in a sequence.
fn with_sequence(held: &HeldPlaces<'_>, entries: &[Entry], index: usize, since: usize) -> usize
    requires order { IsInOrder held.now }
    requires inside { index < length entries.now }
    requires ordered { is_ordered_entry (slice_get entries.now index) ≡ true }
    requires known { GreatestBefore held.now.places.items (take index entries.now) since }
    ensures { GreatestBefore held.now.places.items (take (index + 1) entries.now) result }
{
    let (shared, _) = entries.split_at(index);
    let (parted, _) = entries.split_at(index + 1);
    let low = count_to(held.places.as_slice(), shared);
    let high = count_less(held.places.as_slice(), parted);
    larger(since, greatest_between(held, low, high))
}

/// How many of the places are less than these entries.
fn count_less(places: &[HeldPlace<'_>], entries: &[Entry]) -> usize
    requires { IsOrdered places.now }
    ensures { CountsLess places.now entries.now result }
{
    places.partition_point(
        |held: &HeldPlace<'_>| -> bool
            ensures { result ≡ is_lt (order_of held.now.place.now entries.entry.now) }
        { is_less(held.place.entries(), entries) },
    )
}

/// How many of the places come up to these entries, with them.
fn count_to(places: &[HeldPlace<'_>], entries: &[Entry]) -> usize
    requires { IsOrdered places.now }
    ensures { CountsTo places.now entries.now result }
{
    places.partition_point(
        |held: &HeldPlace<'_>| -> bool
            ensures { result ≡ not (is_lt (order_of entries.entry.now held.now.place.now)) }
        { !is_less(entries, held.place.entries()) },
    )
}

/// Whether the first entries are less than the others.
fn is_less(one: &[Entry], other: &[Entry]) -> bool
    ensures { result ≡ is_lt (order_of one.now other.now) }
{
    one.cmp(other).is_lt()
}

/// The greatest that `behind` is of the places from one index up to another, and 0 where there are none.
fn greatest_between(held: &HeldPlaces<'_>, low: usize, high: usize) -> usize
    requires order { IsInOrder held.now }
    requires inside { high ≤ length held.now.places.items }
    ensures { GreatestOver held.now.places.items low high result }
{
    let mut since = 0;
    let mut end = high;
    while low < end {
        let reach = reach_from(held, low, end - 1);
        since = larger(since, reach.most);
        end = reach.first;
    }
    since
}

/// The reach that ends with the place of an index, or where it begins before `low`, one of that place alone.
fn reach_from(held: &HeldPlaces<'_>, low: usize, last: usize) -> Reach
    requires order { IsInOrder held.now }
    requires inside { last < length held.now.places.items }
    requires from { low ≤ last }
    ensures first { low ≤ result.first }
    ensures reach { IsReach held.now.places.items (last + 1) result }
{
    let reach = held.reaches[last];
    if low <= reach.first {
        return reach;
    }
    Reach {
        first: last,
        most: held.places[last].behind,
    }
}
