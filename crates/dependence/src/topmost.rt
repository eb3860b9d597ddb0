// Which of some live events no other of them depends on.
ghost use Rattle.std.specs.Prelude.{◌≡◌, ◌<◌, ◌≤◌, ◌+◌, ◌-◌, ◌↔◌, ◌||◌, ◌&&◌, not, ℕ, length, slice_index, IsTrue, IfOk};
ghost use Rattle.syntax.specs.Lists.{In};
ghost use Rattle.system.specs.Expression.{is_in};
ghost use Rattle.std.specs.List.Sorted.{IsNonDecreasing};
ghost use Rattle.runs.specs.InOrder.{InOrder};
ghost use Rattle.runs.specs.Live.{IsLive};
ghost use Rattle.dependence.specs.internal.Tables.{IsRising, StandsAt, Falling, Linked, Topmost};
ghost use Rattle.dependence.specs.internal.Sweeping.{StandWithin, FlagAt};

use crate::links::{Leads, keep_if};
use crate::live_list::LiveList;
use smallvec::SmallVec;
use std::alloc::{AllocError, Global};

/// Of these events, whose tickets ascend and which stand from the index `low` on and below `high`, those on which no
/// other of them depends, the last first. One sweep goes down from the last index and notes where one of them is
/// reached.
pub(crate) fn topmost(
    alloc: Global,
    list: &LiveList,
    candidates: &[u64],
    low: usize,
    high: usize,
) -> Result<Leads, AllocError>
    requires rising { IsRising list.now.live }
    requires linked { Linked list.now.live list.now.links }
    requires order { low ≤ high }
    requires size { high ≤ length list.now.live }
    requires stand { StandWithin list.now.live candidates.now low high }
    requires some { 0 < length candidates.now }
    requires last { StandsAt list.now.live (slice_index candidates.now (length candidates.now - 1)) (high - 1) }
    requires ascending { IsNonDecreasing candidates.now }
    ensures falling { IfOk result (λ kept. Falling kept.items) }
    ensures topmost { IfOk result (λ kept. (t : ℕ) → In t kept.items ↔ Topmost list.now.live candidates.now t) }
{
    let last = candidates[candidates.len() - 1];
    let mut kept = SmallVec::new(alloc);
    let mut flags = Vec::new(alloc);
    let mut index = high;
    while index > low {
        index -= 1;
        let (ticket, links) = list.linked_at(index);
        let followers = links.followers.as_slice();
        let below = is_flagged(list, last, high, flags.as_slice(), followers);
        let is_one = is_among(candidates, ticket);
        flags.push(either(is_one, below))?;
        keep_if(alone(is_one, below), ticket, &mut kept)?;
    }
    Ok(kept)
}

/// From which index on and below which one these live events stand, whose tickets ascend.
pub(crate) fn span(list: &LiveList, tickets: &[u64]) -> (usize, usize)
    requires rising { IsRising list.now.live }
    requires live { (t : ℕ) → In t tickets.now → IsLive list.now.live t }
    requires some { 0 < length tickets.now }
    requires ascending { IsNonDecreasing tickets.now }
    ensures order { result.0 ≤ result.1 }
    ensures size { result.1 ≤ length list.now.live }
    ensures stand { StandWithin list.now.live tickets.now result.0 result.1 }
    ensures last { StandsAt list.now.live (slice_index tickets.now (length tickets.now - 1)) (result.1 - 1) }
{
    // The length is what says that the index behind the last fits.
    let _len = list.len();
    let low = list.index_of_live(tickets[0]);
    let last = list.index_of_live(tickets[tickets.len() - 1]);
    (low, last + 1)
}

/// Whether one of these live events, whose tickets ascend, stands below `high` at an index that is flagged. The flags
/// begin at the last index, at which the event of the ticket `last` stands. None behind the first that stands above is
/// looked at.
fn is_flagged(list: &LiveList, last: u64, high: usize, flags: &[bool], tickets: &[u64]) -> bool
    requires rising { IsRising list.now.live }
    requires live { (t : ℕ) → In t tickets.now → IsLive list.now.live t }
    requires passed { (t i : ℕ) → In t tickets.now → StandsAt list.now.live t i → high ≤ i + length flags.now }
    requires ascending { InOrder ◌<◌ tickets.now }
    requires some { 0 < high }
    requires size { high ≤ length list.now.live }
    requires last { StandsAt list.now.live last (high - 1) }
    ensures { IsTrue result ↔ ((t : ℕ) × In t tickets.now × FlagAt list.now.live high flags.now t) }
{
    for ticket in tickets {
        if *ticket > last {
            return false;
        }
        let index = list.index_of_live(*ticket);
        if flags[high - 1 - index] {
            return true;
        }
    }
    false
}

/// Whether the number is among these, which ascend.
pub(crate) fn is_among(numbers: &[u64], number: u64) -> bool
    requires { IsNonDecreasing numbers.now }
    ensures { result ≡ is_in number numbers.now }
{
    match numbers.binary_search(&number) {
        Ok(_) => true,
        Err(_) => false,
    }
}

/// Whether one of them holds.
fn either(one: bool, other: bool) -> bool
    ensures { result ≡ (one || other) }
{
    one || other
}

/// Whether the first holds and the second does not.
fn alone(one: bool, other: bool) -> bool
    ensures { result ≡ (one && not other) }
{
    one && !other
}
