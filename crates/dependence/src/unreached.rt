// Which of some live events no other of them depends on, where a few looks along their followers tell it: as a rule
// they do, and what lies between the events need not be swept.
ghost use Rattle.std.specs.Prelude.{◌≡◌, [], ◌<◌, ◌↔◌, ◌-◌, ℕ, suc, length, true, false, Some, drop, slice_index, IfSome, IfOk, ◌&&◌};
ghost use Rattle.std.specs.List.Sorted.{IsNonDecreasing};
ghost use Rattle.syntax.specs.Lists.{In};
ghost use Rattle.runs.specs.InOrder.{InOrder};
ghost use Rattle.runs.specs.Live.{IsLive};
ghost use Rattle.dependence.specs.internal.Tables.{IsRising, Falling, Linked, Topmost};

use crate::indexes::index_in;
use crate::leading::is_alone;
use crate::links::{Leads, keep_if};
use crate::live_list::LiveList;
use crate::whole::followers_of;
use smallvec::SmallVec;
use std::alloc::{AllocError, Global};

/// Among more candidates than so many a sweep finds the topmost sooner.
const MANY: usize = 8;

/// Of these live events, whose tickets ascend, those on which no other of them depends, the last first; `None` where
/// a few looks along the followers do not tell it.
pub(crate) fn told_topmost(
    alloc: Global,
    list: &LiveList,
    tickets: &[u64],
) -> Result<Option<Leads>, AllocError>
    requires rising { IsRising list.now.live }
    requires linked { Linked list.now.live list.now.links }
    requires live { (t : ℕ) → In t tickets.now → IsLive list.now.live t }
    requires some { 0 < length tickets.now }
    requires ascending { IsNonDecreasing tickets.now }
    ensures falling { IfOk result (λ told. IfSome told (λ kept. Falling kept.items)) }
    ensures topmost { IfOk result (λ told. IfSome told (λ kept.
        (t : ℕ) → In t kept.items ↔ Topmost list.now.live tickets.now t)) }
{
    let last = tickets[tickets.len() - 1];
    let mut kept = room_for(alloc, tickets.len())?;
    let mut index = tickets.len();
    while index > 0 {
        index -= 1;
        let ticket = tickets[index];
        let Some(is_top) = stays(alloc, list, tickets, last, ticket) else {
            return Ok(None);
        };
        let is_new = is_below_rest(tickets, index);
        keep_if(both(is_top, is_new), ticket, &mut kept)?;
    }
    Ok(Some(kept))
}

/// Room for so many, where they are many: then mostly all of them are kept.
fn room_for(alloc: Global, count: usize) -> Result<Leads, AllocError>
    ensures { IfOk result (λ made. made.items ≡ []) }
{
    if count > MANY {
        return SmallVec::with_capacity(alloc, count);
    }
    Ok(SmallVec::new(alloc))
}

/// Whether no other of these events, of which `last` is the last, depends on this one of them; `None` where a few looks
/// along the followers do not tell it. Nothing up to the last depends on it where its first follower stands behind that
/// one.
fn stays(alloc: Global, list: &LiveList, tickets: &[u64], last: u64, ticket: u64) -> Option<bool>
    requires rising { IsRising list.now.live }
    requires linked { Linked list.now.live list.now.links }
    requires live { (t : ℕ) → In t tickets.now → IsLive list.now.live t }
    requires ascending { IsNonDecreasing tickets.now }
    requires last { last ≡ slice_index tickets.now (length tickets.now - 1) }
    requires one { In ticket tickets.now }
    ensures yes { result ≡ Some true → Topmost list.now.live tickets.now ticket }
    ensures no { result ≡ Some false → Topmost list.now.live tickets.now ticket → ⊥ }
{
    let followers = followers_of(list, ticket);
    let Some(first) = followers.first().copied() else {
        return Some(true);
    };
    if first > last {
        return Some(true);
    }
    if tickets.len() > MANY {
        return None;
    }
    if have_common(followers, tickets) {
        return Some(false);
    }
    is_alone(alloc, list, tickets, last, ticket)
}

/// Whether one of the tickets is among the followers, which ascend.
fn have_common(followers: &[u64], tickets: &[u64]) -> bool
    requires { InOrder ◌<◌ followers.now }
    ensures { result ≡ true → (t : ℕ) × In t followers.now × In t tickets.now }
{
    for ticket in tickets {
        if is_among(followers, *ticket) {
            return true;
        }
    }
    false
}

/// Whether the ticket is among these, which ascend.
fn is_among(followers: &[u64], ticket: u64) -> bool
    requires { InOrder ◌<◌ followers.now }
    ensures { result ≡ true → In ticket followers.now }
{
    match index_in(followers, ticket) {
        Some(_) => true,
        None => false,
    }
}

/// Whether the ticket at this index is less than all behind it. Else it is among them.
fn is_below_rest(sorted: &[u64], index: usize) -> bool
    requires ascending { IsNonDecreasing sorted.now }
    requires within { index < length sorted.now }
    ensures below { result ≡ true → (t : ℕ) → In t (drop (suc index) sorted.now) → slice_index sorted.now index < t }
    ensures among { result ≡ false → In (slice_index sorted.now index) (drop (suc index) sorted.now) }
{
    let next = index + 1;
    let len = sorted.len();
    if next >= len {
        return true;
    }
    let here = sorted[index];
    let behind = sorted[next];
    if behind <= here {
        return false;
    }
    true
}

/// Whether both hold.
fn both(one: bool, other: bool) -> bool
    ensures { result ≡ (one && other) }
{
    one && other
}
