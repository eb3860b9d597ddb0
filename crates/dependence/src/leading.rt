// Whether any of some live events depends on another one, looked for along the followers of that one.
ghost use Rattle.std.specs.Prelude.{◌≡◌, ◌++◌, ◌∷◌, [], ◌⊎◌, ◌↔◌, ◌≤◌, ℕ, IsTrue, true, false, Some, cond};
ghost use Rattle.std.specs.List.Sorted.{IsNonDecreasing};
ghost use Rattle.syntax.specs.Lists.{In};
ghost use Rattle.runs.specs.Live.{IsLive};
ghost use Rattle.dependence.specs.Followers.{Follower};
ghost use Rattle.dependence.specs.internal.Sweeping.{LeadsOn};
ghost use Rattle.dependence.specs.internal.Tables.{IsRising, Linked};

use crate::live_list::LiveList;
use crate::topmost::is_among;
use crate::whole::followers_of;
use smallvec::SmallVec;
use std::alloc::Global;

/// So many events are looked at before a sweep is begun.
const LOOKS: usize = 16;

/// Where an event has more followers, a sweep is begun.
const MANY: usize = 8;

/// The tickets from which it is looked on, the next one behind the others.
type Pending = SmallVec<u64, 16>;

/// Whether no other one of these events, whose tickets ascend up to `last`, depends on the event of this ticket; `None`
/// where that takes many looks. The least of the followers is gone on from first.
pub(crate) fn is_alone(
    alloc: Global,
    list: &LiveList,
    tickets: &[u64],
    last: u64,
    ticket: u64,
) -> Option<bool>
    requires rising { IsRising list.now.live }
    requires linked { Linked list.now.live list.now.links }
    requires live { IsLive list.now.live ticket }
    requires ascending { IsNonDecreasing tickets.now }
    requires last { (t : ℕ) → In t tickets.now → t ≤ last }
    ensures yes { result ≡ Some true → LeadsOn list.now.live tickets.now ticket → ⊥ }
    ensures no { result ≡ Some false → LeadsOn list.now.live tickets.now ticket }
{
    let mut pending = SmallVec::new(alloc);
    if !add_followers(list, ticket, last, &mut pending) {
        return None;
    }
    let mut looks = 0;
    while looks < LOOKS {
        let Some(here) = pending.pop() else {
            return Some(true);
        };
        if is_among(tickets, here) {
            return Some(false);
        }
        if !add_followers(list, here, last, &mut pending) {
            return None;
        }
        looks += 1;
    }
    None
}

/// Adds the followers of the live event of this ticket up to `last`, the least of them last; whether there are not too
/// many of them, and there is memory for them.
fn add_followers(list: &LiveList, ticket: u64, last: u64, pending: &mut Pending) -> bool
    requires rising { IsRising list.now.live }
    requires linked { Linked list.now.live list.now.links }
    requires live { IsLive list.now.live ticket }
    ensures { result ≡ true → (u : ℕ) → In u pending.new.items ↔
        (In u pending.old.items ⊎ (Follower list.now.live ticket u × (u ≤ last))) }
{
    let followers = followers_of(list, ticket);
    if followers.len() > MANY {
        return false;
    }
    let mut index = followers.len();
    while index > 0 {
        index -= 1;
        let follower = followers[index];
        let is_one = is_at_most(follower, last);
        if !add_if(is_one, follower, pending) {
            return false;
        }
    }
    true
}

/// Adds the ticket where it is one that is looked for; whether there is memory for it.
fn add_if(is_one: bool, ticket: u64, pending: &mut Pending) -> bool
    ensures { result ≡ true → pending.new.items ≡ cond is_one (pending.old.items ++ ticket ∷ []) pending.old.items }
{
    if !is_one {
        return true;
    }
    match pending.push(ticket) {
        Ok(()) => true,
        Err(_) => false,
    }
}

/// Whether the first is not greater than the other.
fn is_at_most(one: u64, other: u64) -> bool
    ensures { IsTrue result ↔ (one ≤ other) }
{
    one <= other
}
