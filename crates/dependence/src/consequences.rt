// What depends on an event, told without a change of the marks: the question has marks of its own, beside the places
// from that of the event on. A ticket tells its place at once; its index would be counted, where places are empty.
ghost use Rattle.std.specs.Prelude.{◌≡◌, ◌+◌, ◌≤◌, ◌<◌, ◌⊎◌, ◌↔◌, ℕ, Option, length, drop, true, Some, slice_get, IfOk};
ghost use Rattle.syntax.specs.Lists.{In};
ghost use Rattle.slots.specs.Places.{filled, RiseFrom, IsOf, HasItem};
ghost use Rattle.runs.specs.Live.{ConsequencesList, IsLive};
ghost use Rattle.runs.specs.declared.event.Event.{Event};
ghost use Rattle.dependence.specs.declared.kept.Kept.{Kept};
ghost use Rattle.dependence.specs.Shown.{tickets_marked};
ghost use Rattle.dependence.specs.internal.Listed.{events_kept, links_kept, seats};
ghost use Rattle.dependence.specs.internal.Marking.{MarkedAt, EndsAt};
ghost use Rattle.dependence.specs.internal.Tables.{IsRising, Linked};

use crate::kept::Kept;
use crate::live_list::{LiveList, place_of};
use slots::Slots;
use std::alloc::{AllocError, Global};

/// The tickets of the live event of this ticket and of all live events that depend on it, ascending. It takes as long
/// as to go through the places from that of the event to the last of these.
pub(crate) fn consequences(
    alloc: Global,
    list: &LiveList,
    ticket: u64,
) -> Result<Vec<u64>, AllocError>
    requires rising { IsRising list.now.live }
    requires linked { Linked list.now.live list.now.links }
    requires live { IsLive list.now.live ticket }
    ensures { IfOk result (λ tickets. ConsequencesList list.now.live ticket tickets.items) }
{
    let slots = list.places();
    let base = place_of(slots, ticket);
    let mut marks = no_marks(alloc, slots.len() - base)?;
    tickets_from(alloc, slots, base, marks.as_mut_slice(), ticket)
}

/// So many marks, of which none is set.
fn no_marks(alloc: Global, count: usize) -> Result<Vec<bool>, AllocError>
    ensures size { IfOk result (λ marks. length marks.items ≡ count) }
    ensures none { IfOk result (λ marks. (i : ℕ) → slice_get marks.items i ≡ Some true → ⊥) }
{
    Ok(vec![in alloc; false; count]?)
}

/// The same; the marks are those of the places from the event on, which is at the place `base`, and none is set yet.
fn tickets_from(
    alloc: Global,
    slots: &Slots<Kept>,
    base: usize,
    marks: &mut [bool],
    ticket: u64,
) -> Result<Vec<u64>, AllocError>
    requires rising { RiseFrom 0 slots.now.entries }
    requires linked { Linked (events_kept (filled slots.now.entries)) (links_kept (filled slots.now.entries)) }
    requires here { IsOf slots.now.entries ticket base }
    requires within { base < length slots.now.entries }
    requires size { base + length marks.old ≡ length slots.now.entries }
    requires none { (i : ℕ) → slice_get marks.old i ≡ Some true → ⊥ }
    ensures { IfOk result (λ tickets. ConsequencesList (events_kept (filled slots.now.entries)) ticket tickets.items) }
{
    let end = mark_dependents(slots, base, marks, ticket);
    copy_each(alloc, slots, base, &marks[..end])
}

/// Marks the place of this event, which is at `base`, and those of all that depend on it; where the marks then end.
/// What is behind the last mark follows nothing that is marked, and is not looked at.
fn mark_dependents(slots: &Slots<Kept>, base: usize, marks: &mut [bool], ticket: u64) -> usize
    requires rising { RiseFrom 0 slots.now.entries }
    requires linked { Linked (events_kept (filled slots.now.entries)) (links_kept (filled slots.now.entries)) }
    requires here { IsOf slots.now.entries ticket base }
    requires within { base < length slots.now.entries }
    requires size { base + length marks.old ≡ length slots.now.entries }
    requires none { (i : ℕ) → slice_get marks.old i ≡ Some true → ⊥ }
    ensures marked { (e : Event) → ConsequencesList (events_kept (filled slots.now.entries)) ticket
        (tickets_marked (drop base (seats e slots.now.entries)) marks.new) }
    ensures ended { EndsAt marks.new result }
{
    // The length is what says that places fit.
    let _len = slots.len();
    marks[0] = true;
    let mut end = 1;
    let mut index = 0;
    while index < end {
        if marks[index] {
            let followers = kept_at(slots, base + index).links.followers.as_slice();
            end = mark_all(slots, base, marks, followers, end);
        }
        index += 1;
    }
    end
}

/// What is kept at this place.
fn kept_at(slots: &Slots<Kept>, place: usize) -> &Kept
    requires { HasItem slots.now.entries place }
    ensures { (t : ℕ) × (slice_get slots.now.entries place ≡ Some (t, Some result.now)) }
{
    match &slots[place] {
        Some(kept) => kept,
        None => unreachable!(),
    }
}

/// Marks the places of the events of these tickets, which are behind `base`, beside those that are marked; where the
/// marks then end.
fn mark_all(
    slots: &Slots<Kept>,
    base: usize,
    marks: &mut [bool],
    tickets: &[u64],
    end: usize,
) -> usize
    requires rising { RiseFrom 0 slots.now.entries }
    requires live { (t : ℕ) → In t tickets.now → (i : ℕ) × IsOf slots.now.entries t (base + i) }
    requires size { base + length marks.old ≡ length slots.now.entries }
    requires ended { EndsAt marks.old end }
    ensures marked { (e : Event) (u : ℕ) → MarkedAt (drop base (seats e slots.now.entries)) marks.new u
        ↔ (MarkedAt (drop base (seats e slots.now.entries)) marks.old u ⊎ In u tickets.now) }
    ensures ended { EndsAt marks.new result }
{
    // The length is what says that places fit.
    let _len = slots.len();
    let mut reached = end;
    for ticket in tickets {
        let index = place_of(slots, *ticket) - base;
        marks[index] = true;
        if reached <= index {
            reached = index + 1;
        }
    }
    reached
}

/// The tickets of the marked places. The marks are those of the places from `base` on.
fn copy_each(
    alloc: Global,
    slots: &Slots<Kept>,
    base: usize,
    marks: &[bool],
) -> Result<Vec<u64>, AllocError>
    requires { base + length marks.now ≤ length slots.now.entries }
    ensures { IfOk result (λ tickets. (e : Event) →
        tickets.items ≡ tickets_marked (drop base (seats e slots.now.entries)) marks.now) }
{
    // The length is what says that places fit.
    let _len = slots.len();
    let mut tickets = Vec::new(alloc);
    for index in 0..marks.len() {
        if marks[index] {
            tickets.push(ticket_at(slots, base + index))?;
        }
    }
    Ok(tickets)
}

/// The ticket of this place.
fn ticket_at(slots: &Slots<Kept>, place: usize) -> u64
    requires { place < length slots.now.entries }
    ensures { (o : Option Kept) × (slice_get slots.now.entries place ≡ Some (result, o)) }
{
    match slots.get_index(place) {
        Some((ticket, _)) => *ticket,
        None => unreachable!(),
    }
}
