// Marks on the events that depend on one.
ghost use Rattle.std.specs.Prelude.{◌≡◌, ◌+◌, ◌≤◌, ◌⊎◌, ◌↔◌, ℕ, length, drop, true, Some, slice_get, IfOk};
ghost use Rattle.std.specs.List.{remove};
ghost use Rattle.syntax.specs.Lists.{In};
ghost use Rattle.runs.specs.Live.{ConsequencesList, IsLive};
ghost use Rattle.dependence.specs.Shown.{tickets_marked};
ghost use Rattle.dependence.specs.internal.Tables.{IsRising, Linked, StandsAt};
ghost use Rattle.dependence.specs.internal.Marking.{MarkedAt, UnmarkedTo, UnmarkedFrom, EndsAt, NoneLess};

use crate::live_list::LiveList;
use std::alloc::{AllocError, Global};

/// Marks the event of this ticket and all that depend on it, and no others; how many they are, and where the marks that
/// are set end. No event of a ticket less than `first` was marked, and no mark was set from the end on.
pub(crate) fn mark_and_count(
    list: &LiveList,
    marks: &mut [bool],
    first: u64,
    end: usize,
    ticket: u64,
) -> (usize, usize)
    requires rising { IsRising list.now.live }
    requires linked { Linked list.now.live list.now.links }
    requires live { IsLive list.now.live ticket }
    requires size { length marks.old ≡ length list.now.live }
    requires lower { NoneLess list.now.live marks.old first }
    requires ended { EndsAt marks.old end }
    ensures marked { ConsequencesList list.now.live ticket (tickets_marked list.now.live marks.new) }
    ensures lower { NoneLess list.now.live marks.new ticket }
    ensures counted { result.0 ≡ length (tickets_marked list.now.live marks.new) }
    ensures ended { EndsAt marks.new result.1 }
{
    let from = first_index(list, marks, first, end);
    clear(marks, from, end);
    let behind = mark_dependents(list, marks, ticket);
    (count_marked(list, marks, behind, ticket), behind)
}

/// Marks the event of this ticket and all that depend on it, where nothing is marked; where the marks then end. Behind
/// the last mark that is set nothing is looked at, since followers of what is marked are marked too.
fn mark_dependents(list: &LiveList, marks: &mut [bool], ticket: u64) -> usize
    requires rising { IsRising list.now.live }
    requires linked { Linked list.now.live list.now.links }
    requires size { length marks.old ≡ length list.now.live }
    requires live { IsLive list.now.live ticket }
    requires none { (i : ℕ) → slice_get marks.old i ≡ Some true → ⊥ }
    ensures marked { ConsequencesList list.now.live ticket (tickets_marked list.now.live marks.new) }
    ensures lower { NoneLess list.now.live marks.new ticket }
    ensures ended { EndsAt marks.new result }
{
    // The length is what says that indexes fit.
    let _len = list.len();
    let mut index = list.index_of_live(ticket);
    marks[index] = true;
    let mut end = index + 1;
    while index < end {
        if marks[index] {
            let followers = list.links_at(index).followers.as_slice();
            end = mark_all(list, marks, followers, end);
        }
        index += 1;
    }
    end
}

/// Takes all marks away. Below the first index there are none, nor from the end on.
fn clear(marks: &mut [bool], from: usize, end: usize)
    requires unmarked { UnmarkedTo marks.old from }
    requires ended { EndsAt marks.old end }
    ensures { (i : ℕ) → slice_get marks.new i ≡ Some true → ⊥ }
{
    for index in from..end {
        marks[index] = false;
    }
}

/// An index below which none is marked: that of the event of the ticket `first`, where no event of a lesser one is
/// marked. While one is set that event is live, since it is taken last.
fn first_index(list: &LiveList, marks: &[bool], first: u64, end: usize) -> usize
    requires rising { IsRising list.now.live }
    requires size { length marks.now ≡ length list.now.live }
    requires lower { NoneLess list.now.live marks.now first }
    requires ended { EndsAt marks.now end }
    ensures within { result ≤ end }
    ensures none { UnmarkedTo marks.now result }
{
    if end == 0 {
        return 0;
    }
    match list.index_of(first) {
        Some(index) => index,
        None => 0,
    }
}

/// Behind the last mark that is set below the end, 0 where none is. From the end on none is set.
fn end_below(marks: &[bool], end: usize) -> usize
    requires within { end ≤ length marks.now }
    requires none { UnmarkedFrom marks.now end }
    ensures { EndsAt marks.now result }
{
    let mut left = end;
    while left > 0 {
        if marks[left - 1] {
            return left;
        }
        left -= 1;
    }
    0
}

/// Marks the events of these tickets beside those that are marked; where the marks then end.
fn mark_all(list: &LiveList, marks: &mut [bool], tickets: &[u64], end: usize) -> usize
    requires rising { IsRising list.now.live }
    requires live { (t : ℕ) → In t tickets.now → IsLive list.now.live t }
    requires size { length marks.old ≡ length list.now.live }
    requires ended { EndsAt marks.old end }
    ensures marked { (u : ℕ) → MarkedAt list.now.live marks.new u
        ↔ (MarkedAt list.now.live marks.old u ⊎ In u tickets.now) }
    ensures ended { EndsAt marks.new result }
{
    // The length is what says that indexes fit.
    let _len = list.len();
    let mut reached = end;
    for ticket in tickets {
        let index = list.index_of_live(*ticket);
        marks[index] = true;
        if reached <= index {
            reached = index + 1;
        }
    }
    reached
}

/// Takes out the mark of the live event of this ticket; where the marks that are set then end. Where none is set behind
/// it, its place is cleared and the last mark goes, so that no mark moves. Where none is set at all, it is not even looked
/// for the event.
pub(crate) fn remove_mark(list: &LiveList, marks: &mut Vec<bool>, end: usize, ticket: u64) -> usize
    requires size { length marks.old.items ≡ length list.now.live }
    requires ended { EndsAt marks.old.items end }
    requires live { IsLive list.now.live ticket }
    ensures removed { (i : ℕ) × StandsAt list.now.live ticket i × (marks.new.items ≡ remove marks.old.items i) }
    ensures ended { EndsAt marks.new.items result }
{
    if end == 0 {
        marks.pop();
        return 0;
    }
    let index = list.index_of_live(ticket);
    if index < end - 1 {
        marks.remove(index);
        return end - 1;
    }
    marks[index] = false;
    let left = end_below(marks.as_slice(), end);
    marks.pop();
    left
}

/// How many events are marked. Of this ticket one is, none of a lesser one is, and no mark is set from the end on.
fn count_marked(list: &LiveList, marks: &[bool], end: usize, ticket: u64) -> usize
    requires rising { IsRising list.now.live }
    requires size { length marks.now ≡ length list.now.live }
    requires live { IsLive list.now.live ticket }
    requires marked { In ticket (tickets_marked list.now.live marks.now) }
    requires lower { NoneLess list.now.live marks.now ticket }
    requires ended { EndsAt marks.now end }
    ensures { result ≡ length (tickets_marked list.now.live marks.now) }
{
    let from = list.index_of_live(ticket);
    marks[from..end].iter().filter(|mark| **mark).count()
}

/// The tickets of the marked events, ascending. None is less than `first`, and no mark is set from the end on.
pub(crate) fn copy_marked(
    alloc: Global,
    list: &LiveList,
    marks: &[bool],
    first: u64,
    end: usize,
) -> Result<Vec<u64>, AllocError>
    requires rising { IsRising list.now.live }
    requires size { length marks.now ≡ length list.now.live }
    requires lower { NoneLess list.now.live marks.now first }
    requires ended { EndsAt marks.now end }
    ensures { IfOk result (λ tickets. tickets.items ≡ tickets_marked list.now.live marks.now) }
{
    let from = first_index(list, marks, first, end);
    copy_each(alloc, list, from, &marks[from..end])
}

/// The tickets of the marked events. The marks are those of the live events from the index `base` on.
fn copy_each(
    alloc: Global,
    list: &LiveList,
    base: usize,
    marks: &[bool],
) -> Result<Vec<u64>, AllocError>
    requires { base + length marks.now ≤ length list.now.live }
    ensures { IfOk result (λ tickets. tickets.items ≡ tickets_marked (drop base list.now.live) marks.now) }
{
    // The length is what says that indexes fit.
    let _len = list.len();
    let mut tickets = Vec::new(alloc);
    for index in 0..marks.len() {
        if marks[index] {
            tickets.push(list.ticket_at(base + index))?;
        }
    }
    Ok(tickets)
}
