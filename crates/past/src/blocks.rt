// The nearest causes of the told events, for 64 possible causes at a time: a sweep up from them over the events of the
// past marks which of them each event is or leads down to, and which of these have another that is told behind them. It
// ends where no event hands one of them on.
ghost use Rattle.std.specs.Prelude.{◌≡◌, ◌<◌, ◌≤◌, ◌+◌, ◌⊎◌, ◌↔◌, ℕ, [], List, cond, length, false, true, Some, slice_get, IfOk, OnOk};
ghost use Rattle.syntax.specs.Lists.{In};
ghost use Rattle.past.specs.internal.Blocks.{AddsAt, AllOpen, AnyHas, AreLasts, AreMarked, IsBelow, OneHas};
ghost use Rattle.past.specs.internal.Lanes.{AddsLanes, has};
ghost use Rattle.past.specs.internal.Near.{Falling, LeadDown, told};

use crate::lanes::{alone, both, has, is_none, none, without};
use crate::past::PastEvent;
use std::alloc::{AllocError, Global};
use syntax::Items;

/// How many possible causes are looked at in one sweep.
const WIDTH: usize = 64;

/// Of the told events of a block, by their lanes, what is known at an event.
#[derive(Clone, Copy)]
pub(crate) struct Mark {
    /// those that the event is, or that it leads down to
    pub reached: u64,
    /// of these those that have another behind them, which is the event, or to which it leads down
    pub behind: u64,
}

/// To the empty list beside each event that is told, adds the places of its nearest causes, the last first. With each
/// event are the places of those that it follows.
///
/// Each block of 64 events takes a sweep that ends where none of them is handed on: in all about one where causes are
/// near, and at most a look at a hundred-and-twenty-eighth of the pairs of events.
pub(crate) fn find_near(
    alloc: Global,
    whole: &[PastEvent],
    leads: &[Items<usize>],
    asked: u64,
    near: &mut [Items<usize>],
) -> Result<(), AllocError>
    requires size { length leads.now ≡ length whole.now }
    requires down { LeadDown leads.now }
    requires near { length near.old ≡ length whole.now }
    requires empty { (q : ℕ) (places : List ℕ) → slice_get near.old q ≡ Some places → places ≡ [] }
    ensures { OnOk result ((length near.new ≡ length whole.now) × AllOpen asked whole.now leads.now 0 near.new) }
{
    let lasts = last_followers(alloc, leads)?;
    let nothing = Mark {
        reached: 0,
        behind: 0,
    };
    let mut marks = vec![in alloc; nothing; whole.len()]?;
    let mut first = whole.len();
    while first > 0 {
        let end = first;
        first = end.saturating_sub(WIDTH);
        pass_block(
            whole,
            leads,
            lasts.as_slice(),
            asked,
            first,
            end,
            marks.as_mut_slice(),
            near,
        )?;
    }
    Ok(())
}

/// Beside each event, a place behind all events that follow it.
fn last_followers(alloc: Global, leads: &[Items<usize>]) -> Result<Vec<usize>, AllocError>
    requires { LeadDown leads.now }
    ensures { IfOk result (λ lasts. AreLasts leads.now lasts.items) }
{
    let mut lasts = vec![in alloc; 0; leads.len()]?;
    for (place, places) in leads.iter().enumerate() {
        raise(lasts.as_mut_slice(), places.as_slice(), place + 1);
    }
    Ok(lasts)
}

/// Puts the bound at each of these places.
fn raise(lasts: &mut [usize], places: &[usize], bound: usize)
    requires { (p : ℕ) → In p places.now → p < length lasts.old }
    ensures size { length lasts.new ≡ length lasts.old }
    ensures raised { (p : ℕ) → In p places.now → slice_get lasts.new p ≡ Some bound }
    ensures other { (p : ℕ) →
        (slice_get lasts.new p ≡ slice_get lasts.old p) ⊎ (slice_get lasts.new p ≡ Some bound) }
{
    for place in places {
        lasts[*place] = bound;
    }
}

/// Adds the nearest causes that are in the block from `first` to before `end`.
fn pass_block(
    whole: &[PastEvent],
    leads: &[Items<usize>],
    lasts: &[usize],
    asked: u64,
    first: usize,
    end: usize,
    marks: &mut [Mark],
    near: &mut [Items<usize>],
) -> Result<(), AllocError>
    requires size { length leads.now ≡ length whole.now }
    requires down { LeadDown leads.now }
    requires lasts { AreLasts leads.now lasts.now }
    requires begins { first < end }
    requires width { end ≤ first + 64 }
    requires ends { end ≤ length whole.now }
    requires marks { length marks.old ≡ length whole.now }
    requires near { length near.old ≡ length whole.now }
    requires listed { AllOpen asked whole.now leads.now end near.old }
    ensures marks { length marks.new ≡ length marks.old }
    ensures near { OnOk result ((length near.new ≡ length whole.now)
        × AllOpen asked whole.now leads.now first near.new) }
{
    let mut until = end;
    let mut place = first;
    while place < until {
        let is_told = is_told(&whole[place], asked);
        let below = below_at(whole, leads, asked, marks, place, first, end);
        let nearest = without(below.reached, below.behind);
        add_at(near, place, is_told, nearest, first, end)?;
        let mark = mark_of(below, is_told, place, first, end);
        until = handed_until(until, mark, lasts[place]);
        marks[place] = mark;
        place += 1;
    }
    Ok(())
}

/// Whether the event is told.
pub(crate) fn is_told(event: &PastEvent, asked: u64) -> bool
    ensures { result ≡ told asked event.now }
{
    event.carries || event.ticket == asked
}

/// What is known of the event at a place, from the events before it, where it itself does not count.
fn below_at(
    whole: &[PastEvent],
    leads: &[Items<usize>],
    asked: u64,
    marks: &[Mark],
    place: usize,
    first: usize,
    end: usize,
) -> Mark
    requires size { length leads.now ≡ length whole.now }
    requires down { LeadDown leads.now }
    requires within { place < length whole.now }
    requires size_marks { length marks.now ≡ length whole.now }
    requires marks { AreMarked asked whole.now leads.now first end place marks.now }
    ensures { IsBelow asked whole.now leads.now first end place result }
{
    gathered(marks, leads[place].as_slice(), first)
}

/// The lanes of the marks at these places, but for those before the block.
fn gathered(marks: &[Mark], places: &[usize], first: usize) -> Mark
    requires { (p : ℕ) → In p places.now → p < length marks.now }
    ensures reached { (k : ℕ) → (has result.reached k ≡ true)
        ↔ AnyHas (λ m. m.reached) marks.now first places.now k }
    ensures behind { (k : ℕ) → (has result.behind k ≡ true)
        ↔ AnyHas (λ m. m.behind) marks.now first places.now k }
{
    let mut reached = none();
    let mut behind = none();
    for place in places {
        let mark = mark_at(marks, *place, first);
        reached = both(reached, mark.reached);
        behind = both(behind, mark.behind);
    }
    Mark { reached, behind }
}

/// The marks at a place, of which there are none before the block.
fn mark_at(marks: &[Mark], place: usize, first: usize) -> Mark
    requires { place < length marks.now }
    ensures reached { (k : ℕ) → (has result.reached k ≡ true) ↔ OneHas (λ m. m.reached) marks.now first k place }
    ensures behind { (k : ℕ) → (has result.behind k ≡ true) ↔ OneHas (λ m. m.behind) marks.now first k place }
{
    if place < first {
        Mark {
            reached: none(),
            behind: none(),
        }
    } else {
        marks[place]
    }
}

/// What is known at an event, where it itself counts.
fn mark_of(below: Mark, is_told: bool, place: usize, first: usize, end: usize) -> Mark
    requires place { first ≤ place }
    requires width { end ≤ first + 64 }
    ensures reached { (k : ℕ) → first + k < end → (has result.reached k ≡ true)
        ↔ ((has below.reached k ≡ true) ⊎ ((is_told ≡ true) × (place ≡ first + k))) }
    ensures behind { result.behind ≡ cond is_told below.reached below.behind }
{
    Mark {
        reached: both(below.reached, own_lane(is_told, place, first, end)),
        behind: if is_told { below.reached } else { below.behind },
    }
}

/// The lane of the event at a place, if it is told and in the block.
fn own_lane(is_told: bool, place: usize, first: usize, end: usize) -> u64
    requires place { first ≤ place }
    requires width { end ≤ first + 64 }
    ensures { (k : ℕ) → first + k < end → (has result k ≡ true) ↔ ((is_told ≡ true) × (place ≡ first + k)) }
{
    if is_told && place < end {
        alone(place - first)
    } else {
        none()
    }
}

/// A place behind all to which something is handed on, if the event with this mark is followed before `last` alone.
fn handed_until(until: usize, mark: Mark, last: usize) -> usize
    ensures least { until ≤ result }
    ensures most { (result ≡ until) ⊎ (result ≡ last) }
    ensures handed { (k : ℕ) → k < 64 → has mark.reached k ≡ true → has mark.behind k ≡ false → last ≤ result }
{
    if last <= until || is_none(without(mark.reached, mark.behind)) {
        until
    } else {
        last
    }
}

/// Adds the places of the lanes to the list at a place, if that is so.
fn add_at(
    near: &mut [Items<usize>],
    place: usize,
    is_so: bool,
    lanes: u64,
    first: usize,
    end: usize,
) -> Result<(), AllocError>
    requires within { place < length near.old }
    requires width { end ≤ first + 64 }
    requires falling { is_so ≡ true → (before : List ℕ) → slice_get near.old place ≡ Some before → Falling before }
    requires behind { is_so ≡ true → (before : List ℕ) → slice_get near.old place ≡ Some before
        → (p : ℕ) → In p before → end ≤ p }
    ensures { OnOk result (AddsAt near.old place is_so lanes first end near.new) }
{
    if is_so {
        add_lanes(&mut near[place], lanes, first, end)
    } else {
        Ok(())
    }
}

/// Adds the places of the lanes, the last first.
fn add_lanes(
    places: &mut Items<usize>,
    lanes: u64,
    first: usize,
    end: usize,
) -> Result<(), AllocError>
    requires width { end ≤ first + 64 }
    requires falling { Falling places.old }
    requires behind { (p : ℕ) → In p places.old → end ≤ p }
    ensures { OnOk result (AddsLanes lanes first end places.old places.new) }
{
    if is_none(lanes) {
        return Ok(());
    }
    let mut place = end;
    while place > first {
        place -= 1;
        if has(lanes, place - first) {
            places.push(place)?;
        }
    }
    Ok(())
}
