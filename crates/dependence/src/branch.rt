// What stands in a branch, in the order of places, with what stands in the branches of its parallels. No place is
// stored whole: events of one branch share the way to it.
ghost use Rattle.std.specs.Prelude.{◌≡◌, ◌<◌, ◌≤◌, ◌-◌, ◌++◌, ◌∷◌, [], true, false, length, take, drop, map, Some, slice_get, IfOk, OnOk, OnErr};
ghost use Rattle.dependence.specs.LastEvents.{ticket_at, first_child, Orderly, PutAt, RemovedAt};
ghost use Rattle.dependence.specs.internal.Search.{AllLess, Splits};
ghost use Rattle.dependence.specs.internal.Seats.{way_of, rest_of, AllOrdered, EndsAtBranch, seat_way, seat_places, ordered_of, number_of, IsWay, flat, HasSeat, IsSound, IsBranch, IsMadeOf, FitsBehind, TakenAt};
ghost use Rattle.dependence.specs.internal.Walks.{Related, AddedLast, AddedFrom, AllBeside, IsGroup, IsGroupBegin, IsNearer, IsSorted};

use crate::children::is_first_child;
use crate::inserts::{insert_at, push_last};
use crate::search::{count_less, count_less_near};
use crate::ways::{end_number, ends_at_branch, is_same, ordered, way_length};
use address::{Address, Entry};
use std::alloc::{AllocError, Global};
use std::marker::Model;

/// The events of a branch. Contracts see their places from the beginning of the branch, with their tickets, in order.
#[cycle(branch)]
#[derive(Drop)]
pub(crate) struct BranchEvents {
    seats: Vec<Seat>,
    /// so many stand before the parallel of the last one, or before the last one if that is an event
    group: usize,
}

/// What stands in a branch behind a way from its beginning.
#[cycle(branch)]
#[derive(Drop)]
pub(crate) enum Seat {
    /// an event, by its ticket; the way has no branch number
    Event(Address, u64),
    /// the events of a branch, of which there is one at least; the way ends with the number of the branch
    Inner(Address, Box<BranchEvents>),
}

impl Model for BranchEvents {
    ghost use Rattle.std.specs.Prelude.{ℕ, List};
    ghost use Rattle.address.specs.declared.Entry.{Entry};

    ghost Value = { List (List Entry × ℕ) };

    ghost use Rattle.dependence.specs.internal.Seats.{flat};

    ghost view = { λ branch. flat branch.seats.items };

    ghost use Rattle.dependence.specs.internal.Walks.{IsSorted};

    ghost invariant = { λ branch. IsSorted branch.seats.items branch.group };

    ghost use Rattle.dependence.specs.internal.Sizes.{entries_of};

    ghost size = { entries_of };

    ghost use Rattle.dependence.specs.internal.Depths.{depth_le-entries};

    ghost size_decreases = { λ a h. depth_le-entries a.seats.items h.branch };
}

impl BranchEvents {
    /// No events. It takes no memory yet.
    pub(crate) fn new(alloc: Global) -> BranchEvents
        ensures { result ≡ [] }
    {
        BranchEvents {
            seats: Vec::new(alloc),
            group: 0,
        }
    }

    /// One event.
    #[cycle(make)]
    fn with_one(alloc: Global, place: &[Entry], ticket: u64) -> Result<BranchEvents, AllocError>
        ensures { IfOk result (λ made. made ≡ (place.now, ticket) ∷ []) }
    {
        let mut seats = Vec::with_capacity(alloc, 1)?;
        seats.push(Seat::new(alloc, place, way_length(place), ticket)?)?;
        Ok(BranchEvents { seats, group: 0 })
    }

    /// Whether there are none.
    fn is_empty(&self) -> bool
        ensures none { result ≡ true → self.now ≡ [] }
        ensures some { result ≡ false → 0 < length self.now }
    {
        self.seats.is_empty()
    }

    /// Puts the event of this ticket at the place, and adds the last events before it: where there is none, the last
    /// ones of those that are nearest before all of these. Without memory for it the events are as before.
    #[cycle(put)]
    pub(crate) fn put(
        &mut self,
        alloc: Global,
        nearest: &[Seat],
        place: &[Entry],
        ticket: u64,
        found: &mut Vec<u64>,
    ) -> Result<(), AllocError>
        requires nearest { IsGroup nearest.now }
        requires orderly { Orderly self.old place.now }
        ensures put { OnOk result (PutAt self.old place.now ticket self.new) }
        ensures found { OnOk result (AddedFrom (flat nearest.now) self.old place.now found.old.items found.new.items) }
        ensures refused { OnErr result (self.new ≡ self.old) }
    {
        put_among(
            &mut self.seats,
            &mut self.group,
            alloc,
            nearest,
            place,
            ticket,
            found,
        )
    }

    /// Takes out what stands at the place.
    #[cycle(remove)]
    pub(crate) fn remove(&mut self, place: &[Entry])
        ensures { RemovedAt self.old place.now self.new }
    {
        remove_among(&mut self.seats, &mut self.group, place);
    }
}

impl Seat {
    /// What stands where one event does, whose way has so many entries.
    #[cycle(make)]
    fn new(alloc: Global, place: &[Entry], count: usize, ticket: u64) -> Result<Seat, AllocError>
        requires within { count ≤ length place.now }
        requires way { take count place.now ≡ way_of place.now }
        requires rest { drop count place.now ≡ rest_of place.now }
        ensures { IfOk result (IsMadeOf place.now ticket) }
    {
        let (way, rest) = place.split_at(count);
        let held = Address::new(alloc, way)?;
        if !ends_at_branch(way) {
            return Ok(Seat::Event(held, ticket));
        }
        let inner = Box::new(alloc, BranchEvents::with_one(alloc, rest, ticket)?)?;
        Ok(Seat::Inner(held, inner))
    }

    /// The way to it.
    #[inline(always)]
    pub(crate) fn way(&self) -> &[Entry]
        ensures { result.now ≡ seat_way self.now }
    {
        match self {
            Seat::Event(way, _) => way.entries(),
            Seat::Inner(way, _) => way.entries(),
        }
    }

    /// Puts the event behind the way, and adds the last events before it that stand here, or else those of the nearest.
    #[cycle(put)]
    fn put(
        &mut self,
        alloc: Global,
        nearest: &[Seat],
        rest: &[Entry],
        ticket: u64,
        found: &mut Vec<u64>,
    ) -> Result<(), AllocError>
        requires sound { IsSound self.old }
        requires fits { FitsBehind self.old rest.now }
        requires nearest { IsGroup nearest.now }
        requires orderly { Orderly (seat_places self.old) (seat_way self.old ++ rest.now) }
        ensures sound { IsSound self.new }
        ensures way { seat_way self.new ≡ seat_way self.old }
        ensures put { OnOk result
            (PutAt (seat_places self.old) (seat_way self.old ++ rest.now) ticket (seat_places self.new)) }
        ensures found { OnOk result
            (AddedFrom (flat nearest.now) (seat_places self.old) (seat_way self.old
            ++ rest.now) found.old.items found.new.items) }
        ensures refused { OnErr result (seat_places self.new ≡ seat_places self.old) }
    {
        match self {
            Seat::Event(_, held) => {
                add_nearest(nearest, found)?;
                *held = ticket;
                Ok(())
            }
            Seat::Inner(_, inner) => inner.put(alloc, nearest, rest, ticket, found),
        }
    }

    /// Takes out what stands behind the way. Whether nothing is left.
    #[cycle(remove)]
    fn remove(&mut self, rest: &[Entry]) -> bool
        requires sound { IsSound self.old }
        requires fits { FitsBehind self.old rest.now }
        ensures { TakenAt self.old rest.now result self.new }
    {
        match self {
            Seat::Event(_, _) => true,
            Seat::Inner(_, inner) => {
                inner.remove(rest);
                inner.is_empty()
            }
        }
    }
}

/// Puts the event among what stands in a branch, and adds the last events before it that stand there, or else those of
/// the nearest. All that is added is added before anything is put in.
#[cycle(put)]
fn put_among(
    seats: &mut Vec<Seat>,
    group: &mut usize,
    alloc: Global,
    nearest: &[Seat],
    place: &[Entry],
    ticket: u64,
    found: &mut Vec<u64>,
) -> Result<(), AllocError>
    requires sorted { IsSorted seats.old.items group.old }
    requires nearest { IsGroup nearest.now }
    requires orderly { Orderly (flat seats.old.items) place.now }
    ensures sorted { IsSorted seats.new.items group.new }
    ensures put { OnOk result (PutAt (flat seats.old.items) place.now ticket (flat seats.new.items)) }
    ensures found { OnOk result
        (AddedFrom (flat nearest.now) (flat seats.old.items) place.now found.old.items found.new.items) }
    ensures refused { OnErr result (flat seats.new.items ≡ flat seats.old.items) }
{
    let count = way_length(place);
    let (way, rest) = place.split_at(count);
    let (lesser, index, is_there) = find_last(seats.as_slice(), *group, way);
    if is_there {
        let (before, behind) = seats.as_mut_slice().split_at_mut(index);
        let nearer = nearer(before, way, lesser, nearest);
        return behind[0].put(alloc, nearer, rest, ticket, found);
    }
    let (before, _) = seats.as_slice().split_at(index);
    add_nearest(nearer(before, way, lesser, nearest), found)?;
    let seat = Seat::new(alloc, place, count, ticket)?;
    insert_at(seats, index, seat)?;
    *group = lesser;
    Ok(())
}

/// Those of what stands before a way that stand before all branches beside it, which are so many; where there are none,
/// the nearest.
#[inline(always)]
fn nearer<'a>(before: &'a [Seat], way: &[Entry], lesser: usize, nearest: &'a [Seat]) -> &'a [Seat]
    requires { Splits (map seat_way before.now) (ordered_of way.now) lesser }
    ensures { IsNearer before.now (ordered_of way.now) nearest.now result.now }
{
    if lesser == 0 {
        return nearest;
    }
    let (lesser_ones, _) = before.split_at(lesser);
    lesser_ones
}

/// How many of these stand before all branches beside a way, behind how many it stands or would stand, and whether it
/// does. None of these stands behind it, and `group` of them stand before the parallel of the last one.
fn find_last(seats: &[Seat], group: usize, way: &[Entry]) -> (usize, usize, bool)
    requires sorted { IsSorted seats.now group }
    requires way { IsWay way.now }
    requires beside { AllBeside seats.now (ordered_of way.now) }
    requires event { AllOrdered way.now → AllLess (map seat_way seats.now) (length seats.now) way.now }
    ensures lesser { Splits (map seat_way seats.now) (ordered_of way.now) result.0 }
    ensures splits { Splits (map seat_way seats.now) way.now result.1 }
    ensures yes { result.2 ≡ true → HasSeat seats.now result.1 way.now }
    ensures no { result.2 ≡ false → HasSeat seats.now result.1 way.now → ⊥ }
{
    let count = seats.len();
    let Some(last) = seats.last() else {
        return (count, count, false);
    };
    match last {
        Seat::Event(_, _) => (count, count, false),
        Seat::Inner(own, _) => find_beside(seats, group, own.entries(), way),
    }
}

/// The same where the last one is the events of a branch, behind this way. Mostly it is the one that is looked for, or
/// another branch of its parallel.
fn find_beside(seats: &[Seat], group: usize, last: &[Entry], way: &[Entry]) -> (usize, usize, bool)
    requires sorted { IsSorted seats.now group }
    requires last { HasSeat seats.now (length seats.now - 1) last.now }
    requires ends { EndsAtBranch last.now }
    requires way { IsWay way.now }
    requires beside { AllBeside seats.now (ordered_of way.now) }
    requires event { AllOrdered way.now → AllLess (map seat_way seats.now) (length seats.now) way.now }
    ensures lesser { Splits (map seat_way seats.now) (ordered_of way.now) result.0 }
    ensures splits { Splits (map seat_way seats.now) way.now result.1 }
    ensures yes { result.2 ≡ true → HasSeat seats.now result.1 way.now }
    ensures no { result.2 ≡ false → HasSeat seats.now result.1 way.now → ⊥ }
{
    let count = seats.len();
    if is_same(last, way) {
        return (group, count - 1, true);
    }
    if !ends_at_branch(way) {
        return (count, count, false);
    }
    if !is_same(ordered(last), ordered(way)) {
        return (count, count, false);
    }
    let (index, is_there) = find_branch(seats, group, way);
    (group, index, is_there)
}

/// Behind how many of these the branch that ends the way stands or would stand, and whether it does. Behind the first
/// `lesser` all are branches beside it. Each has its number at its end, and is looked for by that: so far before the
/// last one as its number is less, if each between has events.
fn find_branch(seats: &[Seat], lesser: usize, way: &[Entry]) -> (usize, bool)
    requires branch { IsBranch seats.now }
    requires way { IsWay way.now }
    requires ends { EndsAtBranch way.now }
    requires beside { AllBeside seats.now (ordered_of way.now) }
    requires lesser { Splits (map seat_way seats.now) (ordered_of way.now) lesser }
    requires some { lesser < length seats.now }
    ensures splits { Splits (map seat_way seats.now) way.now result.0 }
    ensures yes { result.1 ≡ true → HasSeat seats.now result.0 way.now }
    ensures no { result.1 ≡ false → HasSeat seats.now result.0 way.now → ⊥ }
{
    let number = end_number(way);
    let others = seats.len() - 1;
    let last = number_at(seats, others);
    if last < number {
        return (seats.len(), false);
    }
    let likely = others.saturating_sub(last - number);
    if likely >= lesser {
        if number_at(seats, likely) == number {
            return (likely, true);
        }
    }
    find_way(seats, way)
}

/// The branch number at the end of the way at an index.
#[inline(always)]
fn number_at(seats: &[Seat], index: usize) -> usize
    requires { IsBranch seats.now }
    ensures { (s : Seat) → slice_get seats.now index ≡ Some s → result ≡ number_of (seat_way s) }
{
    match seats.get(index) {
        Some(seat) => end_number(seat.way()),
        None => 0,
    }
}

/// Takes out what stands at the place.
#[cycle(remove)]
fn remove_among(seats: &mut Vec<Seat>, group: &mut usize, place: &[Entry])
    requires { IsSorted seats.old.items group.old }
    ensures sorted { IsSorted seats.new.items group.new }
    ensures removed { RemovedAt (flat seats.old.items) place.now (flat seats.new.items) }
{
    let (way, rest) = place.split_at(way_length(place));
    let (index, is_there) = find_way(seats.as_slice(), way);
    if is_there {
        if seats[index].remove(rest) {
            seats.remove(index);
            *group = count_beside(seats.as_slice());
        }
    }
}

/// Behind how many of these a way stands or would stand, and whether it does.
fn find_way(seats: &[Seat], way: &[Entry]) -> (usize, bool)
    requires { IsBranch seats.now }
    ensures splits { Splits (map seat_way seats.now) way.now result.0 }
    ensures yes { result.1 ≡ true → HasSeat seats.now result.0 way.now }
    ensures no { result.1 ≡ false → HasSeat seats.now result.0 way.now → ⊥ }
{
    let likely = likely_index(seats, way);
    if has_way(seats, likely, way) {
        return (likely, true);
    }
    let index = count_less(seats, way);
    let is_there = has_way(seats, index, way);
    (index, is_there)
}

/// Where a way stands most likely: a branch so far before the last one as its number is less, if each between has
/// events, and anything else at the end.
#[inline(always)]
fn likely_index(seats: &[Seat], way: &[Entry]) -> usize {
    let others = seats.len().saturating_sub(1);
    let Some(last) = seats.last() else {
        return others;
    };
    let Some(Entry::Branch(number)) = way.last() else {
        return others;
    };
    others.saturating_sub(end_number(last.way()).saturating_sub(*number as usize))
}

/// Whether there is something at this index that has this way.
#[inline(always)]
fn has_way(seats: &[Seat], index: usize, way: &[Entry]) -> bool
    ensures yes { result ≡ true → HasSeat seats.now index way.now }
    ensures no { result ≡ false → HasSeat seats.now index way.now → ⊥ }
{
    match seats.get(index) {
        Some(seat) => is_same(seat.way(), way),
        None => false,
    }
}

impl BranchEvents {
    /// Adds the last of all events: of each branch of the parallel at the end, if one stands there.
    #[cycle(last)]
    fn add_last(&self, found: &mut Vec<u64>) -> Result<(), AllocError>
        requires { Related self.now }
        ensures { IfOk result (λ _. AddedLast self.now found.old.items found.new.items) }
    {
        add_last_among(self.seats.as_slice(), self.group, found)
    }

    /// The ticket of the event that stands at the first child of the place. It takes no memory.
    #[cycle(child)]
    pub(crate) fn at_first_child(&self, place: &[Entry]) -> Option<u64>
        ensures { result ≡ ticket_at self.now (first_child place.now) }
    {
        first_child_among(self.seats.as_slice(), place)
    }
}

impl Seat {
    /// Adds the last of the events that stand here.
    #[cycle(last)]
    fn add_last(&self, found: &mut Vec<u64>) -> Result<(), AllocError>
        requires sound { IsSound self.now }
        requires related { Related (seat_places self.now) }
        ensures { IfOk result (λ _. AddedLast (seat_places self.now) found.old.items found.new.items) }
    {
        match self {
            Seat::Event(_, ticket) => push_last(found, *ticket),
            Seat::Inner(_, inner) => inner.add_last(found),
        }
    }
}

/// Adds the last of those that are nearest.
fn add_nearest(seats: &[Seat], found: &mut Vec<u64>) -> Result<(), AllocError>
    requires branch { IsBranch seats.now }
    requires related { Related (flat seats.now) }
    ensures { IfOk result (λ _. AddedLast (flat seats.now) found.old.items found.new.items) }
{
    add_last_among(seats, count_beside(seats), found)
}

/// Adds the last of these events: those of the last one's parallel, before which so many stand, or the last one.
#[cycle(last)]
fn add_last_among(seats: &[Seat], group: usize, found: &mut Vec<u64>) -> Result<(), AllocError>
    requires sorted { IsSorted seats.now group }
    requires related { Related (flat seats.now) }
    ensures { IfOk result (λ _. AddedLast (flat seats.now) found.old.items found.new.items) }
{
    let Some(last) = seats.last() else {
        return Ok(());
    };
    let others = seats.len() - 1;
    if group == others {
        return last.add_last(found);
    }
    let (_, together) = seats.split_at(group);
    add_each(together, found)
}

/// How many of these stand before the parallel of the last one, or before the last one if that is an event.
fn count_beside(seats: &[Seat]) -> usize
    requires { IsBranch seats.now }
    ensures { IsGroupBegin (map seat_way seats.now) result }
{
    let Some(last) = seats.last() else {
        return 0;
    };
    match last {
        Seat::Event(_, _) => seats.len() - 1,
        Seat::Inner(way, _) => {
            let own = way.entries();
            // before the branches at the end, if each has events
            let likely = seats
                .len()
                .saturating_sub(1)
                .saturating_sub(end_number(own));
            count_less_near(seats, ordered(own), likely)
        }
    }
}

/// Adds the last events of each of these.
#[cycle(last)]
fn add_each(seats: &[Seat], found: &mut Vec<u64>) -> Result<(), AllocError>
    requires branch { IsBranch seats.now }
    requires related { Related (flat seats.now) }
    ensures { IfOk result (λ _. AddedLast (flat seats.now) found.old.items found.new.items) }
{
    for seat in seats {
        seat.add_last(found)?;
    }
    Ok(())
}

/// The ticket of the event that stands at the first child of the place.
#[cycle(child)]
fn first_child_among(seats: &[Seat], place: &[Entry]) -> Option<u64>
    requires { IsBranch seats.now }
    ensures { result ≡ ticket_at (flat seats.now) (first_child place.now) }
{
    let (way, rest) = place.split_at(way_length(place));
    let (index, is_there) = find_way(seats, way);
    if !ends_at_branch(way) {
        return event_behind(seats, index, place);
    }
    if !is_there {
        return None;
    }
    match &seats[index] {
        Seat::Event(_, _) => None,
        Seat::Inner(_, inner) => inner.at_first_child(rest),
    }
}

/// The ticket of the event that stands at the first child of the place, which has no branch number: it is the next
/// behind what is less than the place, or behind the place itself.
fn event_behind(seats: &[Seat], index: usize, place: &[Entry]) -> Option<u64>
    requires branch { IsBranch seats.now }
    requires ordered { AllOrdered place.now }
    requires index { Splits (map seat_way seats.now) place.now index }
    ensures { result ≡ ticket_at (flat seats.now) (first_child place.now) }
{
    let next = index_of_child(seats, index, place);
    let Some(seat) = seats.get(next) else {
        return None;
    };
    match seat {
        Seat::Inner(_, _) => None,
        Seat::Event(way, ticket) => {
            if is_first_child(way.entries(), place) {
                Some(*ticket)
            } else {
                None
            }
        }
    }
}

/// Behind how many of these the first child of the place stands or would stand.
fn index_of_child(seats: &[Seat], index: usize, place: &[Entry]) -> usize
    requires branch { IsBranch seats.now }
    requires index { Splits (map seat_way seats.now) place.now index }
    ensures { Splits (map seat_way seats.now) (first_child place.now) result }
{
    if has_way(seats, index, place) {
        index + 1
    } else {
        index
    }
}
