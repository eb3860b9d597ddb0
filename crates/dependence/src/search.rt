// Looking for a place by halves.
ghost use Rattle.std.specs.Prelude.{◌≡◌, ◌≤◌, map, length, true, false, List};
ghost use Rattle.address.specs.declared.Entry.{Entry};
ghost use Rattle.dependence.specs.internal.Search.{AllLess, LastNotLess, Rising, Splits};
ghost use Rattle.dependence.specs.internal.Seats.{seat_way};

use crate::branch::Seat;
use crate::forks::{fork, is_less};
use address::Entry;

/// What stands at a place.
pub(crate) trait Placed {
    ghost place: { Self → List Entry };

    /// The place.
    fn place(&self) -> &[Entry]
        ensures { result.now ≡ place self.now };
}

impl Placed for Seat {
    ghost place = { λ seat. seat_way seat };

    #[inline(always)]
    fn place(&self) -> &[Entry] {
        self.way()
    }
}

/// How many of these places, which rise, are less than this one. Before the place of no entries there is none. The last
/// two are looked at first, since a new place is behind all others nearly always.
pub(crate) fn count_less<T: Placed>(seats: &[T], place: &[Entry]) -> usize
    requires { Rising (map T.place seats.now) }
    ensures { Splits (map T.place seats.now) place.now result }
{
    if place.is_empty() {
        return 0;
    }
    let count = seats.len();
    if is_behind(seats, count, place) {
        return count;
    }
    let fewer = count - 1;
    if is_behind(seats, fewer, place) {
        return fewer;
    }
    count_by_halves(seats, place)
}

/// The same, where most likely `likely` of them are.
pub(crate) fn count_less_near<T: Placed>(seats: &[T], place: &[Entry], likely: usize) -> usize
    requires { Rising (map T.place seats.now) }
    ensures { Splits (map T.place seats.now) place.now result }
{
    if likely <= seats.len() && parts_at(seats, likely, place) {
        return likely;
    }
    count_less(seats, place)
}

/// Whether the first so many of these places, which rise, are less than this one, and no others.
fn parts_at<T: Placed>(seats: &[T], count: usize, place: &[Entry]) -> bool
    requires rising { Rising (map T.place seats.now) }
    requires within { count ≤ length seats.now }
    ensures { result ≡ true → Splits (map T.place seats.now) place.now count }
{
    if !is_behind(seats, count, place) {
        return false;
    }
    if count == seats.len() {
        return true;
    }
    let next = count + 1;
    !is_behind(seats, next, place)
}

/// Whether the first so many of these places, which rise, are less than this one. Else there is a last of them, and it
/// is not.
fn is_behind<T: Placed>(seats: &[T], count: usize, place: &[Entry]) -> bool
    requires rising { Rising (map T.place seats.now) }
    requires within { count ≤ length seats.now }
    ensures all { result ≡ true → AllLess (map T.place seats.now) count place.now }
    ensures none { result ≡ false → LastNotLess (map T.place seats.now) count place.now }
{
    if count == 0 {
        return true;
    }
    let last = count - 1;
    let seat = seats[last].place();
    let parted = fork(seat, place, 0);
    is_less(seat, place, parted)
}

/// How many of these places, which rise, are less than this one. What lies between two places that share some entries
/// with it shares them too, so no look begins at the first entry again.
fn count_by_halves<T: Placed>(seats: &[T], place: &[Entry]) -> usize
    requires { Rising (map T.place seats.now) }
    ensures { Splits (map T.place seats.now) place.now result }
{
    let mut low = 0;
    let mut high = seats.len();
    let mut low_shared = 0;
    let mut high_shared = 0;
    while low < high {
        let middle = low + (high - low) / 2;
        let seat = seats[middle].place();
        let parted = fork(seat, place, low_shared.min(high_shared));
        if is_less(seat, place, parted) {
            low = middle + 1;
            low_shared = parted;
        } else {
            high = middle;
            high_shared = parted;
        }
    }
    low
}
