// The way that a place takes in its branch.
ghost use Rattle.std.specs.Prelude.{◌≡◌, ◌≤◌, ◌↔◌, length, take, drop, true, false, IsTrue};
ghost use Rattle.dependence.specs.internal.Seats.{way_of, rest_of, ordered_of, number_of, AllOrdered, EndsAtBranch, IsWay};

use crate::forks::is_ordered;
use address::Entry;

/// How many entries there are up to the first branch number, with it.
pub(crate) fn way_length(place: &[Entry]) -> usize
    ensures within { result ≤ length place.now }
    ensures way { take result place.now ≡ way_of place.now }
    ensures rest { drop result place.now ≡ rest_of place.now }
{
    let mut count = 0;
    while is_ordered(place, count) {
        count += 1;
    }
    if count < place.len() {
        count + 1
    } else {
        count
    }
}

/// The ordered entries of a way.
#[inline(always)]
pub(crate) fn ordered(way: &[Entry]) -> &[Entry]
    requires { IsWay way.now }
    ensures { result.now ≡ ordered_of way.now }
{
    let Some((last, before)) = way.split_last() else {
        return way;
    };
    match last {
        Entry::Branch(_) => before,
        Entry::Ordered(_) => way,
    }
}

/// Whether a way ends with a branch number.
#[inline(always)]
pub(crate) fn ends_at_branch(way: &[Entry]) -> bool
    requires { IsWay way.now }
    ensures event { result ≡ false → AllOrdered way.now }
    ensures branch { result ≡ true → EndsAtBranch way.now }
{
    let Some((last, _)) = way.split_last() else {
        return false;
    };
    match last {
        Entry::Branch(_) => true,
        Entry::Ordered(_) => false,
    }
}

/// The branch number at the end of a way: of so many other branches it stands behind, if each has events.
#[inline(always)]
pub(crate) fn end_number(way: &[Entry]) -> usize
    ensures { IsWay way.now → result ≡ number_of way.now }
{
    let Some((last, _)) = way.split_last() else {
        return 0;
    };
    match last {
        Entry::Branch(number) => *number as usize,
        Entry::Ordered(_) => 0,
    }
}

/// Whether both are the same entries. The last ones are looked at first, since two ways of one branch mostly differ
/// there.
#[inline(always)]
pub(crate) fn is_same(one: &[Entry], other: &[Entry]) -> bool
    ensures { IsTrue result ↔ (one.now ≡ other.now) }
{
    if one.len() != other.len() {
        return false;
    }
    let mut index = one.len();
    while index > 0 {
        index -= 1;
        if !is_entry(one[index], other[index]) {
            return false;
        }
    }
    true
}

/// Whether both are the same entry.
#[inline(always)]
fn is_entry(one: Entry, other: Entry) -> bool
    ensures { IsTrue result ↔ (one ≡ other) }
{
    one == other
}
