// Where two places part.
ghost use Rattle.std.specs.Prelude.{◌≡◌, slice_get};
ghost use Rattle.std.specs.Ordering.{is_lt};
ghost use Rattle.address.specs.Order.{order_of};
ghost use Rattle.dependence.specs.internal.Forks.{IsFork, Shares, is_ordered_entry};

use address::Entry;

/// How many entries both have in common at their beginning. The first `shared` are known to be.
#[inline(always)]
pub(crate) fn fork(a: &[Entry], b: &[Entry], shared: usize) -> usize
    requires { Shares shared a.now b.now }
    ensures { IsFork result a.now b.now }
{
    let mut count = shared;
    while count < a.len() && count < b.len() && a[count] == b[count] {
        count += 1;
    }
    count
}

/// Whether there is an entry at this index, and it is ordered.
#[inline(always)]
pub(crate) fn is_ordered(place: &[Entry], index: usize) -> bool
    ensures { result ≡ is_ordered_entry (slice_get place.now index) }
{
    match place.get(index) {
        Some(Entry::Ordered(_)) => true,
        _ => false,
    }
}

/// Whether the first place is less than the second, where they part at this index.
#[inline(always)]
pub(crate) fn is_less(a: &[Entry], b: &[Entry], fork: usize) -> bool
    requires { IsFork fork a.now b.now }
    ensures { result ≡ is_lt (order_of a.now b.now) }
{
    if fork >= b.len() {
        return false;
    }
    if fork >= a.len() {
        return true;
    }
    a[fork].cmp(&b[fork]).is_lt()
}
