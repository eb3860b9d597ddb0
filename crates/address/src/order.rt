// How two addresses stand to one another.
ghost use Rattle.std.specs.Prelude.{◌≡◌, ◌↔◌, IsTrue};
ghost use Rattle.address.specs.Places.{Before};
ghost use Rattle.address.specs.Order.{order_of};
ghost use Rattle.address.specs.internal.Common.{AfterCommon, first_number_of};

use crate::{Address, Entry};
use std::cmp::Ordering;

/// Whether `a` comes before `b` in a sequence: at the first place at which they differ both
/// entries are ordered, and the number of `a` is less.
pub fn before(a: &Address, b: &Address) -> bool
    ensures { IsTrue result ↔ Before a.now b.now }
{
    let (a_rest, b_rest) = after_common(a.entries(), b.entries());
    match (first_number(a_rest), first_number(b_rest)) {
        (Some(i), Some(j)) => i < j,
        _ => false,
    }
}

/// Where `a` stands to `b` in one total order of all addresses: entry by entry, each ordered
/// number before each branch, then by the number, and a beginning before what goes on from it.
pub fn compare(a: &Address, b: &Address) -> Ordering
    ensures { result ≡ order_of a.now b.now }
{
    a.entries().cmp(b.entries())
}

// What is left of `a` and of `b` after their longest common beginning.
fn after_common<'a, 'b>(a: &'a [Entry], b: &'b [Entry]) -> (&'a [Entry], &'b [Entry])
    ensures { AfterCommon a.entry.now b.entry.now result.0.now result.1.now }
{
    let mut count = 0;
    while count < a.len() && count < b.len() && a[count] == b[count] {
        count += 1;
    }
    (&a[count..], &b[count..])
}

// The number of the first entry, if there is one and it is ordered.
fn first_number(entries: &[Entry]) -> Option<u32>
    ensures { result ≡ first_number_of entries.now }
{
    match entries.first()? {
        Entry::Ordered(number) => Some(*number),
        Entry::Branch(_) => None,
    }
}
