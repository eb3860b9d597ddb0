// An item more, an item less, and the places that are empty.
ghost use Rattle.std.specs.Prelude.{◌≡◌, ◌+◌, ◌-◌, ◌*◌, ◌<◌, ◌≤◌, ◌++◌, ◌∷◌, ◌⊎◌, [], ℕ, length, true, false, is_some, slice_get, Option, Some, OnOk};
ghost use Rattle.syntax.specs.Lists.{In};
ghost use Rattle.std.specs.List.{remove};
ghost use Rattle.indexmap.specs.IndexMap.{spare};
ghost use Rattle.slots.specs.Places.{filled, rank, Counted, RiseFrom, EndsFilled, EndsEmpty, HasItem};

use crate::blocks::BLOCK;
use crate::tickets::Slots;
use std::alloc::AllocError;

/// Room for one more item. Without memory nothing changes.
pub fn make_room<T>(slots: &mut Slots<T>, counts: &mut Vec<u8>) -> Result<(), AllocError>
    requires { Counted slots.old.entries counts.old.items }
    ensures entries { slots.new.entries ≡ slots.old.entries }
    ensures counted { Counted slots.new.entries counts.new.items }
    ensures room { OnOk result (0 < spare slots.new) }
    ensures block { OnOk result (length slots.new.entries < 64 * length counts.new.items) }
{
    slots.reserve(1)?;
    if counts.len() <= slots.len() / BLOCK {
        counts.push(0)?;
    }
    Ok(())
}

/// Puts an item behind all, where there is room for it.
pub fn push<T: Drop>(slots: &mut Slots<T>, counts: &mut [u8], ticket: u64, item: T)
    requires rising { RiseFrom 0 slots.old.entries }
    requires counted { Counted slots.old.entries counts.old }
    requires above { (t : ℕ) (o : Option T) → In (t, o) slots.old.entries → t < ticket }
    requires room { 0 < spare slots.old }
    requires block { length slots.old.entries < 64 * length counts.old }
    ensures pushed { slots.new.entries ≡ slots.old.entries ++ (ticket, Some item) ∷ [] }
    ensures counted { Counted slots.new.entries counts.new }
{
    let number = slots.len() / BLOCK;
    counts[number] += 1;
    slots.insert(ticket, Some(item)).unwrap();
}

/// Takes the item at this place out, which leaves the place empty.
pub fn take_at<T>(slots: &mut Slots<T>, counts: &mut [u8], place: usize) -> T
    requires counted { Counted slots.old.entries counts.old }
    requires here { HasItem slots.old.entries place }
    ensures filled { filled slots.new.entries ≡ remove (filled slots.old.entries) (rank slots.old.entries place) }
    ensures counted { Counted slots.new.entries counts.new }
    ensures rising { RiseFrom 0 slots.old.entries → RiseFrom 0 slots.new.entries }
    ensures item { (t : ℕ) × (slice_get slots.old.entries place ≡ Some (t, Some result)) }
    ensures size { length slots.new.entries ≡ length slots.old.entries }
    ensures room { spare slots.new ≡ spare slots.old }
{
    let number = place / BLOCK;
    counts[number] -= 1;
    match slots[place].take() {
        Some(item) => item,
        None => unreachable!(),
    }
}

/// Takes away the empty places behind the last item.
pub fn cut_end<T: Drop>(slots: &mut Slots<T>, counts: &[u8])
    requires counted { Counted slots.old.entries counts.now }
    requires rising { RiseFrom 0 slots.old.entries }
    ensures filled { filled slots.new.entries ≡ filled slots.old.entries }
    ensures counted { Counted slots.new.entries counts.now }
    ensures rising { RiseFrom 0 slots.new.entries }
    ensures last { EndsFilled slots.new.entries }
    ensures room { spare slots.old ≤ spare slots.new }
{
    while ends_empty(slots) {
        let last = slots.len() - 1;
        slots.truncate(last);
    }
}

/// Whether the last place is empty.
fn ends_empty<T>(slots: &Slots<T>) -> bool
    ensures no { result ≡ false → EndsFilled slots.now.entries }
    ensures yes { result ≡ true → EndsEmpty slots.now.entries }
{
    match slots.last() {
        Some((_, item)) => item.is_none(),
        None => false,
    }
}

/// Takes away all empty places. It takes no memory.
pub fn close_up<T: Drop>(slots: &mut Slots<T>, counts: &mut [u8])
    requires counted { Counted slots.old.entries counts.old }
    requires rising { RiseFrom 0 slots.old.entries }
    ensures filled { filled slots.new.entries ≡ filled slots.old.entries }
    ensures counted { Counted slots.new.entries counts.new }
    ensures rising { RiseFrom 0 slots.new.entries }
    ensures last { EndsFilled slots.new.entries }
    ensures room { spare slots.old ≤ spare slots.new }
{
    slots.retain(
        |_ticket: &u64, item: &mut Option<T>| -> bool
            ensures { (result ≡ is_some item.old) × (item.new ≡ item.old) }
        { item.is_some() },
    );
    count_all(counts, slots.len());
}

/// Tells each block how many items it has, where none of `len` places is empty.
fn count_all(counts: &mut [u8], len: usize)
    ensures size { length counts.new ≡ length counts.old }
    ensures counted { (b n : ℕ) → slice_get counts.new b ≡ Some n →
        ((64 * b + 64 ≤ len) × (n ≡ 64)) ⊎ ((len < 64 * b + 64) × (n ≡ len - 64 * b)) }
{
    let mut left = len;
    for number in 0..counts.len() {
        let here = within_block(left);
        counts[number] = here as u8;
        left -= here;
    }
}

/// How many of so many items one block takes.
fn within_block(left: usize) -> usize
    ensures { ((left < 64) × (result ≡ left)) ⊎ ((64 ≤ left) × (result ≡ 64)) }
{
    if left < BLOCK { left } else { BLOCK }
}
