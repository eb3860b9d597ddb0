// From an index among the items that are there to its place, and back.
ghost use Rattle.std.specs.Prelude.{◌≡◌, ◌+◌, ◌*◌, ◌<◌, ◌≤◌, length};
ghost use Rattle.slots.specs.Places.{filled, rank, Counted, StandsFor, HasItem};

use crate::tickets::Slots;

/// So many places are counted together.
pub(crate) const BLOCK: usize = 64;

/// The place of the item at this index among those that are there, of which there are `count`. Where no place is empty
/// it is the index, else it takes as long as to go through the counts on one side.
#[inline(always)]
pub fn place_at<T>(slots: &Slots<T>, counts: &[u8], count: usize, index: usize) -> usize
    requires counted { Counted slots.now.entries counts.now }
    requires count { count ≡ length (filled slots.now.entries) }
    requires within { index < count }
    ensures { StandsFor slots.now.entries index result }
{
    if count == slots.len() {
        return index;
    }
    let (number, left) = block_of(slots, counts, count, index);
    place_from(slots, BLOCK * number, left)
}

/// The number of the block that has the item at this index, and its index among the items of the block; there are
/// `count` items in all. The counts are gone through on the shorter side.
fn block_of<T>(slots: &Slots<T>, counts: &[u8], count: usize, index: usize) -> (usize, usize)
    requires counted { Counted slots.now.entries counts.now }
    requires count { count ≡ length (filled slots.now.entries) }
    requires within { index < count }
    ensures sum { rank slots.now.entries (64 * result.0) + result.1 ≡ index }
    ensures within { 64 * result.0 < length slots.now.entries }
{
    if index <= count / 2 {
        return block_at(slots, counts, index);
    }
    block_back(slots, counts, count, index)
}

/// The same, looked for from the last block on.
fn block_back<T>(slots: &Slots<T>, counts: &[u8], count: usize, index: usize) -> (usize, usize)
    requires counted { Counted slots.now.entries counts.now }
    requires count { count ≡ length (filled slots.now.entries) }
    requires within { index < count }
    ensures sum { rank slots.now.entries (64 * result.0) + result.1 ≡ index }
    ensures within { 64 * result.0 < length slots.now.entries }
{
    let mut number = counts.len();
    let mut before = count;
    while before > index {
        number -= 1;
        before -= counts[number] as usize;
    }
    (number, index - before)
}

/// The same, looked for from the first block on.
fn block_at<T>(slots: &Slots<T>, counts: &[u8], index: usize) -> (usize, usize)
    requires counted { Counted slots.now.entries counts.now }
    requires within { index < length (filled slots.now.entries) }
    ensures sum { rank slots.now.entries (64 * result.0) + result.1 ≡ index }
    ensures within { 64 * result.0 < length slots.now.entries }
{
    // The length is what says that numbers of blocks fit.
    let _len = slots.len();
    let mut number = 0;
    let mut left = index;
    while left >= counts[number] as usize {
        left -= counts[number] as usize;
        number += 1;
    }
    (number, left)
}

/// The place of the item that has so many others before it from the place `start` on.
fn place_from<T>(slots: &Slots<T>, start: usize, before: usize) -> usize
    requires { rank slots.now.entries start + before < length (filled slots.now.entries) }
    ensures { StandsFor slots.now.entries (rank slots.now.entries start + before) result }
{
    let mut left = before;
    for place in start..slots.len() {
        let here = items_at(slots, place);
        if left < here {
            return place;
        }
        left -= here;
    }
    unreachable!()
}

/// How many items are at this place, one or none.
fn items_at<T>(slots: &Slots<T>, place: usize) -> usize
    requires { place < length slots.now.entries }
    ensures next { rank slots.now.entries (place + 1) ≡ rank slots.now.entries place + result }
    ensures most { result ≤ 1 }
    ensures item { 0 < result → HasItem slots.now.entries place }
{
    match &slots[place] {
        Some(_) => 1,
        None => 0,
    }
}

/// How many items are there before this place; there are `count` in all. It takes as long as `place_at`. Its block is gone
/// through on the shorter side.
pub fn index_at<T>(slots: &Slots<T>, counts: &[u8], count: usize, place: usize) -> usize
    requires counted { Counted slots.now.entries counts.now }
    requires count { count ≡ length (filled slots.now.entries) }
    requires within { place < length slots.now.entries }
    ensures { result ≡ rank slots.now.entries place }
{
    if count == slots.len() {
        return place;
    }
    let number = place / BLOCK;
    let start = BLOCK * number;
    let end = start + BLOCK;
    if place - start > BLOCK / 2 && end <= slots.len() {
        return before_block(slots, counts, count, number + 1) - between(slots, place, end);
    }
    before_block(slots, counts, count, number) + between(slots, start, place)
}

/// How many items are there before this block; there are `count` in all. The counts are gone through on the shorter side.
fn before_block<T>(slots: &Slots<T>, counts: &[u8], count: usize, number: usize) -> usize
    requires counted { Counted slots.now.entries counts.now }
    requires count { count ≡ length (filled slots.now.entries) }
    requires within { number ≤ length counts.now }
    ensures { result ≡ rank slots.now.entries (64 * number) }
{
    let blocks = counts.len();
    if number <= blocks / 2 {
        return in_blocks(slots, counts, 0, number);
    }
    count - in_blocks(slots, counts, number, blocks)
}

/// How many items the blocks have from one number on and before another.
fn in_blocks<T>(slots: &Slots<T>, counts: &[u8], from: usize, to: usize) -> usize
    requires counted { Counted slots.now.entries counts.now }
    requires order { from ≤ to }
    requires within { to ≤ length counts.now }
    ensures { rank slots.now.entries (64 * from) + result ≡ rank slots.now.entries (64 * to) }
{
    // The length is what says that the sum fits.
    let _len = slots.len();
    let mut sum = 0;
    for at in from..to {
        sum += counts[at] as usize;
    }
    sum
}

/// How many items are there from one place on and before another.
fn between<T>(slots: &Slots<T>, start: usize, end: usize) -> usize
    requires order { start ≤ end }
    requires within { end ≤ length slots.now.entries }
    ensures { rank slots.now.entries start + result ≡ rank slots.now.entries end }
{
    // The length is what says that the sum fits.
    let _len = slots.len();
    let mut sum = 0;
    for place in start..end {
        sum += items_at(slots, place);
    }
    sum
}
