// For how many those wait whose partner comes behind a place, as marks are taken away.
ghost use Rattle.std.specs.Prelude.{◌≡◌, ◌↔◌, ◌<◌, ◌≤◌, ℕ, length, slice_index, IfOk, IsTrue, OnOk};
ghost use Rattle.dependence.specs.LastEvents.{Uses};
ghost use Rattle.rings.specs.internal.Tally as model;

use crate::waits::is_marked;
use crate::way::small;
use dependence::UseTable;
use std::alloc::{AllocError, Global};

/// For each of so many numbers in how many of the first `rows` rows it stands.
pub(crate) fn counts_of(
    alloc: Global,
    edges: &UseTable,
    rows: usize,
    count: usize,
) -> Result<Vec<usize>, AllocError>
    requires { (j i : ℕ) → Uses edges.now j i → i < count }
    ensures size { IfOk result (λ counts. length counts.items ≡ count) }
    ensures counted { IfOk result (λ counts. (i : ℕ) →
        slice_index counts.items i ≡ model.tally (λ j. model.edge edges.now j i) rows) }
{
    let mut counts = no_counts(alloc, count)?;
    for number in 0..rows {
        raise(edges, number, &mut counts)?;
    }
    Ok(counts)
}

/// So many zeros.
fn no_counts(alloc: Global, count: usize) -> Result<Vec<usize>, AllocError>
    ensures size { IfOk result (λ counts. length counts.items ≡ count) }
    ensures zero { IfOk result (λ counts. (i : ℕ) → slice_index counts.items i ≡ 0) }
{
    Ok(vec![in alloc; 0; count]?)
}

/// Counts one more for each number in this row.
fn raise(edges: &UseTable, number: usize, counts: &mut Vec<usize>) -> Result<(), AllocError>
    requires { (i : ℕ) → Uses edges.now number i → i < length counts.old.items }
    ensures size { length counts.new.items ≡ length counts.old.items }
    ensures raised { OnOk result (model.Moved edges.now number counts.new.items counts.old.items) }
{
    let row = small(number as u64)?;
    let mut below = counts.len();
    'groups: while let Some(found) = edges.last(row, below as u64) {
        below = found as usize;
        add_one(counts, below)?;
    }
    Ok(())
}

/// One more.
fn add_one(counts: &mut Vec<usize>, index: usize) -> Result<(), AllocError>
    requires { index < length counts.old.items }
    ensures size { length counts.new.items ≡ length counts.old.items }
    ensures more { OnOk result (model.OneMore index counts.old.items counts.new.items) }
{
    let Some(more) = counts[index].checked_add(1) else {
        return Err(AllocError);
    };
    counts[index] = more;
    Ok(())
}

/// One less, and whether none is left.
fn take_one(counts: &mut Vec<usize>, index: usize) -> bool
    requires within { index < length counts.old.items }
    requires some { 1 ≤ slice_index counts.old.items index }
    ensures less { model.OneMore index counts.new.items counts.old.items }
    ensures none { IsTrue result ↔ (slice_index counts.new.items index ≡ 0) }
{
    let left = counts[index] - 1;
    counts[index] = left;
    left == 0
}

/// Puts those into `todo` that wait in the row of this number and are less than `limit`.
fn add_waiters(
    waiters: &UseTable,
    limit: usize,
    number: usize,
    todo: &mut Vec<usize>,
) -> Result<(), AllocError>
    ensures { OnOk result (model.Adds waiters.now limit number todo.old.items todo.new.items) }
{
    let row = small(number as u64)?;
    let mut below = limit;
    'waiters: while let Some(waiter) = waiters.last(row, below as u64) {
        below = waiter as usize;
        todo.push(below)?;
    }
    Ok(())
}

/// Counts one less for each number in this row, and puts those into `todo` that wait in the row of one of which none is
/// left.
fn lower(
    edges: &UseTable,
    waiters: &UseTable,
    limit: usize,
    number: usize,
    counts: &mut Vec<usize>,
    todo: &mut Vec<usize>,
) -> Result<(), AllocError>
    requires { (i : ℕ) → Uses edges.now number i →
        (i < length counts.old.items) × (1 ≤ slice_index counts.old.items i) }
    ensures { OnOk result (model.Lowered edges.now waiters.now limit number counts.old.items counts.new.items
        todo.old.items todo.new.items) }
{
    let row = small(number as u64)?;
    let mut below = counts.len();
    'groups: while let Some(found) = edges.last(row, below as u64) {
        below = found as usize;
        if take_one(counts, below) {
            add_waiters(waiters, limit, below, todo)?;
        }
    }
    Ok(())
}

/// Takes the marks of all away that stand in the row of this number, and counts them no more. Those that wait for none
/// any more are put into `todo`.
pub(crate) fn loosen(
    edges: &UseTable,
    beside: &UseTable,
    waiters: &UseTable,
    number: usize,
    marks: &mut Vec<bool>,
    counts: &mut Vec<usize>,
    todo: &mut Vec<usize>,
) -> Result<(), AllocError>
    requires rows { (j i : ℕ) → Uses edges.now j i → i < length counts.old.items }
    requires row { (i : ℕ) → Uses beside.now number i → i < length marks.old.items }
    requires counted { model.Counted edges.now (length marks.old.items) marks.old.items counts.old.items }
    ensures { OnOk result (model.Loosens edges.now beside.now waiters.now number marks.old.items marks.new.items
        counts.old.items counts.new.items todo.old.items todo.new.items) }
{
    let row = small(number as u64)?;
    let limit = marks.len();
    let mut below = limit;
    'clearing: while let Some(found) = beside.last(row, below as u64) {
        below = found as usize;
        if is_marked(marks.as_slice(), below) {
            marks[below] = false;
            lower(edges, waiters, limit, below, counts, todo)?;
        }
    }
    Ok(())
}
