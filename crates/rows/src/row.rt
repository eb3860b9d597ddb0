// Rows of items one after the other.
ghost use Rattle.std.specs.Prelude.{◌≡◌, ℕ, ◌<◌, ◌≤◌, ◌-◌, ◌++◌, ◌∷◌, [], length, take, drop, slice_get, Some, OnOk, OnErr, IfErr};
ghost use Rattle.std.specs.List.{remove};
ghost use Rattle.rows.specs.Flat.{flat, HoldsIndex};

use std::alloc::Global;

/// A row of so many items takes no more.
pub(crate) const FULL: usize = 128;

/// Some items.
#[derive(Drop)]
pub(crate) struct Row<T> {
    pub(crate) items: Vec<T>,
}

/// Where an item stands: the number of its row, and its place there.
#[derive(Clone, Copy)]
pub(crate) struct Spot {
    pub(crate) number: usize,
    pub(crate) place: usize,
}

/// Where the item at this index of all stands, of which there are `count`. The rows are gone through from the nearer end.
pub(crate) fn spot_of<T>(rows: &[Row<T>], count: usize, index: usize) -> Spot
    requires count { count ≡ length (flat rows.now) }
    requires inside { index < count }
    ensures { HoldsIndex rows.now index result.number result.place }
{
    if index < count / 2 {
        from_front(rows, index)
    } else {
        from_back(rows, count - index)
    }
}

/// Where the item stands that has so many others before it.
fn from_front<T>(rows: &[Row<T>], index: usize) -> Spot
    requires { index < length (flat rows.now) }
    ensures { HoldsIndex rows.now index result.number result.place }
{
    let mut left = index;
    for number in 0..rows.len() {
        let here = rows[number].items.len();
        if left < here {
            return Spot {
                number,
                place: left,
            };
        }
        left -= here;
    }
    unreachable!()
}

/// Where the item stands from which on there are so many, itself among them.
fn from_back<T>(rows: &[Row<T>], behind: usize) -> Spot
    requires some { 0 < behind }
    requires inside { behind ≤ length (flat rows.now) }
    ensures { HoldsIndex rows.now (length (flat rows.now) - behind) result.number result.place }
{
    let mut left = behind;
    let mut number = rows.len();
    while number > 0 {
        number -= 1;
        let here = rows[number].items.len();
        if left <= here {
            return Spot {
                number,
                place: here - left,
            };
        }
        left -= here;
    }
    unreachable!()
}

/// Puts the item behind those of the last row. Without memory it is handed back.
pub(crate) fn push_into_last<T>(rows: &mut Vec<Row<T>>, item: T) -> Result<(), T>
    requires { 0 < length rows.old.items }
    ensures pushed { OnOk result (flat rows.new.items ≡ flat rows.old.items ++ item ∷ []) }
    ensures refused { OnErr result (flat rows.new.items ≡ flat rows.old.items) }
    ensures back { IfErr result (λ back. back ≡ item) }
{
    let last = rows.len() - 1;
    let row = &mut rows[last];
    match row.items.push(item) {
        Ok(()) => Ok(()),
        Err(refused) => Err(refused.value),
    }
}

/// Puts the item into a row of its own, behind the others. Without memory it is handed back.
pub(crate) fn push_row<T>(alloc: Global, rows: &mut Vec<Row<T>>, item: T) -> Result<(), T>
    ensures pushed { OnOk result (flat rows.new.items ≡ flat rows.old.items ++ item ∷ []) }
    ensures refused { OnErr result (flat rows.new.items ≡ flat rows.old.items) }
    ensures back { IfErr result (λ back. back ≡ item) }
{
    if rows.reserve(1).is_err() {
        return Err(item);
    }
    match Vec::with_capacity(alloc, FULL) {
        Ok(mut items) => {
            items.push_reserved(item);
            rows.push_reserved(Row { items });
            Ok(())
        }
        Err(_) => Err(item),
    }
}

/// Takes the row of this number out where it has no items.
fn close_up<T: Drop>(rows: &mut Vec<Row<T>>, number: usize)
    requires { number < length rows.old.items }
    ensures before { take number rows.new.items ≡ take number rows.old.items }
    ensures behind { flat (drop number rows.new.items) ≡ flat (drop number rows.old.items) }
{
    if rows[number].items.is_empty() {
        rows.remove(number);
    }
}

/// Takes the item at this place of a row out, and its row with the last item of it.
pub(crate) fn take_out<T: Drop>(rows: &mut Vec<Row<T>>, number: usize, place: usize) -> T
    requires { (index : ℕ) × HoldsIndex rows.old.items index number place }
    ensures taken { (index : ℕ) → HoldsIndex rows.old.items index number place →
        flat rows.new.items ≡ remove (flat rows.old.items) index }
    ensures item { (index : ℕ) → HoldsIndex rows.old.items index number place →
        slice_get (flat rows.old.items) index ≡ Some result }
{
    let row = &mut rows[number];
    let item = row.items.remove(place);
    close_up(rows, number);
    item
}
