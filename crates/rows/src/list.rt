ghost use Rattle.std.specs.Prelude.{◌≡◌, ◌<◌, ◌++◌, ◌∷◌, [], length, slice_get, slice_set, true, OnOk, OnErr, IfErr, Some};
ghost use Rattle.std.specs.List.{remove};

use crate::row::{FULL, Row, push_into_last, push_row, spot_of, take_out};
use std::alloc::Global;
use std::marker::Model;

/// A list that contracts see as the list of its items. They stand in rows of at most 128, so an item that is taken out
/// moves fewer than these. It is looked for from the nearer end, row by row.
#[derive(Drop)]
pub struct Rows<T> {
    alloc: Global,
    rows: Vec<Row<T>>,
    count: usize,
}

impl<T> Model for Rows<T> {
    ghost use Rattle.std.specs.Prelude.{◌≡◌, List, length};
    ghost use Rattle.std.specs.Coded.{coded_list};

    ghost Value = { List T };

    ghost coded = { coded_list T.code };

    ghost use Rattle.rows.specs.Flat.{flat};

    ghost view = { λ list. flat list.rows.items };

    ghost invariant = { λ list. list.count ≡ length (flat list.rows.items) };
}

impl<T> Rows<T> {
    /// No items, and no memory yet.
    pub fn new(alloc: Global) -> Rows<T>
        ensures { result ≡ [] }
    {
        Rows {
            alloc,
            rows: Vec::new(alloc),
            count: 0,
        }
    }

    /// How many items there are.
    pub fn len(&self) -> usize
        ensures { result ≡ length self.now }
    {
        self.count
    }

    /// The item at this index, counted from 0.
    pub fn get(&self, index: usize) -> &T
        requires { index < length self.now }
        ensures { slice_get self.now index ≡ Some result.now }
    {
        let spot = spot_of(self.rows.as_slice(), self.count, index);
        let row = &self.rows[spot.number];
        &row.items[spot.place]
    }

    /// Puts the item behind all. Without memory it is handed back, and nothing changes.
    pub fn push(&mut self, item: T) -> Result<(), T>
        ensures pushed { OnOk result (self.new ≡ self.old ++ item ∷ []) }
        ensures refused { OnErr result (self.new ≡ self.old) }
        ensures back { IfErr result (λ back. back ≡ item) }
    {
        let Some(count) = self.count.checked_add(1) else {
            return Err(item);
        };
        if has_room(self.rows.as_slice()) {
            push_into_last(&mut self.rows, item)?;
        } else {
            push_row(self.alloc, &mut self.rows, item)?;
        }
        self.count = count;
        Ok(())
    }

    /// Puts another item at this index, counted from 0. What stood there is handed out.
    pub fn replace(&mut self, index: usize, item: T) -> T
        requires { index < length self.old }
        ensures changed { self.new ≡ slice_set self.old index item }
        ensures item { slice_get self.old index ≡ Some result }
    {
        let spot = spot_of(self.rows.as_slice(), self.count, index);
        let row = &mut self.rows[spot.number];
        std::mem::replace(&mut row.items[spot.place], item)
    }
}

impl<T: Drop> Rows<T> {
    /// Takes out the item at this index, counted from 0.
    pub fn remove(&mut self, index: usize) -> T
        requires { index < length self.old }
        ensures taken { self.new ≡ remove self.old index }
        ensures item { slice_get self.old index ≡ Some result }
    {
        let spot = spot_of(self.rows.as_slice(), self.count, index);
        self.count -= 1;
        take_out(&mut self.rows, spot.number, spot.place)
    }
}

/// Whether the last row takes one more.
fn has_room<T>(rows: &[Row<T>]) -> bool
    ensures { result ≡ true → 0 < length rows.now }
{
    match rows.last() {
        Some(row) => row.items.len() < FULL,
        None => false,
    }
}
