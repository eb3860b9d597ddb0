// Which numbers stand at which place.
ghost use Rattle.std.specs.Prelude.{◌≡◌, ◌⊎◌, ◌↔◌, ℕ, None, OnOk};
ghost use Rattle.runs.specs.Moves.{Place};
ghost use Rattle.rings.specs.internal.Standing.{Sound, StandsAt, row_at};

use address::Entry;
use dependence::UseTable;
use std::alloc::{AllocError, Global};
use std::collections::BTreeMap;

/// Which numbers stand at which place. Each place has a row of a table, found by halves.
#[derive(Drop)]
pub(crate) struct PlaceUses {
    rows: BTreeMap<Vec<Entry>, u32>,
    pub(crate) count: u32,
    pub(crate) uses: UseTable,
}

impl PlaceUses {
    /// None stand anywhere.
    pub(crate) fn new(alloc: Global) -> PlaceUses
        ensures sound { Sound result }
        ensures none { (a : Place) (i : ℕ) → StandsAt result a i → ⊥ }
    {
        PlaceUses {
            rows: BTreeMap::new(alloc),
            count: 0,
            uses: UseTable::new(alloc),
        }
    }

    /// Puts a number at the place.
    pub(crate) fn put(
        &mut self,
        alloc: Global,
        place: &[Entry],
        number: u64,
    ) -> Result<(), AllocError>
        requires { Sound self.old }
        ensures sound { OnOk result (Sound self.new) }
        ensures put { OnOk result ((a : Place) (i : ℕ) → StandsAt self.new a i ↔
            (StandsAt self.old a i ⊎ ((a ≡ place.now) × (i ≡ number)))) }
    {
        match self.row(place) {
            Some(row) => self.uses.put(row, number),
            None => self.put_first(alloc, place, number),
        }
    }

    /// Puts a number at a place where none stand.
    fn put_first(&mut self, alloc: Global, place: &[Entry], number: u64) -> Result<(), AllocError>
        requires sound { Sound self.old }
        requires first { row_at self.old place.now ≡ None }
        ensures sound { OnOk result (Sound self.new) }
        ensures put { OnOk result ((a : Place) (i : ℕ) → StandsAt self.new a i ↔
            (StandsAt self.old a i ⊎ ((a ≡ place.now) × (i ≡ number)))) }
    {
        let row = self.count;
        if row == u32::MAX {
            return Err(AllocError);
        }
        let key = Vec::from_slice(alloc, place)?;
        self.rows.insert(key, row)?;
        self.uses.put(row, number)?;
        self.count = row + 1;
        Ok(())
    }

    /// The row of the place, if it has one.
    pub(crate) fn row(&self, place: &[Entry]) -> Option<u32>
        ensures { result ≡ row_at self.now place.now }
    {
        self.rows.get(place).copied()
    }
}
