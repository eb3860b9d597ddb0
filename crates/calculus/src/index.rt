// Where the events of a list stand, found by their acting addresses.
ghost use Rattle.std.specs.Prelude.{◌≡◌, IfOk};
ghost use Rattle.calculus.specs.internal.Comparing.{ActsOnce, place_at, PutAt, Indexes};

use address::{Address, Entry};
use runs::Event;
use std::alloc::{AllocError, Global};
use std::collections::BTreeMap;

/// Where the events of a list stand, by their acting addresses.
#[derive(Drop)]
pub(crate) struct Index {
    map: BTreeMap<Vec<Entry>, u64>,
}

impl Index {
    /// The index of a list in which no two events have one acting address.
    pub(crate) fn of(alloc: Global, events: &[Event]) -> Result<Index, AllocError>
        requires { ActsOnce events.now }
        ensures { IfOk result (λ index. Indexes index events.now) }
    {
        let mut index = Index {
            map: BTreeMap::new(alloc),
        };
        for place in 0..events.len() {
            index.put(alloc, events[place].acting_place(), place as u64)?;
        }
        Ok(index)
    }

    /// Puts the place of the event that acts at the address.
    fn put(&mut self, alloc: Global, address: &Address, place: u64) -> Result<(), AllocError>
        ensures { IfOk result (λ _. PutAt self.old address.now place self.new) }
    {
        let key = Vec::from_slice(alloc, address.entries())?;
        self.map.insert(key, place)?;
        Ok(())
    }

    /// Where the event that acts at the address stands; `None` where none does.
    pub(crate) fn place(&self, address: &Address) -> Option<u64>
        ensures { result ≡ place_at self.now address.now }
    {
        self.map.get(address.entries()).copied()
    }
}
