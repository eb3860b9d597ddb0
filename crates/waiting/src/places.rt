// The places that events have, found by halves.
ghost use Rattle.std.specs.Prelude.{◌≡◌, ◌||◌, List, IfOk};
ghost use Rattle.address.specs.declared.Entry.{Entry};
ghost use Rattle.waiting.specs.internal.Among.{has_any, has_place, is_second};
ghost use Rattle.waiting.specs.internal.Held.{is_there, Has, PutAt};

use address::{Address, Entry};
use runs::Event;
use std::alloc::{AllocError, Global};
use std::collections::BTreeMap;

/// The places that some events have.
#[derive(Drop)]
pub(crate) struct Places {
    map: BTreeMap<Vec<Entry>, u64>,
}

impl Places {
    /// Those that these events have.
    pub(crate) fn of(alloc: Global, events: &[Event]) -> Result<Places, AllocError>
        ensures { IfOk result (λ places. Has places events.now) }
    {
        let mut places = Places {
            map: BTreeMap::new(alloc),
        };
        for event in events {
            places.put_event(alloc, event)?;
        }
        Ok(places)
    }

    /// Puts the places of an event.
    fn put_event(&mut self, alloc: Global, event: &Event) -> Result<(), AllocError>
        ensures { IfOk result (λ _. (a : List Entry) →
            is_there self.new a ≡ (is_there self.old a || has_place a event.now)) }
    {
        self.put(alloc, &event.first)?;
        match &event.second {
            Some(second) => self.put(alloc, second),
            None => Ok(()),
        }
    }

    /// Puts a place.
    fn put(&mut self, alloc: Global, place: &Address) -> Result<(), AllocError>
        ensures { IfOk result (λ _. PutAt self.old place.now self.new) }
    {
        let key = Vec::from_slice(alloc, place.entries())?;
        self.map.insert(key, 0)?;
        Ok(())
    }

    /// Whether the place is one of them.
    pub(crate) fn has(&self, place: &Address) -> bool
        ensures { result ≡ is_there self.now place.now }
    {
        self.map.get(place.entries()).copied().is_some()
    }
}
