// The places of events, branch by branch.
ghost use Rattle.std.specs.Prelude.{◌≡◌, List, None, OnOk, OnErr};
ghost use Rattle.address.specs.declared.Entry.{Entry};
ghost use Rattle.dependence.specs.LastEvents.{ticket_at, first_child, Orderly, PutAt, RemovedAt, Same, LastBefore};

use crate::branch::BranchEvents;
use address::{Address, Entry};
use std::alloc::{AllocError, Global};
use std::marker::Model;

/// Which event stands at which place. Contracts see the places with their tickets.
#[derive(Drop)]
pub struct PlaceTable {
    alloc: Global,
    events: BranchEvents,
}

impl Model for PlaceTable {
    ghost use Rattle.std.specs.Prelude.{ℕ, List};
    ghost use Rattle.address.specs.declared.Entry.{Entry};

    ghost Value = { List (List Entry × ℕ) };

    ghost view = { λ table. table.events };
}

impl PlaceTable {
    /// No places. It takes no memory yet.
    pub fn new(alloc: Global) -> PlaceTable
        ensures { (a : List Entry) → ticket_at result a ≡ None }
    {
        PlaceTable {
            alloc,
            events: BranchEvents::new(alloc),
        }
    }

    /// The ticket of the event that stands at the first child of the place. It takes no memory.
    pub fn at_first_child(&self, place: &[Entry]) -> Option<u64>
        ensures { result ≡ ticket_at self.now (first_child place.now) }
    {
        self.events.at_first_child(place)
    }

    /// Puts the event of this ticket at the place, before which or apart from which all others are, and adds the
    /// tickets of events that stand before this place, so that each other place before it comes before the place of
    /// one of them. Without memory for it the table is as before. It takes as many steps as there are such tickets and
    /// entries in the place: in each branch it comes last, or into the parallel at the end, whose branches are found
    /// by their numbers.
    pub fn put(
        &mut self,
        place: &Address,
        ticket: u64,
        found: &mut Vec<u64>,
    ) -> Result<(), AllocError>
        requires { Orderly self.old place.now }
        ensures put { OnOk result (PutAt self.old place.now ticket self.new) }
        ensures found { OnOk result (LastBefore self.old place.now found.old.items found.new.items) }
        ensures refused { OnErr result (Same self.old self.new) }
    {
        self.events
            .put(self.alloc, &[], place.entries(), ticket, found)
    }

    /// Takes out what stands at the place.
    pub fn remove(&mut self, place: &Address)
        ensures { RemovedAt self.old place.now self.new }
    {
        self.events.remove(place.entries());
    }
}
