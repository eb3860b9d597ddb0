// Which live event stands at which place, and which of them write and read which variable.
ghost use Rattle.std.specs.Prelude.{◌≡◌, ℕ, [], OnOk};
ghost use Rattle.syntax.specs.Lists.{In};
ghost use Rattle.dependence.specs.LastEvents.{Uses};
ghost use Rattle.dependence.specs.internal.Tabled.{TablesOf, MoreUses, FewerTables, written_of};

use crate::puts::{put_reads, put_written, remove_places, remove_reads, remove_written};
use crate::{PlaceTable, UseTable};
use runs::Event;
use std::alloc::{AllocError, Global};

/// The places of live events, and the variables that they write and read, with their tickets.
#[derive(Drop)]
pub(crate) struct Tables {
    pub(crate) places: PlaceTable,
    pub(crate) writers: UseTable,
    pub(crate) readers: UseTable,
}

impl Tables {
    /// No events. It takes no memory yet.
    pub(crate) fn new(alloc: Global) -> Tables
        ensures { TablesOf [] result }
    {
        Tables {
            places: PlaceTable::new(alloc),
            writers: UseTable::new(alloc),
            readers: UseTable::new(alloc),
        }
    }

    /// Puts the uses of an event into the tables, or those that there is memory for.
    pub(crate) fn put_uses(&mut self, ticket: u64, event: &Event) -> Result<(), AllocError>
        ensures places { self.new.places ≡ self.old.places }
        ensures writers { MoreUses self.old.writers ticket (written_of event.now.written) self.new.writers }
        ensures readers { MoreUses self.old.readers ticket event.now.read self.new.readers }
        ensures written { OnOk result ((x : ℕ) → In x (written_of event.now.written) → Uses self.new.writers x ticket) }
        ensures read { OnOk result ((x : ℕ) → In x event.now.read → Uses self.new.readers x ticket) }
    {
        put_written(&mut self.writers, ticket, event.written)?;
        put_reads(&mut self.readers, ticket, event.read.as_slice())
    }

    /// Takes an event out of the tables.
    pub(crate) fn remove(&mut self, ticket: u64, event: &Event)
        ensures { FewerTables self.old ticket event.now self.new }
    {
        remove_places(&mut self.places, event);
        remove_written(&mut self.writers, ticket, event.written);
        remove_reads(&mut self.readers, ticket, event.read.as_slice());
    }
}
