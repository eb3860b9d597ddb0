// What a new event finds by the variables that it writes and reads. What has a place before one of its own is left out,
// and so is a write that such an event has read: both are reached from what the places give, and else each read would
// sweep back to an old write.
ghost use Rattle.std.specs.Prelude.{◌≡◌, ◌≤◌, ◌⊎◌, ◌↔◌, ◌++◌, ◌∷◌, [], ℕ, Some, cond, true, IsTrue, IfOk};
ghost use Rattle.syntax.specs.Lists.{In};
ghost use Rattle.runs.specs.Live.{IsLive, LastWriter};
ghost use Rattle.dependence.specs.internal.Found.{AccessesFound, FirstBehind, IsBefore, IsDirect, IsReadBefore, ReaderSince, WritesOneRead, UsesWritten, IsNewEvent};

use crate::live_list::LiveList;
use crate::tables::Tables;
use runs::{Event, some_before};
use std::alloc::AllocError;

/// Among so many tickets it takes longer to look for one than to compare places.
const MANY: usize = 8;

/// A new event, of a ticket greater than the live ones, and the live events with their tables.
#[derive(Clone, Copy)]
pub(crate) struct NewEvent<'a> {
    pub(crate) list: &'a LiveList,
    pub(crate) tables: &'a Tables,
    pub(crate) ticket: u64,
    pub(crate) event: &'a Event,
}

impl NewEvent<'_> {
    /// Adds what is found by the variables that the event reads and writes.
    pub(crate) fn add_by_variables(&self, found: &mut Vec<u64>) -> Result<(), AllocError>
        requires { IsNewEvent self.now }
        ensures { IfOk result (λ _.
            AccessesFound self.now.list.now.live self.now.event.now
            (λ t. WritesOneRead self.now.list.now.live self.now.event.now.read t
            ⊎ UsesWritten self.now.list.now.live self.now.event.now t) found.old.items found.new.items) }
    {
        self.add_by_reads(found)?;
        self.add_by_write(found)
    }

    /// Adds the last writers of the variables that the event reads.
    fn add_by_reads(&self, found: &mut Vec<u64>) -> Result<(), AllocError>
        requires { IsNewEvent self.now }
        ensures { IfOk result (λ _.
            AccessesFound self.now.list.now.live self.now.event.now (WritesOneRead self.now.list.now.live self.now.event.now.read)
            found.old.items found.new.items) }
    {
        for variable in self.event.read.as_slice() {
            self.add_writer(*variable, found)?;
        }
        Ok(())
    }

    /// Adds the last writer of the variable that the event writes, and those that read it since.
    fn add_by_write(&self, found: &mut Vec<u64>) -> Result<(), AllocError>
        requires { IsNewEvent self.now }
        ensures { IfOk result (λ _.
            AccessesFound self.now.list.now.live self.now.event.now (UsesWritten self.now.list.now.live self.now.event.now)
            found.old.items found.new.items) }
    {
        match self.event.written {
            Some(variable) => {
                self.add_writer(variable, found)?;
                self.add_readers(variable, found)
            }
            None => Ok(()),
        }
    }

    /// Adds the last writer of the variable, unless it has a place before one of the event, or a reader of it since
    /// has. Such a reader stands no later than what the places have given.
    fn add_writer(&self, variable: u32, found: &mut Vec<u64>) -> Result<(), AllocError>
        requires new { IsNewEvent self.now }
        requires uses { In variable self.now.event.now.read ⊎ (self.now.event.now.written ≡ Some variable) }
        ensures { IfOk result (λ _.
            AccessesFound self.now.list.now.live self.now.event.now (LastWriter self.now.list.now.live variable) found.old.items
            found.new.items) }
    {
        match self.tables.writers.last(variable, self.ticket) {
            Some(writer) => {
                if is_found(found.as_slice(), writer) {
                    return Ok(());
                }
                let below = behind_all(found.as_slice());
                let by_place = self.is_before(writer)
                    || self.is_read_before(variable, writer, below);
                add_if(!by_place, writer, found)
            }
            None => Ok(()),
        }
    }

    /// Whether an event that reads the variable, of a ticket behind `writer` and less than `below`, has a place before
    /// one of the new event. It looks at the last one first, so in a loop no further back than the loop's own read.
    fn is_read_before(&self, variable: u32, writer: u64, below: u64) -> bool
        requires { IsNewEvent self.now }
        ensures { IsTrue result ↔ IsReadBefore self.now.list.now.live self.now.event.now variable writer below }
    {
        let mut end = below;
        while let Some(reader) = self.tables.readers.last(variable, end) {
            if reader <= writer {
                return false;
            }
            if self.is_before(reader) {
                return true;
            }
            end = reader;
        }
        false
    }

    /// Whether the live event has a place before one of the new event.
    fn is_before(&self, ticket: u64) -> bool
        requires new { IsNewEvent self.now }
        requires live { IsLive self.now.list.now.live ticket }
        ensures { IsTrue result ↔ IsBefore self.now.list.now.live self.now.event.now ticket }
    {
        some_before(self.list.event_of(ticket), self.event)
    }

    /// Adds those that read the variable since it was written last.
    fn add_readers(&self, variable: u32, found: &mut Vec<u64>) -> Result<(), AllocError>
        requires new { IsNewEvent self.now }
        requires writes { self.now.event.now.written ≡ Some variable }
        ensures { IfOk result (λ _.
            AccessesFound self.now.list.now.live self.now.event.now (ReaderSince self.now.list.now.live variable) found.old.items
            found.new.items) }
    {
        let from = self.last_write(variable);
        let readers = self.tables.readers.between(variable, from, self.ticket);
        self.add_accesses(readers, found)
    }

    /// The ticket of the last writer of the variable, 0 where there is none.
    fn last_write(&self, variable: u32) -> u64
        requires { IsNewEvent self.now }
        ensures below { result ≤ self.now.ticket }
        ensures last { (t : ℕ) → (result ≤ t) ↔ ((w : ℕ) → LastWriter self.now.list.now.live variable w → w ≤ t) }
    {
        match self.tables.writers.last(variable, self.ticket) {
            Some(writer) => writer,
            None => 0,
        }
    }

    /// Adds these live events, but for those that have a place before one of the new event.
    fn add_accesses(&self, tickets: &[u64], found: &mut Vec<u64>) -> Result<(), AllocError>
        requires new { IsNewEvent self.now }
        requires direct { (t : ℕ) → In t tickets.now → IsDirect self.now.list.now.live self.now.event.now t }
        ensures { IfOk result (λ _.
            AccessesFound self.now.list.now.live self.now.event.now
            (λ t. In t tickets.now) found.old.items found.new.items) }
    {
        for ticket in tickets {
            self.add_access(*ticket, found)?;
        }
        Ok(())
    }

    /// Adds the live event, unless it has a place before one of the new event.
    fn add_access(&self, ticket: u64, found: &mut Vec<u64>) -> Result<(), AllocError>
        requires new { IsNewEvent self.now }
        requires direct { IsDirect self.now.list.now.live self.now.event.now ticket }
        ensures { IfOk result (λ _.
            AccessesFound self.now.list.now.live self.now.event.now (λ t. t ≡ ticket) found.old.items found.new.items) }
    {
        if is_found(found.as_slice(), ticket) {
            return Ok(());
        }
        let by_place = self.is_before(ticket);
        add_if(!by_place, ticket, found)
    }
}

/// Whether the ticket is among these. Where they are many none is looked at.
fn is_found(found: &[u64], ticket: u64) -> bool
    ensures { result ≡ true → In ticket found.now }
{
    if found.len() > MANY {
        return false;
    }
    for other in found {
        if *other == ticket {
            return true;
        }
    }
    false
}

/// The first ticket behind all of these; 0 where there are none.
fn behind_all(tickets: &[u64]) -> u64
    ensures { FirstBehind tickets.now result }
{
    let mut end = 0;
    for ticket in tickets {
        if *ticket >= end {
            end = ticket.saturating_add(1);
        }
    }
    end
}

/// Adds the ticket where it is one of those that are looked for.
fn add_if(is_one: bool, ticket: u64, found: &mut Vec<u64>) -> Result<(), AllocError>
    ensures { IfOk result (λ _. found.new.items ≡ cond is_one (found.old.items ++ ticket ∷ []) found.old.items) }
{
    if is_one {
        found.push(ticket)?;
    }
    Ok(())
}
