// The events that use a number: for each number its tickets, which ascend.
ghost use Rattle.std.specs.Prelude.{◌≡◌, ◌<◌, ◌≤◌, ◌⊎◌, ◌↔◌, ◌^◌, ℕ, [], length, map, slice_index_or, MatchOption, OnOk, OnErr};
ghost use Rattle.syntax.specs.Lists.{In};
ghost use Rattle.dependence.specs.LastEvents.{Uses, LastUse, FirstUse};
ghost use Rattle.dependence.specs.internal.Tickets.{AllAscend, rows_of};

use crate::tickets::{first_from, last_below, put_ticket, remove_ticket, within};
use std::alloc::{AllocError, Global};
use std::marker::Model;

/// Which events use which number, as the tickets of each number from 0 on. It takes memory for a list of each number up
/// to the greatest that is put: the numbers are few, as those of the variables or channels of one system, or of places
/// in a list, to which other crates put numbers in place of tickets.
#[derive(Drop)]
pub struct UseTable {
    alloc: Global,
    rows: Vec<Vec<u64>>,
}

impl Model for UseTable {
    ghost use Rattle.std.specs.Prelude.{ℕ, List};

    ghost Value = { List (List ℕ) };

    ghost use Rattle.dependence.specs.internal.Tickets.{rows_of, AllAscend};

    ghost view = { λ table. rows_of table.rows.items };

    ghost invariant = { λ table. AllAscend table.rows.items };
}

impl UseTable {
    /// No uses. It takes no memory yet.
    pub fn new(alloc: Global) -> UseTable
        ensures { (x t : ℕ) → Uses result x t → ⊥ }
    {
        UseTable {
            alloc,
            rows: Vec::new(alloc),
        }
    }

    /// Puts a use of the number by the event of this ticket. Without memory for it, or for a list of each number up to
    /// this one, the table is as before.
    pub fn put(&mut self, number: u32, ticket: u64) -> Result<(), AllocError>
        ensures put { OnOk result ((x t : ℕ) → Uses self.new x t ↔
            (Uses self.old x t ⊎ ((x ≡ number) × (t ≡ ticket)))) }
        ensures refused { OnErr result ((x t : ℕ) → Uses self.new x t ↔ Uses self.old x t) }
    {
        make_rows(self.alloc, &mut self.rows, number as usize)?;
        put_use(&mut self.rows, number as usize, ticket)
    }

    /// Takes out the use of the number by the event of this ticket. It takes no memory.
    pub fn remove(&mut self, number: u32, ticket: u64)
        ensures { (x t : ℕ) → Uses self.new x t ↔ (Uses self.old x t × (((x ≡ number) × (t ≡ ticket)) → ⊥)) }
    {
        remove_use(&mut self.rows, number as usize, ticket);
    }

    /// The greatest ticket, less than `below`, of an event that uses the number. The last of all is found at once.
    pub fn last(&self, number: u32, below: u64) -> Option<u64>
        ensures { MatchOption result ((t : ℕ) → Uses self.now number t → t < below →
            ⊥) (LastUse self.now number below) }
    {
        let tickets = row_at(self.rows.as_slice(), number as usize);
        last_below(tickets, below)
    }

    /// The least ticket, from `from` on and less than `below`, of an event that uses the number.
    pub fn first(&self, number: u32, from: u64, below: u64) -> Option<u64>
        requires { from ≤ below }
        ensures { MatchOption result ((t : ℕ) → Uses self.now number t → from ≤ t → t < below →
            ⊥) (FirstUse self.now number from below) }
    {
        let tickets = row_at(self.rows.as_slice(), number as usize);
        first_from(tickets, from, below)
    }

    /// The tickets, from `from` on and less than `below`, of the events that use the number.
    pub fn between(&self, number: u32, from: u64, below: u64) -> &[u64]
        requires { from ≤ below }
        ensures { (t : ℕ) → In t result.now ↔ (Uses self.now number t × (from ≤ t) × (t < below)) }
    {
        let tickets = row_at(self.rows.as_slice(), number as usize);
        within(tickets, from, below)
    }
}

/// The tickets of this number: none behind the last row.
fn row_at(rows: &[Vec<u64>], number: usize) -> &[u64]
    requires { AllAscend rows.now }
    ensures { result.now ≡ slice_index_or (rows_of rows.now) number [] }
{
    match rows.get(number) {
        Some(row) => row.as_slice(),
        None => &[],
    }
}

/// Makes rows without tickets up to that of this number, in one growth.
fn make_rows(alloc: Global, rows: &mut Vec<Vec<u64>>, number: usize) -> Result<(), AllocError>
    requires { number < 2 ^ 32 }
    ensures same { (x : ℕ) →
        slice_index_or (rows_of rows.new.items) x [] ≡ slice_index_or (rows_of rows.old.items) x [] }
    ensures within { OnOk result (number < length rows.new.items) }
{
    if number < rows.len() {
        return Ok(());
    }
    rows.reserve(number + 1 - rows.len())?;
    'rows: while rows.len() <= number {
        rows.push(Vec::new(alloc))?;
    }
    Ok(())
}

/// Puts the ticket into the row of the number. Without memory for it all stay.
fn put_use(rows: &mut Vec<Vec<u64>>, number: usize, ticket: u64) -> Result<(), AllocError>
    requires ascend { AllAscend rows.old.items }
    requires within { number < length rows.old.items }
    ensures ascend { AllAscend rows.new.items }
    ensures put { OnOk result ((x t : ℕ) → Uses (rows_of rows.new.items) x t ↔
        (Uses (rows_of rows.old.items) x t ⊎ ((x ≡ number) × (t ≡ ticket)))) }
    ensures refused { OnErr result ((x t : ℕ) → Uses (rows_of rows.new.items) x t ↔ Uses (rows_of rows.old.items) x t) }
{
    put_ticket(&mut rows[number], ticket)
}

/// Takes the ticket out of the row of the number.
fn remove_use(rows: &mut Vec<Vec<u64>>, number: usize, ticket: u64)
    requires { AllAscend rows.old.items }
    ensures ascend { AllAscend rows.new.items }
    ensures removed { (x t : ℕ) → Uses (rows_of rows.new.items) x t ↔
        (Uses (rows_of rows.old.items) x t × (((x ≡ number) × (t ≡ ticket)) → ⊥)) }
{
    if number < rows.len() {
        remove_ticket(&mut rows[number], ticket);
    }
}
