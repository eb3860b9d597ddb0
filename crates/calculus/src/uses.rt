// Which variables the events have used so far, and where those events stand in the other list.
ghost use Rattle.std.specs.Prelude.{◌≡◌, ◌⊎◌, ◌↔◌, ℕ, ◌<◌, ◌≤◌, Some, IsTrue, IfOk};
ghost use Rattle.syntax.specs.Lists.{In};
ghost use Rattle.dependence.specs.LastEvents as last;
ghost use Rattle.calculus.specs.internal.Comparing.{AllBefore, UsesPut, NoUses};

use dependence::UseTable;
use runs::Event;
use std::alloc::{AllocError, Global};

/// The places of the events that wrote a variable, and of those that read or wrote it.
#[derive(Drop)]
pub(crate) struct Uses {
    writers: UseTable,
    users: UseTable,
}

impl Uses {
    pub(crate) fn new(alloc: Global) -> Uses
        ensures { NoUses result }
    {
        Uses {
            writers: UseTable::new(alloc),
            users: UseTable::new(alloc),
        }
    }

    /// Whether all that used a variable of the event, where one of the two writes it, stand before this place of
    /// `count`.
    pub(crate) fn all_before(&self, event: &Event, place: u64, count: u64) -> bool
        requires { place ≤ count }
        ensures { IsTrue result ↔ AllBefore self.now event.now place count }
    {
        let reads_follow = none_from(&self.writers, event.read.as_slice(), place, count);
        let write_follows = match event.written {
            Some(variable) => self.users.first(variable, place, count).is_none(),
            None => true,
        };
        reads_follow && write_follows
    }

    /// Puts the uses of the event at this place.
    pub(crate) fn put(&mut self, event: &Event, place: u64) -> Result<(), AllocError>
        ensures { IfOk result (λ _. UsesPut self.old event.now place self.new) }
    {
        put_all(&mut self.users, event.read.as_slice(), place)?;
        if let Some(variable) = event.written {
            self.users.put(variable, place)?;
            self.writers.put(variable, place)?;
        }
        Ok(())
    }
}

/// Whether no use of the variables stands from this place on to below `count`.
fn none_from(table: &UseTable, variables: &[u32], place: u64, count: u64) -> bool
    requires { place ≤ count }
    ensures { IsTrue result ↔ ((x t : ℕ) → In x variables.now → last.Uses table.now x t → t < count → t < place) }
{
    for variable in variables {
        if table.first(*variable, place, count).is_some() {
            return false;
        }
    }
    true
}

/// Puts a use of each of the variables at this place.
fn put_all(table: &mut UseTable, variables: &[u32], place: u64) -> Result<(), AllocError>
    ensures { IfOk result (λ _. (x t : ℕ) →
        last.Uses table.new x t ↔ (last.Uses table.old x t ⊎ (In x variables.now × (t ≡ place)))) }
{
    for variable in variables {
        table.put(*variable, place)?;
    }
    Ok(())
}
