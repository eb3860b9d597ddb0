// What an event puts into a table, and takes out of it.
ghost use Rattle.std.specs.Prelude.{◌≡◌, ℕ, Some, OnOk};
ghost use Rattle.address.specs.Places.{Apart};
ghost use Rattle.syntax.specs.Lists.{In};
ghost use Rattle.dependence.specs.LastEvents.{IsAt, Uses, Orderly};
ghost use Rattle.runs.specs.Events.{places};
ghost use Rattle.runs.specs.Moves.{Place};
ghost use Rattle.dependence.specs.internal.Found.{FoundByPlace};
ghost use Rattle.dependence.specs.internal.Tabled.{MorePlaces, MoreUses, FewerPlaces, FewerUses, written_of};

use crate::{PlaceTable, UseTable};
use runs::Event;
use std::alloc::AllocError;

/// Puts the event at its places, where none stands, or at those that there is memory for, and adds the last events
/// before each.
pub(crate) fn put_places(
    table: &mut PlaceTable,
    ticket: u64,
    event: &Event,
    found: &mut Vec<u64>,
) -> Result<(), AllocError>
    requires free { (a : Place) (t : ℕ) → In a (places event.now) → IsAt table.old a t → ⊥ }
    requires own { (b : Place) → event.now.second ≡ Some b → Apart event.now.first b }
    requires orderly { (b : Place) → In b (places event.now) → Orderly table.old b }
    ensures more { MorePlaces table.old ticket (places event.now) table.new }
    ensures all { OnOk result ((a : Place) → In a (places event.now) → IsAt table.new a ticket) }
    ensures found { OnOk result (FoundByPlace table.old (places event.now) found.old.items found.new.items) }
{
    table.put(&event.first, ticket, found)?;
    match &event.second {
        Some(second) => table.put(second, ticket, found),
        None => Ok(()),
    }
}

/// Takes out what stands at the places of the event.
pub(crate) fn remove_places(table: &mut PlaceTable, event: &Event)
    ensures { FewerPlaces table.old (places event.now) table.new }
{
    table.remove(&event.first);
    if let Some(second) = &event.second {
        table.remove(second);
    }
}

/// Puts the use of the variable that is written, if there is one.
pub(crate) fn put_written(
    table: &mut UseTable,
    ticket: u64,
    written: Option<u32>,
) -> Result<(), AllocError>
    ensures more { MoreUses table.old ticket (written_of written) table.new }
    ensures all { OnOk result ((x : ℕ) → In x (written_of written) → Uses table.new x ticket) }
{
    match written {
        Some(variable) => table.put(variable, ticket),
        None => Ok(()),
    }
}

/// Takes out the use of the variable that is written, if there is one.
pub(crate) fn remove_written(table: &mut UseTable, ticket: u64, written: Option<u32>)
    ensures { FewerUses table.old ticket (written_of written) table.new }
{
    if let Some(variable) = written {
        table.remove(variable, ticket);
    }
}

/// Puts the uses of these variables, or of those that there is memory for.
pub(crate) fn put_reads(
    table: &mut UseTable,
    ticket: u64,
    variables: &[u32],
) -> Result<(), AllocError>
    ensures more { MoreUses table.old ticket variables.now table.new }
    ensures all { OnOk result ((x : ℕ) → In x variables.now → Uses table.new x ticket) }
{
    for variable in variables {
        table.put(*variable, ticket)?;
    }
    Ok(())
}

/// Takes out the uses of these variables.
pub(crate) fn remove_reads(table: &mut UseTable, ticket: u64, variables: &[u32])
    ensures { FewerUses table.old ticket variables.now table.new }
{
    for variable in variables {
        table.remove(*variable, ticket);
    }
}
