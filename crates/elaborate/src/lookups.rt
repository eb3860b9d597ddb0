// The ports of the root and the entries of a stimulus by name, each over an index that is made once.
ghost use Rattle.std.specs.Prelude.{◌≡◌, is_some, option_map, slice_get, take, IfOk};
ghost use Rattle.std.specs.Option.{option_copied};
ghost use Rattle.elaborate.specs.Fit as fit;

use crate::Entry;
use crate::names::Places;
use std::alloc::{AllocError, Global};
use std::marker::Model;
use types::{Port, PortKind};

/// Ports by name, which contracts see as their list.
#[derive(Drop)]
pub struct NamedPorts<'a> {
    ports: &'a [Port],
    positions: Places,
}

impl<'a> Model for NamedPorts<'a> {
    ghost use Rattle.std.specs.Prelude.{◌≡◌, List, map};
    ghost use Rattle.types.specs.declared.tree.Port.{Port};

    ghost Value = { List Port };

    ghost use Rattle.elaborate.specs.internal.NamePositions.{positions_of};

    ghost view = { λ named. named.ports.now };

    ghost invariant = { λ named. named.positions ≡ positions_of (map (λ p. p.name) named.ports.now) };
}

impl<'a> NamedPorts<'a> {
    /// These ports.
    pub fn new(alloc: Global, ports: &'a [Port]) -> Result<NamedPorts<'a>, AllocError>
        ensures { IfOk result (λ named. named ≡ ports.now) }
    {
        let mut positions = Places::new(alloc);
        for (position, port) in ports.iter().enumerate() {
            positions.note(alloc, &port.name, position)?;
        }
        Ok(NamedPorts { ports, positions })
    }

    /// The kind of the first port of this name.
    pub fn kind(&self, name: &[u8]) -> Option<PortKind>
        ensures { result ≡ fit.kind_named self.now name.now }
    {
        match self.positions.find(name) {
            Some(position) => kind_at(self.ports, position),
            None => None,
        }
    }
}

/// The kind of the port at this position.
fn kind_at(ports: &[Port], position: usize) -> Option<PortKind>
    ensures { result ≡ option_map (λ port. port.kind) (slice_get ports.now position) }
{
    match ports.get(position) {
        Some(port) => Some(port.kind),
        None => None,
    }
}

/// Entries by name, which contracts see as their list.
#[derive(Drop)]
pub struct NamedEntries<'a> {
    entries: &'a [Entry],
    positions: Places,
}

impl<'a> Model for NamedEntries<'a> {
    ghost use Rattle.std.specs.Prelude.{◌≡◌, List, map};
    ghost use Rattle.elaborate.specs.declared.stimulus.Entry.{Entry};

    ghost Value = { List Entry };

    ghost use Rattle.elaborate.specs.internal.NamePositions.{positions_of};

    ghost view = { λ named. named.entries.now };

    ghost invariant = { λ named. named.positions ≡ positions_of (map (λ e. e.name) named.entries.now) };
}

impl<'a> NamedEntries<'a> {
    /// These entries.
    pub fn new(alloc: Global, entries: &'a [Entry]) -> Result<NamedEntries<'a>, AllocError>
        ensures { IfOk result (λ named. named ≡ entries.now) }
    {
        let mut positions = Places::new(alloc);
        for (position, entry) in entries.iter().enumerate() {
            positions.note(alloc, &entry.name, position)?;
        }
        Ok(NamedEntries { entries, positions })
    }

    /// The entries in order.
    pub fn as_slice(&self) -> &[Entry]
        ensures { result.now ≡ self.now }
    {
        self.entries
    }

    /// The first entry for the port of this name.
    pub fn find(&self, name: &[u8]) -> Option<&Entry>
        ensures { option_copied result ≡ fit.entry_named self.now name.now }
    {
        match self.positions.find(name) {
            Some(position) => entry_at(self.entries, position),
            None => None,
        }
    }

    /// Whether an entry before the one at this position is for the port of this name.
    pub fn is_named_before(&self, position: usize, name: &[u8]) -> bool
        ensures { result ≡ is_some (fit.entry_named (take position self.now) name.now) }
    {
        match self.positions.find(name) {
            Some(first) => first < position,
            None => false,
        }
    }
}

/// The entry at this position.
fn entry_at(entries: &[Entry], position: usize) -> Option<&Entry>
    ensures { option_copied result ≡ slice_get entries.entry.now position }
{
    entries.get(position)
}
