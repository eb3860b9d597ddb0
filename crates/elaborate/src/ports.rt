// The stimulus against the ports of the root.
ghost use Rattle.std.specs.Prelude.{◌≡◌, ◌^◌, ◌-◌, [], length, min, nat_lt, take};
ghost use Rattle.std.specs.Option.{option_copied};
ghost use Rattle.elaborate.specs.Environment.{given_values};
ghost use Rattle.elaborate.specs.Fit as fit;
ghost use Rattle.elaborate.specs.SourceSize as source;

use crate::lookups::{NamedEntries, NamedPorts};
use crate::{Entry, Given};
use types::{Port, PortKind};
use value::{Value, Width};

/// The line of the first entry that does not fit the ports, if there is one.
pub fn misfit(ports: &NamedPorts<'_>, entries: &NamedEntries<'_>) -> Option<u64>
    ensures { result ≡ fit.first_misfit ports.now [] entries.now }
{
    for (position, entry) in entries.as_slice().iter().enumerate() {
        if !entry_fits(ports, entries, position, entry) {
            return Some(entry.line);
        }
    }
    None
}

/// Whether the entry names a port, of its kind, that holds its values, and no entry before its position is for that
/// port.
fn entry_fits(
    ports: &NamedPorts<'_>,
    entries: &NamedEntries<'_>,
    position: usize,
    entry: &Entry,
) -> bool
    ensures { result ≡ fit.entry_fits ports.now (take position entries.now) entry.now }
{
    port_takes(ports, entry) && !entries.is_named_before(position, entry.name.text())
}

/// Whether the entry names a port, of its kind, that holds its values.
fn port_takes(ports: &NamedPorts<'_>, entry: &Entry) -> bool
    ensures { result ≡ fit.port_takes (fit.kind_named ports.now entry.now.name) entry.now.given }
{
    match ports.kind(entry.name.text()) {
        Some(kind) => kind_takes(kind, &entry.given),
        None => false,
    }
}

/// Whether a port of the kind can be given this.
fn kind_takes(kind: PortKind, given: &Given) -> bool
    ensures { result ≡ fit.kind_takes kind given.now }
{
    match kind {
        PortKind::Input(width) => match given {
            Given::Values(values) => all_fit(values.as_slice(), width),
            Given::Syncs(_) => false,
        },
        PortKind::Output(_) => false,
        PortKind::Sync => match given {
            Given::Values(_) => false,
            Given::Syncs(_) => true,
        },
    }
}

/// Whether each value is below two to the power of the width.
fn all_fit(values: &[u64], width: Width) -> bool
    ensures { result ≡ fit.all_fit values.now width }
{
    for value in values {
        if !holds(width, *value) {
            return false;
        }
    }
    true
}

/// Whether the value is below two to the power of the width.
fn holds(width: Width, value: u64) -> bool
    ensures { result ≡ nat_lt value (2 ^ width) }
{
    Value::new(value, width.bits()).is_some()
}

/// How many values the environment sends on the ports, or the largest number of 64 bits.
pub fn value_count(ports: &[Port], entries: &NamedEntries<'_>) -> usize
    ensures { result ≡ min (source.sent_on entries.now ports.now) (2 ^ 64 - 1) }
{
    let mut count: usize = 0;
    for port in ports {
        let entry = entries.find(port.name.text());
        count = count.saturating_add(values_sent(port.kind, entry));
    }
    count
}

/// How many values the environment sends on a port of the kind, whose entry, if it has one, is this.
fn values_sent(kind: PortKind, entry: Option<&Entry>) -> usize
    ensures { result ≡ source.sent kind (option_copied entry.entry) }
{
    match kind {
        PortKind::Input(_) => match entry {
            Some(entry) => count_given(&entry.given),
            None => 0,
        },
        PortKind::Output(_) | PortKind::Sync => 0,
    }
}

/// How many values are given.
fn count_given(given: &Given) -> usize
    ensures { result ≡ length (given_values given.now) }
{
    match given {
        Given::Values(values) => values.len(),
        Given::Syncs(_) => 0,
    }
}
