// What the environment does on the ports of the root.
ghost use Rattle.std.specs.Prelude.{◌≡◌, IfOk};
ghost use Rattle.std.specs.Option.{option_copied};
ghost use Rattle.elaborate.specs.Environment as environment;
ghost use Rattle.elaborate.specs.Fit as fit;
ghost use Rattle.elaborate.specs.internal.Making.{capped_number};
ghost use Rattle.elaborate.specs.internal.Walked.{walked_branches};

use crate::lookups::NamedEntries;
use crate::made::capped_number;
use crate::{Entry, Given};
use std::alloc::{AllocError, Global};
use syntax::Items;
use system::Branch;
use types::{Port, PortKind};
use value::{MOST_BITS, Value, Width};

/// The branch of the environment for each port.
pub fn branches(
    alloc: Global,
    ports: &[Port],
    entries: &NamedEntries<'_>,
) -> Result<Items<Branch>, AllocError>
    ensures { IfOk result (λ made. made ≡ walked_branches entries.now 0 ports.now) }
{
    let mut branches = Items::with_capacity(alloc, ports.len())?;
    for (position, port) in ports.iter().enumerate() {
        branches.push(branch_of(alloc, position, port, entries)?)?;
    }
    Ok(branches)
}

/// What the environment does on the port at this position: what its entry gives, else nothing.
fn branch_of(
    alloc: Global,
    position: usize,
    port: &Port,
    entries: &NamedEntries<'_>,
) -> Result<Branch, AllocError>
    ensures { IfOk result (λ made.
        made
        ≡ environment.branch_on (capped_number position) port.now.kind
        (fit.entry_named entries.now port.now.name)) }
{
    let channel = capped_number(position);
    let entry = entries.find(port.name.text());
    match port.kind {
        PortKind::Input(width) => {
            let values = values_of(alloc, width, entry)?;
            Ok(Branch::Feed(channel, width, values))
        }
        PortKind::Output(_) => Ok(Branch::Drain(channel)),
        PortKind::Sync => Ok(Branch::Syncs(channel, syncs_of(entry))),
    }
}

/// The values that the entry gives, at the width.
fn values_of(alloc: Global, width: Width, entry: Option<&Entry>) -> Result<Items<Value>, AllocError>
    ensures { IfOk result (λ made.
        made ≡ environment.at_width width (environment.values_of (option_copied entry.entry))) }
{
    match entry {
        Some(entry) => given_values(alloc, width, &entry.given),
        None => Ok(Items::new(alloc)),
    }
}

/// The values that are given, at the width.
fn given_values(alloc: Global, width: Width, given: &Given) -> Result<Items<Value>, AllocError>
    ensures { IfOk result (λ made. made ≡ environment.at_width width (environment.given_values given.now)) }
{
    match given {
        Given::Values(values) => at_width(alloc, values.as_slice(), width),
        Given::Syncs(_) => Ok(Items::new(alloc)),
    }
}

/// The numbers as values of the width.
fn at_width(alloc: Global, numbers: &[u64], width: Width) -> Result<Items<Value>, AllocError>
    ensures { IfOk result (λ made. made ≡ environment.at_width width numbers.now) }
{
    let mut values = Items::with_capacity(alloc, numbers.len())?;
    for number in numbers {
        values.push(value::resize(Value::make(*number, MOST_BITS), width.bits()))?;
    }
    Ok(values)
}

/// How many handshakes the entry asks for.
fn syncs_of(entry: Option<&Entry>) -> u32
    ensures { result ≡ environment.syncs_of (option_copied entry.entry) }
{
    match entry {
        Some(entry) => given_syncs(&entry.given),
        None => 0,
    }
}

/// How many handshakes are asked for.
fn given_syncs(given: &Given) -> u32
    ensures { result ≡ environment.given_syncs given.now }
{
    match given {
        Given::Values(_) => 0,
        Given::Syncs(count) => *count,
    }
}
