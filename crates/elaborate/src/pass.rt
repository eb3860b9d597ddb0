ghost use Rattle.std.specs.Prelude.{◌≡◌, ◌⊎◌, ◌↔◌, IsTrue, IfOk, IfErr, OnOk};
ghost use Rattle.elaborate.specs.Elaboration as model;
ghost use Rattle.elaborate.specs.Size.{IsSmall, system_size};
ghost use Rattle.elaborate.specs.internal.Walked.{walked_system};
ghost use Rattle.refusals.specs.declared.elaborate.Fault.TheVariants.{Memory};

use crate::body::called_body;
use crate::count::is_small;
use crate::environment::branches;
use crate::instance::Entrance;
use crate::lookups::{NamedEntries, NamedPorts};
use crate::made::Made;
use crate::ports::{misfit, value_count};
use crate::{Entry, Fault, Stimulus};
use std::alloc::{AllocError, Global};
use system::{Prefix, System, VariableTable};
use types::{Port, Procedure, Typed};

/// The one system that the description and the stimulus give: its last procedure is the root, whose body is the main
/// part, and the environment has a branch for each port of it.
///
/// Refused is, first, the least line of the stimulus that names no port of the root or one of another kind, names a
/// port again, or has a value that its port does not hold; and then a system of more than 16,384 nodes, or with a
/// command inside more than 1,024 others. That is counted before the system is made.
pub fn elaborate(alloc: Global, typed: &Typed, stimulus: &Stimulus) -> Result<System, Fault>
    ensures system { IfOk result (λ system. system ≡ model.system_of typed.now stimulus.now.entries) }
    ensures accepted { OnOk result (model.IsAccepted typed.now stimulus.now.entries) }
    ensures fault { IfErr result (λ fault. (fault ≡ Memory) ⊎ model.IsRefused typed.now stimulus.now.entries fault) }
{
    system_of(alloc, typed.procedures(), stimulus.entries.as_slice())
}

/// The system that the procedures and the entries of a stimulus give.
pub(crate) fn system_of(
    alloc: Global,
    procedures: &[Procedure],
    entries: &[Entry],
) -> Result<System, Fault>
    ensures system { IfOk result (λ system. system ≡ model.system_of procedures.now entries.now) }
    ensures accepted { OnOk result (model.IsAccepted procedures.now entries.now) }
    ensures fault { IfErr result (λ fault. (fault ≡ Memory) ⊎ model.IsRefused procedures.now entries.now fault) }
{
    let named_ports = NamedPorts::new(alloc, root_ports(procedures))?;
    let named_entries = NamedEntries::new(alloc, entries)?;
    system_by_names(alloc, procedures, &named_ports, &named_entries)
}

/// The same, where ports and entries are found by their names. (It owns nothing that an early end would drop, which
/// keeps its proof cheap.)
fn system_by_names(
    alloc: Global,
    procedures: &[Procedure],
    ports: &NamedPorts<'_>,
    entries: &NamedEntries<'_>,
) -> Result<System, Fault>
    requires { ports.now ≡ model.root_ports procedures.now }
    ensures system { IfOk result (λ system. system ≡ model.system_of procedures.now entries.now) }
    ensures accepted { OnOk result (model.IsAccepted procedures.now entries.now) }
    ensures fault { IfErr result (λ fault. (fault ≡ Memory) ⊎ model.IsRefused procedures.now entries.now fault) }
{
    if let Some(line) = misfit(ports, entries) {
        return Err(Fault::BadStimulus(line));
    }
    if !is_within_limits(alloc, procedures, entries)? {
        return Err(Fault::TooManyNodes);
    }
    let system = made_system(alloc, procedures, entries)?;
    Ok(system)
}

/// Whether the system is within the limits.
fn is_within_limits(
    alloc: Global,
    procedures: &[Procedure],
    entries: &NamedEntries<'_>,
) -> Result<bool, AllocError>
    ensures { IfOk result (λ small.
        IsTrue small ↔ IsSmall (system_size (model.system_of procedures.now entries.now))) }
{
    let ports = root_ports(procedures);
    let small = is_small(alloc, procedures, ports.len(), value_count(ports, entries))?;
    Ok(small)
}

/// The ports of the root.
pub(crate) fn root_ports(procedures: &[Procedure]) -> &[Port]
    ensures { result.now ≡ model.root_ports procedures.entry.now }
{
    match procedures.get(procedures.len().saturating_sub(1)) {
        Some(root) => root.ports.as_slice(),
        None => &[],
    }
}

/// The system, once it was counted: nothing past the limits is made.
fn made_system(
    alloc: Global,
    procedures: &[Procedure],
    entries: &NamedEntries<'_>,
) -> Result<System, AllocError>
    requires { IsSmall (system_size (model.system_of procedures.now entries.now)) }
    ensures { IfOk result (λ system. system ≡ model.system_of procedures.now entries.now) }
{
    let system = system_in_order(alloc, procedures, entries)?;
    Ok(system)
}

/// The system, as it is made one part behind the other.
fn system_in_order(
    alloc: Global,
    procedures: &[Procedure],
    entries: &NamedEntries<'_>,
) -> Result<System, AllocError>
    ensures { IfOk result (λ system. system ≡ walked_system procedures.now entries.now) }
{
    let ports = root_ports(procedures);
    let environment = branches(alloc, ports, entries)?;
    let mut made = Made::nothing(alloc);
    let entrance = Entrance {
        ports: made.ports(alloc, ports)?,
        prefix: Prefix::root(),
    };
    let root = procedures.len().saturating_sub(1);
    let main = called_body(alloc, root, entrance, procedures, &mut made)?;
    let Made {
        variables,
        channels,
        calls: _,
    } = made;
    Ok(System {
        main,
        environment,
        variables: VariableTable::new(alloc, variables)?,
        channels,
    })
}
