// Refusals that show in the first entries of a stimulus, whatever stands behind them.
ghost use Rattle.std.specs.Prelude.{◌≡◌, ◌⊎◌, List, [], ◌++◌, None, IfErr, OnOk};
ghost use Rattle.elaborate.specs.Elaboration as model;
ghost use Rattle.elaborate.specs.Fit as fit;
ghost use Rattle.elaborate.specs.declared.stimulus.Entry.{Entry};
ghost use Rattle.refusals.specs.declared.elaborate.Fault.TheVariants.{Memory};

use crate::lookups::{NamedEntries, NamedPorts};
use crate::pass::root_ports;
use crate::ports::misfit;
use crate::{Fault, Stimulus};
use std::alloc::Global;
use types::Typed;

/// Refuses a stimulus that begins with the entries of `front`, where one of them does not fit the ports of the root, as
/// `elaborate` says: it refuses that line, whatever entries stand behind.
pub fn refuse_front(alloc: Global, typed: &Typed, front: &Stimulus) -> Result<(), Fault>
    ensures fits { OnOk result (fit.first_misfit (model.root_ports typed.now) [] front.now.entries ≡ None) }
    ensures fault { IfErr result (λ fault. (fault ≡ Memory)
        ⊎ ((later : List Entry) → model.IsRefused typed.now (front.now.entries ++ later) fault)) }
{
    let ports = NamedPorts::new(alloc, root_ports(typed.procedures()))?;
    let entries = NamedEntries::new(alloc, front.entries.as_slice())?;
    match misfit(&ports, &entries) {
        Some(line) => Err(Fault::BadStimulus(line)),
        None => Ok(()),
    }
}
