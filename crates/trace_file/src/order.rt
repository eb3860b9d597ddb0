// Whether the live events of a loaded trace stand in their canonical order.
ghost use Rattle.std.specs.Prelude.{MatchOption, MatchResult};
ghost use Rattle.syntax.specs.Lists.{Every};
ghost use Rattle.system.specs.declared.system.System.{System};
ghost use Rattle.runs.specs.Choices.{choice_of};
ghost use Rattle.runs.specs.Live.{events};
ghost use Rattle.runs.specs.Steps.{State, Run, opening};
ghost use Rattle.trace_file.specs.TraceText.{IsWritable, KeepsOrder};
ghost use Rattle.trace_file.specs.internal.OneStep.{OrderStops, AllAtHome, FirstMoved};
ghost use Rattle.trace_file.specs.declared.version.Version.TheVariants.{Second};

use crate::version::Version;
use crate::{Fault, canonical_order};
use dependence::Live;
use machine::Machine;
use std::alloc::Global;

/// Refuses a machine whose events do not stand as a trace of this version has to have them.
pub(crate) fn refuse_disorder(
    alloc: Global,
    machine: &Machine,
    version: Version,
) -> Result<(), Fault>
    requires { Every (λ e. IsWritable (choice_of e)) (events machine.now.live) }
    ensures { MatchResult result (λ _. KeepsOrder version (events machine.now.live))
        (λ fault. OrderStops version (events machine.now.live) fault) }
{
    machine.is_sound();
    match version {
        Version::First => Ok(()),
        Version::Second => refuse_moved(alloc, machine.live_events()),
    }
}

/// Refuses live events that do not stand in canonical order.
fn refuse_moved(alloc: Global, live: &Live) -> Result<(), Fault>
    requires runs { (system : System) × (T : State) × Run (opening system) (events live.now.live) T }
    requires lines { Every (λ e. IsWritable (choice_of e)) (events live.now.live) }
    ensures { MatchResult result (λ _. KeepsOrder Second (events live.now.live))
        (λ fault. OrderStops Second (events live.now.live) fault) }
{
    let order = canonical_order(alloc, live)?;
    match first_moved(order.as_slice()) {
        Some(index) => Err(Fault::NotCanonical(index as u64 + 2)),
        None => Ok(()),
    }
}

/// The first of these indexes that does not stand at itself.
fn first_moved(indexes: &[usize]) -> Option<usize>
    ensures { MatchOption result (AllAtHome indexes.now) (λ k. FirstMoved indexes.now k) }
{
    for i in 0..indexes.len() {
        if indexes[i] != i {
            return Some(i);
        }
    }
    None
}
