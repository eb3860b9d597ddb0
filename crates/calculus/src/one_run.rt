// Two lists of events as one run.
ghost use Rattle.std.specs.Prelude.{◌↔◌, IsTrue, IfOk, MatchOption};
ghost use Rattle.std.specs.Option.{IfSome};
ghost use Rattle.runs.specs.Dependence.{Causes, Respecting};
ghost use Rattle.calculus.specs.ResidualTree.{state_of};
ghost use Rattle.runs.specs.Steps.{State, Run, opening};
ghost use Rattle.runs.specs.declared.event.Event as any;
ghost use Rattle.calculus.specs.OneRun.{OneRun};

use crate::alike::are_alike;
use crate::{Plain, replay};
use runs::Event;
use sharing_check::Checked;
use std::alloc::{AllocError, Global};

/// The one state to which both lists lead, where both run, they have the same events, and any two of these that are on
/// one shared variable, one of them writing it, stand in one order in both. Each list is then a respecting order of the
/// other. Else `None`. It is an error if there is no memory.
///
/// It replays both lists, and compares them in a number of steps that grows as theirs, each by halves.
pub fn same_run(
    alloc: Global,
    system: &Checked,
    a: &[Event],
    b: &[Event],
) -> Result<Option<Plain>, AllocError>
    ensures one { IfOk result (λ r.
        MatchOption r
        (OneRun system.now a.now b.now →
        ⊥) (λ p. OneRun system.now a.now b.now × Run (opening system.now) a.now (state_of p)
        × Run (opening system.now) b.now (state_of p))) }
    ensures orders { IfOk result (λ r. IfSome r (λ _. Respecting a.now b.now × Respecting b.now a.now)) }
    ensures dependents { IfOk result (λ r. IfSome r (λ _. (e f : any.Event) → Causes a.now e f ↔ Causes b.now e f)) }
{
    system.shares_well();
    if !does_run(alloc, system, a)? {
        return Ok(None);
    }
    let Some(state) = replay(alloc, system, b)? else {
        return Ok(None);
    };
    if are_alike(alloc, a, b)? {
        Ok(Some(state))
    } else {
        Ok(None)
    }
}

/// Whether the events run.
fn does_run(alloc: Global, system: &Checked, events: &[Event]) -> Result<bool, AllocError>
    ensures { IfOk result (λ run. IsTrue run ↔ ((T : State) × Run (opening system.now) events.now T)) }
{
    Ok(replay(alloc, system, events)?.is_some())
}
