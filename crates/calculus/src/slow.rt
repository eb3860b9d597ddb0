ghost use Rattle.std.specs.Prelude.{◌≡◌, IfOk, MatchOption};
ghost use Rattle.std.specs.Option.{option_map, IfSome};
ghost use Rattle.runs.specs.Steps.{State, Run, opening};
ghost use Rattle.calculus.specs.Ruled.{RelatedInOrder, OneForEachChoice};
ghost use Rattle.runs.specs.internal.StepOf.{run_of};
ghost use Rattle.calculus.specs.ResidualTree.{state_of};
ghost use Rattle.runs.specs.Live.{events};

use crate::Plain;
use crate::start::opening;
use crate::step::step;
use runs::Event;
use sharing_check::Checked;
use std::alloc::{AllocError, Global};
use system::System;

/// The state to which the events lead in their order, from the state before the first event. `None` where one of them
/// is not allowed when its turn comes.
///
/// It goes through all events from the first: it is slow, and is there to be compared with.
pub fn replay(
    alloc: Global,
    system: &Checked,
    events: &[Event],
) -> Result<Option<Plain>, AllocError>
    ensures computed { IfOk result (λ r. option_map state_of r ≡ run_of (opening system.now) events.now) }
    ensures run { IfOk result (λ r.
        MatchOption r
        ((T : State) → Run (opening system.now) events.now T →
        ⊥) (λ p. Run (opening system.now) events.now (state_of p))) }
    // The system keeps the rule on sharing: what is related is ordered, and a choice means one event.
    ensures ruled { IfOk result (λ r.
        IfSome r (λ p. RelatedInOrder system.now events.now × OneForEachChoice (state_of p))) }
{
    system.shares_well();
    state_after(alloc, system.system(), events)
}

/// The state after the events in their order, if they are allowed in turn.
fn state_after(
    alloc: Global,
    system: &System,
    events: &[Event],
) -> Result<Option<Plain>, AllocError>
    ensures { IfOk result (λ r. option_map state_of r ≡ run_of (opening system.now) events.now) }
{
    let mut state = opening(alloc, system)?;
    for event in events {
        match step(alloc, &state, event)? {
            Some(next) => state = next,
            None => return Ok(None),
        }
    }
    Ok(Some(state))
}

/// The same for events with their tickets.
pub fn replay_live(
    alloc: Global,
    system: &Checked,
    live: &[(u64, Event)],
) -> Result<Option<Plain>, AllocError>
    ensures computed { IfOk result (λ r. option_map state_of r ≡ run_of (opening system.now) (events live.now)) }
    ensures run { IfOk result (λ r.
        MatchOption r
        ((T : State) → Run (opening system.now) (events live.now) T →
        ⊥) (λ p. Run (opening system.now) (events live.now) (state_of p))) }
{
    state_after_live(alloc, system.system(), live)
}

/// The state after the live events in their order, if they are allowed in turn.
fn state_after_live(
    alloc: Global,
    system: &System,
    live: &[(u64, Event)],
) -> Result<Option<Plain>, AllocError>
    ensures { IfOk result (λ r. option_map state_of r ≡ run_of (opening system.now) (events live.now)) }
{
    let mut state = opening(alloc, system)?;
    for (_, event) in live {
        match step(alloc, &state, event)? {
            Some(next) => state = next,
            None => return Ok(None),
        }
    }
    Ok(Some(state))
}
