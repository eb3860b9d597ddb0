// One event, taken in a state.
ghost use Rattle.std.specs.Prelude.{◌≡◌, Option, Some, IfOk, MatchOption, cond, None};
ghost use Rattle.std.specs.Option.{option_map, option_and_then};
ghost use Rattle.system.specs.Expression as expression;
ghost use Rattle.calculus.specs.ResidualTree.{residual_of_tree, state_of};
ghost use Rattle.calculus.specs.internal.Meanings.{move_of};
ghost use Rattle.runs.specs.internal.After as after;
ghost use Rattle.runs.specs.Events.{store_after};
ghost use Rattle.runs.specs.Steps.{State, Step};
ghost use Rattle.runs.specs.WellFormed.{WellFormed};
ghost use Rattle.runs.specs.internal.Made.{made_together};
ghost use Rattle.runs.specs.internal.Below.{apart};
ghost use Rattle.runs.specs.internal.StepOf.{step_of, agreed};
ghost use Rattle.calculus.specs.internal.Sides as sides;

use crate::Plain;
use crate::apart::are_apart;
use crate::make_event::{made_alone, made_together};
use crate::moves::{Move, Moved};
use crate::offers::after;
use crate::residual_tree::ResidualTree;
use address::Address;
use runs::{Ask, Event, Kind};
use std::alloc::{AllocError, Global};
use syntax::Shared;
use value::Value;

impl Plain {
    /// The state after the event. `None` where the event is not allowed.
    pub fn after(&self, alloc: Global, event: &Event) -> Result<Option<Plain>, AllocError>
        ensures computed { IfOk result (λ r. option_map state_of r ≡ step_of (state_of self.now) event.now) }
        ensures step { WellFormed (state_of self.now).residual →
            IfOk result (λ r.
            MatchOption r
            ((T : State) → Step (state_of self.now) event.now T →
            ⊥) (λ p. Step (state_of self.now) event.now (state_of p))) }
    {
        step(alloc, self, event)
    }
}

/// The state after the event. `None` where the event is not allowed.
pub(crate) fn step(alloc: Global, state: &Plain, event: &Event) -> Result<Option<Plain>, AllocError>
    ensures { IfOk result (λ r. option_map state_of r ≡ step_of (state_of state.now) event.now) }
{
    match event.kind {
        Kind::Assign => alone(alloc, state, event, Ask::Assign),
        Kind::Test => alone(alloc, state, event, Ask::Test(event.arm)),
        Kind::Turn => alone(alloc, state, event, Ask::Turn),
        Kind::Meet => together(alloc, state, event, Ask::Send, Ask::Receive),
        Kind::Open => match event.arm {
            Some(arm) => together(alloc, state, event, Ask::Hold, Ask::Open(arm, event.value)),
            None => Ok(None),
        },
        Kind::Close => together(alloc, state, event, Ask::Release, Ask::Close),
        Kind::Sync => together(alloc, state, event, Ask::Sync, Ask::Sync),
    }
}

/// The state after an event of one action.
fn alone(alloc: Global, state: &Plain, event: &Event, ask: Ask) -> Result<Option<Plain>, AllocError>
    ensures { IfOk result (λ r. option_map state_of r ≡ sides.alone (state_of state.now) event.now ask) }
{
    match after(alloc, ask, state.left.get(), event.first.entries())? {
        Some(moved) => {
            let Moved { by, left } = moved;
            let made = made_alone(alloc, state.values.as_slice(), &event.first, by.get())?;
            agreed(alloc, state, event, left, made)
        }
        None => Ok(None),
    }
}

/// The state after an event of two actions.
fn together(
    alloc: Global,
    state: &Plain,
    event: &Event,
    first_ask: Ask,
    second_ask: Ask,
) -> Result<Option<Plain>, AllocError>
    ensures { IfOk result (λ r.
        option_map state_of r ≡ sides.together (state_of state.now) event.now first_ask second_ask) }
{
    match &event.second {
        Some(second) => together_at(alloc, state, event, first_ask, second_ask, second),
        None => Ok(None),
    }
}

/// The state after an event of two actions, the second at this place.
fn together_at(
    alloc: Global,
    state: &Plain,
    event: &Event,
    first_ask: Ask,
    second_ask: Ask,
    second: &Address,
) -> Result<Option<Plain>, AllocError>
    ensures { IfOk result (λ r.
        option_map state_of r ≡ sides.together_at (state_of state.now) event.now first_ask second_ask second.now) }
{
    match after(alloc, first_ask, state.left.get(), event.first.entries())? {
        Some(moved) => {
            let Moved { by, left } = moved;
            second_side(
                alloc,
                state,
                event,
                second_ask,
                second,
                by.get(),
                left.get(),
            )
        }
        None => Ok(None),
    }
}

/// The state after an event whose first action made this move, which left this.
fn second_side(
    alloc: Global,
    state: &Plain,
    event: &Event,
    ask: Ask,
    second: &Address,
    one: &Move,
    left: &ResidualTree,
) -> Result<Option<Plain>, AllocError>
    ensures { IfOk result (λ r.
        option_map state_of r
        ≡ option_and_then (λ y.
        agreed (state_of state.now) event.now y.1
        (cond (apart event.now.first second.now)
        (made_together (state_of state.now).store event.now.first (move_of one.now) second.now y.0) None))
        (after.after ask (residual_of_tree left.now) second.now)) }
{
    match after(alloc, ask, left, second.entries())? {
        Some(moved) => {
            let Moved { by, left } = moved;
            let made = made_apart(
                alloc,
                state.values.as_slice(),
                &event.first,
                one,
                second,
                by.get(),
            )?;
            agreed(alloc, state, event, left, made)
        }
        None => Ok(None),
    }
}

/// The event of two moves at places that are apart, if they make one.
pub(crate) fn made_apart(
    alloc: Global,
    values: &[Value],
    first: &Address,
    one: &Move,
    second: &Address,
    other: &Move,
) -> Result<Option<Event>, AllocError>
    ensures { IfOk result (λ r.
        r ≡ cond (apart first.now second.now)
        (made_together values.now first.now (move_of one.now) second.now (move_of other.now)) None) }
{
    if are_apart(first.entries(), second.entries()) {
        made_together(alloc, values, first, one, second, other)
    } else {
        Ok(None)
    }
}

/// The state after the event with this left to do, where the event is the one that was made.
fn agreed(
    alloc: Global,
    state: &Plain,
    event: &Event,
    left: Shared<ResidualTree>,
    made: Option<Event>,
) -> Result<Option<Plain>, AllocError>
    ensures { IfOk result (λ r.
        option_map state_of r ≡ agreed (state_of state.now) event.now (residual_of_tree left) made) }
{
    match made {
        Some(made) => {
            if made.equals(event) {
                taken(alloc, state, event, left)
            } else {
                Ok(None)
            }
        }
        None => Ok(None),
    }
}

/// The state after the event with this left to do.
fn taken(
    alloc: Global,
    state: &Plain,
    event: &Event,
    left: Shared<ResidualTree>,
) -> Result<Option<Plain>, AllocError>
    ensures { IfOk result (λ r.
        option_map state_of r
        ≡ Some
        (record { residual = residual_of_tree left; store = store_after event.now (state_of state.now).store })) }
{
    let values = values_after(alloc, event, state.values.as_slice())?;
    Ok(Some(Plain { left, values }))
}

/// The values of the variables after the event.
fn values_after(alloc: Global, event: &Event, values: &[Value]) -> Result<Vec<Value>, AllocError>
    ensures { IfOk result (λ made. made.items ≡ store_after event.now values.now) }
{
    let mut values = Vec::from_slice(alloc, values)?;
    match event.written {
        Some(variable) => match event.value {
            Some(value) => {
                write(&mut values, variable, value);
                Ok(values)
            }
            None => Ok(values),
        },
        None => Ok(values),
    }
}

/// Writes the value, cut or widened to the variable's width. Past the last variable nothing changes.
fn write(values: &mut Vec<Value>, variable: u32, value: Value)
    ensures { values.new.items ≡ expression.put values.old.items variable value }
{
    let index = variable as usize;
    if index < values.len() {
        let width = values[index].width();
        values[index] = value::resize(value, width);
    }
}
