// The event that moves make over the values of the variables.
ghost use Rattle.std.specs.Prelude.{◌≡◌, [], IfOk};
ghost use Rattle.system.specs.Translation.{expression_of, decision_of};
ghost use Rattle.runs.specs.Events.{sent};
ghost use Rattle.runs.specs.internal.Made as model;
ghost use Rattle.runs.specs.Moves as moves;
ghost use Rattle.calculus.specs.internal.Meets.{met, opened_by_send, is_first};
ghost use Rattle.calculus.specs.internal.Meanings.{move_of};

use crate::moves::Move;
use crate::same::same_arms;
use address::{Address, compare};
use runs::{Event, same_values};
use std::alloc::{AllocError, Global};
use system::{Decision, Expression, Variables};
use value::{Value, Width};

/// What is sent, at the channel's width.
pub(crate) fn sent(values: &[Value], width: Width, value: &Expression) -> Value
    ensures { result ≡ sent values.now width (expression_of value.now) }
{
    value::resize(value.value(values), width.bits())
}

/// The event of one move, if it makes one.
pub(crate) fn made_alone(
    alloc: Global,
    values: &[Value],
    place: &Address,
    by: &Move,
) -> Result<Option<Event>, AllocError>
    ensures { IfOk result (λ r. r ≡ model.made_alone values.now place.now (move_of by.now)) }
{
    match by {
        Move::Assigns(variable, width, value) => {
            assigned(alloc, values, place, *variable, *width, value)
        }
        Move::Tests(decision, arm) => tested(alloc, values, place, decision, *arm),
        Move::Turns => turned(alloc, place),
        Move::Sends(_, _, _, _)
        | Move::Receives(_, _)
        | Move::Syncs(_, _)
        | Move::Opens(_, _, _)
        | Move::Releases(_)
        | Move::Closes(_) => Ok(None),
    }
}

/// The event of an assignment.
fn assigned(
    alloc: Global,
    values: &[Value],
    place: &Address,
    variable: u32,
    width: Width,
    value: &Expression,
) -> Result<Option<Event>, AllocError>
    ensures { IfOk result (λ r.
        r ≡ model.made_alone values.now place.now (moves.assigns variable width (expression_of value.now))) }
{
    let read = value.variables(alloc)?;
    let value = sent(values, width, value);
    Ok(Some(Event::assignment(alloc, place, variable, value, read)?))
}

/// The event of a test, if the test takes the arm.
fn tested(
    alloc: Global,
    values: &[Value],
    place: &Address,
    decision: &Decision,
    arm: Option<u32>,
) -> Result<Option<Event>, AllocError>
    ensures { IfOk result (λ r.
        r ≡ model.made_alone values.now place.now (moves.tests (decision_of decision.now) arm)) }
{
    if !same_arms(decision.decide(values), arm) {
        return Ok(None);
    }
    let read = decision.variables(alloc)?;
    Ok(Some(Event::test(alloc, place, arm, read)?))
}

/// The event of a turn.
fn turned(alloc: Global, place: &Address) -> Result<Option<Event>, AllocError>
    ensures { IfOk result (λ r. r ≡ model.made_alone [] place.now moves.turns) }
{
    Ok(Some(Event::turn(alloc, place)?))
}

/// Whether the move can be the first of two that make an event.
pub(crate) fn is_first(by: &Move) -> bool
    ensures { result ≡ is_first (move_of by.now) }
{
    match by {
        Move::Sends(_, _, _, _) | Move::Syncs(_, _) | Move::Releases(_) => true,
        Move::Assigns(_, _, _)
        | Move::Tests(_, _)
        | Move::Turns
        | Move::Receives(_, _)
        | Move::Opens(_, _, _)
        | Move::Closes(_) => false,
    }
}

/// The event of two moves, if they make one.
#[tactic(auto, using(crate::proofs::Meets::met_is, crate::proofs::Meets::opened_by_send_is))]
pub(crate) fn made_together(
    alloc: Global,
    values: &[Value],
    first: &Address,
    one: &Move,
    second: &Address,
    other: &Move,
) -> Result<Option<Event>, AllocError>
    ensures { IfOk result (λ r.
        r ≡ model.made_together values.now first.now (move_of one.now) second.now (move_of other.now)) }
{
    match one {
        Move::Sends(channel, width, value, held) => {
            let read = value.variables(alloc)?;
            let value = sent(values, *width, value);
            if *held {
                by_held_send(alloc, first, second, *channel, value, read, other)
            } else {
                by_send(alloc, first, second, *channel, value, read, other)
            }
        }
        Move::Syncs(channel, held) => {
            if *held {
                by_held_sync(alloc, first, second, *channel, other)
            } else {
                by_sync(alloc, first, second, *channel, other)
            }
        }
        Move::Releases(channel) => by_release(alloc, first, second, *channel, other),
        Move::Assigns(_, _, _)
        | Move::Tests(_, _)
        | Move::Turns
        | Move::Receives(_, _)
        | Move::Opens(_, _, _)
        | Move::Closes(_) => Ok(None),
    }
}

/// The event of a send and the move that meets it.
#[tactic(auto, using(crate::proofs::Meets::not_met))]
fn by_send(
    alloc: Global,
    first: &Address,
    second: &Address,
    channel: u32,
    value: Value,
    read: Variables,
    other: &Move,
) -> Result<Option<Event>, AllocError>
    ensures { IfOk result (λ r. r ≡ met first.now second.now channel value read (move_of other.now)) }
{
    match other {
        Move::Receives(on, variable) => {
            if channel != *on {
                return Ok(None);
            }
            let event = Event::meeting(alloc, first, second, channel, value, *variable, read)?;
            Ok(Some(event))
        }
        _ => Ok(None),
    }
}

/// The event of a send that is held, and the open that meets it.
#[tactic(auto, using(crate::proofs::Meets::not_opened_by_send))]
fn by_held_send(
    alloc: Global,
    first: &Address,
    second: &Address,
    channel: u32,
    value: Value,
    read: Variables,
    other: &Move,
) -> Result<Option<Event>, AllocError>
    ensures { IfOk result (λ r. r ≡ opened_by_send first.now second.now channel value read (move_of other.now)) }
{
    match other {
        Move::Opens(on, arm, received) => {
            if channel != *on {
                return Ok(None);
            }
            if !same_values(Some(value), *received) {
                return Ok(None);
            }
            let event = Event::opening(alloc, first, second, channel, *arm, *received, read)?;
            Ok(Some(event))
        }
        _ => Ok(None),
    }
}

/// The event of a handshake that is held, and the open that meets it.
#[tactic(auto, using(crate::proofs::Meets::not_opened_by_sync))]
fn by_held_sync(
    alloc: Global,
    first: &Address,
    second: &Address,
    channel: u32,
    other: &Move,
) -> Result<Option<Event>, AllocError>
    ensures { IfOk result (λ r. r ≡ model.made_by_held_sync first.now channel second.now (move_of other.now)) }
{
    match other {
        Move::Opens(on, arm, received) => {
            if channel != *on {
                return Ok(None);
            }
            if !same_values(None, *received) {
                return Ok(None);
            }
            let read = Variables::none(alloc);
            let event = Event::opening(alloc, first, second, channel, *arm, *received, read)?;
            Ok(Some(event))
        }
        _ => Ok(None),
    }
}

/// The event of a release and the close that meets it.
#[tactic(auto, using(crate::proofs::Meets::not_closed))]
fn by_release(
    alloc: Global,
    first: &Address,
    second: &Address,
    channel: u32,
    other: &Move,
) -> Result<Option<Event>, AllocError>
    ensures { IfOk result (λ r. r ≡ model.made_by_release first.now channel second.now (move_of other.now)) }
{
    match other {
        Move::Closes(on) => {
            if channel != *on {
                return Ok(None);
            }
            Ok(Some(Event::close(alloc, first, second, channel)?))
        }
        _ => Ok(None),
    }
}

/// The event of two handshakes, the lesser place first.
#[tactic(auto, using(crate::proofs::Meets::not_synced))]
fn by_sync(
    alloc: Global,
    first: &Address,
    second: &Address,
    channel: u32,
    other: &Move,
) -> Result<Option<Event>, AllocError>
    ensures { IfOk result (λ r. r ≡ model.made_by_sync first.now channel second.now (move_of other.now)) }
{
    match other {
        Move::Syncs(on, held) => {
            if *held {
                return Ok(None);
            }
            if channel != *on {
                return Ok(None);
            }
            if !compare(first, second).is_lt() {
                return Ok(None);
            }
            Ok(Some(Event::sync(alloc, first, second, channel)?))
        }
        _ => Ok(None),
    }
}
