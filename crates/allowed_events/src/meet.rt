// The events that actions make.
ghost use Rattle.std.specs.Prelude.{◌≡◌, IfOk};
ghost use Rattle.allowed_events.specs.internal.Meeting as model;

use address::{Address, compare};
use local_actions::ActionKind;
use runs::{Event, Kind};
use std::alloc::{AllocError, Global};
use system::Variables;

/// The event that an action makes alone, if it makes one, with the variables of the action.
pub(crate) fn alone(
    alloc: Global,
    place: &Address,
    action: ActionKind,
) -> Result<Option<Event>, AllocError>
    ensures { IfOk result (λ made. made ≡ model.solo place.now action) }
{
    match action {
        ActionKind::Assigns(variable, value, read) => Ok(Some(Event {
            kind: Kind::Assign,
            first: place.copy(alloc)?,
            second: None,
            arm: None,
            channel: None,
            value: Some(value),
            written: Some(variable),
            read,
        })),
        ActionKind::Tests(arm, read) => Ok(Some(Event {
            kind: Kind::Test,
            first: place.copy(alloc)?,
            second: None,
            arm,
            channel: None,
            value: None,
            written: None,
            read,
        })),
        ActionKind::Turns => Ok(Some(Event {
            kind: Kind::Turn,
            first: place.copy(alloc)?,
            second: None,
            arm: None,
            channel: None,
            value: None,
            written: None,
            read: Variables::none(alloc),
        })),
        ActionKind::Sends(_, _, _)
        | ActionKind::Receives(_, _)
        | ActionKind::Syncs(_)
        | ActionKind::Opens(_, _)
        | ActionKind::Releases(_)
        | ActionKind::Closes(_) => Ok(None),
    }
}

/// The event in which an action acts with the other as its partner, if they make one.
pub(crate) fn met(
    alloc: Global,
    place: &Address,
    action: &ActionKind,
    other: &Address,
    partner: &ActionKind,
) -> Result<Option<Event>, AllocError>
    ensures { IfOk result (λ made. made ≡ model.met place.now action.now other.now partner.now) }
{
    match action {
        ActionKind::Receives(channel, variable) => {
            received(alloc, place, *channel, *variable, other, partner)
        }
        ActionKind::Opens(channel, arm) => opened(alloc, place, *channel, *arm, other, partner),
        ActionKind::Closes(channel) => closed(alloc, place, *channel, other, partner),
        ActionKind::Syncs(channel) => synced(alloc, place, *channel, other, partner),
        ActionKind::Assigns(_, _, _)
        | ActionKind::Tests(_, _)
        | ActionKind::Turns
        | ActionKind::Sends(_, _, _)
        | ActionKind::Releases(_) => Ok(None),
    }
}

/// The event of a receive and its partner.
#[tactic(auto, using(crate::proofs::Partners::not_received))]
fn received(
    alloc: Global,
    place: &Address,
    channel: u32,
    variable: Option<u32>,
    other: &Address,
    partner: &ActionKind,
) -> Result<Option<Event>, AllocError>
    ensures { IfOk result (λ made. made ≡ model.received place.now channel variable other.now partner.now) }
{
    match partner {
        ActionKind::Sends(on, value, read) => {
            if channel != *on {
                return Ok(None);
            }
            let read = read.copy(alloc)?;
            let event = Event::meeting(alloc, other, place, channel, *value, variable, read)?;
            Ok(Some(event))
        }
        _ => Ok(None),
    }
}

/// The event of the opening of an arm and its partner.
#[tactic(auto, using(crate::proofs::Partners::not_opened))]
fn opened(
    alloc: Global,
    place: &Address,
    channel: u32,
    arm: u32,
    other: &Address,
    partner: &ActionKind,
) -> Result<Option<Event>, AllocError>
    ensures { IfOk result (λ made. made ≡ model.opened place.now channel arm other.now partner.now) }
{
    match partner {
        ActionKind::Sends(on, value, read) => {
            if channel != *on {
                return Ok(None);
            }
            let read = read.copy(alloc)?;
            let event = Event::opening(alloc, other, place, channel, arm, Some(*value), read)?;
            Ok(Some(event))
        }
        ActionKind::Syncs(on) => {
            if channel != *on {
                return Ok(None);
            }
            let read = Variables::none(alloc);
            let event = Event::opening(alloc, other, place, channel, arm, None, read)?;
            Ok(Some(event))
        }
        _ => Ok(None),
    }
}

/// The event of a close and its partner.
#[tactic(auto, using(crate::proofs::Partners::not_closed))]
fn closed(
    alloc: Global,
    place: &Address,
    channel: u32,
    other: &Address,
    partner: &ActionKind,
) -> Result<Option<Event>, AllocError>
    ensures { IfOk result (λ made. made ≡ model.closed place.now channel other.now partner.now) }
{
    match partner {
        ActionKind::Releases(on) => {
            if channel != *on {
                return Ok(None);
            }
            Ok(Some(Event::close(alloc, other, place, channel)?))
        }
        _ => Ok(None),
    }
}

/// The event of a sync and its partner, which has the greater place.
#[tactic(auto, using(crate::proofs::Partners::not_synced))]
fn synced(
    alloc: Global,
    place: &Address,
    channel: u32,
    other: &Address,
    partner: &ActionKind,
) -> Result<Option<Event>, AllocError>
    ensures { IfOk result (λ made. made ≡ model.synced place.now channel other.now partner.now) }
{
    match partner {
        ActionKind::Syncs(on) => {
            if channel != *on {
                return Ok(None);
            }
            if !compare(place, other).is_lt() {
                return Ok(None);
            }
            Ok(Some(Event::sync(alloc, place, other, channel)?))
        }
        _ => Ok(None),
    }
}
