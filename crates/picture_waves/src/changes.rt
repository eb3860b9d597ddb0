// The changes of signals.
use crate::signals::{channel_width, of_channel, of_giver, of_taker, of_variable};
use dependence::Live;
use picture_data::{Picture, Place, Role};
use runs::{Event, Kind};
use std::alloc::{AllocError, Global};
use system::System;

/// What a signal has.
#[derive(Clone, Copy, Debug, PartialEq, Eq, PartialOrd, Ord)]
pub(crate) enum Level {
    /// nobody drives it
    Floats,
    Has(u64),
}

/// A change of a signal. They are in order of times, and at one time of signals.
#[derive(Clone, Copy, Debug, PartialEq, Eq, PartialOrd, Ord)]
pub(crate) struct Change {
    pub(crate) time: u64,
    pub(crate) signal: u64,
    /// how many were noted before it
    pub(crate) order: usize,
    pub(crate) level: Level,
}

/// When something at a depth begins.
pub(crate) fn begin_of(depth: usize) -> u64 {
    (depth as u64).saturating_mul(10)
}

/// When an event of a depth ends.
pub(crate) fn end_of(depth: usize) -> u64 {
    begin_of(depth).saturating_add(8)
}

/// Notes a change.
fn note(changes: &mut Vec<Change>, time: u64, signal: u64, level: Level) -> Result<(), AllocError> {
    let order = changes.len();
    changes.push(Change {
        time,
        signal,
        order,
        level,
    })?;
    Ok(())
}

/// All changes, in order.
pub(crate) fn changes_of(
    alloc: Global,
    system: &System,
    live: &Live,
    picture: &Picture,
) -> Result<Vec<Change>, AllocError> {
    let mut changes = Vec::new(alloc);
    for (index, (_, event)) in live.iter().enumerate() {
        let depth = picture.steps.depths.get(index).copied().unwrap_or(0);
        let since = picture.steps.since.get(index).copied().unwrap_or((0, 0));
        add_event(&mut changes, system, event, depth, since)?;
    }
    for place in picture.end.places.as_slice() {
        add_place(&mut changes, system, picture, place)?;
    }
    changes.sort_unstable();
    Ok(changes)
}

/// Adds the changes of an event of this depth, whose actions stood there from these depths on.
fn add_event(
    changes: &mut Vec<Change>,
    system: &System,
    event: &Event,
    depth: usize,
    since: (usize, usize),
) -> Result<(), AllocError> {
    if let (Some(variable), Some(value)) = (event.written, event.value) {
        let level = Level::Has(value.bits());
        note(changes, end_of(depth), of_variable(variable), level)?;
    }
    let Some(channel) = event.channel else {
        return Ok(());
    };
    if event.kind != Kind::Close {
        add_begin(changes, system, event, channel, depth, since)?;
    }
    if event.kind != Kind::Open {
        add_end(changes, system, channel, depth)?;
    }
    Ok(())
}

/// Adds that a channel is active from the event on.
fn add_begin(
    changes: &mut Vec<Change>,
    system: &System,
    event: &Event,
    channel: u32,
    depth: usize,
    since: (usize, usize),
) -> Result<(), AllocError> {
    let level = match event.value {
        Some(value) => Level::Has(value.bits()),
        None => Level::Has(1),
    };
    note(changes, begin_of(depth), of_channel(system, channel), level)?;
    let there = Level::Has(1);
    note(changes, begin_of(since.0), of_giver(system, channel), there)?;
    note(changes, begin_of(since.1), of_taker(system, channel), there)
}

/// Adds that a channel is active until the event of this depth ends.
fn add_end(
    changes: &mut Vec<Change>,
    system: &System,
    channel: u32,
    depth: usize,
) -> Result<(), AllocError> {
    let time = end_of(depth);
    note(
        changes,
        time,
        of_channel(system, channel),
        at_rest(system, channel),
    )?;
    note(changes, time, of_giver(system, channel), Level::Has(0))?;
    note(changes, time, of_taker(system, channel), Level::Has(0))
}

/// What a channel has while it is not active.
pub(crate) fn at_rest(system: &System, channel: u32) -> Level {
    if channel_width(system, u64::from(channel)) == 0 {
        Level::Has(0)
    } else {
        Level::Floats
    }
}

/// Adds that an action stands at a place, to the end.
fn add_place(
    changes: &mut Vec<Change>,
    system: &System,
    picture: &Picture,
    place: &Place,
) -> Result<(), AllocError> {
    for wanted in place.wanted.as_slice() {
        if let Some(signal) = standing_signal(system, picture, place, wanted.channel) {
            note(changes, begin_of(place.since), signal, Level::Has(1))?;
        }
    }
    Ok(())
}

/// The signal of an action on a channel that stands at the place, where the handshake has not begun. Of one without data
/// that waits alone it is that of who gives: it is not known yet which side it will be.
fn standing_signal(system: &System, picture: &Picture, place: &Place, channel: u32) -> Option<u64> {
    match place.role {
        Role::Sends => Some(of_giver(system, channel)),
        Role::Receives | Role::Opens => Some(of_taker(system, channel)),
        Role::Syncs => {
            if is_second_ready(picture, place, channel) {
                Some(of_taker(system, channel))
            } else {
                Some(of_giver(system, channel))
            }
        }
        Role::Held | Role::Closes | Role::Goes => None,
    }
}

/// Whether the place is the second of two that can sync on the channel now.
fn is_second_ready(picture: &Picture, place: &Place, channel: u32) -> bool {
    if !place.is_ready {
        return false;
    }
    for event in picture.end.ready.as_slice() {
        if event.kind == Kind::Sync && event.channel == Some(channel) {
            if let Some(second) = &event.second {
                if second.equals(&place.place) {
                    return true;
                }
            }
        }
    }
    false
}
