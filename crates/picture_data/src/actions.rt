// The lanes and lines of the two actions of an event.
ghost use Rattle.std.specs.Prelude.{◌≡◌, IfOk};
ghost use Rattle.runs.specs.Live.{events};
ghost use Rattle.picture_data.specs.Lines.{lane_at, line_of};
ghost use Rattle.picture_data.specs.Shown.{EachStandsIn, StandsIn};

use address::Address;
use branch_lanes::lane_of;
use machine::Machine;
use picture_lanes::LaneTable;
use runs::Event;
use std::alloc::{AllocError, Global};

/// Where an event stands: the lanes of its two places, and their lines.
#[derive(Clone, Copy)]
pub struct Actions {
    /// the index of the lane of its first place; none where the source is not that of the system
    pub first_lane: Option<usize>,
    /// the same of the second place, if it has one
    pub second_lane: Option<usize>,
    /// the line of the command at its first place, from 1; 0 for the environment
    pub first_line: u64,
    /// the same of the second place; 0 if it has none
    pub second_line: u64,
}

/// Where the event stands.
pub(crate) fn actions_of(
    alloc: Global,
    machine: &Machine,
    table: &LaneTable,
    event: &Event,
) -> Result<Actions, AllocError>
    ensures { IfOk result (StandsIn machine.now table.now event.now) }
{
    let first_lane = lane_at(alloc, table, &event.first)?;
    let first_line = line_of(machine, &event.first);
    match &event.second {
        Some(second) => {
            let second_lane = lane_at(alloc, table, second)?;
            let second_line = line_of(machine, second);
            Ok(Actions {
                first_lane,
                second_lane,
                first_line,
                second_line,
            })
        }
        None => Ok(Actions {
            first_lane,
            second_lane: None,
            first_line,
            second_line: 0,
        }),
    }
}

/// The index of the lane of the place.
pub(crate) fn lane_at(
    alloc: Global,
    table: &LaneTable,
    place: &Address,
) -> Result<Option<usize>, AllocError>
    ensures { IfOk result (λ found. found ≡ lane_at table.now place.now) }
{
    let path = lane_of(alloc, place)?;
    Ok(table.find(path.as_slice()))
}

/// The line of the command at the place, 0 for a place of the environment.
pub(crate) fn line_of(machine: &Machine, place: &Address) -> u64
    ensures { result ≡ line_of machine.now place.now }
{
    match machine.line(place) {
        Some(line) => line,
        None => 0,
    }
}

/// Where each of these events stands.
pub(crate) fn all_actions(
    alloc: Global,
    machine: &Machine,
    table: &LaneTable,
    events: &[Event],
) -> Result<Vec<Actions>, AllocError>
    ensures { IfOk result (λ actions. EachStandsIn machine.now table.now events.now actions.items) }
{
    let mut actions = Vec::with_capacity(alloc, events.len())?;
    for event in events {
        actions.push(actions_of(alloc, machine, table, event)?)?;
    }
    Ok(actions)
}

/// Where each live event stands.
pub(crate) fn live_actions(
    alloc: Global,
    machine: &Machine,
    table: &LaneTable,
) -> Result<Vec<Actions>, AllocError>
    ensures { IfOk result (λ actions.
        EachStandsIn machine.now table.now (events machine.now.live) actions.items) }
{
    let live = machine.live_events();
    let mut actions = Vec::with_capacity(alloc, live.len())?;
    for (_, event) in live.iter() {
        actions.push(actions_of(alloc, machine, table, event)?)?;
    }
    Ok(actions)
}
