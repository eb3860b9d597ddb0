// What stands at the end of a run.
ghost use Rattle.std.specs.Prelude.{◌≡◌, ◌++◌, ℕ, IfOk, OnOk, slice_get};
ghost use Rattle.std.specs.List.{flat_map};
ghost use Rattle.std.specs.Option.{option_to_list};
ghost use Rattle.runs.specs.Object.{Reaches};
ghost use Rattle.runs.specs.Ready.{ReadyList};
ghost use Rattle.runs.specs.Steps.{State};
ghost use Rattle.machine.specs.AtMachine.{object};
ghost use Rattle.picture_data.specs.Shown.{HasDepths, ShowsEnd};

use crate::actions::{Actions, all_actions};
use crate::partners::Now;
use crate::places::{Place, add_ready_places, waiting_places};
use machine::Machine;
use picture_lanes::{ChannelUse, LaneTable};
use run_depths::held_places;
use runs::Event;
use std::alloc::{AllocError, Global};
use syntax::Items;
use waiting::{Progress, Waiting, who_waits};

/// What stands at the end of a run.
#[derive(Drop)]
pub struct End {
    /// whether the run goes on, is done or is stuck
    pub progress: Progress,
    /// whether it is stuck for want of input alone
    pub lacks_input: bool,
    /// the events that can be taken, in order
    pub ready: Items<Event>,
    /// where each of these stands
    pub ready_actions: Vec<Actions>,
    /// the places that wait, in order, and behind them those of the events that can be taken, each once
    pub places: Vec<Place>,
    /// the indexes of places of which each waits for the next, and the last for the first: one such ring, and empty
    /// where there is none
    pub ring: Vec<usize>,
}

/// What stands behind the live events.
pub(crate) fn end_of(
    alloc: Global,
    machine: &Machine,
    table: &LaneTable,
    uses: &[ChannelUse],
    depths: &[usize],
) -> Result<End, AllocError>
    requires { HasDepths machine.now.live depths.now }
    ensures { IfOk result (ShowsEnd machine.now table.now uses.now depths.now) }
{
    let ready = ready_events(machine)?;
    let waiting = who_waits(alloc, machine)?;
    let events = ready.as_slice();
    let ready_actions = all_actions(alloc, machine, table, events)?;
    let actions = waiting.actions.as_slice();
    let live = machine.live_events();
    let held = held_places(alloc, live, depths)?;
    let now = Now {
        table,
        uses,
        actions,
        ready: events,
        live,
        depths,
        held: &held,
    };
    let shown = waiting_places(alloc, machine, &now, &waiting)?;
    let ring_sides = waiting.ring.as_slice();
    let place_of_action = shown.place_of_action.as_slice();
    let ring = ring_of(alloc, ring_sides, place_of_action)?;
    let mut places = shown.places;
    add_ready_places(alloc, machine, &now, &mut places)?;
    Ok(End {
        progress: waiting.progress,
        lacks_input: waiting.lacks_input(machine),
        ready,
        ready_actions,
        places,
        ring,
    })
}

/// The events that can be taken now, in order.
fn ready_events(machine: &Machine) -> Result<Items<Event>, AllocError>
    ensures { IfOk result (λ events. (S : State) × Reaches (object machine.now) S × ReadyList S events) }
{
    match machine.ready() {
        Ok(events) => Ok(Items::from_vec(events)),
        // No other refusal is told.
        Err(_) => Err(AllocError),
    }
}

/// The ring of actions that wait as one of their places.
fn ring_of(
    alloc: Global,
    actions: &[usize],
    place_of_action: &[usize],
) -> Result<Vec<usize>, AllocError>
    ensures { IfOk result (λ ring. ring.items
        ≡ flat_map (λ (i : ℕ). option_to_list (slice_get place_of_action.now i)) actions.now) }
{
    let mut ring = Vec::new(alloc);
    for action in actions {
        add_place(place_at(place_of_action, *action), &mut ring)?;
    }
    Ok(ring)
}

/// The place of the action of this index.
fn place_at(place_of_action: &[usize], action: usize) -> Option<usize>
    ensures { result ≡ slice_get place_of_action.now action }
{
    match place_of_action.get(action) {
        Some(place) => Some(*place),
        None => None,
    }
}

/// Adds the place to a ring, if there is one.
fn add_place(place: Option<usize>, ring: &mut Vec<usize>) -> Result<(), AllocError>
    ensures { OnOk result (ring.new.items ≡ ring.old.items ++ option_to_list place) }
{
    if let Some(place) = place {
        ring.push(place)?;
    }
    Ok(())
}
