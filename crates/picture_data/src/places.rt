// The places that wait, and those of the events that can be taken.
ghost use Rattle.std.specs.Prelude.{◌≡◌, ◌≤◌, ◌-◌, ◌++◌, ℕ, length, map, take, drop, IfOk, OnOk, Some, slice_get};
ghost use Rattle.std.specs.List.{flat_map};
ghost use Rattle.std.specs.Option.{option_copied};
ghost use Rattle.syntax.specs.Lists.{Every};
ghost use Rattle.runs.specs.Moves as moves;
ghost use Rattle.runs.specs.Tests.{same_place};
ghost use Rattle.picture_data.specs.Spots as spots;
ghost use Rattle.picture_data.specs.Spots.{StandsSince, channel_of, event_spots, made_spot, place_at};
ghost use Rattle.picture_data.specs.Spots.{ready_spots, role_of, spot_at, spot_if_new, spot_of, want_of, with_side, waiting_with};
ghost use Rattle.picture_data.specs.internal.SpotsSoFar.{AddsSpots, KnowsDepths, SpotsOf, TakenFor, around_in, deep_in, seen_in};

use crate::actions::{lane_at, line_of};
use crate::partners::{Now, wanted_lanes};
use address::Address;
use local_actions::{ActionKind, LocalAction};
use machine::Machine;
use run_depths::since_now;
use runs::{Event, Kind};
use std::alloc::{AllocError, Global};
use value::Value;
use waiting::{Partner, Waiting};

/// What stands at a place does this, or waits to do it.
#[derive(Clone, Copy, Debug, PartialEq, Eq)]
pub enum Role {
    Sends,
    Receives,
    Syncs,
    /// opens an arm
    Opens,
    /// its handshake encloses a command that has not ended
    Held,
    Closes,
    /// goes on alone
    Goes,
}

/// A channel on which a place waits.
#[derive(Drop)]
pub struct Wanted {
    pub channel: u32,
    /// the indexes of the lanes for which it waits, ascending
    pub lanes: Vec<usize>,
    /// whether a partner can still come
    pub can_come: bool,
}

/// A place that waits, or one of an event that can be taken.
#[derive(Drop)]
pub struct Place {
    /// the index of its lane
    pub lane: Option<usize>,
    pub place: Address,
    /// the line of its command, from 1; 0 for the environment
    pub line: u64,
    pub role: Role,
    /// one for each channel that it waits on
    pub wanted: Vec<Wanted>,
    pub is_ready: bool,
    /// from which depth on it may stand there
    pub since: usize,
}

/// The places that wait, in order, each once, and for each action that waits the index of its place.
#[derive(Drop)]
pub(crate) struct Standings {
    pub(crate) places: Vec<Place>,
    pub(crate) place_of_action: Vec<usize>,
}

/// The places of the actions that wait.
pub(crate) fn waiting_places(
    alloc: Global,
    machine: &Machine,
    now: &Now<'_, '_>,
    waiting: &Waiting,
) -> Result<Standings, AllocError>
    requires { KnowsDepths now.now }
    ensures { IfOk result (λ made. SpotsOf (seen_in machine.now now.now) (deep_in now.now) waiting.now.partners.items
        waiting.now.actions made.places.items made.place_of_action.items) }
{
    let partners = waiting.partners.as_slice();
    let mut places = Vec::new(alloc);
    let mut place_of_action = Vec::new(alloc);
    for (index, action) in waiting.actions.as_slice().iter().enumerate() {
        let partner = partner_at(partners, index);
        add_action(alloc, machine, now, action, partner, &mut places)?;
        place_of_action.push(last_index(places.as_slice()))?;
    }
    Ok(Standings {
        places,
        place_of_action,
    })
}

/// The index of the last of the places.
fn last_index(places: &[Place]) -> usize
    ensures { result ≡ length places.now - 1 }
{
    places.len().saturating_sub(1)
}

/// The partner of this index, if there is one.
fn partner_at<'a>(partners: &'a [Partner], index: usize) -> Option<&'a Partner>
    ensures { option_copied result ≡ slice_get partners.now index }
{
    match partners.get(index) {
        Some(partner) => Some(partner),
        None => None,
    }
}

/// Adds an action that waits, which has this partner: to the last of the places, if it stands there, or as a place of
/// its own.
fn add_action(
    alloc: Global,
    machine: &Machine,
    now: &Now<'_, '_>,
    action: &LocalAction,
    partner: Option<&Partner>,
    places: &mut Vec<Place>,
) -> Result<(), AllocError>
    requires { KnowsDepths now.now }
    ensures spots { OnOk result (map spot_of places.new.items
        ≡ with_side (seen_in machine.now now.now) (map spot_of places.old.items) action.now (option_copied partner.entry)) }
    ensures since { OnOk result (Every (StandsSince (deep_in now.now)) places.old.items →
        Every (StandsSince (deep_in now.now)) places.new.items) }
    ensures kept { OnOk result ((k : ℕ) (a : moves.Place) →
        place_at places.old.items k ≡ Some a → place_at places.new.items k ≡ Some a) }
    ensures last { OnOk result (place_at places.new.items (length places.new.items - 1) ≡ Some action.now.place) }
{
    let mut place = place_for(alloc, machine, now, action, places)?;
    add_wanted(alloc, now, action, partner, &mut place)?;
    places.push(place)?;
    Ok(())
}

/// The place of the action: the last of the places, which is taken out, or else a new one.
#[tactic(auto, using(crate::proofs::SpotLaws::taken_last, crate::proofs::SpotLaws::taken_first, crate::proofs::SpotLaws::taken_behind))]
fn place_for(
    alloc: Global,
    machine: &Machine,
    now: &Now<'_, '_>,
    action: &LocalAction,
    places: &mut Vec<Place>,
) -> Result<Place, AllocError>
    requires { KnowsDepths now.now }
    ensures { IfOk result (λ place. TakenFor (seen_in machine.now now.now) (deep_in now.now) action.now
        places.old.items places.new.items place) }
{
    let Some(last) = places.pop() else {
        let made = new_place(alloc, machine, now, action)?;
        return Ok(made);
    };
    if last.place.equals(&action.place) {
        return Ok(last);
    }
    places.push(last)?;
    let made = new_place(alloc, machine, now, action)?;
    Ok(made)
}

/// A place of the action, which waits on nothing yet.
fn new_place(
    alloc: Global,
    machine: &Machine,
    now: &Now<'_, '_>,
    action: &LocalAction,
) -> Result<Place, AllocError>
    requires { KnowsDepths now.now }
    ensures spot { IfOk result (λ made.
        spot_of made ≡ spot_at (seen_in machine.now now.now) action.now.place (role_of action.now.action)) }
    ensures since { IfOk result (StandsSince (deep_in now.now)) }
{
    let role = action_role(&action.action);
    let wanted = Vec::new(alloc);
    let made = place_of(alloc, machine, now, &action.place, role, wanted, false)?;
    Ok(made)
}

/// A place where something does this, and waits on these channels.
fn place_of(
    alloc: Global,
    machine: &Machine,
    now: &Now<'_, '_>,
    place: &Address,
    role: Role,
    wanted: Vec<Wanted>,
    is_ready: bool,
) -> Result<Place, AllocError>
    requires { KnowsDepths now.now }
    ensures spot { IfOk result (λ made. spot_of made
        ≡ made_spot (seen_in machine.now now.now) place.now role (map want_of wanted.items) is_ready) }
    ensures since { IfOk result (StandsSince (deep_in now.now)) }
{
    let lane = lane_at(alloc, now.table, place)?;
    let line = line_of(machine, place);
    let since = since_now(now.held, place);
    let place = place.copy(alloc)?;
    Ok(Place {
        lane,
        place,
        line,
        role,
        wanted,
        is_ready,
        since,
    })
}

/// Adds what the action waits on to its place.
fn add_wanted(
    alloc: Global,
    now: &Now<'_, '_>,
    offered: &LocalAction,
    partner: Option<&Partner>,
    place: &mut Place,
) -> Result<(), AllocError>
    ensures spot { OnOk result (spot_of place.new
        ≡ waiting_with (around_in now.now) (spot_of place.old) offered.now (option_copied partner.entry)) }
    ensures since { OnOk result (place.new.since ≡ place.old.since) }
    ensures place { OnOk result (place.new.place ≡ place.old.place) }
{
    let Some(channel) = action_channel(&offered.action) else {
        return Ok(());
    };
    let role = action_role(&offered.action);
    let lanes = wanted_lanes(alloc, now, partner, place.lane, channel, role)?;
    let can_come = can_come(partner);
    place.wanted.push(Wanted {
        channel,
        lanes,
        can_come,
    })?;
    Ok(())
}

/// Whether a partner can still come.
fn can_come(partner: Option<&Partner>) -> bool
    ensures { result ≡ spots.can_come (option_copied partner.entry) }
{
    match partner {
        Some(Partner::Gone) => false,
        Some(Partner::Behind(_)) | Some(Partner::Open) | None => true,
    }
}

/// What the action does.
fn action_role(action: &ActionKind) -> Role
    ensures { result ≡ role_of action.now }
{
    match action {
        ActionKind::Sends(_, _, _) => Role::Sends,
        ActionKind::Receives(_, _) => Role::Receives,
        ActionKind::Syncs(_) => Role::Syncs,
        ActionKind::Opens(_, _) => Role::Opens,
        ActionKind::Releases(_) => Role::Held,
        ActionKind::Closes(_) => Role::Closes,
        ActionKind::Assigns(_, _, _) | ActionKind::Tests(_, _) | ActionKind::Turns => Role::Goes,
    }
}

/// The channel of the action, if it has one.
fn action_channel(action: &ActionKind) -> Option<u32>
    ensures { result ≡ channel_of action.now }
{
    match action {
        ActionKind::Sends(channel, _, _)
        | ActionKind::Receives(channel, _)
        | ActionKind::Syncs(channel)
        | ActionKind::Opens(channel, _)
        | ActionKind::Releases(channel)
        | ActionKind::Closes(channel) => Some(*channel),
        ActionKind::Assigns(_, _, _) | ActionKind::Tests(_, _) | ActionKind::Turns => None,
    }
}

/// Adds the places of the events that can be taken, each once.
pub(crate) fn add_ready_places(
    alloc: Global,
    machine: &Machine,
    now: &Now<'_, '_>,
    places: &mut Vec<Place>,
) -> Result<(), AllocError>
    requires { KnowsDepths now.now }
    ensures { OnOk result (AddsSpots (deep_in now.now) places.old.items places.new.items
        (ready_spots (seen_in machine.now now.now) now.now.ready.now)) }
{
    for (index, event) in now.ready.iter().enumerate() {
        add_event_places(alloc, machine, now, index, event, places)?;
    }
    Ok(())
}

/// Adds the places of the event that can be taken at this index, but for those that an event before has, too.
fn add_event_places(
    alloc: Global,
    machine: &Machine,
    now: &Now<'_, '_>,
    index: usize,
    event: &Event,
    places: &mut Vec<Place>,
) -> Result<(), AllocError>
    requires depths { KnowsDepths now.now }
    requires within { index ≤ length now.now.ready.now }
    ensures { OnOk result (AddsSpots (deep_in now.now) places.old.items places.new.items
        (event_spots (seen_in machine.now now.now) (take index now.now.ready.now) (drop index now.now.ready.now)
        event.now)) }
{
    add_ready_place(
        alloc,
        machine,
        now,
        index,
        &event.first,
        first_role(event),
        places,
    )?;
    match &event.second {
        Some(second) => add_ready_place(
            alloc,
            machine,
            now,
            index,
            second,
            second_role(event.kind),
            places,
        ),
        None => Ok(()),
    }
}

/// Adds a place of the event that can be taken at this index, unless an event before has it, too.
fn add_ready_place(
    alloc: Global,
    machine: &Machine,
    now: &Now<'_, '_>,
    index: usize,
    place: &Address,
    role: Role,
    places: &mut Vec<Place>,
) -> Result<(), AllocError>
    requires depths { KnowsDepths now.now }
    requires within { index ≤ length now.now.ready.now }
    ensures { OnOk result (AddsSpots (deep_in now.now) places.old.items places.new.items
        (spot_if_new (seen_in machine.now now.now) (take index now.now.ready.now) (drop index now.now.ready.now)
        place.now role)) }
{
    let parts = now.ready.split_at(index);
    if is_met(place, parts.0) {
        return Ok(());
    }
    let wanted = channels_at(alloc, place, parts.1)?;
    let made = place_of(alloc, machine, now, place, role, wanted, true)?;
    places.push(made)?;
    Ok(())
}

/// Whether one of the events has the place.
fn is_met(place: &Address, events: &[Event]) -> bool
    ensures { result ≡ spots.is_met place.now events.now }
{
    for event in events {
        if has_place(event, place) {
            return true;
        }
    }
    false
}

/// Whether one of the two places of the event is this.
fn has_place(event: &Event, place: &Address) -> bool
    ensures { result ≡ spots.has_place place.now event.now }
{
    is_place(&event.first, place) || is_second(&event.second, place)
}

/// Whether the second place of an event is this.
fn is_second(second: &Option<Address>, place: &Address) -> bool
    ensures { result ≡ spots.is_second place.now second.now }
{
    match second {
        Some(second) => is_place(second, place),
        None => false,
    }
}

/// Whether both places are one.
fn is_place(one: &Address, other: &Address) -> bool
    ensures { result ≡ same_place one.now other.now }
{
    one.equals(other)
}

/// The channels of those of the events that have the place.
fn channels_at(alloc: Global, place: &Address, events: &[Event]) -> Result<Vec<Wanted>, AllocError>
    ensures { IfOk result (λ wanted.
        map want_of wanted.items ≡ flat_map (spots.channel_at place.now) events.now) }
{
    let mut wanted = Vec::new(alloc);
    for event in events {
        add_channel(alloc, channel_if(event, place), &mut wanted)?;
    }
    Ok(wanted)
}

/// The channel of the event, if it has one and the place.
fn channel_if(event: &Event, place: &Address) -> Option<u32>
    ensures { result ≡ spots.channel_if place.now event.now }
{
    if has_place(event, place) {
        event.channel
    } else {
        None
    }
}

/// Adds the channel, if there is one.
fn add_channel(
    alloc: Global,
    channel: Option<u32>,
    wanted: &mut Vec<Wanted>,
) -> Result<(), AllocError>
    ensures { OnOk result (map want_of wanted.new.items
        ≡ map want_of wanted.old.items ++ spots.on_channel channel) }
{
    match channel {
        Some(channel) => {
            let made = wanted_on(alloc, channel);
            wanted.push(made)?;
            Ok(())
        }
        None => Ok(()),
    }
}

/// A channel on which an event can be taken.
fn wanted_on(alloc: Global, channel: u32) -> Wanted
    ensures { want_of result ≡ spots.want_on channel }
{
    Wanted {
        channel,
        lanes: Vec::new(alloc),
        can_come: true,
    }
}

/// What the first place of the event does.
fn first_role(event: &Event) -> Role
    ensures { result ≡ spots.first_role event.now.kind event.now.value }
{
    match event.kind {
        Kind::Meet => Role::Sends,
        Kind::Open => opener_role(event.value),
        Kind::Sync => Role::Syncs,
        Kind::Close => Role::Held,
        Kind::Assign | Kind::Test | Kind::Turn => Role::Goes,
    }
}

/// What it does where an arm is opened, with this value, if there is one.
fn opener_role(value: Option<Value>) -> Role
    ensures { result ≡ spots.first_role Kind.Open value }
{
    match value {
        Some(_) => Role::Sends,
        None => Role::Syncs,
    }
}

/// What the second place of an event of this kind does.
fn second_role(kind: Kind) -> Role
    ensures { result ≡ spots.second_role kind }
{
    match kind {
        Kind::Meet => Role::Receives,
        Kind::Open => Role::Opens,
        Kind::Sync => Role::Syncs,
        Kind::Close => Role::Closes,
        Kind::Assign | Kind::Test | Kind::Turn => Role::Goes,
    }
}
