// The lanes from which the partner of an action that waits can come.
ghost use Rattle.std.specs.Prelude.{◌≡◌, ◌≤◌, ◌==◌, ◌&&◌, length, slice_get, IfOk, OnOk};
ghost use Rattle.std.specs.Option.{option_copied};
ghost use Rattle.runs.specs.Tests.{same_entry};
ghost use Rattle.picture_data.specs.Wanted as model;
ghost use Rattle.picture_data.specs.internal.SpotsSoFar.{around_in};

use crate::actions::lane_at;
use crate::places::Role;
use address::{Address, Entry};
use dependence::Live;
use local_actions::LocalAction;
use picture_lanes::{ChannelUse, LaneTable, Way};
use run_depths::HeldPlaces;
use runs::Event;
use std::alloc::{AllocError, Global};
use waiting::Partner;

/// What stands now: the lanes and the uses of channels, the actions that wait and the events that can be taken, behind
/// live events of these depths, whose places are held.
#[derive(Clone, Copy)]
pub(crate) struct Now<'a, 'b> {
    pub(crate) table: &'a LaneTable,
    pub(crate) uses: &'a [ChannelUse],
    pub(crate) actions: &'a [LocalAction],
    pub(crate) ready: &'a [Event],
    pub(crate) live: &'a Live,
    pub(crate) depths: &'a [usize],
    pub(crate) held: &'a HeldPlaces<'b>,
}

/// The lanes for which an action in the lane waits: of what stands at the place behind which its partner is, and where
/// that is nothing, of all that could be its partner. They ascend.
pub(crate) fn wanted_lanes(
    alloc: Global,
    now: &Now<'_, '_>,
    partner: Option<&Partner>,
    own: Option<usize>,
    channel: u32,
    role: Role,
) -> Result<Vec<usize>, AllocError>
    ensures { IfOk result (λ lanes.
        lanes.items ≡ model.wanted_lanes (around_in now.now) (option_copied partner.entry) own channel role) }
{
    let mut lanes = lanes_behind(alloc, now, partner)?;
    if is_none(lanes.as_slice()) {
        add_uses(now, own, channel, role, &mut lanes)?;
        return Ok(lanes);
    }
    Ok(lanes)
}

/// Whether there are none.
fn is_none(lanes: &[usize]) -> bool
    ensures { result ≡ (length lanes.now == 0) }
{
    lanes.is_empty()
}

/// The lanes of what stands at the place behind which the partner is, if it is behind one, or below it.
fn lanes_behind(
    alloc: Global,
    now: &Now<'_, '_>,
    partner: Option<&Partner>,
) -> Result<Vec<usize>, AllocError>
    ensures { IfOk result (λ lanes.
        lanes.items ≡ model.behind_lanes (around_in now.now) (option_copied partner.entry)) }
{
    match partner {
        Some(Partner::Behind(place)) => {
            let lanes = lanes_below(alloc, now, place)?;
            Ok(lanes)
        }
        Some(Partner::Gone) | Some(Partner::Open) | None => Ok(Vec::new(alloc)),
    }
}

/// The lanes of what stands at the place or below it.
fn lanes_below(alloc: Global, now: &Now<'_, '_>, place: &Address) -> Result<Vec<usize>, AllocError>
    ensures { IfOk result (λ lanes. lanes.items ≡ model.lanes_below (around_in now.now) place.now) }
{
    let mut lanes = Vec::new(alloc);
    add_actions_below(alloc, now, place, &mut lanes)?;
    add_ready_below(alloc, now, place, &mut lanes)?;
    Ok(lanes)
}

/// Adds the lanes of the actions that wait at the place or below it.
fn add_actions_below(
    alloc: Global,
    now: &Now<'_, '_>,
    place: &Address,
    lanes: &mut Vec<usize>,
) -> Result<(), AllocError>
    ensures { OnOk result (lanes.new.items
        ≡ model.with_actions_below now.now.table.now place.now now.now.actions.now lanes.old.items) }
{
    for action in now.actions {
        add_under(alloc, now, place, &action.place, lanes)?;
    }
    Ok(())
}

/// Adds the lanes of the events that can be taken at the place or below it.
fn add_ready_below(
    alloc: Global,
    now: &Now<'_, '_>,
    place: &Address,
    lanes: &mut Vec<usize>,
) -> Result<(), AllocError>
    ensures { OnOk result (lanes.new.items
        ≡ model.with_ready_below now.now.table.now place.now now.now.ready.now lanes.old.items) }
{
    for event in now.ready {
        add_under(alloc, now, place, &event.first, lanes)?;
        add_second_below(alloc, now, place, event, lanes)?;
    }
    Ok(())
}

/// Adds the lane of the second place of an event, if it has one, and that is the place or below it.
fn add_second_below(
    alloc: Global,
    now: &Now<'_, '_>,
    place: &Address,
    event: &Event,
    lanes: &mut Vec<usize>,
) -> Result<(), AllocError>
    ensures { OnOk result (lanes.new.items
        ≡ model.with_second_below now.now.table.now place.now event.now.second lanes.old.items) }
{
    match &event.second {
        Some(second) => {
            add_under(alloc, now, place, second, lanes)?;
            Ok(())
        }
        None => Ok(()),
    }
}

/// Adds the lane of the other place, if that is the place or below it.
fn add_under(
    alloc: Global,
    now: &Now<'_, '_>,
    place: &Address,
    other: &Address,
    lanes: &mut Vec<usize>,
) -> Result<(), AllocError>
    ensures { OnOk result (lanes.new.items
        ≡ model.with_under now.now.table.now place.now other.now lanes.old.items) }
{
    if is_under(place.entries(), other.entries()) {
        add_found(lane_at(alloc, now.table, other)?, lanes)?;
        return Ok(());
    }
    Ok(())
}

/// Whether the second place is the first or below it.
fn is_under(place: &[Entry], other: &[Entry]) -> bool
    ensures { result ≡ model.is_under place.now other.now }
{
    let Some((first, rest)) = place.split_first() else {
        return true;
    };
    let Some((second, other_rest)) = other.split_first() else {
        return false;
    };
    if is_same_entry(*first, *second) {
        is_under(rest, other_rest)
    } else {
        false
    }
}

/// Whether both entries are one.
fn is_same_entry(one: Entry, other: Entry) -> bool
    ensures { result ≡ same_entry one other }
{
    match (one, other) {
        (Entry::Ordered(one), Entry::Ordered(other)) => one == other,
        (Entry::Branch(one), Entry::Branch(other)) => one == other,
        _ => false,
    }
}

/// Adds the lanes of the uses of the channel that could be its partner, but for its own lane.
fn add_uses(
    now: &Now<'_, '_>,
    own: Option<usize>,
    channel: u32,
    role: Role,
    lanes: &mut Vec<usize>,
) -> Result<(), AllocError>
    ensures { OnOk result (lanes.new.items
        ≡ model.with_uses now.now.table.now own channel role now.now.uses.now lanes.old.items) }
{
    for used in now.uses {
        add_use(now, own, channel, role, used, lanes)?;
    }
    Ok(())
}

/// Adds the lane of a use, if it is one of the channel that could be its partner.
fn add_use(
    now: &Now<'_, '_>,
    own: Option<usize>,
    channel: u32,
    role: Role,
    used: &ChannelUse,
    lanes: &mut Vec<usize>,
) -> Result<(), AllocError>
    ensures { OnOk result (lanes.new.items
        ≡ model.with_use now.now.table.now own channel role used.now lanes.old.items) }
{
    if is_wanted(channel, role, used) {
        add_other(own, now.table.find(used.path.as_slice()), lanes)?;
        return Ok(());
    }
    Ok(())
}

/// Whether it is a use of the channel that could be its partner.
fn is_wanted(channel: u32, role: Role, used: &ChannelUse) -> bool
    ensures { result ≡ ((used.now.channel == channel) && model.is_partner role used.now.way) }
{
    used.channel == channel && is_partner(role, used.way)
}

/// Adds the lane, if it is not its own.
fn add_other(
    own: Option<usize>,
    found: Option<usize>,
    lanes: &mut Vec<usize>,
) -> Result<(), AllocError>
    ensures { OnOk result (lanes.new.items ≡ model.with_other own found lanes.old.items) }
{
    if is_same_lane(found, own) {
        return Ok(());
    }
    add_found(found, lanes)?;
    Ok(())
}

/// Whether both lanes are one, or neither is there.
fn is_same_lane(one: Option<usize>, other: Option<usize>) -> bool
    ensures { result ≡ model.same_lane one other }
{
    match (one, other) {
        (Some(one), Some(other)) => one == other,
        (None, None) => true,
        _ => false,
    }
}

/// Whether what uses a channel in this way can be the partner of an action of this role.
fn is_partner(role: Role, way: Way) -> bool
    ensures { result ≡ model.is_partner role way }
{
    match role {
        Role::Sends => matches!(way, Way::Receives | Way::Opens),
        Role::Receives => matches!(way, Way::Sends),
        Role::Syncs => matches!(way, Way::Syncs | Way::Opens),
        Role::Opens => matches!(way, Way::Sends | Way::Syncs),
        Role::Held => matches!(way, Way::Opens),
        Role::Closes | Role::Goes => false,
    }
}

/// Adds a lane, if one was found.
fn add_found(lane: Option<usize>, lanes: &mut Vec<usize>) -> Result<(), AllocError>
    ensures { OnOk result (lanes.new.items ≡ model.with_found lane lanes.old.items) }
{
    match lane {
        Some(lane) => {
            add_number(lane, lanes)?;
            Ok(())
        }
        None => Ok(()),
    }
}

/// Adds a number among those that ascend, once.
fn add_number(number: usize, numbers: &mut Vec<usize>) -> Result<(), AllocError>
    ensures { OnOk result (numbers.new.items ≡ model.with_number number numbers.old.items) }
{
    let index = below(number, numbers.as_slice());
    if holds_at(numbers.as_slice(), index, number) {
        return Ok(());
    }
    numbers.insert(index, number)?;
    Ok(())
}

/// Whether the number stands at the index.
fn holds_at(numbers: &[usize], index: usize, number: usize) -> bool
    ensures { result ≡ model.is_number number (slice_get numbers.now index) }
{
    match numbers.get(index) {
        Some(found) => *found == number,
        None => false,
    }
}

/// How many of the numbers, from the first on, are less.
fn below(number: usize, numbers: &[usize]) -> usize
    ensures count { result ≡ model.below number numbers.now }
    ensures within { result ≤ length numbers.now }
{
    for (index, held) in numbers.iter().enumerate() {
        if *held >= number {
            return index;
        }
    }
    numbers.len()
}
