// The events that actions make among themselves, without a look at what offers them.
ghost use Rattle.std.specs.Prelude.{◌≡◌, ◌⊎◌, ◌↔◌, ℕ, Some, IfOk, OnOk};
ghost use Rattle.syntax.specs.Lists.{In};
ghost use Rattle.runs.specs.Ready.{ReadyList};
ghost use Rattle.runs.specs.Steps.{State};
ghost use Rattle.runs.specs.declared.event.Event as any;
ghost use Rattle.dependence.specs.LastEvents.{Uses, LastUse};
ghost use Rattle.local_actions.specs.Actions.{OffersExactly};
ghost use Rattle.allowed_events.specs.internal.Acting.{ActedBy, ActedByOne};
ghost use Rattle.allowed_events.specs.internal.Among.{HasPartners, IsPartner, MetFrom, partner_on};

use crate::acting_events::{add, add_alone, channel_of};
use crate::meet::met;
use crate::ready::in_order;
use dependence::UseTable;
use local_actions::{ActionKind, LocalAction};
use runs::Event;
use std::alloc::{AllocError, Global};
use syntax::Items;

/// Exactly the events that are allowed where exactly these actions are offered, in the order of `ready_events`. For
/// each action it looks at those on its channel alone. It is an error if there is no memory.
pub fn events_among(alloc: Global, actions: &[LocalAction]) -> Result<Items<Event>, AllocError>
    ensures { (S : State) → OffersExactly S actions.now → IfOk result (λ events. ReadyList S events) }
{
    let partners = partners_of(alloc, actions)?;
    let made = made_among(alloc, &partners, actions)?;
    in_order(alloc, made)
}

/// The numbers of the actions that are partners of others on each channel.
fn partners_of(alloc: Global, actions: &[LocalAction]) -> Result<UseTable, AllocError>
    ensures { IfOk result (λ partners. HasPartners partners actions.now) }
{
    let mut partners = UseTable::new(alloc);
    for (number, action) in actions.iter().enumerate() {
        put_on(partner_on(&action.action), number as u64, &mut partners)?;
    }
    Ok(partners)
}

/// The channel on which the action is the partner of one that acts, if it is on one.
fn partner_on(action: &ActionKind) -> Option<u32>
    ensures { result ≡ partner_on action.now }
{
    match action {
        ActionKind::Sends(channel, _, _) => Some(*channel),
        ActionKind::Syncs(channel) => Some(*channel),
        ActionKind::Releases(channel) => Some(*channel),
        ActionKind::Assigns(_, _, _)
        | ActionKind::Tests(_, _)
        | ActionKind::Turns
        | ActionKind::Receives(_, _)
        | ActionKind::Opens(_, _)
        | ActionKind::Closes(_) => None,
    }
}

/// Puts the number of an action on its channel, if it is on one.
fn put_on(channel: Option<u32>, number: u64, partners: &mut UseTable) -> Result<(), AllocError>
    ensures { OnOk result ((c i : ℕ) → Uses partners.new c i ↔
        (Uses partners.old c i ⊎ ((channel ≡ Some c) × (i ≡ number)))) }
{
    match channel {
        Some(channel) => partners.put(channel, number),
        None => Ok(()),
    }
}

/// The events in which one of the actions acts.
fn made_among(
    alloc: Global,
    partners: &UseTable,
    actions: &[LocalAction],
) -> Result<Items<Event>, AllocError>
    requires { HasPartners partners.now actions.now }
    ensures { (S : State) → OffersExactly S actions.now →
        IfOk result (λ events. (e : any.Event) → In e events ↔ ActedByOne S actions.now e) }
{
    let mut events = Items::with_capacity(alloc, actions.len())?;
    for one in actions {
        add_made(alloc, partners, actions, one, &mut events)?;
    }
    Ok(events)
}

/// Adds the events in which the action acts, alone or with one of the others.
fn add_made(
    alloc: Global,
    partners: &UseTable,
    actions: &[LocalAction],
    one: &LocalAction,
    events: &mut Items<Event>,
) -> Result<(), AllocError>
    requires { HasPartners partners.now actions.now }
    ensures { (S : State) → OffersExactly S actions.now →
        OnOk result ((e : any.Event) → In e events.new ↔ (In e events.old ⊎ ActedBy S one.now e)) }
{
    match channel_of(&one.action) {
        Some(channel) => add_with_partners(alloc, partners, actions, channel, one, events),
        None => add_alone(alloc, one, events),
    }
}

/// Adds the events in which the action acts with one of the others that is a partner on the channel.
fn add_with_partners(
    alloc: Global,
    partners: &UseTable,
    actions: &[LocalAction],
    channel: u32,
    one: &LocalAction,
    events: &mut Items<Event>,
) -> Result<(), AllocError>
    requires { HasPartners partners.now actions.now }
    ensures { OnOk result ((e : any.Event) → In e events.new ↔
        (In e events.old ⊎ MetFrom 0 one.now channel actions.now e)) }
{
    let mut below = actions.len();
    'partners: while let Some(number) = partners.last(channel, below as u64) {
        below = number as usize;
        let other = &actions[below];
        let event = met(alloc, &one.place, &one.action, &other.place, &other.action)?;
        add(event, events)?;
    }
    Ok(())
}
