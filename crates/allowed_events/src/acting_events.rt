// The events in which actions act.
ghost use Rattle.std.specs.Prelude.{◌≡◌, ◌++◌, ◌⊎◌, ◌↔◌, [], true, Some, None, IfOk, IfSome, OnOk, MatchOption};
ghost use Rattle.syntax.specs.Lists.{In};
ghost use Rattle.runs.specs.Moves.{Place};
ghost use Rattle.runs.specs.declared.event.Event as any;
ghost use Rattle.runs.specs.internal.AllowedEvents.{those};
ghost use Rattle.process_tree.specs.Code.{Code};
ghost use Rattle.process_tree.specs.Tidy.{Tidy};
ghost use Rattle.process_tree.specs.View.{tree_view};
ghost use Rattle.local_actions.specs.View.{state_of};
ghost use Rattle.local_actions.specs.declared.action.ActionKind as any_action;
ghost use Rattle.channel_uses.specs.OnChannel.{is_partner_on};
ghost use Rattle.channel_uses.specs.StemsFrom.{StemsFrom};
ghost use Rattle.channel_uses.specs.Table.{IsTableOf};
ghost use Rattle.allowed_events.specs.internal.Acting.{ActedBy, ActedByOne};
ghost use Rattle.allowed_events.specs.internal.Meeting as model;

use crate::meet::met;
use channel_uses::ChannelUses;
use local_actions::{ActionKind, LocalAction};
use process_tree::Tree;
use runs::Event;
use std::alloc::{AllocError, Global};
use store::Store;
use syntax::Items;

/// The events in which one of these actions acts, alone or with another that the tree offers.
pub(crate) fn acted_by(
    alloc: Global,
    uses: &ChannelUses,
    tree: &Tree,
    store: &Store,
    acting: &[LocalAction],
) -> Result<Items<Event>, AllocError>
    ensures { (code : Code) → IsTableOf code uses.now → StemsFrom (tree_view tree.now) code →
        Tidy (tree_view tree.now) →
        IfOk result (λ events. (e : any.Event) → In e events ↔ ActedByOne (state_of tree.now store.now) acting.now e) }
{
    let mut events = Items::with_capacity(alloc, acting.len())?;
    for one in acting {
        add_acted(alloc, uses, tree, store, one, &mut events)?;
    }
    Ok(events)
}

/// Adds the events in which the action acts, alone or with another that the tree offers. It looks at those on its
/// channel alone.
fn add_acted(
    alloc: Global,
    uses: &ChannelUses,
    tree: &Tree,
    store: &Store,
    one: &LocalAction,
    events: &mut Items<Event>,
) -> Result<(), AllocError>
    ensures { (code : Code) → IsTableOf code uses.now → StemsFrom (tree_view tree.now) code →
        Tidy (tree_view tree.now) →
        OnOk result
        ((e : any.Event) → In e events.new ↔ (In e events.old ⊎ ActedBy (state_of tree.now store.now) one.now e)) }
{
    match channel_of(&one.action) {
        Some(channel) => {
            let others = uses.partners_on(alloc, tree, store, channel)?;
            add_met(alloc, one, others.as_slice(), events)
        }
        None => add_alone(alloc, one, events),
    }
}

/// Adds the event that the action makes alone, if it makes one.
pub(crate) fn add_alone(
    alloc: Global,
    one: &LocalAction,
    events: &mut Items<Event>,
) -> Result<(), AllocError>
    ensures { OnOk result (events.new ≡ events.old ++ those (model.solo one.now.place one.now.action) []) }
{
    match &one.action {
        ActionKind::Assigns(variable, value, read) => {
            let read = read.copy(alloc)?;
            let event = Event::assignment(alloc, &one.place, *variable, *value, read)?;
            events.push(event)
        }
        ActionKind::Tests(arm, read) => {
            let read = read.copy(alloc)?;
            let event = Event::test(alloc, &one.place, *arm, read)?;
            events.push(event)
        }
        ActionKind::Turns => {
            let event = Event::turn(alloc, &one.place)?;
            events.push(event)
        }
        ActionKind::Sends(_, _, _)
        | ActionKind::Receives(_, _)
        | ActionKind::Syncs(_)
        | ActionKind::Opens(_, _)
        | ActionKind::Releases(_)
        | ActionKind::Closes(_) => Ok(()),
    }
}

/// Adds the events in which the action acts with one of the others.
fn add_met(
    alloc: Global,
    one: &LocalAction,
    others: &[LocalAction],
    events: &mut Items<Event>,
) -> Result<(), AllocError>
    ensures { OnOk result (events.new ≡ events.old ++ model.met_with one.now others.now) }
{
    for other in others {
        let event = met(alloc, &one.place, &one.action, &other.place, &other.action)?;
        add(event, events)?;
    }
    Ok(())
}

/// Adds the event, if there is one.
pub(crate) fn add(made: Option<Event>, events: &mut Items<Event>) -> Result<(), AllocError>
    ensures { OnOk result (events.new ≡ events.old ++ those made []) }
{
    match made {
        Some(event) => events.push(event),
        None => Ok(()),
    }
}

/// The channel on which the action looks for another, if it acts with one; then it makes no event alone.
pub(crate) fn channel_of(action: &ActionKind) -> Option<u32>
    ensures looks { MatchOption result ((b a : Place) (y : any_action.ActionKind) → model.met b action.now a y ≡ None)
        (λ c. (b a : Place) (y : any_action.ActionKind) (e : any.Event) → model.met b action.now a y ≡ Some e →
        is_partner_on c y ≡ true) }
    ensures never_alone { IfSome result (λ _. (a : Place) → model.solo a action.now ≡ None) }
{
    match action {
        ActionKind::Receives(channel, _) => Some(*channel),
        ActionKind::Opens(channel, _) => Some(*channel),
        ActionKind::Closes(channel) => Some(*channel),
        ActionKind::Syncs(channel) => Some(*channel),
        ActionKind::Assigns(_, _, _)
        | ActionKind::Tests(_, _)
        | ActionKind::Turns
        | ActionKind::Sends(_, _, _)
        | ActionKind::Releases(_) => None,
    }
}
