// Of the events in which an action acts the one whose other address is the least.
ghost use Rattle.std.specs.Prelude.{◌≡◌, [], ◌∷◌, None, false, IfOk, IfSome, MatchOption};
ghost use Rattle.runs.specs.internal.AllowedEvents.{those};
ghost use Rattle.process_tree.specs.Code.{Code};
ghost use Rattle.process_tree.specs.Tidy.{Tidy};
ghost use Rattle.process_tree.specs.View.{tree_view};
ghost use Rattle.local_actions.specs.View.{state_of};
ghost use Rattle.local_actions.specs.Walk.{action_at};
ghost use Rattle.channel_uses.specs.StemsFrom.{StemsFrom};
ghost use Rattle.channel_uses.specs.Table.{IsTableOf};
ghost use Rattle.allowed_events.specs.internal.Least as spec;
ghost use Rattle.allowed_events.specs.internal.Least.{LeastActed};
ghost use Rattle.allowed_events.specs.internal.Meeting as model;

use crate::acting_events::channel_of;
use crate::meet::{alone, met};
use crate::order::{order_of, other_place};
use address::Address;
use channel_uses::ChannelUses;
use local_actions::{ActionKind, LocalAction};
use process_tree::Tree;
use runs::Event;
use std::alloc::{AllocError, Global};
use store::Store;

/// Of the events in which the action at this place acts the one whose other address is the least. No list of events is
/// made.
pub(crate) fn least_acted(
    alloc: Global,
    uses: &ChannelUses,
    tree: &Tree,
    store: &Store,
    place: &Address,
    action: ActionKind,
) -> Result<Option<Event>, AllocError>
    ensures { (code : Code) → IsTableOf code uses.now → StemsFrom (tree_view tree.now) code →
        Tidy (tree_view tree.now) →
        IfOk result (λ least. LeastActed (state_of tree.now store.now) (action_at place.now action) least) }
{
    match channel_of(&action) {
        Some(channel) => {
            let others = uses.partners_on(alloc, tree, store, channel)?;
            least_met(alloc, place, &action, others.as_slice())
        }
        None => alone(alloc, place, action),
    }
}

/// Of the events in which the action acts with one of the others the one whose other address is the least.
fn least_met(
    alloc: Global,
    place: &Address,
    action: &ActionKind,
    others: &[LocalAction],
) -> Result<Option<Event>, AllocError>
    ensures { IfOk result (λ least.
        least ≡ spec.least_of None (model.met_with (action_at place.now action.now) others.now)) }
{
    if let Some(other) = only(others) {
        return met(alloc, place, action, &other.place, &other.action);
    }
    let mut least = None;
    for other in others {
        let event = met(alloc, place, action, &other.place, &other.action)?;
        take(event, &mut least);
    }
    Ok(least)
}

/// The one of them, if there is no other.
fn only(others: &[LocalAction]) -> Option<&LocalAction>
    ensures { IfSome result (λ one. others.now ≡ one.now ∷ []) }
{
    let (first, rest) = others.split_first()?;
    if rest.is_empty() {
        return Some(first);
    }
    None
}

/// Takes the event, if there is one and it is less than the least so far.
fn take(made: Option<Event>, least: &mut Option<Event>)
    ensures { least.new ≡ spec.least_of least.old (those made []) }
{
    if !is_wanted(&made, least) {
        return;
    }
    *least = made;
}

/// Whether there is an event, and it is less than the least so far.
fn is_wanted(made: &Option<Event>, least: &Option<Event>) -> bool
    ensures { MatchOption made.now (result ≡ false) (λ event. result ≡ spec.is_less event least.now) }
{
    match made {
        Some(event) => is_less(event, least),
        None => false,
    }
}

/// Whether the other address of the event is less than that of the least so far, or it is the first.
fn is_less(event: &Event, least: &Option<Event>) -> bool
    ensures { result ≡ spec.is_less event.now least.now }
{
    match least {
        Some(held) => {
            let own = other_place(event);
            let others = other_place(held);
            let order = order_of(own, others);
            order.is_lt()
        }
        None => true,
    }
}
