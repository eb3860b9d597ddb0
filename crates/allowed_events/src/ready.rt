// The events that are allowed in the state of a tree, in order.
ghost use Rattle.std.specs.Prelude.{◌≡◌, IfOk, IsTrue, Some, true, false, slice_get};
ghost use Rattle.runs.specs.InOrder.{InOrder};
ghost use Rattle.runs.specs.Ready.{ReadyList, Sooner};
ghost use Rattle.runs.specs.Steps.{State, Allowed};
ghost use Rattle.runs.specs.Tests.{same_event};
ghost use Rattle.runs.specs.WellFormed.{WellFormed};
ghost use Rattle.runs.specs.declared.event.Event as any;
ghost use Rattle.syntax.specs.Lists.{In};
ghost use Rattle.process_tree.specs.Code.{Code};
ghost use Rattle.process_tree.specs.Tidy.{Tidy};
ghost use Rattle.process_tree.specs.View.{tree_view};
ghost use Rattle.local_actions.specs.View.{state_of};
ghost use Rattle.channel_uses.specs.StemsFrom.{StemsFrom};
ghost use Rattle.channel_uses.specs.Table.{IsTableOf};
ghost use Rattle.allowed_events.specs.ReadyBelow.{ReadyBelow};
ghost use Rattle.allowed_events.specs.internal.Acting.{SortedOf};
ghost use Rattle.allowed_events.specs.internal.Sorting.{inserted};

use crate::acting_events::acted_by;
use crate::among::events_among;
use crate::order::{are_in_order, sooner_count};
use address::Entry;
use channel_uses::ChannelUses;
use local_actions::{actions_below, actions_of};
use process_tree::Tree;
use runs::Event;
use std::alloc::{AllocError, Global};
use store::Store;
use syntax::Items;

/// Exactly the events that are allowed in the state of the tree and the store: in the order of their acting addresses,
/// then of their arms, then of their other addresses. The tree is to be tidy. It is an error if there is no memory.
///
/// All actions are listed first, so that partners are found among them.
pub fn ready_events(alloc: Global, tree: &Tree, store: &Store) -> Result<Items<Event>, AllocError>
    ensures { Tidy (tree_view tree.now) → IfOk result (λ events. ReadyList (state_of tree.now store.now) events) }
{
    let actions = actions_of(alloc, tree, store)?;
    events_among(alloc, actions.as_slice())
}

/// Those of them that act at the place or below it. The tree is to be tidy and to stem from the command whose uses of
/// channels these are. It goes down along the place, and for each action that is found there looks at those on its
/// channel alone. It is an error if there is no memory.
pub fn ready_below(
    alloc: Global,
    uses: &ChannelUses,
    tree: &Tree,
    store: &Store,
    place: &[Entry],
) -> Result<Items<Event>, AllocError>
    ensures { (code : Code) → IsTableOf code uses.now → StemsFrom (tree_view tree.now) code →
        Tidy (tree_view tree.now) →
        IfOk result (λ events. ReadyBelow (state_of tree.now store.now) place.now events) }
{
    let acting = actions_below(alloc, tree, store, place)?;
    let made = acted_by(alloc, uses, tree, store, acting.as_slice())?;
    in_order(alloc, made)
}

/// The same events in the order of their acting addresses, then of their arms, then of their other addresses; each
/// stands once. Nearly always they are in order as they are: they come in the order in which a walk finds who acts.
pub fn in_order(alloc: Global, events: Items<Event>) -> Result<Items<Event>, AllocError>
    ensures { (S : State) → WellFormed S.residual → ((e : any.Event) → In e events → Allowed S e) →
        IfOk result (λ sorted. SortedOf events sorted) }
{
    if are_in_order(events.as_slice()) {
        return Ok(events);
    }
    sort(alloc, events)
}

/// The same, event by event from the first on: each goes behind the last that comes before it. Where they are nearly in
/// order each is compared with few.
fn sort(alloc: Global, events: Items<Event>) -> Result<Items<Event>, AllocError>
    ensures { (S : State) → WellFormed S.residual → ((e : any.Event) → In e events → Allowed S e) →
        IfOk result (λ sorted. SortedOf events sorted) }
{
    let mut left = events.into_vec();
    left.reverse();
    let mut sorted = Vec::new(alloc);
    while let Some(event) = left.pop() {
        insert(&mut sorted, event)?;
    }
    Ok(Items::from_vec(sorted))
}

/// Puts the event where it belongs, unless it is there.
fn insert(sorted: &mut Vec<Event>, event: Event) -> Result<(), AllocError>
    ensures { InOrder Sooner sorted.old.items → IfOk result (λ _. sorted.new.items ≡ inserted event sorted.old.items) }
{
    let index = sooner_count(&event, sorted.as_slice());
    if is_there(sorted.as_slice(), index, &event) {
        return Ok(());
    }
    sorted.insert(index, event)?;
    Ok(())
}

/// Whether the event stands at this index.
fn is_there(sorted: &[Event], index: usize, event: &Event) -> bool
    ensures there { IsTrue result →
        ((f : Event) × (slice_get sorted.now index ≡ Some f) × (same_event f event.now ≡ true)) }
    ensures elsewhere { result ≡ false → (f : Event) → slice_get sorted.now index ≡ Some f →
        same_event f event.now ≡ false }
{
    match sorted.get(index) {
        Some(found) => found.equals(event),
        None => false,
    }
}
