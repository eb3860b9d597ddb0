// The events that are ready in any tree and store, in order, and the one that a choice means.
ghost use Rattle.std.specs.Prelude.{◌≡◌, IfOk, MatchOption};
ghost use Rattle.runs.specs.Ready.{ChoiceAllowed, Chosen, ReadyList};
ghost use Rattle.calculus.specs.ResidualTree as slow;
ghost use Rattle.local_actions.specs.View.{state_of};

use crate::process::tree_of;
use allowed_events::{first_with, in_order};
use calculus::Plain;
use process_tree::Tree;
use runs::{Choice, Event};
use std::alloc::{AllocError, Global};
use store::Store;
use syntax::Items;

/// Exactly the events that are allowed in the state of the tree and the store: in the order of their acting addresses,
/// then of their arms, then of their other addresses. It asks nothing of the tree, and copies all that is left of it.
/// It is an error if there is no memory; a place with a number of 2^32 and more is answered so too, which no run
/// reaches.
pub fn ready_events(alloc: Global, tree: &Tree, store: &Store) -> Result<Vec<Event>, AllocError>
    ensures { IfOk result (λ events. ReadyList (state_of tree.now store.now) events.items) }
{
    match ready_list(alloc, tree, store) {
        Ok(events) => Ok(events.into_vec()),
        Err(refused) => Err(refused),
    }
}

/// The same, as a list.
fn ready_list(alloc: Global, tree: &Tree, store: &Store) -> Result<Items<Event>, AllocError>
    ensures { IfOk result (λ events. ReadyList (state_of tree.now store.now) events) }
{
    let state = plain_state(alloc, tree, store)?;
    let events = state.allowed(alloc)?;
    in_order(alloc, events)
}

/// The event that the choice means in the state of the tree and the store: of those that are allowed and have the
/// choice the one whose other address is the least. `None` where there is none. It asks nothing of the tree, and costs
/// as much as `ready_events`, with the same errors.
pub fn event_at(
    alloc: Global,
    tree: &Tree,
    store: &Store,
    choice: &Choice,
) -> Result<Option<Event>, AllocError>
    ensures { IfOk result (λ found.
        MatchOption found
        (ChoiceAllowed (state_of tree.now store.now) choice.now →
        ⊥) (λ event. Chosen (state_of tree.now store.now) choice.now event)) }
{
    let events = ready_list(alloc, tree, store)?;
    Ok(first_with(events, choice))
}

/// The state of the tree and the store, as the slow replay holds it.
fn plain_state(alloc: Global, tree: &Tree, store: &Store) -> Result<Plain, AllocError>
    ensures { IfOk result (λ made. slow.state_of made ≡ state_of tree.now store.now) }
{
    let left = tree_of(alloc, tree.root(), &[])?;
    let values = Vec::from_slice(alloc, store.as_slice())?;
    Ok(Plain::new(left, values))
}
