// The event that a choice means, found along its place and on the channels of the actions there.
ghost use Rattle.std.specs.Prelude.{◌≡◌, IfOk, OnErr, MatchOption};
ghost use Rattle.runs.specs.Ready.{ChoiceAllowed, Chosen};
ghost use Rattle.runs.specs.Steps.{State};
ghost use Rattle.process_tree.specs.Code.{Code};
ghost use Rattle.process_tree.specs.Tidy.{Tidy};
ghost use Rattle.process_tree.specs.View.{tree_view};
ghost use Rattle.local_actions.specs.Actions.{Offered, opened_arm};
ghost use Rattle.local_actions.specs.View.{state_of};
ghost use Rattle.local_actions.specs.Walk.{action_at as action_with};
ghost use Rattle.local_actions.specs.declared.action.ActionKind as any_kind;
ghost use Rattle.channel_uses.specs.StemsFrom.{StemsFrom};
ghost use Rattle.channel_uses.specs.Table.{IsTableOf};
ghost use Rattle.allowed_events.specs.internal.Acting.{ReadyWith};
ghost use Rattle.allowed_events.specs.internal.Choosing.{HasNone, FirstWith};

use crate::least::least_acted;
use crate::order::has_choice;
use channel_uses::ChannelUses;
use local_actions::action_at;
use process_tree::Tree;
use runs::{Choice, Event};
use std::alloc::{AllocError, Global};
use store::Store;
use syntax::Items;

/// The event that the choice means in the state of the tree and the store: of those that are allowed and have the
/// choice the one whose other address is the least. `None` where there is none. The tree is to be tidy and to stem from
/// the command whose uses of channels these are.
///
/// It goes down along the place, and for the other action into what uses its channel alone. It is an error if there is
/// no memory, and only where an action is offered at the place that opens the arm.
pub fn event_with(
    alloc: Global,
    uses: &ChannelUses,
    tree: &Tree,
    store: &Store,
    choice: &Choice,
) -> Result<Option<Event>, AllocError>
    ensures found { (code : Code) → IsTableOf code uses.now → StemsFrom (tree_view tree.now) code →
        Tidy (tree_view tree.now) →
        IfOk result (λ found.
        MatchOption found
        (ChoiceAllowed (state_of tree.now store.now) choice.now →
        ⊥) (λ event. Chosen (state_of tree.now store.now) choice.now event)) }
    ensures offered { Tidy (tree_view tree.now) →
        OnErr result ((action : any_kind.ActionKind)
        × Offered (state_of tree.now store.now) (action_with choice.now.place action)
        × (opened_arm action ≡ choice.now.arm)) }
{
    let Some(action) = action_at(alloc, tree, store, &choice.place, choice.arm)? else {
        return Ok(None);
    };
    least_acted(alloc, uses, tree, store, &choice.place, action)
}

/// The first of the events that has the choice.
pub fn first_with(events: Items<Event>, choice: &Choice) -> Option<Event>
    ensures { (S : State) → ReadyWith S choice.now events →
        MatchOption result (ChoiceAllowed S choice.now → ⊥) (λ event. Chosen S choice.now event) }
{
    let mut events = events.into_vec();
    match index_with(events.as_slice(), choice) {
        Some(index) => Some(events.swap_remove(index)),
        None => None,
    }
}

/// Where the first event with this choice stands.
fn index_with(events: &[Event], choice: &Choice) -> Option<usize>
    ensures { MatchOption result (HasNone choice.now events.now) (λ i. FirstWith choice.now events.now i) }
{
    for (i, event) in events.iter().enumerate() {
        if has_choice(event, choice) {
            return Some(i);
        }
    }
    None
}
