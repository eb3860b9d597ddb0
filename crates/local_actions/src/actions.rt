// All actions that a tree offers.
ghost use Rattle.std.specs.Prelude.{IfOk};
ghost use Rattle.runs.specs.InOrder.{InOrder};
ghost use Rattle.process_tree.specs.Tidy.{Tidy};
ghost use Rattle.process_tree.specs.View.{tree_view};
ghost use Rattle.local_actions.specs.Actions.{NotBehind, OffersExactly, Precedes};
ghost use Rattle.local_actions.specs.View.{state_of};

use crate::action::LocalAction;
use crate::cursor::Cursor;
use crate::list::list;
use process_tree::Tree;
use std::alloc::{AllocError, Global};
use store::Store;
use syntax::Items;

/// Exactly the actions that the tree offers over the values of the store, each once, in the order of their places, at one
/// place of their arms, where the tree is tidy, as each is that stands for a run. Of the finished children of a sequence
/// it looks at the last that has moved and those behind it alone. It is an error if there is no memory.
pub fn actions_of(
    alloc: Global,
    tree: &Tree,
    store: &Store,
) -> Result<Items<LocalAction>, AllocError>
    ensures exactly { Tidy (tree_view tree.now) →
        IfOk result (λ actions. OffersExactly (state_of tree.now store.now) actions) }
    ensures in_order { Tidy (tree_view tree.now) → IfOk result (λ actions. InOrder NotBehind actions) }
    ensures once { Tidy (tree_view tree.now) → IfOk result (λ actions. InOrder Precedes actions) }
{
    let mut cursor = Cursor::new(alloc);
    list(alloc, tree.root(), store.as_slice(), &mut cursor)?;
    Ok(cursor.into_found())
}
