// The actions at one place of a tree, and those below it.
ghost use Rattle.std.specs.Prelude.{◌≡◌, ◌↔◌, Some, IfOk, OnErr};
ghost use Rattle.syntax.specs.Lists.{In};
ghost use Rattle.process_tree.specs.Tidy.{Tidy};
ghost use Rattle.process_tree.specs.View.{tree_view};
ghost use Rattle.local_actions.specs.Actions.{Offered, Under, opened_arm};
ghost use Rattle.local_actions.specs.View.{state_of};
ghost use Rattle.local_actions.specs.Walk.{action_at};
ghost use Rattle.local_actions.specs.declared.action.ActionKind as any_kind;
ghost use Rattle.local_actions.specs.declared.action.LocalAction as any;

use crate::action::{ActionKind, LocalAction};
use crate::around::OnWay;
use crate::cursor::Cursor;
use crate::down::down;
use crate::site::{chosen, list_site};
use address::{Address, Entry};
use process_tree::Tree;
use std::alloc::{AllocError, Global};
use store::Store;
use syntax::Items;

/// Exactly the action that the tree offers at this place and that opens this arm, 0 where it opens none, over the values
/// of the store, where the tree is tidy, as each is that stands for a run; there is one at most. It goes down along the
/// place, and into no branch beside it but to see whether what comes first is finished. It is an error if there is no
/// memory, and only where there is such an action.
pub fn action_at(
    alloc: Global,
    tree: &Tree,
    store: &Store,
    place: &Address,
    arm: u32,
) -> Result<Option<ActionKind>, AllocError>
    ensures found { Tidy (tree_view tree.now) →
        IfOk result (λ found. (action : any_kind.ActionKind) →
        (found ≡ Some action)
        ↔ (Offered (state_of tree.now store.now) (action_at place.now action) × (opened_arm action ≡ arm))) }
    ensures offered { Tidy (tree_view tree.now) →
        OnErr result ((action : any_kind.ActionKind)
        × Offered (state_of tree.now store.now) (action_at place.now action) × (opened_arm action ≡ arm)) }
{
    let mut way = OnWay::new(alloc);
    let site = down(tree.root(), place.entries(), &mut way);
    chosen(alloc, site, arm, store.as_slice(), &way)
}

/// Exactly the actions that the tree offers at this place and below it over the values of the store, where the tree is
/// tidy. It goes down along the place, and into no branch beside it but to see whether what comes first is finished. It
/// is an error if there is no memory.
pub fn actions_below(
    alloc: Global,
    tree: &Tree,
    store: &Store,
    place: &[Entry],
) -> Result<Items<LocalAction>, AllocError>
    ensures { Tidy (tree_view tree.now) →
        IfOk result (λ actions. (x : any.LocalAction) →
        In x actions ↔ (Offered (state_of tree.now store.now) x × Under place.now x.place)) }
{
    let mut way = OnWay::new(alloc);
    let site = down(tree.root(), place, &mut way);
    let mut cursor = Cursor::at(alloc, place, way.into_around()?)?;
    list_site(alloc, site, store.as_slice(), &mut cursor)?;
    Ok(cursor.into_found())
}
