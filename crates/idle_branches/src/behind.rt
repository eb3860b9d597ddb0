// What is offered behind a place: all that a step at the place may have brought.
ghost use Rattle.std.specs.Prelude.{◌≡◌, IfOk, MatchBool, true, false};
ghost use Rattle.address.specs.declared.Entry.TheVariants.{Ordered as IsOrdered};
ghost use Rattle.runs.specs.WellFormed.{WellFormed};
ghost use Rattle.process_tree.specs.Tidy.{Tidy};
ghost use Rattle.process_tree.specs.View.{tree_view};
ghost use Rattle.local_actions.specs.View.{state_of};
ghost use Rattle.idle_branches.specs.Idle as spec;
ghost use Rattle.idle_branches.specs.Idle.{HasBehind};
ghost use Rattle.idle_branches.specs.internal.Behind.{AreOfOneChild, OffersInChild, OffersUnder, PastEntry};

use address::{Address, Entry};
use local_actions::{ActionKind, LocalAction, actions_below};
use process_tree::Tree;
use std::alloc::{AllocError, Global};
use store::Store;
use syntax::Items;

/// Actions that the tree offers, among them all that come behind the place in a sequence. They are those of the next
/// child of the innermost sequence that is still at work, and none where a branch beside the place is at work first. It
/// is an error if there is no memory.
pub fn offers_behind(
    alloc: Global,
    tree: &Tree,
    store: &Store,
    place: &[Entry],
) -> Result<Items<LocalAction>, AllocError>
    ensures { Tidy (tree_view tree.now) → WellFormed (state_of tree.now store.now).residual →
        IfOk result (λ found. HasBehind (state_of tree.now store.now) place.now found) }
{
    let mut rest = place;
    let mut branch = None;
    'entries: while let Some((last, parent)) = rest.split_last() {
        if let Some(found) = offers_past(alloc, tree, store, parent, *last, branch)? {
            return Ok(found);
        }
        branch = branch_of(*last);
        rest = parent;
    }
    Ok(Items::new(alloc))
}

/// The number of the branch, if the entry is one.
fn branch_of(entry: Entry) -> Option<u32> {
    match entry {
        Entry::Branch(number) => Some(number),
        Entry::Ordered(_) => None,
    }
}

/// What is offered behind this entry of the parent, where the tree offers anything in the parent that decides it. The
/// place may go on in this branch.
fn offers_past(
    alloc: Global,
    tree: &Tree,
    store: &Store,
    parent: &[Entry],
    last: Entry,
    branch: Option<u32>,
) -> Result<Option<Items<LocalAction>>, AllocError>
    ensures { Tidy (tree_view tree.now) → WellFormed (state_of tree.now store.now).residual →
        IfOk result (λ found. PastEntry (state_of tree.now store.now) parent.now last found) }
{
    match last {
        Entry::Ordered(number) => offers_after(alloc, tree, store, parent, number, branch),
        Entry::Branch(_) => Ok(None),
    }
}

/// The same of the child of this number. It looks at the next child, then at the branches beside this one, and only then
/// at all that the parent offers.
fn offers_after(
    alloc: Global,
    tree: &Tree,
    store: &Store,
    parent: &[Entry],
    number: u32,
    branch: Option<u32>,
) -> Result<Option<Items<LocalAction>>, AllocError>
    ensures { Tidy (tree_view tree.now) → WellFormed (state_of tree.now store.now).residual →
        IfOk result (λ found. PastEntry (state_of tree.now store.now) parent.now (IsOrdered number) found) }
{
    let next = offers_next(alloc, tree, store, parent, number)?;
    if !next.is_empty() {
        return Ok(Some(next));
    }
    if is_beside_at_work(alloc, tree, store, parent, number, branch)? {
        return Ok(Some(Items::new(alloc)));
    }
    let all = actions_below(alloc, tree, store, parent)?;
    if all.is_empty() {
        return Ok(None);
    }
    Ok(Some(all))
}

/// What the tree offers in the child behind the one of this number.
fn offers_next(
    alloc: Global,
    tree: &Tree,
    store: &Store,
    parent: &[Entry],
    number: u32,
) -> Result<Items<LocalAction>, AllocError>
    ensures { Tidy (tree_view tree.now) →
        IfOk result (λ found. AreOfOneChild (state_of tree.now store.now) parent.now found) }
{
    match number.checked_add(1) {
        Some(next) => {
            let child = Address::below(alloc, parent, Entry::Ordered(next))?;
            actions_below(alloc, tree, store, child.entries())
        }
        None => Ok(Items::new(alloc)),
    }
}

/// Whether the child of this number is at work in the branch behind this one or in the one before it. Other branches
/// are not looked at.
fn is_beside_at_work(
    alloc: Global,
    tree: &Tree,
    store: &Store,
    parent: &[Entry],
    number: u32,
    branch: Option<u32>,
) -> Result<bool, AllocError>
    ensures { Tidy (tree_view tree.now) →
        IfOk result (λ found. MatchBool found (OffersInChild (state_of tree.now store.now) parent.now number)
        (Unit {0})) }
{
    let Some(branch) = branch else {
        return Ok(false);
    };
    let child = Address::below(alloc, parent, Entry::Ordered(number))?;
    if is_branch_at_work(
        alloc,
        tree,
        store,
        child.entries(),
        branch.saturating_add(1),
    )? {
        return Ok(true);
    }
    is_branch_at_work(
        alloc,
        tree,
        store,
        child.entries(),
        branch.saturating_sub(1),
    )
}

/// Whether the tree offers anything in this branch of the place.
fn is_branch_at_work(
    alloc: Global,
    tree: &Tree,
    store: &Store,
    place: &[Entry],
    branch: u32,
) -> Result<bool, AllocError>
    ensures { Tidy (tree_view tree.now) →
        IfOk result (λ found. MatchBool found (OffersUnder (state_of tree.now store.now) place.now) (Unit {0})) }
{
    let beside = Address::below(alloc, place, Entry::Branch(branch))?;
    let found = actions_below(alloc, tree, store, beside.entries())?;
    Ok(!found.is_empty())
}

/// The channel at whose other side the action is, if it is at one.
pub fn given_on(action: &ActionKind) -> Option<u32>
    ensures { result ≡ spec.given_on action.now }
{
    match action {
        ActionKind::Sends(channel, _, _) => Some(*channel),
        ActionKind::Syncs(channel) | ActionKind::Releases(channel) => Some(*channel),
        ActionKind::Assigns(_, _, _)
        | ActionKind::Tests(_, _)
        | ActionKind::Turns
        | ActionKind::Receives(_, _)
        | ActionKind::Opens(_, _)
        | ActionKind::Closes(_) => None,
    }
}
