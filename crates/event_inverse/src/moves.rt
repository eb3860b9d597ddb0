// The moves of an event, made on the tree and taken back.
ghost use Rattle.std.specs.Prelude.{◌≡◌, [], ◌∷◌, Some, IsSome, IfOk, OnErr};
ghost use Rattle.process_tree.specs.View.{out_view, tree_view};
ghost use Rattle.event_inverse.specs.Grown.{all_advanced};
ghost use Rattle.event_inverse.specs.View.{removed_view};
ghost use Rattle.event_inverse.specs.internal.Moved.{moved, moved_back, both_back};

use crate::asks::{ask_alone, ask_first, ask_second};
use crate::record::Removed;
use address::Entry;
use process_tree::{Proc, Tree};
use runs::{Ask, Event, Kind};
use std::alloc::{AllocError, Global};

/// Makes the moves that the event asks for. Without memory none is made.
pub(crate) fn make(alloc: Global, tree: &mut Tree, event: &Event) -> Result<Removed, AllocError>
    requires { IsSome (moved (tree_view tree.old) event.now) }
    ensures made { IfOk result (λ removed.
        moved (tree_view tree.old) event.now ≡ Some (tree_view tree.new, removed_view removed)) }
    ensures without_memory { OnErr result (tree_view tree.new ≡ tree_view tree.old) }
{
    match event.kind {
        Kind::Assign | Kind::Test | Kind::Turn => {
            make_one(alloc, tree, event.first.entries(), ask_alone(event))
        }
        Kind::Meet | Kind::Open | Kind::Close | Kind::Sync => match &event.second {
            Some(place) => make_two(
                alloc,
                tree,
                event.first.entries(),
                ask_first(event.kind),
                place.entries(),
                ask_second(event),
            ),
            None => unreachable!(),
        },
    }
}

/// Makes the move that is asked for at the place.
fn make_one(
    alloc: Global,
    tree: &mut Tree,
    place: &[Entry],
    ask: Ask,
) -> Result<Removed, AllocError>
    requires { IsSome (all_advanced (tree_view tree.old) ((place.now, ask) ∷ [])) }
    ensures made { IfOk result (λ removed.
        all_advanced (tree_view tree.old) ((place.now, ask) ∷ []) ≡ Some (tree_view tree.new, removed_view removed)) }
    ensures without_memory { OnErr result (tree_view tree.new ≡ tree_view tree.old) }
{
    match tree.advance(alloc, place, ask) {
        Ok(out) => Ok(Removed::One(out)),
        Err(error) => Err(error),
    }
}

/// Makes the two moves in their order. Where there is no memory for the second, the first is taken back.
fn make_two(
    alloc: Global,
    tree: &mut Tree,
    first: &[Entry],
    first_ask: Ask,
    second: &[Entry],
    second_ask: Ask,
) -> Result<Removed, AllocError>
    requires { IsSome (all_advanced (tree_view tree.old) ((first.now, first_ask) ∷ (second.now, second_ask) ∷ [])) }
    ensures made { IfOk result (λ removed.
        all_advanced (tree_view tree.old) ((first.now, first_ask) ∷ (second.now, second_ask) ∷ [])
        ≡ Some (tree_view tree.new, removed_view removed)) }
    ensures without_memory { OnErr result (tree_view tree.new ≡ tree_view tree.old) }
{
    match tree.advance(alloc, first, first_ask) {
        Ok(out) => match tree.advance(alloc, second, second_ask) {
            Ok(other) => Ok(Removed::Two(out, other)),
            Err(error) => {
                tree.retreat(first, out);
                Err(error)
            }
        },
        Err(error) => Err(error),
    }
}

/// Takes the moves of the event back, the last first, and puts what they took out where it was. What they took out tells
/// how many they were.
pub(crate) fn take_back(tree: &mut Tree, event: &Event, removed: Removed)
    requires { IsSome (moved_back (tree_view tree.old) event.now (removed_view removed)) }
    ensures { moved_back (tree_view tree.old) event.now (removed_view removed) ≡ Some (tree_view tree.new) }
{
    let first = event.first.entries();
    match removed {
        Removed::One(out) => tree.retreat(first, out),
        Removed::Two(out, other) => match &event.second {
            Some(second) => take_two_back(tree, first, out, second.entries(), other),
            None => unreachable!(),
        },
    }
}

/// Takes two moves back, the second first.
fn take_two_back(
    tree: &mut Tree,
    first: &[Entry],
    out: Option<Box<Proc>>,
    second: &[Entry],
    other: Option<Box<Proc>>,
)
    requires { IsSome (both_back (tree_view tree.old) first.now (out_view out) second.now (out_view other)) }
    ensures { both_back (tree_view tree.old) first.now (out_view out) second.now (out_view other)
        ≡ Some (tree_view tree.new) }
{
    tree.retreat(second, other);
    tree.retreat(first, out);
}
