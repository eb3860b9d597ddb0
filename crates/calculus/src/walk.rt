// The moves that are offered now: a walk through what is left to do.
ghost use Rattle.std.specs.Prelude.{◌≡◌, ◌*◌, ◌^◌, ◌≤◌, [], ◌∷◌, ◌++◌, map, Some, None, true, false, IfOk, IsFalse, OnErr};
ghost use Rattle.system.specs.Expression as expression;
ghost use Rattle.system.specs.Translation.{expression_of, decision_of};
ghost use Rattle.runs.specs.Moves as moves;
ghost use Rattle.runs.specs.Events.{at};
ghost use Rattle.calculus.specs.ResidualTree.{residual_of_tree};
ghost use Rattle.calculus.specs.internal.Meanings.{move_of};
ghost use Rattle.runs.specs.internal.AllowedEvents as model;
ghost use Rattle.calculus.specs.internal.Passed.{goes_on};
ghost use Rattle.calculus.specs.internal.Walk.{located_of, below};

use crate::answers::one_guard;
use crate::moves::Move;
use crate::residual_tree::ResidualTree;
use address::{Address, Entry};
use std::alloc::{AllocError, Global};
use syntax::{Boxed, Items};
use system::{Decision, Expression};
use value::{Value, Width};

/// A move that is offered at a place; of an open it is not said yet what is received.
#[derive(Drop)]
pub(crate) struct Offer {
    pub(crate) place: Address,
    pub(crate) by: Boxed<Move>,
}

/// Adds the moves that the tree at the place offers. It goes along branches by a loop, so that many take no stack. A
/// number of 2^32 and more has no place: it takes more memory to get there than there is, and the answer is the same.
pub(crate) fn add_offers(
    alloc: Global,
    values: &[Value],
    left: &ResidualTree,
    place: &Address,
    found: &mut Items<Offer>,
) -> Result<(), AllocError>
    ensures { IfOk result (λ _.
        map located_of found.new
        ≡ map located_of found.old ++ below place.now (model.offers values.now (residual_of_tree left.now))) }
{
    let mut left = left;
    'passing: loop {
        match left {
            ResidualTree::Inside(number, child, _) => {
                let inner = ordered(alloc, place, *number)?;
                return add_offers(alloc, values, child.get(), &inner, found);
            }
            ResidualTree::Beside(number, child, rest) => {
                let inner = in_branch(alloc, place, *number)?;
                add_offers(alloc, values, child.get(), &inner, found)?;
                left = rest.get();
            }
            _ => break 'passing,
        }
    }
    add_own(alloc, values, left, place, found)
}

/// Adds the moves of a tree that has them at its own place, and not below a child.
fn add_own(
    alloc: Global,
    values: &[Value],
    left: &ResidualTree,
    place: &Address,
    found: &mut Items<Offer>,
) -> Result<(), AllocError>
    requires { IsFalse (goes_on (residual_of_tree left.now)) }
    ensures { IfOk result (λ _.
        map located_of found.new
        ≡ map located_of found.old ++ below place.now (model.offers values.now (residual_of_tree left.now))) }
{
    match left {
        ResidualTree::Inside(_, _, _) | ResidualTree::Beside(_, _, _) => unreachable!(),
        ResidualTree::Done | ResidualTree::Halted => Ok(()),
        ResidualTree::Assign(variable, width, value) => {
            add_assign(alloc, place, *variable, *width, value, found)
        }
        ResidualTree::Send(channel, width, value) => {
            add_sends(alloc, place, *channel, *width, value, found)
        }
        ResidualTree::Receive(channel, variable) => add_receive(
            alloc, place, *channel, *variable, found,
        ),
        ResidualTree::Sync(channel) => add_syncs(alloc, place, *channel, found),
        ResidualTree::Held(channel) => add_act(alloc, place, 1, Move::Releases(*channel), found),
        ResidualTree::Loop(turn, _) => add_turn(alloc, place, *turn, found),
        ResidualTree::While(turn, guard, _) => add_guard(alloc, values, place, *turn, guard, found),
        ResidualTree::Test(decision, _) => {
            let decision = decision.copy(alloc)?;
            add_test(alloc, values, place, 0, decision, found)
        }
        ResidualTree::Choose(channels, _) => add_opens(alloc, place, channels.as_slice(), found),
        ResidualTree::Closing(channel) => add_act(alloc, place, 2, Move::Closes(*channel), found),
        ResidualTree::Drain(channel, act) => {
            add_act(alloc, place, *act, Move::Receives(*channel, None), found)
        }
    }
}

/// Adds a move at the place.
fn add(alloc: Global, place: Address, by: Move, found: &mut Items<Offer>) -> Result<(), AllocError>
    ensures { IfOk result (λ _. map located_of found.new ≡ map located_of found.old ++ at place (move_of by) ∷ []) }
{
    let by = Boxed::new(alloc, by)?;
    found.push(Offer { place, by })
}

/// Adds a move at this act of the command at the place.
fn add_act(
    alloc: Global,
    place: &Address,
    act: u64,
    by: Move,
    found: &mut Items<Offer>,
) -> Result<(), AllocError>
    ensures { IfOk result (λ _.
        map located_of found.new
        ≡ map located_of found.old ++ at (place.now ++ Entry.Ordered act ∷ []) (move_of by) ∷ []) }
{
    let inner = ordered(alloc, place, act)?;
    add(alloc, inner, by, found)
}

/// Adds an assignment.
fn add_assign(
    alloc: Global,
    place: &Address,
    variable: u32,
    width: Width,
    value: &Expression,
    found: &mut Items<Offer>,
) -> Result<(), AllocError>
    ensures { IfOk result (λ _.
        map located_of found.new
        ≡ map located_of found.old ++ at place.now (moves.assigns variable width (expression_of value.now)) ∷ []) }
{
    let here = place.copy(alloc)?;
    let value = value.copy(alloc)?;
    add(alloc, here, Move::Assigns(variable, width, value), found)
}

/// Adds a send, not held and held.
fn add_sends(
    alloc: Global,
    place: &Address,
    channel: u32,
    width: Width,
    value: &Expression,
    found: &mut Items<Offer>,
) -> Result<(), AllocError>
    ensures { IfOk result (λ _.
        map located_of found.new
        ≡ map located_of found.old
        ++ at (place.now ++ Entry.Ordered 0 ∷ []) (moves.sends channel width (expression_of value.now) false)
        ∷ at (place.now ++ Entry.Ordered 0 ∷ []) (moves.sends channel width (expression_of value.now) true) ∷ []) }
{
    add_send(alloc, place, channel, width, value, found, false)?;
    add_send(alloc, place, channel, width, value, found, true)
}

/// Adds a send, held or not.
fn add_send(
    alloc: Global,
    place: &Address,
    channel: u32,
    width: Width,
    value: &Expression,
    found: &mut Items<Offer>,
    held: bool,
) -> Result<(), AllocError>
    ensures { IfOk result (λ _.
        map located_of found.new
        ≡ map located_of found.old
        ++ at (place.now ++ Entry.Ordered 0 ∷ []) (moves.sends channel width (expression_of value.now) held) ∷ []) }
{
    let value = value.copy(alloc)?;
    add_act(
        alloc,
        place,
        0,
        Move::Sends(channel, width, value, held),
        found,
    )
}

/// Adds a receive.
fn add_receive(
    alloc: Global,
    place: &Address,
    channel: u32,
    variable: u32,
    found: &mut Items<Offer>,
) -> Result<(), AllocError>
    ensures { IfOk result (λ _.
        map located_of found.new
        ≡ map located_of found.old ++ at place.now (moves.receives channel (Some variable)) ∷ []) }
{
    let here = place.copy(alloc)?;
    add(alloc, here, Move::Receives(channel, Some(variable)), found)
}

/// Adds a handshake without data, not held and held.
fn add_syncs(
    alloc: Global,
    place: &Address,
    channel: u32,
    found: &mut Items<Offer>,
) -> Result<(), AllocError>
    ensures { IfOk result (λ _.
        map located_of found.new
        ≡ map located_of found.old ++ at (place.now ++ Entry.Ordered 0 ∷ []) (moves.syncs channel false)
        ∷ at (place.now ++ Entry.Ordered 0 ∷ []) (moves.syncs channel true) ∷ []) }
{
    add_act(alloc, place, 0, Move::Syncs(channel, false), found)?;
    add_act(alloc, place, 0, Move::Syncs(channel, true), found)
}

/// Adds the turn of a loop.
fn add_turn(
    alloc: Global,
    place: &Address,
    turn: u64,
    found: &mut Items<Offer>,
) -> Result<(), AllocError>
    ensures { IfOk result (λ _.
        map located_of found.new
        ≡ map located_of found.old ++ at (place.now ++ Entry.Ordered (2 * turn) ∷ []) moves.turns ∷ []) }
{
    let act = act_of_turn(turn)?;
    add_act(alloc, place, act, Move::Turns, found)
}

/// Adds the test of a while loop.
fn add_guard(
    alloc: Global,
    values: &[Value],
    place: &Address,
    turn: u64,
    guard: &Expression,
    found: &mut Items<Offer>,
) -> Result<(), AllocError>
    ensures { IfOk result (λ _.
        map located_of found.new
        ≡ map located_of found.old
        ++ at (place.now ++ Entry.Ordered (2 * turn) ∷ [])
        (moves.tests (expression.by_guards (expression_of guard.now ∷ []) false)
        (expression.decide values.now (expression.by_guards (expression_of guard.now ∷ []) false))) ∷ []) }
{
    let act = act_of_turn(turn)?;
    let decision = one_guard(alloc, guard)?;
    add_test(alloc, values, place, act, decision, found)
}

/// Adds a test, with the arm that it takes.
fn add_test(
    alloc: Global,
    values: &[Value],
    place: &Address,
    act: u64,
    decision: Decision,
    found: &mut Items<Offer>,
) -> Result<(), AllocError>
    ensures { IfOk result (λ _.
        map located_of found.new
        ≡ map located_of found.old
        ++ at (place.now ++ Entry.Ordered act ∷ [])
        (moves.tests (decision_of decision) (expression.decide values.now (decision_of decision))) ∷ []) }
{
    let arm = match decision.decide(values) {
        Some(arm) => Some(small(arm)?),
        None => None,
    };
    add_act(alloc, place, act, Move::Tests(decision, arm), found)
}

/// Adds the open of an arm on each of the channels.
fn add_opens(
    alloc: Global,
    place: &Address,
    channels: &[u32],
    found: &mut Items<Offer>,
) -> Result<(), AllocError>
    ensures { IfOk result (λ _.
        map located_of found.new ≡ map located_of found.old ++ below place.now (model.opens_from 0 channels.now)) }
{
    for (arm, channel) in channels.iter().enumerate() {
        let arm = small(arm as u64)?;
        add_act(alloc, place, 0, Move::Opens(*channel, arm, None), found)?;
    }
    Ok(())
}

/// The place of the child of this number in a sequence.
fn ordered(alloc: Global, place: &Address, number: u64) -> Result<Address, AllocError>
    ensures { IfOk result (λ made. made ≡ place.now ++ Entry.Ordered number ∷ []) }
{
    with_entry(alloc, place, Entry::Ordered(small(number)?))
}

/// The place of the branch of this number in a parallel.
fn in_branch(alloc: Global, place: &Address, number: u64) -> Result<Address, AllocError>
    ensures { IfOk result (λ made. made ≡ place.now ++ Entry.Branch number ∷ []) }
{
    with_entry(alloc, place, Entry::Branch(small(number)?))
}

/// The place with one more entry.
fn with_entry(alloc: Global, place: &Address, entry: Entry) -> Result<Address, AllocError>
    ensures { IfOk result (λ made. made ≡ place.now ++ entry ∷ []) }
{
    let mut entries = Vec::from_slice(alloc, place.entries())?;
    entries.push(entry)?;
    Ok(Address::from_vec(entries))
}

/// The first act of this turn of a loop.
fn act_of_turn(turn: u64) -> Result<u64, AllocError>
    ensures act { IfOk result (λ act. act ≡ 2 * turn) }
    ensures large { OnErr result (2 ^ 32 ≤ turn) }
{
    Ok(u64::from(small(turn)?) * 2)
}

/// The number as one of a place or arm.
fn small(number: u64) -> Result<u32, AllocError>
    ensures same { IfOk result (λ same. same ≡ number) }
    ensures large { OnErr result (2 ^ 32 ≤ number) }
{
    match u32::try_from(number) {
        Ok(same) => Ok(same),
        Err(_) => Err(AllocError),
    }
}
