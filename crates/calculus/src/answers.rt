// What each form of command answers to what is asked at a place.
ghost use Rattle.std.specs.Prelude.{◌≡◌, ◌+◌, ◌*◌, ◌<◌, ◌^◌, [], ◌∷◌, map, slice_get, Some, None, false, IfOk};
ghost use Rattle.system.specs.Expression as expression;
ghost use Rattle.system.specs.Residual as residual;
ghost use Rattle.system.specs.Translation.{expression_of, arms_of, decision_of};
ghost use Rattle.runs.specs.ByPlace.{if_here, if_act};
ghost use Rattle.runs.specs.internal.After as model;
ghost use Rattle.runs.specs.Moves as moves;
ghost use Rattle.calculus.specs.ResidualTree.{residual_of_tree};
ghost use Rattle.calculus.specs.internal.Meanings.{move_of, answer_of};
ghost use Rattle.calculus.specs.internal.Passed.{along_all};

use crate::moves::{Move, Moved};
use crate::place::{is_act, is_here, is_turn};
use crate::residual_tree::{ResidualTree, along, along_all, with_received, within};
use address::Entry;
use runs::Ask;
use std::alloc::{AllocError, Global};
use syntax::{Boxed, Items, Shared};
use system::{Decision, Expression};
use value::{Value, Width};

/// The answer of a move and what is left after it.
fn moved(alloc: Global, by: Move, left: Shared<ResidualTree>) -> Result<Option<Moved>, AllocError>
    ensures { IfOk result (λ r. answer_of r ≡ Some (move_of by, residual_of_tree left)) }
{
    let by = Boxed::new(alloc, by)?;
    Ok(Some(Moved { by, left }))
}

/// An answer inside the child at a place in order, with what comes after the child.
pub(crate) fn inside(
    alloc: Global,
    number: u64,
    answer: Option<Moved>,
    next: &Shared<ResidualTree>,
) -> Result<Option<Moved>, AllocError>
    ensures { IfOk result (λ r.
        answer_of r ≡ model.around (λ t. residual.within number t (residual_of_tree next.now)) (answer_of answer)) }
{
    match answer {
        Some(moved) => {
            let Moved { by, left } = moved;
            let left = within(alloc, number, left, next.clone()?)?;
            Ok(Some(Moved { by, left }))
        }
        None => Ok(None),
    }
}

/// An answer inside a branch, with the other branches.
pub(crate) fn in_branch(
    alloc: Global,
    number: u64,
    answer: Option<Moved>,
    rest: &Shared<ResidualTree>,
) -> Result<Option<Moved>, AllocError>
    ensures { IfOk result (λ r.
        answer_of r ≡ model.around (λ t. residual.along number t (residual_of_tree rest.now)) (answer_of answer)) }
{
    match answer {
        Some(moved) => {
            let Moved { by, left } = moved;
            let left = along(alloc, number, left, rest.clone()?)?;
            Ok(Some(Moved { by, left }))
        }
        None => Ok(None),
    }
}

/// An answer in the other branches, with those that were passed.
pub(crate) fn beside(
    alloc: Global,
    passed: Items<(u64, Shared<ResidualTree>)>,
    answer: Option<Moved>,
) -> Result<Option<Moved>, AllocError>
    ensures { IfOk result (λ r. answer_of r ≡ model.around (along_all passed) (answer_of answer)) }
{
    match answer {
        Some(moved) => {
            let Moved { by, left } = moved;
            let left = along_all(alloc, passed, left)?;
            Ok(Some(Moved { by, left }))
        }
        None => Ok(None),
    }
}

/// The answer of an assignment.
#[tactic(auto, using(crate::proofs::Below::if_here_is, crate::proofs::Asked::not_assign))]
pub(crate) fn assign(
    alloc: Global,
    ask: Ask,
    place: &[Entry],
    variable: u32,
    width: Width,
    value: &Expression,
) -> Result<Option<Moved>, AllocError>
    ensures { IfOk result (λ r.
        answer_of r ≡ if_here place.now (model.after_assign variable width (expression_of value.now) ask)) }
{
    if !is_here(place) {
        return Ok(None);
    }
    match ask {
        Ask::Assign => {
            let done = ResidualTree::done(alloc)?;
            assigned(alloc, variable, width, value, done)
        }
        _ => Ok(None),
    }
}

/// An assignment, and what is left after it.
fn assigned(
    alloc: Global,
    variable: u32,
    width: Width,
    value: &Expression,
    left: Shared<ResidualTree>,
) -> Result<Option<Moved>, AllocError>
    ensures { IfOk result (λ r.
        answer_of r ≡ Some (moves.assigns variable width (expression_of value.now), residual_of_tree left)) }
{
    let value = value.copy(alloc)?;
    moved(alloc, Move::Assigns(variable, width, value), left)
}

/// The answer of a send.
#[tactic(auto, using(crate::proofs::Below::if_act_is, crate::proofs::Asked::not_send))]
pub(crate) fn send(
    alloc: Global,
    ask: Ask,
    place: &[Entry],
    channel: u32,
    width: Width,
    value: &Expression,
) -> Result<Option<Moved>, AllocError>
    ensures { IfOk result (λ r.
        answer_of r ≡ if_act 0 place.now (model.after_send channel width (expression_of value.now) ask)) }
{
    if !is_act(place, 0) {
        return Ok(None);
    }
    match ask {
        Ask::Send => {
            let done = ResidualTree::done(alloc)?;
            sent(alloc, channel, width, value, false, done)
        }
        Ask::Hold => {
            let held = Shared::new(alloc, ResidualTree::Held(channel))?;
            sent(alloc, channel, width, value, true, held)
        }
        _ => Ok(None),
    }
}

/// A send, held or not, and what is left after it.
fn sent(
    alloc: Global,
    channel: u32,
    width: Width,
    value: &Expression,
    held: bool,
    left: Shared<ResidualTree>,
) -> Result<Option<Moved>, AllocError>
    ensures { IfOk result (λ r.
        answer_of r ≡ Some (moves.sends channel width (expression_of value.now) held, residual_of_tree left)) }
{
    let value = value.copy(alloc)?;
    moved(alloc, Move::Sends(channel, width, value, held), left)
}

/// The answer of a receive.
#[tactic(auto, using(crate::proofs::Below::if_here_is, crate::proofs::Asked::not_receive))]
pub(crate) fn receive(
    alloc: Global,
    ask: Ask,
    place: &[Entry],
    channel: u32,
    variable: u32,
) -> Result<Option<Moved>, AllocError>
    ensures { IfOk result (λ r. answer_of r ≡ if_here place.now (model.after_receive channel variable ask)) }
{
    if !is_here(place) {
        return Ok(None);
    }
    match ask {
        Ask::Receive => {
            let done = ResidualTree::done(alloc)?;
            moved(alloc, Move::Receives(channel, Some(variable)), done)
        }
        _ => Ok(None),
    }
}

/// The answer of a handshake without data.
#[tactic(auto, using(crate::proofs::Below::if_act_is, crate::proofs::Asked::not_sync))]
pub(crate) fn sync(
    alloc: Global,
    ask: Ask,
    place: &[Entry],
    channel: u32,
) -> Result<Option<Moved>, AllocError>
    ensures { IfOk result (λ r. answer_of r ≡ if_act 0 place.now (model.after_sync channel ask)) }
{
    if !is_act(place, 0) {
        return Ok(None);
    }
    match ask {
        Ask::Sync => {
            let done = ResidualTree::done(alloc)?;
            moved(alloc, Move::Syncs(channel, false), done)
        }
        Ask::Hold => {
            let held = Shared::new(alloc, ResidualTree::Held(channel))?;
            moved(alloc, Move::Syncs(channel, true), held)
        }
        _ => Ok(None),
    }
}

/// The answer of what is held.
#[tactic(auto, using(crate::proofs::Below::if_act_is, crate::proofs::Asked::not_release))]
pub(crate) fn held(
    alloc: Global,
    ask: Ask,
    place: &[Entry],
    channel: u32,
) -> Result<Option<Moved>, AllocError>
    ensures { IfOk result (λ r. answer_of r ≡ if_act 1 place.now (model.after_held channel ask)) }
{
    if !is_act(place, 1) {
        return Ok(None);
    }
    match ask {
        Ask::Release => {
            let done = ResidualTree::done(alloc)?;
            moved(alloc, Move::Releases(channel), done)
        }
        _ => Ok(None),
    }
}

/// The answer of a loop before a turn.
#[tactic(auto, using(crate::proofs::Below::if_act_is, crate::proofs::Asked::not_turn))]
pub(crate) fn repeat(
    alloc: Global,
    ask: Ask,
    place: &[Entry],
    turn: u64,
    body: &Shared<ResidualTree>,
) -> Result<Option<Moved>, AllocError>
    ensures { IfOk result (λ r.
        answer_of r ≡ if_act (2 * turn) place.now (model.after_loop turn (residual_of_tree body.now) ask)) }
{
    if !is_turn(place, turn) {
        return Ok(None);
    }
    match ask {
        Ask::Turn => {
            let left = in_turn(alloc, turn, body)?;
            moved(alloc, Move::Turns, left)
        }
        _ => Ok(None),
    }
}

/// A loop in a turn.
fn in_turn(
    alloc: Global,
    turn: u64,
    body: &Shared<ResidualTree>,
) -> Result<Shared<ResidualTree>, AllocError>
    requires { turn < 2 ^ 32 }
    ensures { IfOk result (λ made.
        residual_of_tree made
        ≡ residual.within (2 * turn + 1) (residual_of_tree body.now)
        (residual.loop (turn + 1) (residual_of_tree body.now))) }
{
    let again = body.clone()?;
    let next = Shared::new(alloc, ResidualTree::Loop(turn + 1, again))?;
    within(alloc, 2 * turn + 1, body.clone()?, next)
}

/// The answer of a while loop before a test.
#[tactic(auto, using(crate::proofs::Below::if_act_is, crate::proofs::Asked::not_while))]
pub(crate) fn repeat_while(
    alloc: Global,
    ask: Ask,
    place: &[Entry],
    turn: u64,
    guard: &Expression,
    body: &Shared<ResidualTree>,
) -> Result<Option<Moved>, AllocError>
    ensures { IfOk result (λ r.
        answer_of r
        ≡ if_act (2 * turn) place.now
        (model.after_while turn (expression_of guard.now) (residual_of_tree body.now) ask)) }
{
    if !is_turn(place, turn) {
        return Ok(None);
    }
    match ask {
        Ask::Test(None) => {
            let done = ResidualTree::done(alloc)?;
            guard_tested(alloc, guard, None, done)
        }
        Ask::Test(Some(arm)) => {
            if arm != 0 {
                return Ok(None);
            }
            let left = in_test(alloc, turn, guard, body)?;
            guard_tested(alloc, guard, Some(0), left)
        }
        _ => Ok(None),
    }
}

/// A while loop after a test that went on.
fn in_test(
    alloc: Global,
    turn: u64,
    guard: &Expression,
    body: &Shared<ResidualTree>,
) -> Result<Shared<ResidualTree>, AllocError>
    requires { turn < 2 ^ 32 }
    ensures { IfOk result (λ made.
        residual_of_tree made
        ≡ residual.within (2 * turn + 1) (residual_of_tree body.now)
        (residual.while (turn + 1) (expression_of guard.now) (residual_of_tree body.now))) }
{
    let next = next_test(alloc, turn, guard, body.clone()?)?;
    within(alloc, 2 * turn + 1, body.clone()?, next)
}

/// A while loop before its next test.
fn next_test(
    alloc: Global,
    turn: u64,
    guard: &Expression,
    body: Shared<ResidualTree>,
) -> Result<Shared<ResidualTree>, AllocError>
    requires { turn < 2 ^ 32 }
    ensures { IfOk result (λ made.
        residual_of_tree made ≡ residual.while (turn + 1) (expression_of guard.now) (residual_of_tree body)) }
{
    let guard = guard.copy(alloc)?;
    Shared::new(alloc, ResidualTree::While(turn + 1, guard, body))
}

/// The test of a while loop that took this arm, and what is left after it.
fn guard_tested(
    alloc: Global,
    guard: &Expression,
    arm: Option<u32>,
    left: Shared<ResidualTree>,
) -> Result<Option<Moved>, AllocError>
    ensures { IfOk result (λ r.
        answer_of r
        ≡ Some (moves.tests (expression.by_guards (expression_of guard.now ∷ []) false) arm, residual_of_tree left)) }
{
    let decision = one_guard(alloc, guard)?;
    moved(alloc, Move::Tests(decision, arm), left)
}

/// The test of a while loop.
pub(crate) fn one_guard(alloc: Global, guard: &Expression) -> Result<Decision, AllocError>
    ensures { IfOk result (λ made. decision_of made ≡ expression.by_guards (expression_of guard.now ∷ []) false) }
{
    let mut guards = Items::with_capacity(alloc, 1)?;
    guards.push(guard.copy(alloc)?)?;
    Ok(Decision::Guards(guards, false))
}

/// The answer of a test with arms.
#[tactic(auto, using(crate::proofs::Below::if_act_is, crate::proofs::Asked::not_test))]
pub(crate) fn test(
    alloc: Global,
    ask: Ask,
    place: &[Entry],
    decision: &Decision,
    arms: &Items<Shared<ResidualTree>>,
) -> Result<Option<Moved>, AllocError>
    ensures { IfOk result (λ r.
        answer_of r
        ≡ if_act 0 place.now
        (model.after_test (decision_of decision.now) (arms_of (map residual_of_tree arms.now) None) ask)) }
{
    if !is_act(place, 0) {
        return Ok(None);
    }
    match ask {
        Ask::Test(None) => {
            let done = ResidualTree::done(alloc)?;
            tested(alloc, decision, None, done)
        }
        Ask::Test(Some(arm)) => {
            let left = in_tested_arm(alloc, arms, arm)?;
            tested(alloc, decision, Some(arm), left)
        }
        _ => Ok(None),
    }
}

/// A test that took this arm, and what is left after it.
fn tested(
    alloc: Global,
    decision: &Decision,
    arm: Option<u32>,
    left: Shared<ResidualTree>,
) -> Result<Option<Moved>, AllocError>
    ensures { IfOk result (λ r.
        answer_of r ≡ Some (moves.tests (decision_of decision.now) arm, residual_of_tree left)) }
{
    let decision = decision.copy(alloc)?;
    moved(alloc, Move::Tests(decision, arm), left)
}

/// An arm that was taken, with nothing after it.
fn in_tested_arm(
    alloc: Global,
    arms: &Items<Shared<ResidualTree>>,
    arm: u32,
) -> Result<Shared<ResidualTree>, AllocError>
    ensures { IfOk result (λ made.
        residual_of_tree made
        ≡ residual.within 1 (residual.arm_at (arms_of (map residual_of_tree arms.now) None) arm) residual.done) }
{
    let done = ResidualTree::done(alloc)?;
    let body = arm_at(alloc, arms, arm)?;
    within(alloc, 1, body, done)
}

/// The arm of this number; nothing past the last.
fn arm_at(
    alloc: Global,
    arms: &Items<Shared<ResidualTree>>,
    arm: u32,
) -> Result<Shared<ResidualTree>, AllocError>
    ensures { IfOk result (λ made.
        residual_of_tree made ≡ residual.arm_at (arms_of (map residual_of_tree arms.now) None) arm) }
{
    match arms.get(arm as usize) {
        Some(body) => body.clone(),
        None => ResidualTree::done(alloc),
    }
}

/// The answer of arms that wait on their channels.
#[tactic(auto, using(crate::proofs::Below::if_act_is, crate::proofs::Asked::not_open))]
pub(crate) fn choose(
    alloc: Global,
    ask: Ask,
    place: &[Entry],
    channels: &[u32],
    arms: &Items<Shared<ResidualTree>>,
) -> Result<Option<Moved>, AllocError>
    ensures { IfOk result (λ r.
        answer_of r
        ≡ if_act 0 place.now (model.after_choose channels.now (arms_of (map residual_of_tree arms.now) None) ask)) }
{
    if !is_act(place, 0) {
        return Ok(None);
    }
    match ask {
        Ask::Open(arm, received) => open(alloc, channels, arms, arm, received),
        _ => Ok(None),
    }
}

/// The answer of an arm that opens on its channel, if there is one.
fn open(
    alloc: Global,
    channels: &[u32],
    arms: &Items<Shared<ResidualTree>>,
    arm: u32,
    received: Option<Value>,
) -> Result<Option<Moved>, AllocError>
    ensures { IfOk result (λ r.
        answer_of r
        ≡ model.after_open (slice_get channels.now arm) (arms_of (map residual_of_tree arms.now) None) arm received) }
{
    match channels.get(arm as usize) {
        None => Ok(None),
        Some(channel) => open_on(alloc, *channel, arms, arm, received),
    }
}

/// The answer of an arm that opens on the channel.
fn open_on(
    alloc: Global,
    channel: u32,
    arms: &Items<Shared<ResidualTree>>,
    arm: u32,
    received: Option<Value>,
) -> Result<Option<Moved>, AllocError>
    ensures { IfOk result (λ r.
        answer_of r ≡ model.after_open (Some channel) (arms_of (map residual_of_tree arms.now) None) arm received) }
{
    let left = in_arm(alloc, channel, arms, arm, &received)?;
    moved(alloc, Move::Opens(channel, arm, received), left)
}

/// An arm that is opened, and after it the close on the channel.
fn in_arm(
    alloc: Global,
    channel: u32,
    arms: &Items<Shared<ResidualTree>>,
    arm: u32,
    received: &Option<Value>,
) -> Result<Shared<ResidualTree>, AllocError>
    ensures { IfOk result (λ made.
        residual_of_tree made
        ≡ residual.within 1
        (residual.opened channel received.now (residual.arm_at (arms_of (map residual_of_tree arms.now) None) arm))
        (residual.closing channel)) }
{
    let body = arm_at(alloc, arms, arm)?;
    let body = opened(alloc, channel, received, body)?;
    let closing = Shared::new(alloc, ResidualTree::Closing(channel))?;
    within(alloc, 1, body, closing)
}

/// The arm opened on the channel, with what was received, if anything.
fn opened(
    alloc: Global,
    channel: u32,
    received: &Option<Value>,
    body: Shared<ResidualTree>,
) -> Result<Shared<ResidualTree>, AllocError>
    ensures { IfOk result (λ made.
        residual_of_tree made ≡ residual.opened channel received.now (residual_of_tree body)) }
{
    match received {
        None => Ok(body),
        Some(value) => with_received(alloc, body.get(), channel, *value),
    }
}

/// The answer of what comes after an opened arm.
#[tactic(auto, using(crate::proofs::Below::if_act_is, crate::proofs::Asked::not_close))]
pub(crate) fn close(
    alloc: Global,
    ask: Ask,
    place: &[Entry],
    channel: u32,
) -> Result<Option<Moved>, AllocError>
    ensures { IfOk result (λ r. answer_of r ≡ if_act 2 place.now (model.after_closing channel ask)) }
{
    if !is_act(place, 2) {
        return Ok(None);
    }
    match ask {
        Ask::Close => {
            let done = ResidualTree::done(alloc)?;
            moved(alloc, Move::Closes(channel), done)
        }
        _ => Ok(None),
    }
}

/// The answer of the receives on an output port, before an act.
#[tactic(auto, using(crate::proofs::Below::if_act_is, crate::proofs::Asked::not_drain))]
pub(crate) fn drain(
    alloc: Global,
    ask: Ask,
    place: &[Entry],
    channel: u32,
    act: u64,
) -> Result<Option<Moved>, AllocError>
    ensures { IfOk result (λ r. answer_of r ≡ if_act act place.now (model.after_drain channel act ask)) }
{
    if !is_act(place, act) {
        return Ok(None);
    }
    match ask {
        Ask::Receive => {
            let left = Shared::new(alloc, ResidualTree::Drain(channel, act + 1))?;
            moved(alloc, Move::Receives(channel, None), left)
        }
        _ => Ok(None),
    }
}
