// The actions of what is at work in a tree, one leaf at a time.
ghost use Rattle.std.specs.Prelude.{◌≡◌, ◌≤◌, ℕ, ◌^◌, [], ◌∷◌, Some, false, option_map, IfOk, OnErr};
ghost use Rattle.system.specs.Expression as model;
ghost use Rattle.system.specs.Translation.{expression_of, decision_of};
ghost use Rattle.runs.specs.Events.{sent};
ghost use Rattle.runs.specs.Moves.{assigns, sends};
ghost use Rattle.process_tree.specs.Remaining.{channel_of};
ghost use Rattle.process_tree.specs.View.{once_view, sender_view};
ghost use Rattle.process_tree.specs.internal.Received.{puts_value, puts_once, puts_sender, puts_guard, puts_decision};
ghost use Rattle.local_actions.specs.Actions.{action_of};
ghost use Rattle.local_actions.specs.internal.At.{once_kind, sender_kind, test_kind, again_kind};

use crate::action::ActionKind;
use crate::around::Around;
use crate::cursor::small;
use process_tree::{Once, Sender};
use std::alloc::{AllocError, Global};
use system::{Decision, Expression};
use value::{Value, Width};

/// Of what makes one move, before it has made it. It is an error if there is no memory.
pub(crate) fn kind_of_once(
    alloc: Global,
    once: &Once,
    values: &[Value],
    around: &Around,
) -> Result<ActionKind, AllocError>
    ensures { IfOk result (λ kind. kind ≡ once_kind values.now (puts_once around.now (once_view once.now))) }
{
    match once {
        Once::Assign(variable, width, value) => {
            kind_of_assign(alloc, *variable, *width, value, values, around)
        }
        Once::Receive(channel, variable) => Ok(ActionKind::Receives(*channel, Some(*variable))),
    }
}

/// Of an assignment of this value. It is copied only where something was received.
fn kind_of_assign(
    alloc: Global,
    variable: u32,
    width: Width,
    value: &Expression,
    values: &[Value],
    around: &Around,
) -> Result<ActionKind, AllocError>
    ensures { IfOk result (λ kind.
        kind ≡ action_of values.now (assigns variable width (puts_value around.now (expression_of value.now)))) }
{
    if around.has_received() {
        let value = around.with_received(alloc, value)?;
        return assign(alloc, variable, width, &value, values);
    }
    assign(alloc, variable, width, value, values)
}

/// Of an assignment of this value, in which names of what was received no longer stand.
fn assign(
    alloc: Global,
    variable: u32,
    width: Width,
    value: &Expression,
    values: &[Value],
) -> Result<ActionKind, AllocError>
    ensures { IfOk result (λ kind. kind ≡ action_of values.now (assigns variable width (expression_of value.now))) }
{
    let read = value.variables(alloc)?;
    let written = sent(values, width, value);
    Ok(ActionKind::Assigns(variable, written, read))
}

/// Of a send or sync that waits. It is an error if there is no memory.
pub(crate) fn kind_of_sender(
    alloc: Global,
    sender: &Sender,
    values: &[Value],
    around: &Around,
) -> Result<ActionKind, AllocError>
    ensures { IfOk result (λ kind. kind ≡ sender_kind values.now (puts_sender around.now (sender_view sender.now))) }
{
    match sender {
        Sender::Send(channel, width, value) => {
            kind_of_send(alloc, *channel, *width, value, values, around)
        }
        Sender::Sync(channel) => Ok(ActionKind::Syncs(*channel)),
    }
}

/// Of a send of this value. It is copied only where something was received.
fn kind_of_send(
    alloc: Global,
    channel: u32,
    width: Width,
    value: &Expression,
    values: &[Value],
    around: &Around,
) -> Result<ActionKind, AllocError>
    ensures { IfOk result (λ kind.
        kind ≡ action_of values.now (sends channel width (puts_value around.now (expression_of value.now)) false)) }
{
    if around.has_received() {
        let value = around.with_received(alloc, value)?;
        return send(alloc, channel, width, &value, values);
    }
    send(alloc, channel, width, value, values)
}

/// Of a send of this value, in which names of what was received no longer stand.
fn send(
    alloc: Global,
    channel: u32,
    width: Width,
    value: &Expression,
    values: &[Value],
) -> Result<ActionKind, AllocError>
    ensures { IfOk result (λ kind. kind ≡ action_of values.now (sends channel width (expression_of value.now) false)) }
{
    let read = value.variables(alloc)?;
    let passed = sent(values, width, value);
    Ok(ActionKind::Sends(channel, passed, read))
}

/// Of a send or sync that is held.
pub(crate) fn kind_of_held(sender: &Sender) -> ActionKind
    ensures { result ≡ ActionKind.Releases (channel_of (sender_view sender.now)) }
{
    match sender {
        Sender::Send(channel, _, _) => ActionKind::Releases(*channel),
        Sender::Sync(channel) => ActionKind::Releases(*channel),
    }
}

/// Of a loop before a turn, with its guard where it has one. It is an error if there is no memory.
pub(crate) fn kind_of_again(
    alloc: Global,
    guard: &Option<Expression>,
    values: &[Value],
    around: &Around,
) -> Result<ActionKind, AllocError>
    ensures { IfOk result (λ kind.
        kind ≡ again_kind values.now (puts_guard around.now (option_map expression_of guard.now))) }
{
    match guard {
        None => Ok(ActionKind::Turns),
        Some(guard) => kind_of_guard(alloc, guard, values, around),
    }
}

/// Of the test of a loop with this guard. It is copied only where something was received.
fn kind_of_guard(
    alloc: Global,
    guard: &Expression,
    values: &[Value],
    around: &Around,
) -> Result<ActionKind, AllocError>
    ensures { IfOk result (λ kind.
        kind
        ≡ test_kind values.now (model.by_guards (puts_value around.now (expression_of guard.now) ∷ []) false)) }
{
    if around.has_received() {
        let guard = around.with_received(alloc, guard)?;
        return guarded(alloc, &guard, values);
    }
    guarded(alloc, guard, values)
}

/// Of the test of a loop with this guard, in which names of what was received no longer stand.
#[tactic(auto, using(crate::proofs::public::Walks::guard_reads))]
fn guarded(alloc: Global, guard: &Expression, values: &[Value]) -> Result<ActionKind, AllocError>
    ensures { IfOk result (λ kind.
        kind ≡ test_kind values.now (model.by_guards (expression_of guard.now ∷ []) false)) }
{
    let read = guard.variables(alloc)?;
    Ok(ActionKind::Tests(turn_of(guard, values), read))
}

/// The arm that is the turn of a loop with this guard, if it is true.
fn turn_of(guard: &Expression, values: &[Value]) -> Option<u32>
    ensures { result ≡ model.decide values.now (model.by_guards (expression_of guard.now ∷ []) false) }
{
    if guard.value(values).bits() == 1 {
        return Some(0);
    }
    None
}

/// Of a test, with the arm that it takes. It is copied only where something was received. It is an error if there is no
/// memory.
pub(crate) fn kind_of_test(
    alloc: Global,
    decision: &Decision,
    values: &[Value],
    around: &Around,
) -> Result<ActionKind, AllocError>
    ensures { IfOk result (λ kind.
        kind ≡ test_kind values.now (puts_decision around.now (decision_of decision.now))) }
{
    if around.has_received() {
        let decision = around.decision_with_received(alloc, decision)?;
        return test(alloc, &decision, values);
    }
    test(alloc, decision, values)
}

/// Of a test, in which names of what was received no longer stand.
fn test(alloc: Global, decision: &Decision, values: &[Value]) -> Result<ActionKind, AllocError>
    ensures { IfOk result (λ kind. kind ≡ test_kind values.now (decision_of decision.now)) }
{
    let arm = arm_of(decision, values)?;
    let read = decision.variables(alloc)?;
    Ok(ActionKind::Tests(arm, read))
}

/// What is sent or assigned, at the width.
fn sent(values: &[Value], width: Width, value: &Expression) -> Value
    ensures { result ≡ sent values.now width (expression_of value.now) }
{
    value::resize(value.value(values), width.bits())
}

/// The arm that a test takes, if it takes one. It is an error if that is arm 2^32 or a later one.
fn arm_of(decision: &Decision, values: &[Value]) -> Result<Option<u32>, AllocError>
    ensures arm { IfOk result (λ arm. arm ≡ model.decide values.now (decision_of decision.now)) }
    ensures large { OnErr result ((k : ℕ) × (model.decide values.now (decision_of decision.now) ≡ Some k)
        × (2 ^ 32 ≤ k)) }
{
    match decision.decide(values) {
        Some(arm) => Ok(Some(small(arm)?)),
        None => Ok(None),
    }
}
