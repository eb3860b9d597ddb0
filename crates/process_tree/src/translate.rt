// The commands of a tree, from those of a system.
ghost use Rattle.std.specs.Prelude.{◌≡◌, List, [], ◌∷◌, map, IfOk, None, Some};
ghost use Rattle.std.specs.Option.{option_map};
ghost use Rattle.system.specs.Expression as expression;
ghost use Rattle.system.specs.Translation.{expression_of, decision_of};
ghost use Rattle.process_tree.specs.Code as model;
ghost use Rattle.process_tree.specs.Translation as translation;
ghost use Rattle.process_tree.specs.Translation.{row_of, row_with};
ghost use Rattle.process_tree.specs.internal.Arms.{guarded_of, labelled_of, arm_of};
ghost use Rattle.process_tree.specs.View.{once_view, sender_view, code_view};

use crate::code::{Await, Code, Decide, Once, Repeat, Row, Sender};
use std::alloc::{AllocError, Global};
use syntax::{Items, Shared};
use system::{Action, Arm, Command, Decision, Expression, Guarded, Labelled};
use value::Width;

/// The command as a tree holds it. It is an error if there is no memory.
#[cycle(code_of)]
pub fn code_of(alloc: Global, command: &Command) -> Result<Code, AllocError>
    ensures { IfOk result (λ made. code_view made ≡ translation.code_of command.now) }
{
    match command.action.get() {
        Action::Continue => Ok(Code::Continue),
        Action::Halt => Ok(Code::Halt),
        Action::Assign(variable, width, value) => assign(alloc, variable.number, *width, value),
        Action::Send(channel, width, value) => send(alloc, channel.number, *width, value),
        Action::Receive(channel, variable) => once(
            alloc,
            Once::Receive(channel.number, variable.number),
        ),
        Action::Sync(channel) => sender(alloc, Sender::Sync(channel.number)),
        Action::Loop(body) => {
            let body = code_of(alloc, body)?;
            repeat(alloc, None, body)
        }
        Action::While(guard, body) => {
            let body = code_of(alloc, body)?;
            repeat_while(alloc, guard, body)
        }
        Action::If(arms, last) => {
            let bodies = bodies_of_if(alloc, arms.as_slice())?;
            let bodies = with_last(alloc, last, bodies)?;
            decide_if(alloc, arms.as_slice(), last.is_some(), bodies)
        }
        Action::Case(subject, arms, last) => {
            let bodies = bodies_of_case(alloc, arms.as_slice())?;
            let bodies = with_last(alloc, last, bodies)?;
            decide_case(alloc, subject, arms.as_slice(), last.is_some(), bodies)
        }
        Action::Input(channel, body) => {
            let body = code_of(alloc, body)?;
            input(alloc, channel.number, body)
        }
        Action::Select(arms) | Action::Arbitrate(arms) => {
            let bodies = bodies_of_arms(alloc, arms.as_slice())?;
            choose(alloc, arms.as_slice(), bodies)
        }
        Action::Sequence(children) => {
            let codes = codes_of(alloc, children.as_slice())?;
            in_turn(alloc, codes)
        }
        Action::Parallel(children) => {
            let codes = codes_of(alloc, children.as_slice())?;
            side_by_side(alloc, codes)
        }
    }
}

/// Each of the commands.
#[cycle(code_of)]
fn codes_of(alloc: Global, commands: &[Command]) -> Result<Items<Code>, AllocError>
    ensures { IfOk result (λ made. map code_view made ≡ map translation.code_of commands.now) }
{
    let mut codes = Items::with_capacity(alloc, commands.len())?;
    for command in commands {
        codes.push(code_of(alloc, command)?)?;
    }
    Ok(codes)
}

/// The body of each arm of an `if`.
#[cycle(code_of)]
fn bodies_of_if(alloc: Global, arms: &[Guarded]) -> Result<Items<Code>, AllocError>
    ensures { IfOk result (λ made. map code_view made ≡ map (λ a. a.1) (map guarded_of arms.now)) }
{
    let mut codes = Items::with_capacity(alloc, arms.len())?;
    for arm in arms {
        codes.push(code_of(alloc, &arm.body)?)?;
    }
    Ok(codes)
}

/// The body of each arm of a `case`.
#[cycle(code_of)]
fn bodies_of_case(alloc: Global, arms: &[Labelled]) -> Result<Items<Code>, AllocError>
    ensures { IfOk result (λ made. map code_view made ≡ map (λ a. a.1) (map labelled_of arms.now)) }
{
    let mut codes = Items::with_capacity(alloc, arms.len())?;
    for arm in arms {
        codes.push(code_of(alloc, &arm.body)?)?;
    }
    Ok(codes)
}

/// The body of each arm that waits on a channel.
#[cycle(code_of)]
fn bodies_of_arms(alloc: Global, arms: &[Arm]) -> Result<Items<Code>, AllocError>
    ensures { IfOk result (λ made. map code_view made ≡ map (λ a. a.1) (map arm_of arms.now)) }
{
    let mut codes = Items::with_capacity(alloc, arms.len())?;
    for arm in arms {
        codes.push(code_of(alloc, &arm.body)?)?;
    }
    Ok(codes)
}

/// The arms, and the `else` as the last of them.
#[cycle(code_of)]
fn with_last(
    alloc: Global,
    last: &Option<Command>,
    arms: Items<Code>,
) -> Result<Items<Code>, AllocError>
    ensures { IfOk result (λ made.
        row_with (map code_view made) None ≡ row_with (map code_view arms) (option_map translation.code_of last.now)) }
{
    match last {
        Some(last) => {
            let mut arms = arms;
            arms.push(code_of(alloc, last)?)?;
            Ok(arms)
        }
        None => Ok(arms),
    }
}

/// What makes one move.
#[tactic(auto, using(crate::proofs::public::Views::code_once))]
fn once(alloc: Global, once: Once) -> Result<Code, AllocError>
    ensures { IfOk result (λ made. code_view made ≡ model.moves_once (once_view once)) }
{
    Ok(Code::Once(Shared::new(alloc, once)?))
}

/// An assignment.
fn assign(
    alloc: Global,
    variable: u32,
    width: Width,
    value: &Expression,
) -> Result<Code, AllocError>
    ensures { IfOk result (λ made.
        code_view made ≡ model.moves_once (model.assigning variable width (expression_of value.now))) }
{
    let value = value.copy(alloc)?;
    once(alloc, Once::Assign(variable, width, value))
}

/// What may be held.
#[tactic(auto, using(crate::proofs::public::Views::code_sender))]
pub(crate) fn sender(alloc: Global, sender: Sender) -> Result<Code, AllocError>
    ensures { IfOk result (λ made. code_view made ≡ model.may_be_held (sender_view sender)) }
{
    Ok(Code::Sender(Shared::new(alloc, sender)?))
}

/// A send.
fn send(alloc: Global, channel: u32, width: Width, value: &Expression) -> Result<Code, AllocError>
    ensures { IfOk result (λ made.
        code_view made ≡ model.may_be_held (model.sending channel width (expression_of value.now))) }
{
    let value = value.copy(alloc)?;
    sender(alloc, Sender::Send(channel, width, value))
}

/// A loop.
#[tactic(auto, using(crate::proofs::public::Views::code_repeat))]
fn repeat(alloc: Global, guard: Option<Expression>, body: Code) -> Result<Code, AllocError>
    ensures { IfOk result (λ made. code_view made ≡ model.repeats (option_map expression_of guard) (code_view body)) }
{
    Ok(Code::Repeat(Shared::new(alloc, Repeat { guard, body })?))
}

/// A loop with a guard.
fn repeat_while(alloc: Global, guard: &Expression, body: Code) -> Result<Code, AllocError>
    ensures { IfOk result (λ made. code_view made ≡ model.repeats (Some (expression_of guard.now)) (code_view body)) }
{
    let guard = guard.copy(alloc)?;
    repeat(alloc, Some(guard), body)
}

/// The guards of the arms of an `if`.
fn guards_of(alloc: Global, arms: &[Guarded]) -> Result<Items<Expression>, AllocError>
    ensures { IfOk result (λ made. map expression_of made ≡ map (λ a. a.0) (map guarded_of arms.now)) }
{
    let mut guards = Items::with_capacity(alloc, arms.len())?;
    for arm in arms {
        guards.push(arm.guard.copy(alloc)?)?;
    }
    Ok(guards)
}

/// Equal labels in memory of their own.
fn copied(alloc: Global, labels: &[u64]) -> Result<Items<u64>, AllocError>
    ensures { IfOk result (λ made. made ≡ labels.now) }
{
    Ok(Items::from_vec(Vec::from_slice(alloc, labels)?))
}

/// The labels of the arms of a `case`.
fn labels_of(alloc: Global, arms: &[Labelled]) -> Result<Items<Items<u64>>, AllocError>
    ensures { IfOk result (λ made. made ≡ map (λ a. a.0) (map labelled_of arms.now)) }
{
    let mut labels = Items::with_capacity(alloc, arms.len())?;
    for arm in arms {
        labels.push(copied(alloc, arm.labels.as_slice())?)?;
    }
    Ok(labels)
}

/// A test with these arms, the else last.
#[tactic(auto, using(crate::proofs::public::Views::code_decide))]
fn decide(alloc: Global, decision: Decision, arms: Items<Code>) -> Result<Code, AllocError>
    ensures { IfOk result (λ made.
        code_view made ≡ model.decides (decision_of decision) (row_with (map code_view arms) None)) }
{
    Ok(Code::Decide(Shared::new(alloc, Decide { decision, arms })?))
}

/// An `if` with these bodies; whether the last is that of an `else`.
fn decide_if(
    alloc: Global,
    arms: &[Guarded],
    ends: bool,
    bodies: Items<Code>,
) -> Result<Code, AllocError>
    ensures { IfOk result (λ made.
        code_view made
        ≡ model.decides (expression.by_guards (map (λ a. a.0) (map guarded_of arms.now)) ends)
        (row_with (map code_view bodies) None)) }
{
    let guards = guards_of(alloc, arms)?;
    decide(alloc, Decision::Guards(guards, ends), bodies)
}

/// A `case` with these bodies; whether the last is that of an `else`.
fn decide_case(
    alloc: Global,
    subject: &Expression,
    arms: &[Labelled],
    ends: bool,
    bodies: Items<Code>,
) -> Result<Code, AllocError>
    ensures { IfOk result (λ made.
        code_view made
        ≡ model.decides
        (expression.by_labels (expression_of subject.now) (map (λ a. a.0) (map labelled_of arms.now)) ends)
        (row_with (map code_view bodies) None)) }
{
    let decision = by_labels(alloc, subject, arms, ends)?;
    decide(alloc, decision, bodies)
}

/// What a `case` decides by.
fn by_labels(
    alloc: Global,
    subject: &Expression,
    arms: &[Labelled],
    ends: bool,
) -> Result<Decision, AllocError>
    ensures { IfOk result (λ made.
        decision_of made
        ≡ expression.by_labels (expression_of subject.now) (map (λ a. a.0) (map labelled_of arms.now)) ends) }
{
    let labels = labels_of(alloc, arms)?;
    Ok(Decision::Labels(subject.copy(alloc)?, labels, ends))
}

/// Arms that wait on these channels.
#[tactic(auto, using(crate::proofs::public::Views::code_await))]
fn wait(alloc: Global, channels: Items<u32>, arms: Items<Code>) -> Result<Code, AllocError>
    ensures { IfOk result (λ made. code_view made ≡ model.awaits channels (row_with (map code_view arms) None)) }
{
    Ok(Code::Await(Shared::new(alloc, Await { channels, arms })?))
}

/// A command that waits for the channel to enclose it.
fn input(alloc: Global, channel: u32, body: Code) -> Result<Code, AllocError>
    ensures { IfOk result (λ made.
        code_view made ≡ model.awaits (channel ∷ []) (model.code (code_view body) model.no_code)) }
{
    let mut channels = Items::with_capacity(alloc, 1)?;
    channels.push(channel)?;
    let mut arms = Items::with_capacity(alloc, 1)?;
    arms.push(body)?;
    wait(alloc, channels, arms)
}

/// Arms that wait on their channels, with these bodies.
fn choose(alloc: Global, arms: &[Arm], bodies: Items<Code>) -> Result<Code, AllocError>
    ensures { IfOk result (λ made.
        code_view made ≡ model.awaits (map (λ a. a.0) (map arm_of arms.now)) (row_with (map code_view bodies) None)) }
{
    let channels = channels_of(alloc, arms)?;
    wait(alloc, channels, bodies)
}

/// The channels of arms that wait.
fn channels_of(alloc: Global, arms: &[Arm]) -> Result<Items<u32>, AllocError>
    ensures { IfOk result (λ made. made ≡ map (λ a. a.0) (map arm_of arms.now)) }
{
    let mut channels = Items::with_capacity(alloc, arms.len())?;
    for arm in arms {
        channels.push(arm.channel.number)?;
    }
    Ok(channels)
}

/// Commands one after another.
#[tactic(auto, using(crate::proofs::public::Views::code_in_turn))]
pub(crate) fn in_turn(alloc: Global, codes: Items<Code>) -> Result<Code, AllocError>
    ensures { IfOk result (λ made. code_view made ≡ model.in_turn (row_of (map code_view codes))) }
{
    Ok(Code::InTurn(Shared::new(alloc, Row { codes })?))
}

/// Commands side by side.
#[tactic(auto, using(crate::proofs::public::Views::code_parallel))]
pub(crate) fn side_by_side(alloc: Global, codes: Items<Code>) -> Result<Code, AllocError>
    ensures { IfOk result (λ made. code_view made ≡ model.side_by_side (row_of (map code_view codes))) }
{
    Ok(Code::SideBySide(Shared::new(alloc, Row { codes })?))
}
