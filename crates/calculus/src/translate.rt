// What a system is to do, as a tree in memory.
ghost use Rattle.std.specs.Prelude.{◌≡◌, List, [], ◌∷◌, map, IfOk, None};
ghost use Rattle.std.specs.Option.{option_map};
ghost use Rattle.system.specs.Expression as expression;
ghost use Rattle.system.specs.Residual as residual;
ghost use Rattle.system.specs.Translation as translation;
ghost use Rattle.system.specs.Translation.{decision_of};
ghost use Rattle.system.specs.internal.ArmParts.{guarded_of, labelled_of, arm_of};
ghost use Rattle.calculus.specs.ResidualTree.{residual_of_tree};

use crate::residual_tree::{ResidualTree, along, within};
use std::alloc::{AllocError, Global};
use syntax::{Items, Shared};
use system::{Action, Arm, Command, Decision, Expression, Guarded, Labelled};
use value::Width;

/// What the command is to do.
#[cycle(tree_of)]
pub(crate) fn tree_of(alloc: Global, command: &Command) -> Result<Shared<ResidualTree>, AllocError>
    ensures { IfOk result (λ made. residual_of_tree made ≡ translation.residual_of command.now) }
{
    match command.action.get() {
        Action::Continue => Shared::new(alloc, ResidualTree::Done),
        Action::Halt => Shared::new(alloc, ResidualTree::Halted),
        Action::Assign(variable, width, value) => {
            assign_tree(alloc, variable.number, *width, value)
        }
        Action::Send(channel, width, value) => { send_tree(alloc, channel.number, *width, value) }
        Action::Receive(channel, variable) => {
            Shared::new(
                alloc,
                ResidualTree::Receive(channel.number, variable.number),
            )
        }
        Action::Sync(channel) => Shared::new(alloc, ResidualTree::Sync(channel.number)),
        Action::Loop(body) => {
            let body = tree_of(alloc, body)?;
            Shared::new(alloc, ResidualTree::Loop(0, body))
        }
        Action::While(guard, body) => {
            let body = tree_of(alloc, body)?;
            while_tree(alloc, guard, body)
        }
        Action::If(arms, last) => {
            let bodies = bodies_of_if(alloc, arms.as_slice())?;
            let bodies = with_last(alloc, last, bodies)?;
            if_tree(alloc, arms.as_slice(), last.is_some(), bodies)
        }
        Action::Case(subject, arms, last) => {
            let bodies = bodies_of_case(alloc, arms.as_slice())?;
            let bodies = with_last(alloc, last, bodies)?;
            case_tree(alloc, subject, arms.as_slice(), last.is_some(), bodies)
        }
        Action::Input(channel, body) => {
            let body = tree_of(alloc, body)?;
            input_tree(alloc, channel.number, body)
        }
        Action::Select(arms) | Action::Arbitrate(arms) => {
            let bodies = bodies_of_arms(alloc, arms.as_slice())?;
            choose_tree(alloc, arms.as_slice(), bodies)
        }
        Action::Sequence(children) => {
            let children = trees_of(alloc, children.as_slice())?;
            in_sequence(alloc, children)
        }
        Action::Parallel(children) => {
            let children = trees_of(alloc, children.as_slice())?;
            in_parallel(alloc, children)
        }
    }
}

/// What each of the commands is to do.
#[cycle(tree_of)]
fn trees_of(alloc: Global, commands: &[Command]) -> Result<Items<Shared<ResidualTree>>, AllocError>
    ensures { IfOk result (λ made. map residual_of_tree made ≡ map translation.residual_of commands.now) }
{
    let mut lefts = Items::with_capacity(alloc, commands.len())?;
    for command in commands {
        lefts.push(tree_of(alloc, command)?)?;
    }
    Ok(lefts)
}

/// What the body of each arm of an `if` is to do.
#[cycle(tree_of)]
fn bodies_of_if(alloc: Global, arms: &[Guarded]) -> Result<Items<Shared<ResidualTree>>, AllocError>
    ensures { IfOk result (λ made. map residual_of_tree made ≡ map (λ a. a.body) (map guarded_of arms.now)) }
{
    let mut lefts = Items::with_capacity(alloc, arms.len())?;
    for arm in arms {
        lefts.push(tree_of(alloc, &arm.body)?)?;
    }
    Ok(lefts)
}

/// What the body of each arm of a `case` is to do.
#[cycle(tree_of)]
fn bodies_of_case(
    alloc: Global,
    arms: &[Labelled],
) -> Result<Items<Shared<ResidualTree>>, AllocError>
    ensures { IfOk result (λ made. map residual_of_tree made ≡ map (λ a. a.body) (map labelled_of arms.now)) }
{
    let mut lefts = Items::with_capacity(alloc, arms.len())?;
    for arm in arms {
        lefts.push(tree_of(alloc, &arm.body)?)?;
    }
    Ok(lefts)
}

/// What the body of each arm that waits on a channel is to do.
#[cycle(tree_of)]
fn bodies_of_arms(alloc: Global, arms: &[Arm]) -> Result<Items<Shared<ResidualTree>>, AllocError>
    ensures { IfOk result (λ made. map residual_of_tree made ≡ map (λ a. a.body) (map arm_of arms.now)) }
{
    let mut lefts = Items::with_capacity(alloc, arms.len())?;
    for arm in arms {
        lefts.push(tree_of(alloc, &arm.body)?)?;
    }
    Ok(lefts)
}

/// The arms, and what the `else` is to do as the last of them.
#[cycle(tree_of)]
fn with_last(
    alloc: Global,
    last: &Option<Command>,
    arms: Items<Shared<ResidualTree>>,
) -> Result<Items<Shared<ResidualTree>>, AllocError>
    ensures { IfOk result (λ made.
        translation.arms_of (map residual_of_tree made) None
        ≡ translation.arms_of (map residual_of_tree arms) (option_map translation.residual_of last.now)) }
{
    match last {
        Some(last) => {
            let mut arms = arms;
            arms.push(tree_of(alloc, last)?)?;
            Ok(arms)
        }
        None => Ok(arms),
    }
}

/// An assignment.
fn assign_tree(
    alloc: Global,
    variable: u32,
    width: Width,
    value: &Expression,
) -> Result<Shared<ResidualTree>, AllocError>
    ensures { IfOk result (λ made.
        residual_of_tree made ≡ residual.assign variable width (translation.expression_of value.now)) }
{
    let value = value.copy(alloc)?;
    Shared::new(alloc, ResidualTree::Assign(variable, width, value))
}

/// A send.
fn send_tree(
    alloc: Global,
    channel: u32,
    width: Width,
    value: &Expression,
) -> Result<Shared<ResidualTree>, AllocError>
    ensures { IfOk result (λ made.
        residual_of_tree made ≡ residual.send channel width (translation.expression_of value.now)) }
{
    let value = value.copy(alloc)?;
    Shared::new(alloc, ResidualTree::Send(channel, width, value))
}

/// A while loop before its first test.
fn while_tree(
    alloc: Global,
    guard: &Expression,
    body: Shared<ResidualTree>,
) -> Result<Shared<ResidualTree>, AllocError>
    ensures { IfOk result (λ made.
        residual_of_tree made ≡ residual.while 0 (translation.expression_of guard.now) (residual_of_tree body)) }
{
    let guard = guard.copy(alloc)?;
    Shared::new(alloc, ResidualTree::While(0, guard, body))
}

/// The guards of the arms of an `if`.
fn guards_of(alloc: Global, arms: &[Guarded]) -> Result<Items<Expression>, AllocError>
    ensures { IfOk result (λ made. map translation.expression_of made ≡ map (λ a. a.guard) (map guarded_of arms.now)) }
{
    let mut guards = Items::with_capacity(alloc, arms.len())?;
    for arm in arms {
        guards.push(arm.guard.copy(alloc)?)?;
    }
    Ok(guards)
}

/// Equal labels in memory of their own.
fn copied(alloc: Global, labels: &[u64]) -> Result<Items<u64>, AllocError>
    ensures { IfOk result (λ made. made ≡ labels.now) }
{
    Ok(Items::from_vec(Vec::from_slice(alloc, labels)?))
}

/// The labels of the arms of a `case`.
fn labels_of(alloc: Global, arms: &[Labelled]) -> Result<Items<Items<u64>>, AllocError>
    ensures { IfOk result (λ made. made ≡ map (λ a. a.labels) (map labelled_of arms.now)) }
{
    let mut labels = Items::with_capacity(alloc, arms.len())?;
    for arm in arms {
        labels.push(copied(alloc, arm.labels.as_slice())?)?;
    }
    Ok(labels)
}

/// An `if` before its test, with these bodies; whether the last is that of an `else`.
fn if_tree(
    alloc: Global,
    arms: &[Guarded],
    ends: bool,
    bodies: Items<Shared<ResidualTree>>,
) -> Result<Shared<ResidualTree>, AllocError>
    ensures { IfOk result (λ made.
        residual_of_tree made
        ≡ residual.test (expression.by_guards (map (λ a. a.guard) (map guarded_of arms.now)) ends)
        (translation.arms_of (map residual_of_tree bodies) None)) }
{
    let guards = guards_of(alloc, arms)?;
    ResidualTree::test(alloc, Decision::Guards(guards, ends), bodies)
}

/// A `case` before its test, with these bodies; whether the last is that of an `else`.
fn case_tree(
    alloc: Global,
    subject: &Expression,
    arms: &[Labelled],
    ends: bool,
    bodies: Items<Shared<ResidualTree>>,
) -> Result<Shared<ResidualTree>, AllocError>
    ensures { IfOk result (λ made.
        residual_of_tree made
        ≡ residual.test
        (expression.by_labels (translation.expression_of subject.now)
        (map (λ a. a.labels) (map labelled_of arms.now)) ends)
        (translation.arms_of (map residual_of_tree bodies) None)) }
{
    let decision = labels_of_case(alloc, subject, arms, ends)?;
    ResidualTree::test(alloc, decision, bodies)
}

/// The decision of a `case`.
fn labels_of_case(
    alloc: Global,
    subject: &Expression,
    arms: &[Labelled],
    ends: bool,
) -> Result<Decision, AllocError>
    ensures { IfOk result (λ made.
        decision_of made
        ≡ expression.by_labels (translation.expression_of subject.now)
        (map (λ a. a.labels) (map labelled_of arms.now)) ends) }
{
    let labels = labels_of(alloc, arms)?;
    Ok(Decision::Labels(subject.copy(alloc)?, labels, ends))
}

/// A command that waits for the channel to enclose it.
fn input_tree(
    alloc: Global,
    channel: u32,
    body: Shared<ResidualTree>,
) -> Result<Shared<ResidualTree>, AllocError>
    ensures { IfOk result (λ made.
        residual_of_tree made
        ≡ residual.choose (channel ∷ []) (residual.arm (residual_of_tree body) residual.no_arms)) }
{
    let mut channels = Items::with_capacity(alloc, 1)?;
    channels.push(channel)?;
    let mut arms = Items::with_capacity(alloc, 1)?;
    arms.push(body)?;
    let arms = Shared::new(alloc, arms)?;
    Shared::new(alloc, ResidualTree::Choose(channels, arms))
}

/// Arms that wait on their channels, with these bodies.
fn choose_tree(
    alloc: Global,
    arms: &[Arm],
    bodies: Items<Shared<ResidualTree>>,
) -> Result<Shared<ResidualTree>, AllocError>
    ensures { IfOk result (λ made.
        residual_of_tree made
        ≡ residual.choose (map (λ a. a.channel) (map arm_of arms.now))
        (translation.arms_of (map residual_of_tree bodies) None)) }
{
    let bodies = Shared::new(alloc, bodies)?;
    let channels = channels_of(alloc, arms)?;
    Shared::new(alloc, ResidualTree::Choose(channels, bodies))
}

/// The channels of arms that wait.
fn channels_of(alloc: Global, arms: &[Arm]) -> Result<Items<u32>, AllocError>
    ensures { IfOk result (λ made. made ≡ map (λ a. a.channel) (map arm_of arms.now)) }
{
    let mut channels = Items::with_capacity(alloc, arms.len())?;
    for arm in arms {
        channels.push(arm.channel.number)?;
    }
    Ok(channels)
}

/// The children one after another.
#[tactic(auto, using(crate::proofs::Children::sequence_begins))]
pub fn in_sequence(
    alloc: Global,
    children: Items<Shared<ResidualTree>>,
) -> Result<Shared<ResidualTree>, AllocError>
    ensures { IfOk result (λ made. residual_of_tree made ≡ translation.in_sequence 0 (map residual_of_tree children)) }
{
    let mut left = ResidualTree::done(alloc)?;
    let mut children = children;
    while let Some(child) = children.pop() {
        left = within(alloc, children.len() as u64, child, left)?;
    }
    Ok(left)
}

/// The children beside one another.
#[tactic(auto, using(crate::proofs::Children::parallel_begins))]
pub fn in_parallel(
    alloc: Global,
    children: Items<Shared<ResidualTree>>,
) -> Result<Shared<ResidualTree>, AllocError>
    ensures { IfOk result (λ made. residual_of_tree made ≡ translation.in_parallel 0 (map residual_of_tree children)) }
{
    let mut left = ResidualTree::done(alloc)?;
    let mut children = children;
    while let Some(child) = children.pop() {
        left = along(alloc, children.len() as u64, child, left)?;
    }
    Ok(left)
}
