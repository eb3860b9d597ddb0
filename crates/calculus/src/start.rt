// The state before the first event.
ghost use Rattle.std.specs.Prelude.{◌≡◌, [], ◌∷◌, ◌++◌, map, IfOk};
ghost use Rattle.system.specs.Expression.{constant, word};
ghost use Rattle.system.specs.Residual as residual;
ghost use Rattle.system.specs.Translation as translation;
ghost use Rattle.calculus.specs.ResidualTree.{residual_of_tree, state_of};
ghost use Rattle.runs.specs.Steps.{opening};

use crate::Plain;
use crate::residual_tree::{ResidualTree, within};
use crate::translate::{in_parallel, in_sequence, tree_of};
use std::alloc::{AllocError, Global};
use syntax::{Items, Shared};
use system::{Branch, Expression, System, Variable};
use value::{Value, Width};

/// The state of the system before its first event.
pub(crate) fn opening(alloc: Global, system: &System) -> Result<Plain, AllocError>
    ensures { IfOk result (λ made. state_of made ≡ opening system.now) }
{
    let branches = branches_of(alloc, system)?;
    let left = in_parallel(alloc, branches)?;
    let values = first_values(alloc, system.variables.as_slice())?;
    Ok(Plain { left, values })
}

/// What the root's body is to do, and then what the environment is to do on each port.
fn branches_of(alloc: Global, system: &System) -> Result<Items<Shared<ResidualTree>>, AllocError>
    ensures { IfOk result (λ made.
        map residual_of_tree made
        ≡ translation.residual_of system.now.main ∷ map translation.branch_of system.now.environment) }
{
    let mut lefts = Items::with_capacity(alloc, 1)?;
    lefts.push(tree_of(alloc, &system.main)?)?;
    for branch in system.environment.as_slice() {
        add_branch(alloc, branch, &mut lefts)?;
    }
    Ok(lefts)
}

/// Adds what the environment is to do on one port.
fn add_branch(
    alloc: Global,
    branch: &Branch,
    lefts: &mut Items<Shared<ResidualTree>>,
) -> Result<(), AllocError>
    ensures { IfOk result (λ _.
        map residual_of_tree lefts.new ≡ map residual_of_tree lefts.old ++ translation.branch_of branch.now ∷ []) }
{
    lefts.push(branch_tree(alloc, branch)?)
}

/// What the environment is to do on one port.
fn branch_tree(alloc: Global, branch: &Branch) -> Result<Shared<ResidualTree>, AllocError>
    ensures { IfOk result (λ made. residual_of_tree made ≡ translation.branch_of branch.now) }
{
    match branch {
        Branch::Feed(channel, width, values) => feed(alloc, *channel, *width, values.as_slice()),
        Branch::Drain(channel) => Shared::new(alloc, ResidualTree::Drain(*channel, 0)),
        Branch::Syncs(channel, count) => syncs(alloc, *channel, *count),
    }
}

/// Sends of these values in order.
#[tactic(auto, using(crate::proofs::Ports::feed_is))]
fn feed(
    alloc: Global,
    channel: u32,
    width: Width,
    values: &[Value],
) -> Result<Shared<ResidualTree>, AllocError>
    ensures { IfOk result (λ made. residual_of_tree made ≡ translation.feed_from 0 channel width values.now) }
{
    let sends = sends_of(alloc, channel, width, values)?;
    in_sequence(alloc, sends)
}

/// A send of each of these values.
fn sends_of(
    alloc: Global,
    channel: u32,
    width: Width,
    values: &[Value],
) -> Result<Items<Shared<ResidualTree>>, AllocError>
    ensures { IfOk result (λ made.
        map residual_of_tree made ≡ map (λ v. residual.send channel width (constant v)) values.now) }
{
    let mut sends = Items::with_capacity(alloc, values.len())?;
    for value in values {
        sends.push(send_of(alloc, channel, width, *value)?)?;
    }
    Ok(sends)
}

/// A send of the value.
fn send_of(
    alloc: Global,
    channel: u32,
    width: Width,
    value: Value,
) -> Result<Shared<ResidualTree>, AllocError>
    ensures { IfOk result (λ made. residual_of_tree made ≡ residual.send channel width (constant value)) }
{
    Shared::new(
        alloc,
        ResidualTree::Send(channel, width, Expression::Constant(value)),
    )
}

/// So many handshakes in order.
fn syncs(alloc: Global, channel: u32, count: u32) -> Result<Shared<ResidualTree>, AllocError>
    ensures { IfOk result (λ made. residual_of_tree made ≡ translation.syncs_from 0 channel count) }
{
    let mut left = ResidualTree::done(alloc)?;
    let mut number = count;
    while number > 0 {
        number -= 1;
        left = within(alloc, u64::from(number), sync_of(alloc, channel)?, left)?;
    }
    Ok(left)
}

/// A handshake.
fn sync_of(alloc: Global, channel: u32) -> Result<Shared<ResidualTree>, AllocError>
    ensures { IfOk result (λ made. residual_of_tree made ≡ residual.sync channel) }
{
    Shared::new(alloc, ResidualTree::Sync(channel))
}

/// Every variable at 0.
fn first_values(alloc: Global, variables: &[Variable]) -> Result<Vec<Value>, AllocError>
    ensures { IfOk result (λ made. made.items ≡ map (λ v. word 0 v.width) variables.now) }
{
    let mut values = Vec::with_capacity(alloc, variables.len())?;
    for variable in variables {
        values.push(Value::zero(variable.width.bits()))?;
    }
    Ok(values)
}
