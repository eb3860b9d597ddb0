// The commands of a whole system: its body, and the environment at each port.
ghost use Rattle.std.specs.Prelude.{◌≡◌, [], ◌∷◌, ◌++◌, map, replicate, IfOk};
ghost use Rattle.system.specs.Expression.{constant};
ghost use Rattle.process_tree.specs.Code as model;
ghost use Rattle.process_tree.specs.Translation as translation;
ghost use Rattle.process_tree.specs.View.{code_view};

use crate::code::{Code, Sender};
use crate::translate::{code_of, in_turn, sender, side_by_side};
use std::alloc::{AllocError, Global};
use syntax::Items;
use system::{Branch, Expression, System};
use value::{Value, Width};

/// The commands of the system: its body in branch 0, and the environment at the k-th port in branch k.
/// It is an error if there is no memory.
pub fn system_code(alloc: Global, system: &System) -> Result<Code, AllocError>
    ensures { IfOk result (λ made. code_view made ≡ translation.system_code system.now) }
{
    let branches = branches_of(alloc, system)?;
    side_by_side(alloc, branches)
}

/// The body, and then the environment at each port.
fn branches_of(alloc: Global, system: &System) -> Result<Items<Code>, AllocError>
    ensures { IfOk result (λ made.
        map code_view made ≡ translation.code_of system.now.main ∷ map translation.port_of system.now.environment) }
{
    let mut codes = Items::with_capacity(alloc, 1)?;
    codes.push(code_of(alloc, &system.main)?)?;
    for branch in system.environment.as_slice() {
        add_port(alloc, branch, &mut codes)?;
    }
    Ok(codes)
}

/// Adds the environment at one port.
fn add_port(alloc: Global, branch: &Branch, codes: &mut Items<Code>) -> Result<(), AllocError>
    ensures { IfOk result (λ _.
        map code_view codes.new ≡ map code_view codes.old ++ translation.port_of branch.now ∷ []) }
{
    codes.push(port(alloc, branch)?)
}

/// The environment at one port.
fn port(alloc: Global, branch: &Branch) -> Result<Code, AllocError>
    ensures { IfOk result (λ made. code_view made ≡ translation.port_of branch.now) }
{
    match branch {
        Branch::Feed(channel, width, values) => feed(alloc, *channel, *width, values.as_slice()),
        Branch::Drain(channel) => Ok(Code::Drain(*channel)),
        Branch::Syncs(channel, count) => syncs(alloc, *channel, *count),
    }
}

/// Sends of these values in order.
#[tactic(auto, using(crate::proofs::Ports::feed_is))]
fn feed(alloc: Global, channel: u32, width: Width, values: &[Value]) -> Result<Code, AllocError>
    ensures { IfOk result (λ made. code_view made ≡ model.in_turn (translation.feed_of channel width values.now)) }
{
    let sends = sends_of(alloc, channel, width, values)?;
    in_turn(alloc, sends)
}

/// A send of each of these values.
fn sends_of(
    alloc: Global,
    channel: u32,
    width: Width,
    values: &[Value],
) -> Result<Items<Code>, AllocError>
    ensures { IfOk result (λ made.
        map code_view made ≡ map (λ v. model.may_be_held (model.sending channel width (constant v))) values.now) }
{
    let mut sends = Items::with_capacity(alloc, values.len())?;
    for value in values {
        sends.push(send_of(alloc, channel, width, *value)?)?;
    }
    Ok(sends)
}

/// A send of the value.
fn send_of(alloc: Global, channel: u32, width: Width, value: Value) -> Result<Code, AllocError>
    ensures { IfOk result (λ made. code_view made ≡ model.may_be_held (model.sending channel width (constant value))) }
{
    sender(
        alloc,
        Sender::Send(channel, width, Expression::Constant(value)),
    )
}

/// So many handshakes in order.
#[tactic(auto, using(crate::proofs::Ports::syncs_is))]
fn syncs(alloc: Global, channel: u32, count: u32) -> Result<Code, AllocError>
    ensures { IfOk result (λ made. code_view made ≡ model.in_turn (translation.syncs_of channel count)) }
{
    let handshakes = handshakes_of(alloc, channel, count)?;
    in_turn(alloc, handshakes)
}

/// So many handshakes.
fn handshakes_of(alloc: Global, channel: u32, count: u32) -> Result<Items<Code>, AllocError>
    ensures { IfOk result (λ made. map code_view made ≡ replicate count (model.may_be_held (model.syncing channel))) }
{
    let mut codes = Items::with_capacity(alloc, count as usize)?;
    let mut made = 0;
    while made < count {
        codes.push(sender(alloc, Sender::Sync(channel))?)?;
        made += 1;
    }
    Ok(codes)
}
