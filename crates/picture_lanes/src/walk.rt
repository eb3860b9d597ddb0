// The walk through a body as it was made, and as it is written in the blocks of the circuit.
ghost use Rattle.std.specs.Prelude.{◌≡◌, ◌∷◌, ◌++◌, [], map, IfOk, OnOk};
ghost use Rattle.std.specs.Option.{option_copied, option_map};
ghost use Rattle.picture_lanes.specs.Walk as model;
ghost use Rattle.picture_lanes.specs.internal.Parts as parts;

use crate::calls::behind_calls;
use crate::lane::Instance;
use crate::written::{last_part, part};
use branch_lanes::trim;
use std::alloc::{AllocError, Global};
use syntax::Items;
use system::{Action, Arm, Command, Guarded, Labelled};
use types::Procedure;

/// How a command uses a channel.
#[derive(Clone, Copy, Debug, PartialEq, Eq)]
pub enum Way {
    Sends,
    Receives,
    Syncs,
    Opens,
}

/// A use of a channel in the lane of this path.
#[derive(Drop)]
pub struct ChannelUse {
    pub channel: u32,
    pub way: Way,
    pub path: Items<u32>,
}

/// A command in the lane of this path, on a line, in a block.
#[derive(Drop)]
pub(crate) struct Stop {
    pub(crate) path: Items<u32>,
    pub(crate) line: u64,
    pub(crate) block: usize,
}

/// What a walk has found, in the order of the source.
#[derive(Drop)]
pub(crate) struct Found {
    pub(crate) instances: Items<Instance>,
    pub(crate) stops: Items<Stop>,
    pub(crate) uses: Items<ChannelUse>,
}

/// Walks through a command in these branches, which is written so in the block.
#[cycle(walk)]
pub(crate) fn walk(
    made: &Command,
    alloc: Global,
    procedures: &[Procedure],
    written: &types::Command,
    path: &[u32],
    block: usize,
    found: &mut Found,
) -> Result<(), AllocError>
    ensures { OnOk result (found.new
        ≡ model.walked procedures.now made.now written.now path.now block found.old) }
{
    let (written, block) = behind_calls(alloc, procedures, written, block, &mut found.instances)?;
    let line = made.line;
    match made.action.get() {
        Action::Continue => Ok(()),
        Action::Halt | Action::Assign(_, _, _) => add_stop(alloc, path, line, block, found),
        Action::Send(channel, _, _) => {
            add_stop(alloc, path, line, block, found)?;
            add_use(alloc, channel.number, Way::Sends, path, found)
        }
        Action::Receive(channel, _) => {
            add_stop(alloc, path, line, block, found)?;
            add_use(alloc, channel.number, Way::Receives, path, found)
        }
        Action::Sync(channel) => {
            add_stop(alloc, path, line, block, found)?;
            add_use(alloc, channel.number, Way::Syncs, path, found)
        }
        Action::Loop(body) | Action::While(_, body) => {
            add_stop(alloc, path, line, block, found)?;
            walk_if_written(
                body,
                alloc,
                procedures,
                part(written, 0),
                path,
                block,
                found,
            )
        }
        Action::If(arms, last) => {
            add_stop(alloc, path, line, block, found)?;
            walk_guarded(
                arms.as_slice(),
                alloc,
                procedures,
                written,
                path,
                block,
                found,
            )?;
            walk_last(
                last,
                alloc,
                procedures,
                last_part(written),
                path,
                block,
                found,
            )
        }
        Action::Case(_, arms, last) => {
            add_stop(alloc, path, line, block, found)?;
            walk_labelled(
                arms.as_slice(),
                alloc,
                procedures,
                written,
                path,
                block,
                found,
            )?;
            walk_last(
                last,
                alloc,
                procedures,
                last_part(written),
                path,
                block,
                found,
            )
        }
        Action::Input(channel, body) => {
            add_stop(alloc, path, line, block, found)?;
            add_use(alloc, channel.number, Way::Opens, path, found)?;
            walk_if_written(
                body,
                alloc,
                procedures,
                part(written, 0),
                path,
                block,
                found,
            )
        }
        Action::Select(arms) | Action::Arbitrate(arms) => {
            add_stop(alloc, path, line, block, found)?;
            walk_arms(
                arms.as_slice(),
                alloc,
                procedures,
                written,
                path,
                block,
                found,
            )
        }
        Action::Sequence(children) => {
            add_stop(alloc, path, line, block, found)?;
            walk_children(
                children.as_slice(),
                alloc,
                procedures,
                written,
                path,
                block,
                found,
            )
        }
        Action::Parallel(children) => {
            walk_branches(
                children.as_slice(),
                alloc,
                procedures,
                written,
                path,
                block,
                found,
            )
        }
    }
}

/// Walks through a command, if it is written.
#[cycle(walk)]
fn walk_if_written(
    made: &Command,
    alloc: Global,
    procedures: &[Procedure],
    written: Option<&types::Command>,
    path: &[u32],
    block: usize,
    found: &mut Found,
) -> Result<(), AllocError>
    ensures { OnOk result (found.new
        ≡ model.if_written (model.walked procedures.now made.now) (option_copied written.entry) path.now block found.old) }
{
    match written {
        Some(written) => walk(made, alloc, procedures, written, path, block, found),
        None => Ok(()),
    }
}

/// Walks through what stands behind an `else`.
#[cycle(walk)]
fn walk_last(
    made: &Option<Command>,
    alloc: Global,
    procedures: &[Procedure],
    written: Option<&types::Command>,
    path: &[u32],
    block: usize,
    found: &mut Found,
) -> Result<(), AllocError>
    ensures { OnOk result (found.new
        ≡ model.in_last (option_map (model.walked procedures.now) made.now) (option_copied written.entry) path.now block
        found.old) }
{
    match made {
        Some(made) => walk_if_written(made, alloc, procedures, written, path, block, found),
        None => Ok(()),
    }
}

/// Walks through the arms of an `if`.
#[cycle(walk)]
fn walk_guarded(
    made: &[Guarded],
    alloc: Global,
    procedures: &[Procedure],
    written: &types::Command,
    path: &[u32],
    block: usize,
    found: &mut Found,
) -> Result<(), AllocError>
    ensures { OnOk result (found.new
        ≡ model.in_turn 0 (map (parts.walked_guarded procedures.now) made.now) written.now path.now block found.old) }
{
    for (number, arm) in made.iter().enumerate() {
        walk_if_written(
            &arm.body,
            alloc,
            procedures,
            part(written, number),
            path,
            block,
            found,
        )?;
    }
    Ok(())
}

/// Walks through the arms of a `case`.
#[cycle(walk)]
fn walk_labelled(
    made: &[Labelled],
    alloc: Global,
    procedures: &[Procedure],
    written: &types::Command,
    path: &[u32],
    block: usize,
    found: &mut Found,
) -> Result<(), AllocError>
    ensures { OnOk result (found.new
        ≡ model.in_turn 0 (map (parts.walked_labelled procedures.now) made.now) written.now path.now block found.old) }
{
    for (number, arm) in made.iter().enumerate() {
        walk_if_written(
            &arm.body,
            alloc,
            procedures,
            part(written, number),
            path,
            block,
            found,
        )?;
    }
    Ok(())
}

/// Walks through the arms of a `select` or an `arbitrate`, each behind the use at which it opens.
#[cycle(walk)]
fn walk_arms(
    made: &[Arm],
    alloc: Global,
    procedures: &[Procedure],
    written: &types::Command,
    path: &[u32],
    block: usize,
    found: &mut Found,
) -> Result<(), AllocError>
    ensures { OnOk result (found.new
        ≡ model.arms_in_turn 0 (map (parts.walked_arm procedures.now) made.now) written.now path.now block found.old) }
{
    for (number, arm) in made.iter().enumerate() {
        add_use(alloc, arm.channel.number, Way::Opens, path, found)?;
        walk_if_written(
            &arm.body,
            alloc,
            procedures,
            part(written, number),
            path,
            block,
            found,
        )?;
    }
    Ok(())
}

/// Walks through the children of a sequence.
#[cycle(walk)]
fn walk_children(
    made: &[Command],
    alloc: Global,
    procedures: &[Procedure],
    written: &types::Command,
    path: &[u32],
    block: usize,
    found: &mut Found,
) -> Result<(), AllocError>
    ensures { OnOk result (found.new
        ≡ model.in_turn 0 (map (model.walked procedures.now) made.now) written.now path.now block found.old) }
{
    for (number, child) in made.iter().enumerate() {
        walk_if_written(
            child,
            alloc,
            procedures,
            part(written, number),
            path,
            block,
            found,
        )?;
    }
    Ok(())
}

/// Walks through the branches of a parallel.
#[cycle(walk)]
fn walk_branches(
    made: &[Command],
    alloc: Global,
    procedures: &[Procedure],
    written: &types::Command,
    path: &[u32],
    block: usize,
    found: &mut Found,
) -> Result<(), AllocError>
    ensures { OnOk result (found.new
        ≡ model.in_branches 0 (map (model.walked procedures.now) made.now) written.now path.now block found.old) }
{
    for (number, child) in made.iter().enumerate() {
        let inner = branch_path(alloc, path, number)?;
        let written = part(written, number);
        walk_if_written(
            child,
            alloc,
            procedures,
            written,
            inner.as_slice(),
            block,
            found,
        )?;
    }
    Ok(())
}

/// The numbers of the branches, with that of one within. It is an error if it has more than 32 bits, which no system
/// reaches.
fn branch_path(alloc: Global, path: &[u32], number: usize) -> Result<Vec<u32>, AllocError>
    ensures { IfOk result (λ made. made.items ≡ path.now ++ number ∷ []) }
{
    let Ok(number) = u32::try_from(number) else {
        return Err(AllocError);
    };
    let mut inner = Vec::from_slice(alloc, path)?;
    inner.push(number)?;
    Ok(inner)
}

/// Adds a command in these branches.
fn add_stop(
    alloc: Global,
    path: &[u32],
    line: u64,
    block: usize,
    found: &mut Found,
) -> Result<(), AllocError>
    ensures { OnOk result (found.new ≡ model.with_stop line path.now block found.old) }
{
    let path = lane_path(alloc, path)?;
    found.stops.push(Stop { path, line, block })
}

/// Adds a use of a channel in these branches.
fn add_use(
    alloc: Global,
    channel: u32,
    way: Way,
    path: &[u32],
    found: &mut Found,
) -> Result<(), AllocError>
    ensures { OnOk result (found.new ≡ model.with_use channel way path.now found.old) }
{
    let path = lane_path(alloc, path)?;
    found.uses.push(ChannelUse { channel, way, path })
}

/// The path of the lane of what stands in these branches.
fn lane_path(alloc: Global, path: &[u32]) -> Result<Items<u32>, AllocError>
    ensures { IfOk result (λ made. made ≡ model.trimmed path.now) }
{
    let mut lane = Vec::from_slice(alloc, path)?;
    trim(&mut lane);
    Ok(Items::from_vec(lane))
}
