// The ends of channels that a command uses, in the order of the source.
ghost use Rattle.std.specs.Prelude.{◌≡◌, [], map, IfOk, OnOk};
ghost use Rattle.std.specs.Option.{option_map};
ghost use Rattle.outline.specs.Ends as model;
ghost use Rattle.outline.specs.internal.Parts as parts;

use std::alloc::{AllocError, Global};
use syntax::Items;
use system::{Action, Arm, Command, Guarded, Labelled};

/// How a command uses a channel.
#[derive(Clone, Copy)]
pub enum Way {
    Sends,
    Receives,
    Syncs,
    /// opens the arm of this number, from 0
    Opens(u64),
}

/// A use of a channel by a command.
#[derive(Clone, Copy)]
pub struct End {
    /// the number of the channel
    pub channel: u32,
    /// the line of the command, from 1; none of the environment
    pub line: Option<u64>,
    pub way: Way,
}

/// The ends that the command uses.
pub(crate) fn ends_of(alloc: Global, command: &Command) -> Result<Items<End>, AllocError>
    ensures { IfOk result (λ ends. ends ≡ model.ends_in command.now []) }
{
    let mut ends = Items::new(alloc);
    add_ends(command, &mut ends)?;
    Ok(ends)
}

/// Adds the ends that the command uses.
#[cycle(ends)]
fn add_ends(command: &Command, ends: &mut Items<End>) -> Result<(), AllocError>
    ensures { OnOk result (ends.new ≡ model.ends_in command.now ends.old) }
{
    let line = command.line;
    match command.action.get() {
        Action::Continue | Action::Halt | Action::Assign(_, _, _) => Ok(()),
        Action::Send(channel, _, _) => add(ends, channel.number, line, Way::Sends),
        Action::Receive(channel, _) => add(ends, channel.number, line, Way::Receives),
        Action::Sync(channel) => add(ends, channel.number, line, Way::Syncs),
        Action::Loop(body) => add_ends(body, ends),
        Action::While(_, body) => add_ends(body, ends),
        Action::If(arms, last) => {
            add_guarded(arms.as_slice(), ends)?;
            add_last(last, ends)
        }
        Action::Case(_, arms, last) => {
            add_labelled(arms.as_slice(), ends)?;
            add_last(last, ends)
        }
        Action::Input(channel, body) => {
            add(ends, channel.number, line, Way::Opens(0))?;
            add_ends(body, ends)
        }
        Action::Select(arms) | Action::Arbitrate(arms) => add_arms(arms.as_slice(), line, ends),
        Action::Sequence(children) | Action::Parallel(children) => {
            add_all(children.as_slice(), ends)
        }
    }
}

/// Adds one end.
fn add(ends: &mut Items<End>, channel: u32, line: u64, way: Way) -> Result<(), AllocError>
    ensures { OnOk result (ends.new ≡ model.with_end channel line way ends.old) }
{
    ends.push(End {
        channel,
        line: Some(line),
        way,
    })
}

/// Adds the ends that these commands use.
#[cycle(ends)]
fn add_all(commands: &[Command], ends: &mut Items<End>) -> Result<(), AllocError>
    ensures { OnOk result (ends.new ≡ model.in_turn (map model.ends_in commands.now) ends.old) }
{
    for command in commands {
        add_ends(command, ends)?;
    }
    Ok(())
}

/// Adds the ends that the arms of an `if` use.
#[cycle(ends)]
fn add_guarded(arms: &[Guarded], ends: &mut Items<End>) -> Result<(), AllocError>
    ensures { OnOk result (ends.new ≡ model.in_turn (map parts.ends_in_guarded arms.now) ends.old) }
{
    for arm in arms {
        add_ends(&arm.body, ends)?;
    }
    Ok(())
}

/// Adds the ends that the arms of a `case` use.
#[cycle(ends)]
fn add_labelled(arms: &[Labelled], ends: &mut Items<End>) -> Result<(), AllocError>
    ensures { OnOk result (ends.new ≡ model.in_turn (map parts.ends_in_labelled arms.now) ends.old) }
{
    for arm in arms {
        add_ends(&arm.body, ends)?;
    }
    Ok(())
}

/// Adds the ends that the arms of a `select` or an `arbitrate` use, each behind the end at which it opens.
#[cycle(ends)]
fn add_arms(arms: &[Arm], line: u64, ends: &mut Items<End>) -> Result<(), AllocError>
    ensures { OnOk result (ends.new ≡ model.arms_in_turn line 0 (map parts.ends_in_arm arms.now) ends.old) }
{
    for (number, arm) in arms.iter().enumerate() {
        add(ends, arm.channel.number, line, Way::Opens(number as u64))?;
        add_ends(&arm.body, ends)?;
    }
    Ok(())
}

/// Adds the ends that are used behind an `else`.
#[cycle(ends)]
fn add_last(last: &Option<Command>, ends: &mut Items<End>) -> Result<(), AllocError>
    ensures { OnOk result (ends.new ≡ model.in_last (option_map model.ends_in last.now) ends.old) }
{
    match last {
        Some(body) => add_ends(body, ends),
        None => Ok(()),
    }
}
