// The channels on which a command acts, and those on which it gives: it is at their other side.
ghost use Rattle.std.specs.Prelude.{◌≡◌, map, OnOk};
ghost use Rattle.std.specs.Option.{option_map};
ghost use Rattle.system.specs.Translation.{residual_of, branch_of};
ghost use Rattle.system.specs.internal.ArmParts.{guarded_of, labelled_of, arm_of};
ghost use Rattle.idle_branches.specs.internal.Known.{Acts, Fits, Gives};
ghost use Rattle.idle_branches.specs.internal.Gathering.{Adds, FitsAll, FitsEachArm, FitsLast};

use std::alloc::AllocError;
use syntax::Items;
use system::{Action, Arm, Branch, Command, Guarded, Labelled};

/// The channels on which branches act, and those on which they give.
#[derive(Drop)]
pub(crate) struct Used {
    /// for each channel the branches that act on it, one as often as it does
    pub acting: Vec<Items<u32>>,
    /// for each branch the channels on which it gives, one as often as it does
    pub giving: Vec<Items<u32>>,
}

impl Used {
    /// Adds a branch that acts on a channel. It is an error if there is no such channel, as there is in each system.
    fn add_act(&mut self, branch: u32, channel: u32) -> Result<(), AllocError>
        ensures { OnOk result (Adds branch self.old (λ u. Acts u channel) self.new) }
    {
        let index = channel as usize;
        if self.acting.len() <= index {
            return Err(AllocError);
        }
        self.acting[index].push(branch)
    }

    /// Adds a channel on which a branch gives. It is an error if there is no such branch.
    fn add_gift(&mut self, branch: u32, channel: u32) -> Result<(), AllocError>
        ensures { OnOk result (Adds branch self.old (λ u. Gives u channel) self.new) }
    {
        let index = branch as usize;
        if self.giving.len() <= index {
            return Err(AllocError);
        }
        self.giving[index].push(channel)
    }

    /// Adds a channel of handshakes without data, on which a branch acts and gives.
    fn add_both(&mut self, branch: u32, channel: u32) -> Result<(), AllocError>
        ensures { OnOk result (Adds branch self.old (λ u. Acts u channel × Gives u channel) self.new) }
    {
        self.add_act(branch, channel)?;
        self.add_gift(branch, channel)
    }

    /// Adds the channel of a branch of the environment.
    pub(crate) fn add_port(&mut self, branch: u32, port: &Branch) -> Result<(), AllocError>
        ensures { OnOk result (Adds branch self.old (λ u. Fits u (branch_of port.now)) self.new) }
    {
        match port {
            Branch::Feed(channel, _, _) => self.add_gift(branch, *channel),
            Branch::Drain(channel) => self.add_act(branch, *channel),
            Branch::Syncs(channel, _) => self.add_both(branch, *channel),
        }
    }
}

/// Adds the channels on which a command of the branch acts or gives.
#[cycle(used)]
pub(crate) fn add_command(command: &Command, branch: u32, used: &mut Used) -> Result<(), AllocError>
    ensures { OnOk result (Adds branch used.old (λ u. Fits u (residual_of command.now)) used.new) }
{
    match command.action.get() {
        Action::Continue | Action::Halt | Action::Assign(_, _, _) => Ok(()),
        Action::Send(channel, _, _) => used.add_gift(branch, channel.number),
        Action::Receive(channel, _) => used.add_act(branch, channel.number),
        Action::Sync(channel) => used.add_both(branch, channel.number),
        Action::Loop(body) => add_command(body, branch, used),
        Action::While(_, body) => add_command(body, branch, used),
        Action::If(arms, last) => {
            add_guarded(arms.as_slice(), branch, used)?;
            add_last(last, branch, used)
        }
        Action::Case(_, arms, last) => {
            add_labelled(arms.as_slice(), branch, used)?;
            add_last(last, branch, used)
        }
        Action::Input(channel, body) => {
            used.add_act(branch, channel.number)?;
            add_command(body, branch, used)
        }
        Action::Select(arms) | Action::Arbitrate(arms) => add_arms(arms.as_slice(), branch, used),
        Action::Sequence(children) => add_all(children.as_slice(), branch, used),
        Action::Parallel(children) => add_all(children.as_slice(), branch, used),
    }
}

/// Adds the channels on which these commands act or give.
#[cycle(used)]
fn add_all(commands: &[Command], branch: u32, used: &mut Used) -> Result<(), AllocError>
    ensures { OnOk result (Adds branch used.old (FitsAll (map residual_of commands.now)) used.new) }
{
    for command in commands {
        add_command(command, branch, used)?;
    }
    Ok(())
}

/// Adds the channels on which the arms of an `if` act or give.
#[cycle(used)]
fn add_guarded(arms: &[Guarded], branch: u32, used: &mut Used) -> Result<(), AllocError>
    ensures { OnOk result (Adds branch used.old
        (FitsAll (map (λ a. a.body) (map guarded_of arms.now))) used.new) }
{
    for arm in arms {
        add_command(&arm.body, branch, used)?;
    }
    Ok(())
}

/// Adds the channels on which the arms of a `case` act or give.
#[cycle(used)]
fn add_labelled(arms: &[Labelled], branch: u32, used: &mut Used) -> Result<(), AllocError>
    ensures { OnOk result (Adds branch used.old
        (FitsAll (map (λ a. a.body) (map labelled_of arms.now))) used.new) }
{
    for arm in arms {
        add_command(&arm.body, branch, used)?;
    }
    Ok(())
}

/// Adds the channels on which the arms of a `select` or an `arbitrate` act or give.
#[cycle(used)]
fn add_arms(arms: &[Arm], branch: u32, used: &mut Used) -> Result<(), AllocError>
    ensures { OnOk result (Adds branch used.old (FitsEachArm (map arm_of arms.now)) used.new) }
{
    for arm in arms {
        used.add_act(branch, arm.channel.number)?;
        add_command(&arm.body, branch, used)?;
    }
    Ok(())
}

/// Adds the channels on which is acted or given behind an `else`.
#[cycle(used)]
fn add_last(last: &Option<Command>, branch: u32, used: &mut Used) -> Result<(), AllocError>
    ensures { OnOk result (Adds branch used.old (FitsLast (option_map residual_of last.now)) used.new) }
{
    match last {
        Some(body) => add_command(body, branch, used),
        None => Ok(()),
    }
}
