// The desk as the object of one thread that several passes call under a lock.
ghost use Rattle.std.specs.Prelude.{◌≡◌, ◌⊎◌, MatchResult};
ghost use Rattle.runs.specs.declared.command.Refusal as refusal;
ghost use Rattle.locked_execution.specs.declared.command.Reply as any;

use crate::{Command, Desk, Reply};
use locked_object::Object;
use object_workers::Branches;
use runs::Refusal;

impl Object<Command, Reply> for Desk {
    ghost use Rattle.locked_execution.specs.Sharing.{Keeps, NotKept};

    ghost performs = { Keeps };

    ghost refuses = { NotKept };

    fn perform(&mut self, pass: u32, command: &Command) -> Result<Reply, Reply> {
        if_kept(Desk::perform(self, pass, command))
    }
}

impl Branches<Command, Reply> for Desk {
    ghost use Rattle.locked_execution.specs.declared.command.Command as commands;
    ghost use Rattle.locked_execution.specs.Sharing.{is_step};

    ghost asks = { λ k. commands.Command.Branch k };

    ghost steps = { is_step };

    fn ask(branch: u32) -> Command {
        Command::Branch(branch)
    }

    fn is_step(reply: &Reply) -> bool {
        match reply {
            Reply::Stepped(_, _) => true,
            _ => false,
        }
    }
}

/// The reply, as an error where it is not recorded: there was no memory, or no ticket.
fn if_kept(reply: Reply) -> Result<Reply, Reply>
    ensures { MatchResult result
        (λ r. (r ≡ reply) × (reply ≡ any.Reply.Refused refusal.Refusal.Memory → ⊥)
        × (reply ≡ any.Reply.Refused refusal.Refusal.Spent → ⊥))
        (λ r. (r ≡ reply)
        × ((reply ≡ any.Reply.Refused refusal.Refusal.Memory)
        ⊎ (reply ≡ any.Reply.Refused refusal.Refusal.Spent))) }
{
    match reply {
        Reply::Refused(Refusal::Memory) => Err(Reply::Refused(Refusal::Memory)),
        Reply::Refused(Refusal::Spent) => Err(Reply::Refused(Refusal::Spent)),
        told => Ok(told),
    }
}
