// The commands of several sessions.
ghost use Rattle.std.specs.Prelude.{◌≡◌, ◌<◌, IfOk, OnErr};
ghost use Rattle.syntax.specs.Lists.{Every};
ghost use Rattle.runs.specs.ObjectLaws.{Grows};
ghost use Rattle.machine.specs.Headline.{Headline};
ghost use Rattle.locked_execution.specs.AtDesk.{execution};
ghost use Rattle.locked_execution.specs.Answered.{Answered};
ghost use Rattle.locked_execution.specs.GoingBack.{DependentsGoAlong, AmountsToBackAndForth};

use crate::{Command, Desk, Fault, Reply};
use std::alloc::Global;

/// Answers the commands of sessions, each 0 to 15, in their order.
///
/// # Errors
///
/// `Memory` without memory for the replies, and then nothing was performed.
pub fn run_commands(
    alloc: Global,
    desk: &mut Desk,
    commands: &[(u32, Command)],
) -> Result<Vec<Reply>, Fault>
    requires { Every (λ entry. entry.0 < 16) commands.now }
    ensures answered { IfOk result (λ replies. Answered desk.old commands.now replies.items desk.new) }
    ensures refused { OnErr result (desk.new ≡ desk.old) }
    ensures headline { Headline (execution desk.new) }
    ensures tickets { Grows (execution desk.old) (execution desk.new) }
    ensures least { DependentsGoAlong (execution desk.old) (execution desk.new) }
    ensures back_and_forth { AmountsToBackAndForth desk.old desk.new }
    ensures system { desk.new.machine.checked ≡ desk.old.machine.checked }
{
    desk.is_sound();
    let mut replies = Vec::with_capacity(alloc, commands.len())?;
    for (session, command) in commands {
        let reply = desk.perform(*session, command);
        replies.push_reserved(reply);
    }
    Ok(replies)
}
