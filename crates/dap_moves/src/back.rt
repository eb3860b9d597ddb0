// One step back: the newest step of a branch.
ghost use Rattle.std.specs.Prelude.{◌≡◌};
ghost use Rattle.locked_execution.specs.Performs.{Answers};
ghost use Rattle.locked_execution.specs.declared.command.Command as asked;
ghost use Rattle.dap_moves.specs.Led.{Led};
ghost use Rattle.dap_moves.specs.Moves.{StepsBack, NewestTicket, NewestOf};

use crate::QUIET;
use dap_views::newest_below;
use dependence::Live;
use locked_execution::{Command, Desk, Reply};
use system::System;

/// What came of a step back.
#[derive(Drop)]
pub enum Back {
    /// the branch took part in no live step
    AtBeginning,
    /// the reply to the undo of the newest live step in which it took part, which has this ticket
    Asked(u64, Reply),
}

/// Takes the newest live step back in which the branch took part. It takes no memory. Where a live step depends on it,
/// nothing changes, and the refusal names the first that does.
pub fn step_back(desk: &mut Desk, branch: u32) -> Back
    ensures back { StepsBack desk.old branch result desk.new }
    ensures led { Led desk.old desk.new }
    ensures system { desk.new.machine.checked ≡ desk.old.machine.checked }
{
    match newest_ticket(desk, branch) {
        Some(ticket) => Back::Asked(ticket, undo(desk, ticket)),
        None => Back::AtBeginning,
    }
}

/// The ticket of the newest live step in which the branch took part.
fn newest_ticket(desk: &Desk, branch: u32) -> Option<u64>
    ensures { NewestTicket desk.now branch result }
{
    let machine = desk.machine();
    newest_on(machine.checked().system(), machine.live_events(), branch)
}

/// The ticket of the last of these live events in which the branch took part.
fn newest_on(system: &System, live: &Live, branch: u32) -> Option<u64>
    ensures { NewestOf system.now live.now.live branch result }
{
    let index = newest_below(system, live, branch, live.len())?;
    match live.pair_at(index as u64) {
        Some((ticket, _)) => Some(ticket),
        None => None,
    }
}

/// Takes the live event of this ticket back, where no other live event depends on it.
pub(crate) fn undo(desk: &mut Desk, ticket: u64) -> Reply
    ensures answers { Answers desk.old 15 (asked.Command.Undo ticket) result desk.new }
    ensures led { Led desk.old desk.new }
    ensures system { desk.new.machine.checked ≡ desk.old.machine.checked }
{
    desk.perform(QUIET, &Command::Undo(ticket))
}
