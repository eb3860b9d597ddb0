// What keeps an execution, for whoever has it alone: what a call does while it has the lock.
ghost use Rattle.std.specs.Prelude.{◌≡◌};
ghost use mathlib.Core.List.{IsPrefix};
ghost use Rattle.locked_object.specs.Keepers.{IsKeeperOf, history, passes_made};
ghost use Rattle.locked_object.specs.Passes as passes;
ghost use Rattle.locked_object.specs.Passes.{number, seen_history};
ghost use Rattle.locked_execution.specs.Sharing.{Keeps};
ghost use Rattle.locked_execution.specs.Calls.{PerformedAs, passes_of};

use crate::shared::Kept;
use crate::{Board, Command, Machine, Pass, Reply, Shared};
use locked_object::NotRecorded;
use runs::Refusal;
use std::sync::Wait;

/// The desk of an execution, its recorded history, and the seat that notes it.
#[derive(Drop)]
pub struct Keeper {
    pub(crate) kept: Kept,
}

impl Keeper {
    /// Answers the command of a pass, and records it with its reply. Want of memory is not recorded, nor is 26, where
    /// no ticket is left or 2^63 calls are recorded; all else is. Where the call is not recorded nothing has changed,
    /// and the pass is told the history that says why. It waits for nobody.
    pub fn perform(&mut self, board: &Board, pass: &mut Pass, command: &Command) -> Reply
        requires keeper { IsKeeperOf Keeps board.now.table.shared.table_id board.now.table.shared.key self.old.kept }
        requires pass { passes.IsPassOf board.now.table.shared.table_id board.now.table.shared.key pass.old }
        ensures keeper { IsKeeperOf Keeps board.now.table.shared.table_id board.now.table.shared.key self.new.kept }
        ensures passes { passes_made self.new.kept ≡ passes_made self.old.kept }
        ensures pass { passes.IsPassOf board.now.table.shared.table_id board.now.table.shared.key pass.new
            × (number pass.new ≡ number pass.old) }
        ensures before { IsPrefix (seen_history pass.old) (history self.old.kept) }
        ensures performed { PerformedAs self.old.kept pass.old command.now result self.new.kept pass.new }
    {
        match self.kept.perform(board, pass, command) {
            Ok(reply) => reply,
            Err(NotRecorded::Refused(reply)) => reply,
            Err(NotRecorded::Full) => Reply::Refused(Refusal::Spent),
        }
    }

    /// The execution alone.
    pub fn into_machine(self) -> Machine
        ensures { result ≡ self.kept.object.machine }
    {
        self.kept.into_object().into_machine()
    }
}

impl Shared {
    /// The word of recorded calls and what keeps the execution, once no pass calls it any more. It takes the lock, for
    /// which it may wait.
    pub fn into_keeper<W: Wait>(self, rt: &W) -> (Board, Keeper)
        ensures board { result.0 ≡ self.object.board }
        ensures keeper { IsKeeperOf Keeps result.0.table.shared.table_id result.0.table.shared.key result.1.kept }
        ensures passes { passes_made result.1.kept ≡ passes_of self }
    {
        let (board, kept) = self.object.close(rt);
        (board, Keeper { kept })
    }
}
