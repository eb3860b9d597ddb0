//! Workers in threads of their own, which step the branches of one execution: each takes the number of a branch from a
//! queue, calls for a step of it, and puts the number back.
#![tactic(auto)]

ghost use Rattle.std.specs.Prelude.{◌≤◌, ◌^◌, length, IfOk, IfErr, ◌≡◌};
ghost use Rattle.system_places.specs.SystemBranches.{branch_count};
ghost use Rattle.object_workers.specs.Runs.{WorkersRan, AllSawLegal};
ghost use Rattle.locked_execution.specs.Calls.{ArePassesOf, opening, table};
ghost use Rattle.locked_execution.specs.Sharing.{Keeps, is_step};
ghost use Rattle.locked_execution.specs.declared.command.Command as asked;

use locked_execution::{Pass, Ran, Shared};
pub use locked_execution::{Fault, Gate};
use std::alloc::Global;
use std::sync::Wait;
use std::thread::Threads;

/// Runs a worker for each pass, at most 16, each in a thread of its own where one can be made, and each for so many
/// turns, at most 2^57: a turn takes the number of a branch from a queue, calls for a step of that branch, and puts the
/// number back; where the queue is empty it calls for a step of branch 0. The gate is told of each call, with the place
/// of its pass, from 0, and the turn, from 0. It may wait for the lock.
///
/// It answers the passes in their order, how many replies told of a step, and how many turns were lost: their call was
/// not recorded.
///
/// # Errors
///
/// `Memory` without memory, before any worker began: the passes come back as they were.
pub fn run_workers<W: Threads + Wait + Sync, G: Gate + Sync>(
    rt: &W,
    alloc: Global,
    shared: &Shared,
    passes: Vec<Pass>,
    gate: &G,
    turns: u64,
) -> Result<(Vec<Pass>, u64, u64), (Vec<Pass>, Fault)>
    requires passes { ArePassesOf shared.now passes.items }
    requires few { length passes.items ≤ 16 }
    requires turns { turns ≤ 2 ^ 57 }
    ensures ran { IfOk result (λ ran.
        WorkersRan (table shared.now) (opening shared.now) asked.Command.Branch
        (branch_count (opening shared.now).machine.checked) turns is_step passes.items ran.0.items ran.1 ran.2) }
    ensures legal { IfOk result (λ ran. AllSawLegal Keeps (opening shared.now) passes.items ran.0.items) }
    ensures refused { IfErr result (λ back. back.0.items ≡ passes.items) }
{
    match shared.run_workers(rt, alloc, passes, gate, turns) {
        Ok(ran) => {
            let Ran {
                passes,
                stepped,
                lost,
            } = ran;
            Ok((passes, stepped, lost))
        }
        Err(back) => Err(back),
    }
}
