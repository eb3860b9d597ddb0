// Workers in threads of their own over a system: how many steps they took, and what is live in the end.
ghost use Rattle.std.specs.Prelude.{◌≡◌, ◌≤◌, ◌<◌, ◌⊎◌, length, IfOk, MatchOption};
ghost use Rattle.object_workers.specs.Runs.{PassesFit};
ghost use Rattle.locked_object.specs.Keepers.{IsKeeperOf, history, passes_made};
ghost use Rattle.locked_execution.specs.Sharing.{Keeps};
ghost use Rattle.locked_execution.specs.Working.{Worked, CountsLive, HasAllOf};

use crate::shared::Kept;
use crate::{Board, Pass, Shared};
use machine::Machine;
use object_workers::Gate;
use sharing_check::Checked;
use std::alloc::{AllocError, Global};
use std::sync::Wait;
use std::thread::Threads;

/// The most workers of a crew.
pub const MOST_WORKERS: u32 = 16;

/// The most turns of each.
pub const MOST_TURNS: u32 = 1_000_000;

/// How many workers there are, 0 to 16, and how many turns each takes, 0 to 1,000,000.
#[derive(Clone, Copy)]
pub struct Crew {
    pub workers: u32,
    pub turns: u64,
    pub ghost few: { workers ≤ 16 },
    pub ghost short: { turns ≤ 1000000 },
}

/// What a crew has done.
#[derive(Clone, Copy)]
pub struct Tally {
    /// how many of its turns were steps
    pub stepped: u64,
    /// how many events are live in the end
    pub live: u64,
}

/// A gate that holds nobody.
struct Open;

impl Gate for Open {
    fn before(&self, _worker: u32, _turn: u64) {}

    fn after(&self, _worker: u32, _turn: u64) {}
}

impl Crew {
    /// So many workers and turns; `None` where there are more than a crew may have.
    pub fn new(workers: u32, turns: u64) -> Option<Crew>
        ensures { MatchOption result ((16 < workers)
            ⊎ (1000000 < turns)) (λ crew. (crew.workers ≡ workers) × (crew.turns ≡ turns)) }
    {
        if workers <= MOST_WORKERS && turns <= u64::from(MOST_TURNS) {
            Some(Crew { workers, turns })
        } else {
            None
        }
    }

    /// Steps a new execution of the system: each worker has a pass of its own, and a turn steps a branch. It may wait
    /// for the lock. Refused for want of memory alone.
    pub fn work<W: Threads + Wait + Sync>(
        self,
        rt: &W,
        alloc: Global,
        checked: Checked,
    ) -> Result<Tally, AllocError>
        ensures { IfOk result (λ tally. Worked checked self.workers self.turns tally.stepped tally.live) }
    {
        let machine = Machine::new(alloc, checked)?;
        let (execution, passes) = Shared::new(alloc, machine, self.workers)?;
        match execution.run_workers(rt, alloc, passes, &Open, self.turns) {
            Ok(ran) => {
                let (board, keeper) = execution.object.close(rt);
                Ok(Tally {
                    stepped: ran.stepped,
                    live: live_behind(&board, keeper, ran.passes),
                })
            }
            Err(_) => Err(AllocError),
        }
    }
}

/// How many events are live on the desk behind the calls of these passes, which are all there are.
fn live_behind(board: &Board, mut keeper: Kept, passes: Vec<Pass>) -> u64
    requires keeper { IsKeeperOf Keeps board.now.table.shared.table_id board.now.table.shared.key keeper }
    requires count { passes_made keeper ≡ length passes.items }
    requires passes { PassesFit board.now.table.shared.table_id board.now.table.shared.key passes.items }
    ensures { CountsLive board.now.table.shared.key passes.items result }
{
    show_all(board, &mut keeper, passes);
    let machine = keeper.into_object().into_machine();
    machine.live_events().len() as u64
}

/// Shows the recorded history to the passes: it has all their calls.
fn show_all(board: &Board, keeper: &mut Kept, passes: Vec<Pass>)
    requires keeper { IsKeeperOf Keeps board.now.table.shared.table_id board.now.table.shared.key keeper.old }
    requires passes { PassesFit board.now.table.shared.table_id board.now.table.shared.key passes.items }
    ensures keeper { IsKeeperOf Keeps board.now.table.shared.table_id board.now.table.shared.key keeper.new }
    ensures count { passes_made keeper.new ≡ passes_made keeper.old }
    ensures all { HasAllOf (history keeper.new) passes.items }
{
    for mut pass in passes {
        keeper.show(board, &mut pass);
    }
}
