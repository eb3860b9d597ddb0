// The calls of several designers, who may be in threads of their own.
ghost use Rattle.std.specs.Prelude.{◌≡◌, ◌≤◌, ◌<◌, ◌^◌, length, IfOk, IfErr};
ghost use mathlib.Core.List.{IsPrefix};
ghost use Rattle.machine.specs.Headline.{Headline};
ghost use Rattle.recorded_calls.specs.History.{NoCallsFrom};
ghost use Rattle.object_workers.specs.Runs.{WorkersRan, AllSawLegal};
ghost use Rattle.locked_object.specs.Passes.{number, seen_history, own, told_history};
ghost use Rattle.locked_object.specs.Sharing.{NewPasses};
ghost use Rattle.locked_execution.specs.AtDesk.{execution, new_desk};
ghost use Rattle.locked_execution.specs.Sharing.{Keeps, Legal, is_step};
ghost use Rattle.locked_execution.specs.Calls.{IsPassOf, ArePassesOf, Answered, Leaves, opening, table, passes_of};
ghost use Rattle.locked_execution.specs.declared.command.Command as any;
ghost use Rattle.system_places.specs.SystemBranches.{branch_count};

use crate::{Command, Desk, Fault, Pass, Reply, Shared};
use locked_object::NotRecorded;
use machine::Machine;
use object_workers::{Gate, Ran, run_workers};
use runs::Refusal;
use std::alloc::Global;
use std::sync::Wait;
use std::thread::Threads;

impl Shared {
    /// The execution under a lock, without breakpoints, and so many passes, 16 at most, numbered from 0.
    ///
    /// # Errors
    ///
    /// `Memory` without memory; the execution is dropped then.
    pub fn new(alloc: Global, machine: Machine, count: u32) -> Result<(Shared, Vec<Pass>), Fault>
        requires { count ≤ 16 }
        ensures opening { IfOk result (λ made. opening made.0 ≡ new_desk machine) }
        ensures sound { Headline (execution (new_desk machine)) }
        ensures count { IfOk result (λ made. passes_of made.0 ≡ count) }
        ensures passes { IfOk result (λ made. NewPasses (table made.0) (opening made.0) count made.1.items) }
    {
        machine.is_sound();
        let branches = machine.checked().branches();
        let (object, passes) = locked_object::Shared::new(alloc, Desk::new(machine), count)?;
        Ok((Shared { object, branches }, passes))
    }

    /// How many branches the system has. It waits for nobody.
    pub fn branches(&self) -> u32
        ensures { result ≡ branch_count (opening self.now).machine.checked }
    {
        self.branches
    }

    /// Answers the command of a pass under the lock, for which it may wait. Want of memory is not recorded, nor is 26,
    /// where no ticket is left or 2^63 calls are recorded; all else is. Where the call is not recorded the pass is told
    /// the history that says why; if it asks for the `length` next, it has seen at least that.
    pub fn call<W: Wait>(&self, rt: &W, pass: &mut Pass, command: &Command) -> Reply
        requires { IsPassOf self.now pass.old }
        ensures pass { IsPassOf self.now pass.new × (number pass.new ≡ number pass.old) }
        ensures answered { Answered (opening self.now) pass.old command.now result pass.new }
    {
        match self.object.call(rt, pass, command) {
            Ok(reply) => reply,
            Err(NotRecorded::Refused(reply)) => reply,
            Err(NotRecorded::Full) => Reply::Refused(Refusal::Spent),
        }
    }

    /// The number of recorded calls. It waits for nobody and takes no memory. The pass has then seen the history of
    /// that length.
    pub fn length(&self, pass: &mut Pass) -> u64
        requires { IsPassOf self.now pass.old }
        ensures pass { IsPassOf self.now pass.new × (number pass.new ≡ number pass.old)
            × (own pass.new ≡ own pass.old) }
        ensures length { length (seen_history pass.new) ≡ result }
        ensures legal { Legal (opening self.now) (seen_history pass.new) }
        ensures before { IsPrefix (seen_history pass.old) (seen_history pass.new) }
        ensures told { IsPrefix (told_history pass.old) (seen_history pass.new) }
    {
        self.object.length(pass)
    }

    /// Both passes have then seen one history, of the length that is answered. It waits for nobody and takes no memory.
    pub fn meet(&self, one: &mut Pass, other: &mut Pass) -> u64
        requires one { IsPassOf self.now one.old }
        requires other { IsPassOf self.now other.old }
        ensures one { IsPassOf self.now one.new × (number one.new ≡ number one.old) × (own one.new ≡ own one.old) }
        ensures other { IsPassOf self.now other.new × (number other.new ≡ number other.old)
            × (own other.new ≡ own other.old) }
        ensures same { seen_history one.new ≡ seen_history other.new }
        ensures length { length (seen_history one.new) ≡ result }
        ensures legal { Legal (opening self.now) (seen_history one.new) }
        ensures one_before { IsPrefix (seen_history one.old) (seen_history one.new) }
        ensures other_before { IsPrefix (seen_history other.old) (seen_history other.new) }
    {
        self.object.meet(one, other)
    }

    /// Runs a worker for each pass, each in a thread of its own where one can be made, for so many turns: a turn steps
    /// a branch. It tells the passes in their order, how many turns were steps, and how many were lost: their call was
    /// not recorded. Without memory the passes come back as they were.
    pub fn run_workers<W: Threads + Wait + Sync, G: Gate + Sync>(
        &self,
        rt: &W,
        alloc: Global,
        passes: Vec<Pass>,
        gate: &G,
        turns: u64,
    ) -> Result<Ran<Desk, Command, Reply>, (Vec<Pass>, Fault)>
        requires passes { ArePassesOf self.now passes.items }
        requires few { length passes.items ≤ 16 }
        requires turns { turns ≤ 2 ^ 57 }
        ensures ran { IfOk result (λ ran.
            WorkersRan (table self.now) (opening self.now) any.Command.Branch
            (branch_count (opening self.now).machine.checked) turns is_step passes.items ran.passes.items ran.stepped
            ran.lost) }
        ensures legal { IfOk result (λ ran. AllSawLegal Keeps (opening self.now) passes.items ran.passes.items) }
        ensures refused { IfErr result (λ back. back.0.items ≡ passes.items) }
    {
        match run_workers(rt, alloc, &self.object, self.branches, passes, gate, turns) {
            Ok(ran) => Ok(ran),
            Err((passes, _)) => Err((passes, Fault::Memory)),
        }
    }

    /// The execution, once no pass calls it any more. It waits for nobody, so that no clause says which calls are
    /// behind it, but that its state is what its live events give; `finish_seen` says more.
    pub fn finish(self) -> Machine
        ensures sound { Headline (execution (new_desk result)) }
    {
        let machine = self.object.finish().into_machine();
        machine.is_sound();
        machine
    }

    /// The execution, once no pass calls it any more, with its recorded calls behind it, which the pass has then seen:
    /// calls of its passes, and of nobody else. It takes the lock, for which it may wait.
    pub fn finish_seen<W: Wait>(self, rt: &W, pass: &mut Pass) -> Machine
        requires { IsPassOf self pass.old }
        ensures pass { IsPassOf self pass.new × (number pass.new ≡ number pass.old) × (own pass.new ≡ own pass.old) }
        ensures before { IsPrefix (seen_history pass.old) (seen_history pass.new) }
        ensures left { Leaves (opening self) (seen_history pass.new) result }
        ensures no_others { NoCallsFrom (passes_of self) (seen_history pass.new) }
    {
        let (board, mut keeper) = self.object.close(rt);
        keeper.show(&board, pass);
        keeper.into_object().into_machine()
    }
}
