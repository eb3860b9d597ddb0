// Runs in which the branches step in turn.
ghost use Rattle.std.specs.Prelude.{◌≡◌, ◌≤◌, IfOk};
ghost use Rattle.system_places.specs.SystemBranches.{branch_count as count_of};
ghost use Rattle.idle_branches.specs.Idle.{AreEnds};
ghost use Rattle.locked_execution.specs.declared.command.Command.{Command as CommandAt};
ghost use Rattle.shell_desk.specs.AtBench.{AtBench};
ghost use Rattle.shell_desk.specs.Does.{Asked, OneTurn, Runs, RunsFrom, RunsPast, end_of, ended_at, ends_run, first_of};
ghost use Rattle.shell_desk.specs.Does.{held_at, held_of, is_busy, next_of};
ghost use Rattle.shell_desk.specs.internal.Sleeping.{AsksBetween, Resting, SleepsBehind};

use crate::sleepers::Sleepers;
use crate::{Bench, End, Watch};
use idle_branches::{Ends, stays_idle};
use locked_execution::{Command, Reply};
use machine::Breaks;
use std::alloc::AllocError;
use system_places::branch_count;

/// For so few steps the ends of the branches are not looked at.
const FEW_STEPS: u64 = 4;

impl Bench {
    /// Takes so many steps at most, each the first that the branches have in turn. Where the last run ended at a
    /// breakpoint that the session still has, and no step was taken or taken back since, it goes on past that.
    pub(crate) fn run_on<W: Watch>(&mut self, limit: u64, watch: &mut W) -> End
        ensures { (m : AtBench) × RunsFrom (held_of self.old) self.old limit result m × (self.new ≡ ended_at result m) }
    {
        let end = self.run_from(limit, watch);
        self.stop_at(end);
        end
    }

    /// The same, but for keeping in mind where it ended.
    fn run_from<W: Watch>(&mut self, limit: u64, watch: &mut W) -> End
        ensures { RunsFrom (held_of self.old) self.old limit result self.new }
    {
        match self.held() {
            Some(line) => self.run_past(line, limit, watch),
            None => self.run(limit, watch),
        }
    }

    /// Keeps in mind at which breakpoint a run ended, if at one.
    fn stop_at(&mut self, end: End)
        ensures { self.new ≡ ended_at end self.old }
    {
        if let End::AtBreak(line) = end {
            self.stopped = Some(line);
        }
    }

    /// The line of the breakpoint at which the last run ended, where the session still has it.
    fn held(&self) -> Option<u64>
        ensures { result ≡ held_of self.now }
    {
        held_at(self.stopped, self.desk.breaks(self.session))
    }

    /// Takes so many steps at most, the first of them without the breakpoint on this line, which is set again behind
    /// it.
    fn run_past<W: Watch>(&mut self, line: u64, limit: u64, watch: &mut W) -> End
        ensures { RunsPast line self.old limit result self.new }
    {
        if limit == 0 {
            return End::Enough;
        }
        let _cleared = self.ask(&Command::Clear(line), watch);
        let reply = self.turn(watch);
        let _set = self.ask(&Command::Break(line), watch);
        if ends_run(&reply) {
            return end_of(&reply);
        }
        self.run(limit - 1, watch)
    }

    /// Takes so many steps at most, each the first that the branches have in turn. Where they are more than a few, those
    /// are passed over that can have none.
    fn run<W: Watch>(&mut self, limit: u64, watch: &mut W) -> End
        ensures { Runs self.old limit result self.new }
    {
        if limit <= FEW_STEPS {
            return self.run_all(limit, watch);
        }
        match self.ends() {
            Ok(ends) => self.run_awake(limit, &ends, watch),
            Err(_) => self.run_all(limit, watch),
        }
    }

    /// The ends of the system's branches. It is an error if there is no memory.
    fn ends(&self) -> Result<Ends, AllocError>
        ensures { IfOk result (λ ends. AreEnds self.now.desk.machine.checked ends) }
    {
        Ends::of(*self.numbered.allocator(), self.desk.machine().checked())
    }

    /// The same, where each branch is asked in turn.
    fn run_all<W: Watch>(&mut self, limit: u64, watch: &mut W) -> End
        ensures { Runs self.old limit result self.new }
    {
        for taken in 0..limit {
            let reply = self.turn(watch);
            if ends_run(&reply) {
                return end_of(&reply);
            }
        }
        End::Enough
    }

    /// The same, where a branch that has no step sleeps until one of another may bring it one.
    fn run_awake<W: Watch>(&mut self, limit: u64, ends: &Ends, watch: &mut W) -> End
        requires { AreEnds self.old.desk.machine.checked ends.now }
        ensures { Runs self.old limit result self.new }
    {
        let mut sleepers = Sleepers::none(*self.numbered.allocator(), self.branch_count());
        for taken in 0..limit {
            let reply = self.awake_turn(ends, &mut sleepers, watch);
            if ends_run(&reply) {
                return end_of(&reply);
            }
        }
        End::Enough
    }

    /// Asks the branches that are awake in turn for a step, up to the first that is not idle.
    fn awake_turn<W: Watch>(&mut self, ends: &Ends, sleepers: &mut Sleepers, watch: &mut W) -> Reply
        requires { Resting ends.now self.old sleepers.old.asleep }
        ensures turn { OneTurn self.old result self.new }
        ensures resting { Resting ends.now self.new sleepers.new.asleep }
    {
        stays_idle();
        self.is_sound();
        let count = self.branch_count();
        let start = self.first(count);
        if let Some(reply) = self.ask_awake(ends, sleepers, start, count, watch) {
            return reply;
        }
        if let Some(reply) = self.ask_awake(ends, sleepers, 0, start, watch) {
            return reply;
        }
        Reply::Idle
    }

    /// Asks the branches from one up to another that are awake for a step, up to the first that is not idle.
    fn ask_awake<W: Watch>(
        &mut self,
        ends: &Ends,
        sleepers: &mut Sleepers,
        from: u32,
        to: u32,
        watch: &mut W,
    ) -> Option<Reply>
        requires { from ≤ to }
        ensures { AsksBetween ends.now from to self.old sleepers.old.asleep
            result self.new sleepers.new.asleep }
    {
        let mut branch = from;
        while let Some(next) = sleepers.first_awake(branch, to) {
            let reply = self.ask_noted(ends, sleepers, next, watch);
            if is_busy(&reply) {
                return Some(reply);
            }
            branch = next + 1;
        }
        None
    }

    /// Asks the branch for a step, and keeps in mind who sleeps behind it.
    fn ask_noted<W: Watch>(
        &mut self,
        ends: &Ends,
        sleepers: &mut Sleepers,
        branch: u32,
        watch: &mut W,
    ) -> Reply
        ensures asked { Asked self.old (CommandAt.Branch branch) result self.new }
        ensures sleep { SleepsBehind ends.now self.new.desk.machine branch result
            sleepers.old.asleep sleepers.new.asleep }
    {
        let reply = self.ask(&Command::Branch(branch), watch);
        sleepers.note(self.desk.machine(), ends, branch, &reply);
        reply
    }

    /// Asks the branches in turn for a step, up to the first that is not idle.
    fn turn<W: Watch>(&mut self, watch: &mut W) -> Reply
        ensures { OneTurn self.old result self.new }
    {
        let count = self.branch_count();
        let mut branch = self.first(count);
        for passed in 0..count {
            let reply = self.ask(&Command::Branch(branch), watch);
            if is_busy(&reply) {
                return reply;
            }
            branch = next_of(count, branch);
        }
        Reply::Idle
    }

    /// How many branches the system has.
    fn branch_count(&self) -> u32
        ensures { result ≡ count_of self.now.desk.machine.checked }
    {
        branch_count(self.desk.machine().checked().system())
    }

    /// The branch whose turn it is, of so many.
    fn first(&self, count: u32) -> u32
        ensures first { result ≡ first_of count self.now.turn }
        ensures range { result ≤ count }
    {
        first_of(count, self.turn)
    }
}

/// The line, where it has a breakpoint.
fn held_at(stopped: Option<u64>, breaks: &Breaks) -> Option<u64>
    ensures { result ≡ held_at stopped breaks.now }
{
    match stopped {
        Some(line) => { if breaks.has(line) { Some(line) } else { None } }
        None => None,
    }
}

/// The branch whose turn it is where this one acted last.
fn first_of(count: u32, last: Option<u32>) -> u32
    ensures first { result ≡ first_of count last }
    ensures range { result ≤ count }
{
    match last {
        Some(branch) => next_of(count, branch),
        None => 0,
    }
}

/// The branch behind this one, and behind the last the first.
fn next_of(count: u32, branch: u32) -> u32
    ensures next { result ≡ next_of count branch }
    ensures range { result ≤ count }
{
    if branch < count && count - branch > 1 {
        branch + 1
    } else {
        0
    }
}

/// Whether the reply to a step of a branch tells of something else than that it has none.
fn is_busy(reply: &Reply) -> bool
    ensures { result ≡ is_busy reply.now }
{
    match reply {
        Reply::Idle => false,
        _ => true,
    }
}

/// Whether the reply ends a run: it tells of no step.
fn ends_run(reply: &Reply) -> bool
    ensures { result ≡ ends_run reply.now }
{
    match reply {
        Reply::Stepped(_, _) => false,
        _ => true,
    }
}

/// Why a run ends at a reply that tells of no step.
fn end_of(reply: &Reply) -> End
    ensures { result ≡ end_of reply.now }
{
    match reply {
        Reply::Stopped(line) => End::AtBreak(*line),
        Reply::Refused(why) => End::Refused(*why),
        _ => End::Idle,
    }
}
