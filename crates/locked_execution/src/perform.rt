// One command of a session.
ghost use Rattle.std.specs.Prelude.{◌≡◌, ◌<◌, [], slice_index_or};
ghost use Rattle.machine.specs.Branching.{AnswersBranch};
ghost use Rattle.machine.specs.Results as results;
ghost use Rattle.machine.specs.declared.branch.BranchReply.{BranchReply};
ghost use Rattle.locked_execution.specs.Performs as performs;
ghost use Rattle.locked_execution.specs.Performs.{Answers};

use crate::{Command, Desk, Reply};
use machine::{BranchReply, Breaks, Machine, Ticket};
use rollback::{blame, consequences, roll, roll_value};
use runs::{Event, Refusal};
use syntax::Items;
use value::Value;

impl Desk {
    /// Answers the command of a session, 0 to 15. Where there is no memory for it, it is refused and nothing changes.
    pub fn perform(&mut self, session: u32, command: &Command) -> Reply
        requires { session < 16 }
        ensures answers { Answers self.old session command.now result self.new }
        ensures system { self.new.machine.checked ≡ self.old.machine.checked }
    {
        match command {
            Command::Step(choice) => step_reply(self.machine.step(choice)),
            Command::Undo(ticket) => undo_reply(*ticket, self.machine.undo(*ticket)),
            Command::Roll(ticket) => roll_reply(roll(&mut self.machine, *ticket)),
            Command::RollValue(variable) => roll_reply(roll_value(&mut self.machine, *variable)),
            Command::Blame(variable) => blame_reply(blame(&self.machine, *variable)),
            Command::Ready => ready_reply(self.machine.ready()),
            Command::Consequences(ticket) => {
                consequences_reply(consequences(&self.machine, *ticket))
            }
            Command::Live => live_reply(self.machine.live()),
            Command::Value(variable) => value_reply(self.machine.value(*variable)),
            Command::Branch(branch) => self.step_branch(session, *branch),
            Command::Break(line) => self.set_break(session, *line),
            Command::Clear(line) => self.clear_break(session, *line),
        }
    }

    /// Steps the branch up to the breakpoints of the session.
    fn step_branch(&mut self, session: u32, branch: u32) -> Reply
        requires { session < 16 }
        ensures answers { Answers self.old session (Command.Branch branch) result self.new }
        ensures system { self.new.machine.checked ≡ self.old.machine.checked }
    {
        step_past(&mut self.machine, &self.sessions, session, branch)
    }

    /// Sets a breakpoint of the session on the line.
    fn set_break(&mut self, session: u32, line: u64) -> Reply
        requires { session < 16 }
        ensures { performs.SetsBreak self.old session line result self.new }
    {
        if !self.machine.checked().begins(line) {
            return Reply::Refused(Refusal::NoSuchLine);
        }
        let breaks = &mut self.sessions[session as usize];
        let set = breaks.set(line);
        breaks.are_few();
        match set {
            Ok(()) => Reply::Done,
            Err(why) => Reply::Refused(why),
        }
    }

    /// Clears the breakpoint of the session on the line.
    fn clear_break(&mut self, session: u32, line: u64) -> Reply
        requires { session < 16 }
        ensures { performs.ClearsBreak self.old session line result self.new }
    {
        let breaks = &mut self.sessions[session as usize];
        breaks.clear(line);
        breaks.are_few();
        Reply::Done
    }
}

/// Steps the branch up to the breakpoints of this session.
fn step_past(machine: &mut Machine, sessions: &[Breaks; 16], session: u32, branch: u32) -> Reply
    requires { session < 16 }
    ensures answers { (answer : BranchReply) × (result ≡ performs.branch_reply answer)
        × AnswersBranch machine.old branch (slice_index_or sessions.now session []) answer machine.new }
    ensures system { machine.new.checked ≡ machine.old.checked }
    ensures marked { machine.new.marked ≡ machine.old.marked }
{
    branch_reply(machine.branch_step(branch, &sessions[session as usize]))
}

/// What a session is told of a step.
fn step_reply(told: Result<(Ticket, Event), Refusal>) -> Reply
    ensures { result ≡ performs.session_reply (results.step_reply told) }
{
    match told {
        Ok((ticket, event)) => Reply::Stepped(ticket, event),
        Err(why) => Reply::Refused(why),
    }
}

/// What a session is told of the undo of this ticket.
fn undo_reply(ticket: Ticket, told: Result<Event, Refusal>) -> Reply
    ensures { result ≡ performs.session_reply (results.undo_reply ticket told) }
{
    match told {
        Ok(event) => Reply::Undone(ticket, event),
        Err(why) => Reply::Refused(why),
    }
}

/// What a session is told of a rollback.
fn roll_reply(told: Result<u64, Refusal>) -> Reply
    ensures { result ≡ performs.session_reply (results.roll_reply told) }
{
    match told {
        Ok(count) => Reply::Rolled(count),
        Err(why) => Reply::Refused(why),
    }
}

/// What a session is told of the last writer of a variable.
fn blame_reply(told: Result<Ticket, Refusal>) -> Reply
    ensures { result ≡ performs.session_reply (results.blame_reply told) }
{
    match told {
        Ok(ticket) => Reply::Blamed(ticket),
        Err(why) => Reply::Refused(why),
    }
}

/// What a session is told of the events that may be taken.
fn ready_reply(told: Result<Vec<Event>, Refusal>) -> Reply
    ensures { result ≡ performs.session_reply (results.ready_reply told) }
{
    match told {
        Ok(events) => Reply::Ready(Items::from_vec(events)),
        Err(why) => Reply::Refused(why),
    }
}

/// What a session is told of what depends on an event.
fn consequences_reply(told: Result<Vec<Ticket>, Refusal>) -> Reply
    ensures { result ≡ performs.session_reply (results.consequences_reply told) }
{
    match told {
        Ok(tickets) => Reply::Consequences(Items::from_vec(tickets)),
        Err(why) => Reply::Refused(why),
    }
}

/// What a session is told of the live events.
fn live_reply(told: Result<Vec<(Ticket, Event)>, Refusal>) -> Reply
    ensures { result ≡ performs.session_reply (results.live_reply told) }
{
    match told {
        Ok(entries) => Reply::Live(Items::from_vec(entries)),
        Err(why) => Reply::Refused(why),
    }
}

/// What a session is told of the value of a variable, where there is such a variable.
fn value_reply(told: Option<Value>) -> Reply
    ensures { result ≡ performs.session_reply (results.value_reply told) }
{
    match told {
        Some(value) => Reply::Value(value),
        None => Reply::Refused(Refusal::NeverWritten),
    }
}

/// What a session is told of a step in a branch.
fn branch_reply(reply: BranchReply) -> Reply
    ensures { result ≡ performs.branch_reply reply }
{
    match reply {
        BranchReply::Stepped(ticket, event) => Reply::Stepped(ticket, event),
        BranchReply::Stopped(line) => Reply::Stopped(line),
        BranchReply::Idle => Reply::Idle,
        BranchReply::Refused(why) => Reply::Refused(why),
    }
}
