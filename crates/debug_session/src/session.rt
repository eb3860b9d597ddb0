ghost use Rattle.std.specs.Prelude.{◌≡◌, IfOk, MatchResult};
ghost use Rattle.locked_object.specs.Passes.{number as number_of};
ghost use Rattle.locked_execution.specs.Calls.{IsPassOf, Answered, opening};
ghost use Rattle.locked_execution.specs.declared.command.Reply.{Reply as Told};
ghost use Rattle.debug_session.specs.ReplyText.{answer_text};
ghost use Rattle.debug_session.specs.Sessions.{PassAnswered, PassNotAnswered};

use crate::{Fault, Line, read_command, write_answer};
use locked_execution::{Command, Pass, Shared};
use sharing_check::Checked;
use std::alloc::{AllocError, Global};
use std::sync::Wait;

/// A session in a thread of its own, on an execution that it shares with others.
#[derive(Drop)]
pub struct Session {
    /// its side of the execution
    pub pass: Pass,
}

impl Session {
    /// The bytes with which the line, without byte 10, is answered, once the execution was called with its command,
    /// for which it may wait. An empty line has none, and nothing is called. `number` counts lines from 1 and is what
    /// a fault names.
    ///
    /// A line that `read_command` refuses, and a line `session`, `view` or `trace`, is `BadCommand`, and nothing is
    /// called. It is `Memory` if there is no memory to read a step, or none for the bytes: then the call was made,
    /// and may be recorded.
    pub fn answer<W: Wait>(
        &mut self,
        rt: &W,
        alloc: Global,
        shared: &Shared,
        checked: &Checked,
        line: &[u8],
        number: u64,
    ) -> Result<Vec<u8>, Fault>
        requires { IsPassOf shared.now self.old.pass }
        ensures pass { IsPassOf shared.now self.new.pass × (number_of self.new.pass ≡ number_of self.old.pass) }
        ensures answered { MatchResult result
            (λ bytes. PassAnswered checked.now (opening shared.now) self.old.pass line.now bytes.items self.new.pass)
            (λ fault.
            PassNotAnswered checked.now (opening shared.now) self.old.pass line.now number fault self.new.pass) }
    {
        match read_command(alloc, checked, line, number)? {
            Line::Asked(command) => Ok(self.ask(rt, alloc, shared, checked, &command)?),
            Line::Empty => Ok(Vec::new(alloc)),
            Line::Session(_) | Line::View | Line::Trace => Err(Fault::BadCommand(number)),
        }
    }

    /// What is answered to a command, once the execution was called.
    fn ask<W: Wait>(
        &mut self,
        rt: &W,
        alloc: Global,
        shared: &Shared,
        checked: &Checked,
        command: &Command,
    ) -> Result<Vec<u8>, AllocError>
        requires { IsPassOf shared.now self.old.pass }
        ensures pass { IsPassOf shared.now self.new.pass × (number_of self.new.pass ≡ number_of self.old.pass) }
        ensures told { (reply : Told) × Answered (opening shared.now) self.old.pass command.now reply self.new.pass
            × IfOk result (λ bytes. bytes.items ≡ answer_text checked.now command.now reply) }
    {
        let reply = shared.call(rt, &mut self.pass, command);
        write_answer(alloc, checked, command, &reply)
    }
}
