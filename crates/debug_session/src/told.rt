//! The answer to a line. That its command was refused for want of memory is told without any.
ghost use Rattle.std.specs.Prelude.{◌≡◌, ◌≢◌, ◌++◌, codes, OnOk, OnErr};
ghost use Rattle.runs.specs.declared.command.Refusal.{Refusal as Why};
ghost use Rattle.locked_execution.specs.declared.command.Reply.{Reply as Told};
ghost use Rattle.line_text.specs.AnswerText.{refusal_text};
ghost use Rattle.debug_session.specs.ReplyText.{answer_text, ending};

use crate::reply::add_answer;
use line_text::add_refusal;
use locked_execution::{Command, Reply};
use runs::Refusal;
use std::alloc::{AllocError, Global};
use system::System;

/// The most bytes of memory that an answer leaves to the next.
const MOST_KEPT: usize = 65_536;

/// The answer to a line.
#[derive(Drop)]
pub(crate) struct Answer {
    /// its bytes, unless there was no memory for the command
    pub(crate) text: Vec<u8>,
    /// whether there was none: then its bytes are a constant
    pub(crate) is_without_memory: bool,
}

impl Answer {
    ghost use Rattle.debug_session.specs.internal.Telling.{told_text, IsBlank};

    /// No bytes.
    pub(crate) fn new(alloc: Global) -> Answer
        ensures { IsBlank result }
    {
        Answer {
            text: Vec::new(alloc),
            is_without_memory: false,
        }
    }

    /// Its bytes.
    pub(crate) fn as_slice(&self) -> &[u8]
        ensures { result.now ≡ told_text self.now }
    {
        if self.is_without_memory {
            b"refused 1\n"
        } else {
            self.text.as_slice()
        }
    }

    /// Takes all bytes away. Their memory is kept for the next answer, unless this was a long one.
    pub(crate) fn make_empty(&mut self, alloc: Global)
        ensures { IsBlank self.new }
    {
        self.is_without_memory = false;
        if self.text.capacity() > MOST_KEPT {
            self.text = Vec::new(alloc);
        } else {
            self.text.clear();
        }
    }

    /// Makes it the answer to the command where this is the reply. A command that was refused for want of memory is
    /// answered without any.
    pub(crate) fn tell(
        &mut self,
        system: &System,
        command: &Command,
        reply: &Reply,
    ) -> Result<(), AllocError>
        requires { IsBlank self.old }
        ensures told { OnOk result (told_text self.new ≡ answer_text system.now command.now reply.now) }
        ensures memory { OnErr result (reply.now ≢ Told.Refused Why.Memory) }
    {
        match reply {
            Reply::Refused(why) => self.refuse(*why),
            _ => add_answer(&mut self.text, system, command, reply),
        }
    }

    /// Makes it the answer to a command that was refused for this.
    fn refuse(&mut self, why: Refusal) -> Result<(), AllocError>
        requires { IsBlank self.old }
        ensures told { OnOk result (told_text self.new ≡ codes "refused" ++ refusal_text why ++ ending) }
        ensures memory { OnErr result (why ≢ Why.Memory) }
    {
        match why {
            Refusal::Memory => {
                self.is_without_memory = true;
                Ok(())
            }
            _ => add_refusal(&mut self.text, why),
        }
    }
}
