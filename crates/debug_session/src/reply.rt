ghost use Rattle.std.specs.Prelude.{◌≡◌, ◌++◌, OnOk, IfOk};
ghost use Rattle.line_text.specs.FieldText.{shown};
ghost use Rattle.debug_session.specs.ReplyText.{asked_variable, answer_text, line_answer, session_text};

use crate::Line;
use line_text::{
    Field, add_bytes, add_consequences, add_entry, add_live, add_numbered, add_ready, add_refusal,
    add_valued, variable_field,
};
use locked_execution::{Command, Reply};
use sharing_check::Checked;
use std::alloc::{AllocError, Global};
use system::System;

/// The bytes with which the line is answered where this is the reply to its command: each line with byte 10 at its end.
/// A line that asks for no command has no reply, and no bytes. Variables and channels that the description has not are
/// written as `?`.
///
/// # Errors
///
/// `AllocError` without memory.
pub fn write_reply(
    alloc: Global,
    checked: &Checked,
    line: &Line,
    reply: &Reply,
) -> Result<Vec<u8>, AllocError>
    ensures { IfOk result (λ text. text.items ≡ line_answer checked.now line.now reply.now) }
{
    match line {
        Line::Asked(command) => write_answer(alloc, checked, command, reply),
        Line::Session(_) | Line::View | Line::Trace | Line::Empty => Ok(Vec::new(alloc)),
    }
}

/// The bytes with which the command is answered where this is the reply to it: each line with byte 10 at its end.
/// Variables and channels that the description has not are written as `?`.
///
/// # Errors
///
/// `AllocError` without memory.
pub fn write_answer(
    alloc: Global,
    checked: &Checked,
    command: &Command,
    reply: &Reply,
) -> Result<Vec<u8>, AllocError>
    ensures { IfOk result (λ text. text.items ≡ answer_text checked.now command.now reply.now) }
{
    let mut out = Vec::new(alloc);
    add_answer(&mut out, checked.system(), command, reply)?;
    Ok(out)
}

/// The bytes with which a line is answered that names the session whose lines follow. It is an error if there is no
/// memory.
pub fn write_session(alloc: Global, session: u32) -> Result<Vec<u8>, AllocError>
    ensures { IfOk result (λ text. text.items ≡ session_text session) }
{
    let mut out = Vec::new(alloc);
    add_numbered(&mut out, b"session", u64::from(session))?;
    Ok(out)
}

/// Adds the answer to the command behind what is there.
pub(crate) fn add_answer(
    out: &mut Vec<u8>,
    system: &System,
    command: &Command,
    reply: &Reply,
) -> Result<(), AllocError>
    ensures { OnOk result (out.new.items ≡ out.old.items ++ answer_text system.now command.now reply.now) }
{
    match reply {
        Reply::Stepped(ticket, event) => add_entry(out, b"step", system, *ticket, event),
        Reply::Undone(ticket, event) => add_entry(out, b"undone", system, *ticket, event),
        Reply::Rolled(count) => add_numbered(out, b"rolled", *count),
        Reply::Blamed(ticket) => add_numbered(out, b"blame", *ticket),
        Reply::Ready(events) => add_ready(out, system, events.as_slice()),
        Reply::Consequences(tickets) => add_consequences(out, tickets.as_slice()),
        Reply::Live(pairs) => add_live(out, system, pairs.as_slice()),
        Reply::Value(value) => add_valued(out, asked_field(system, command), value.bits()),
        Reply::Stopped(line) => add_numbered(out, b"stopped", *line),
        Reply::Idle => add_bytes(out, b"idle\n"),
        Reply::Done => add_bytes(out, b"ok\n"),
        Reply::Refused(why) => add_refusal(out, *why),
    }
}

/// The name of the variable whose value the command asks for.
fn asked_field<'a>(system: &'a System, command: &Command) -> Field<'a>
    ensures { shown result ≡ asked_variable system.now command.now }
{
    match command {
        Command::Value(variable) => variable_field(system, Some(*variable)),
        _ => Field::Word(b"?"),
    }
}
