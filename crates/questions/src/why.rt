ghost use Rattle.std.specs.Prelude.{◌≡◌, ◌++◌, IfOk, MatchResult, OnOk, length};
ghost use Rattle.trace_file.specs.Loading.{IsRefused};
ghost use Rattle.questions.specs.Asking.{IsAnswered};
ghost use Rattle.questions.specs.WhyText as model;

use crate::reason::{Reason, reason_of};
use crate::unknown_name::unknown_text;
use machine::Machine;
use past::{Past, write_past};
use runs::Refusal;
use sharing_check::Checked;
use std::alloc::{AllocError, Global};
use text_parts::{Piece, add_pieces, add_words};
use trace_file::{Fault, load_text};
use value::Value;

/// What is answered to the question why.
#[derive(Drop)]
pub enum Why {
    /// These lines tell it.
    Told(Vec<u8>),
    /// It cannot be told, for this reason, of which these lines tell.
    Refused(Refusal, Vec<u8>),
}

/// Why a variable has its value behind the trace, or why a step of the trace could be taken: `subject` is the name of
/// the variable, or the ticket of the step. The steps that carried a value are told and the one that is asked for, or
/// `all`. It is refused as `blame` is where no step wrote the variable, or there is no such variable, and as `undo` is
/// where no step has the ticket.
///
/// It is an error if the text is no trace of the system, or if there is no memory; the fault says which.
pub fn why_text(
    alloc: Global,
    checked: Checked,
    trace: &[u8],
    subject: &str,
    all: bool,
) -> Result<Why, Fault>
    ensures answered { MatchResult result (IsAnswered checked trace.now subject.now) (λ fault.
        IsRefused checked trace.now fault) }
    ensures text { IfOk result (model.IsWhyText checked trace.now subject.now all) }
{
    let machine = load_text(alloc, checked, trace)?;
    let reason = reason_of(alloc, &machine, subject, all)?;
    Ok(answer(alloc, &machine, subject, &reason)?)
}

/// The reason in words.
fn answer(
    alloc: Global,
    machine: &Machine,
    subject: &str,
    reason: &Reason,
) -> Result<Why, AllocError>
    ensures { IfOk result (model.TellsIn machine.now subject.now reason.now) }
{
    match reason {
        Reason::Value(variable, past) => {
            Ok(Why::Told(value_text(alloc, machine, subject, *variable, past)?))
        }
        Reason::Step(ticket, past) => Ok(Why::Told(step_text(alloc, machine, *ticket, past)?)),
        Reason::Unwritten => Ok(Why::Refused(
            Refusal::NeverWritten,
            unwritten_text(alloc, subject)?,
        )),
        Reason::Missing => Ok(Why::Refused(
            Refusal::NoSuchEvent,
            missing_text(alloc, subject, machine.live_events().len())?,
        )),
        Reason::Unknown => Ok(Why::Refused(
            Refusal::NeverWritten,
            unknown_text(alloc, machine.checked().system(), subject)?,
        )),
    }
}

/// The value of the variable, and the steps that led to it.
fn value_text(
    alloc: Global,
    machine: &Machine,
    name: &str,
    variable: u32,
    past: &Past,
) -> Result<Vec<u8>, AllocError>
    ensures { IfOk result (λ text. model.IsValueText machine.now name.now variable past.now text.items) }
{
    let mut text = value_line(alloc, machine, name, variable)?;
    write_past(
        alloc,
        &mut text,
        machine.checked(),
        machine.live_events(),
        past,
    )?;
    Ok(text)
}

/// The value of the variable, and the step that wrote it.
fn value_line(
    alloc: Global,
    machine: &Machine,
    name: &str,
    variable: u32,
) -> Result<Vec<u8>, AllocError>
    ensures { IfOk result (λ text. model.IsValueLine machine.now name.now variable text.items) }
{
    let value = machine.value(variable);
    let writer = machine.live_events().last_writer(variable);
    let mut text = Vec::new(alloc);
    write_value_line(&mut text, name, value, writer)?;
    Ok(text)
}

/// Adds a name, the value, and the step that wrote it.
fn write_value_line(
    out: &mut Vec<u8>,
    name: &str,
    value: Option<Value>,
    writer: Option<u64>,
) -> Result<(), AllocError>
    ensures { OnOk result (out.new.items ≡ out.old.items ++ model.value_line name.now value writer) }
{
    add_words(out, name.as_bytes())?;
    write_is(out, value)?;
    write_written(out, writer)?;
    add_words(out, b"\n")
}

/// Adds the value, if there is one.
fn write_is(out: &mut Vec<u8>, value: Option<Value>) -> Result<(), AllocError>
    ensures { OnOk result (out.new.items ≡ out.old.items ++ model.is_text value) }
{
    match value {
        Some(value) => add_pieces(out, &[Piece::Words(b" is "), Piece::Number(value.bits())]),
        None => Ok(()),
    }
}

/// Adds the step that wrote it, if one did.
fn write_written(out: &mut Vec<u8>, writer: Option<u64>) -> Result<(), AllocError>
    ensures { OnOk result (out.new.items ≡ out.old.items ++ model.written_text writer) }
{
    match writer {
        Some(ticket) => add_pieces(
            out,
            &[Piece::Words(b", written by step "), Piece::Number(ticket)],
        ),
        None => Ok(()),
    }
}

/// The step, and those that led to it.
fn step_text(
    alloc: Global,
    machine: &Machine,
    ticket: u64,
    past: &Past,
) -> Result<Vec<u8>, AllocError>
    ensures { IfOk result (λ text. text.items ≡ model.step_text machine.now ticket past.now) }
{
    let mut text = Vec::new(alloc);
    add_pieces(
        &mut text,
        &[
            Piece::Words(b"step "),
            Piece::Number(ticket),
            Piece::Words(b"\n"),
        ],
    )?;
    write_past(
        alloc,
        &mut text,
        machine.checked(),
        machine.live_events(),
        past,
    )?;
    Ok(text)
}

/// What is said of a variable that no step wrote.
fn unwritten_text(alloc: Global, name: &str) -> Result<Vec<u8>, AllocError>
    ensures { IfOk result (λ text. text.items ≡ model.unwritten_text name.now) }
{
    let mut text = Vec::new(alloc);
    add_pieces(
        &mut text,
        &[
            Piece::Words(b"no step of the trace wrote `"),
            Piece::Words(name.as_bytes()),
            Piece::Words(b"`, so it is 0\n"),
        ],
    )?;
    Ok(text)
}

/// What is said of a step that a trace of so many steps does not have.
fn missing_text(alloc: Global, subject: &str, count: usize) -> Result<Vec<u8>, AllocError>
    ensures { IfOk result (λ text. text.items ≡ model.missing_text subject.now count) }
{
    let mut text = Vec::new(alloc);
    add_pieces(
        &mut text,
        &[
            Piece::Words(b"the trace has no step "),
            Piece::Words(subject.as_bytes()),
            Piece::Words(b": it has "),
            Piece::Number(count as u64),
            Piece::Words(steps_word(count)),
            Piece::Words(b"\n"),
        ],
    )?;
    Ok(text)
}

/// The word behind a number of steps.
fn steps_word(count: usize) -> &'static [u8]
    ensures { result.now ≡ model.steps_word count }
{
    if count == 1 { b" step" } else { b" steps" }
}
