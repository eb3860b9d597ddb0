ghost use Rattle.std.specs.Prelude.{◌≡◌, ◌≢◌, ◌≤◌, [], Err, MatchBool, MatchResult, OnOk, OnErr, IfErr};
ghost use Rattle.debug_session.specs.Counting.{after_reading, after_writing};
ghost use Rattle.debug_session.specs.Lines.{SaysSession};
ghost use Rattle.debug_session.specs.declared.line.Line.{Line};
ghost use Rattle.debug_session.specs.internal.OneLine.{LineStops, EndsByDevice, EndsByNoDevice, EndsHolding};
ghost use Rattle.debug_session.specs.Holding.{EndsWriting};
ghost use Rattle.debug_session.specs.internal.Owing.{EndsOwing, LineDone, LineFails};
ghost use Rattle.debug_session.specs.internal.Telling.{told_text, IsBlank, HasLongReply, SaidUntold, LineUntold};
ghost use Rattle.debug_session.specs.declared.fault.Fault.TheVariants.{WriteFailed};
ghost use Rattle.debug_session.specs.Transcript.{SaidAnswered, LineAnswered, Ends};

use crate::at_hand::{take_answered, take_behind};
use crate::input::ask_line;
use crate::pending::{hold, put_out};
use crate::script_state::ScriptState;
use crate::told::Answer;
use crate::{Fault, Line, read_command};
use devices::{CountedLines, CountedWrite};
use line_text::add_numbered;
use locked_execution::Command;
use std::alloc::{AllocError, Global};

/// Answers each line of the reader. It ends where the reader is at its end, or at the first fault: then the answers of
/// the lines before are out, and where writing failed a beginning of the answers. Before the reader asks its device for
/// more, all answers are out: they are held back only while its buffer has another line. Each line is read into `line`.
pub(crate) fn answer_lines<R: CountedLines, W: CountedWrite>(
    alloc: Global,
    script_state: &mut ScriptState<'_>,
    reader: &mut R,
    writer: &mut W,
    line: &mut Vec<u8>,
) -> Result<(), Fault>
    ensures ends { Ends script_state.old.desk.machine.checked script_state.old
        (R.remaining reader.old) (R.remaining reader.new) (W.contents writer.old) (W.contents writer.new) result }
    ensures held_back { result ≡ Err WriteFailed
        → EndsWriting R.buffered R.asked W.contents W.unsent W.wanted script_state.old.desk.machine.checked
        script_state.old reader.new (R.remaining reader.old) (R.remaining reader.new) writer.old writer.new }
    ensures sent { result ≢ Err WriteFailed → W.unsent writer.new ≤ W.unsent writer.old }
    ensures read_failures { R.failed reader.new ≡ after_reading result (R.failed reader.old) }
    ensures write_failures { W.failed writer.new ≡ after_writing result (W.failed writer.old) }
{
    let mut pending = Vec::new(alloc);
    let ended = hold_answers(alloc, script_state, reader, writer, &mut pending, line);
    if has_failed(&ended) {
        return ended;
    }
    put_out(writer, &mut pending)?;
    ended
}

/// Whether the session ended since a device failed. Then nothing that is pending is to be written.
fn has_failed(ended: &Result<(), Fault>) -> bool
    ensures { MatchBool result (EndsByDevice ended.now) (EndsByNoDevice ended.now) }
{
    matches!(ended, Err(Fault::ReadFailed | Fault::WriteFailed))
}

/// Answers the lines; some of the answers may still be pending at the end.
fn hold_answers<R: CountedLines, W: CountedWrite>(
    alloc: Global,
    script_state: &mut ScriptState<'_>,
    reader: &mut R,
    writer: &mut W,
    pending: &mut Vec<u8>,
    line: &mut Vec<u8>,
) -> Result<(), Fault>
    requires { pending.old.items ≡ [] }
    ensures ends { EndsHolding script_state.old.desk.machine.checked script_state.old
        (R.remaining reader.old) (R.remaining reader.new) (W.contents writer.old) (W.contents writer.new)
        pending.new.items result }
    ensures owes { EndsOwing R.buffered R.asked W.contents W.unsent W.wanted script_state.old.desk.machine.checked
        script_state.old reader.new (R.remaining reader.old) (R.remaining reader.new) writer.old writer.new
        pending.new.items result }
    ensures read_failures { R.failed reader.new ≡ after_reading result (R.failed reader.old) }
    ensures write_failures { W.failed writer.new ≡ after_writing result (W.failed writer.old) }
{
    let mut answer = Answer::new(alloc);
    for number in 1..u64::MAX {
        let is_complete = answer_next(
            alloc,
            script_state,
            reader,
            writer,
            pending,
            line,
            number,
            &mut answer,
        )?;
        if !is_complete {
            return Ok(());
        }
    }
    // No script has so many lines: there is no room for their number.
    Err(Fault::Memory)
}

/// Answers the next line, and tells whether byte 10 was at its end. A line that the buffer has whole is only looked at
/// while its answer is made, and taken behind that: so where writing fails, each line that was taken has an answer.
fn answer_next<R: CountedLines, W: CountedWrite>(
    alloc: Global,
    script_state: &mut ScriptState<'_>,
    reader: &mut R,
    writer: &mut W,
    pending: &mut Vec<u8>,
    line: &mut Vec<u8>,
    number: u64,
    answer: &mut Answer,
) -> Result<bool, Fault>
    ensures checked { script_state.new.desk.machine.checked ≡ script_state.old.desk.machine.checked }
    ensures line { MatchResult result
        (λ complete.
        LineDone R.remaining R.buffered R.asked W.contents W.unsent script_state.old.desk.machine.checked
        script_state.old script_state.new reader.old reader.new writer.old writer.new pending.old.items
        pending.new.items line.new.items complete)
        (λ fault.
        LineFails R.remaining W.contents W.unsent W.wanted script_state.old.desk.machine.checked script_state.old
        reader.old reader.new writer.old writer.new pending.old.items pending.new.items line.new.items number fault) }
    ensures read_failures { R.failed reader.new ≡ after_reading result (R.failed reader.old) }
    ensures write_failures { W.failed writer.new ≡ after_writing result (W.failed writer.old) }
{
    let is_at_hand = reader.look_at_line(line)?;
    if !is_at_hand {
        let is_complete = ask_line(reader, writer, pending, line)?;
        answer_line(alloc, script_state, line.as_slice(), number, answer)?;
        hold(writer, pending, answer.as_slice())?;
        return Ok(is_complete);
    }
    if let Err(fault) = answer_line(alloc, script_state, line.as_slice(), number, answer) {
        take_behind(reader, writer, pending, line.as_slice())?;
        return Err(fault);
    }
    take_answered(reader, writer, pending, line.as_slice(), answer.as_slice())?;
    Ok(true)
}

/// What is answered to one line, without its end, in place of what was there.
fn answer_line(
    alloc: Global,
    script_state: &mut ScriptState<'_>,
    line: &[u8],
    number: u64,
    answer: &mut Answer,
) -> Result<(), Fault>
    ensures checked { script_state.new.desk.machine.checked ≡ script_state.old.desk.machine.checked }
    ensures answered { MatchResult result
        (λ _.
        LineAnswered script_state.old.desk.machine.checked script_state.old line.now (told_text answer.new)
        script_state.new)
        (λ fault. LineStops script_state.old.desk.machine.checked line.now number fault) }
    ensures untold { IfErr result (λ fault.
        LineUntold script_state.old.desk.machine.checked script_state.old line.now fault script_state.new) }
{
    let said = read_command(alloc, script_state.checked(), line, number)?;
    answer.make_empty(alloc);
    answer_to(alloc, script_state, &said, answer)?;
    Ok(())
}

/// What is answered to a line, once the desk has performed its command.
fn answer_to(
    alloc: Global,
    script_state: &mut ScriptState<'_>,
    said: &Line,
    answer: &mut Answer,
) -> Result<(), AllocError>
    requires session { SaysSession said.now }
    requires blank { IsBlank answer.old }
    ensures checked { script_state.new.desk.machine.checked ≡ script_state.old.desk.machine.checked }
    ensures answered { OnOk result
        (SaidAnswered script_state.old.desk.machine.checked script_state.old said.now (told_text answer.new)
        script_state.new) }
    ensures memory { OnErr result (said.now ≢ Line.Empty) }
    ensures untold { OnErr result (SaidUntold script_state.old said.now script_state.new) }
{
    match said {
        Line::Asked(command) => answer_command(script_state, command, answer),
        Line::Session(session) => {
            script_state.turn_to(*session);
            add_numbered(&mut answer.text, b"session", u64::from(*session))
        }
        Line::View => script_state.view(alloc, &mut answer.text),
        Line::Trace => script_state.trace(alloc, &mut answer.text),
        Line::Empty => Ok(()),
    }
}

/// What is answered to a command, once the desk has performed it. That it was refused for want of memory is told
/// without any: it is an error only if there is no memory for another answer.
fn answer_command(
    script_state: &mut ScriptState<'_>,
    command: &Command,
    answer: &mut Answer,
) -> Result<(), AllocError>
    requires { IsBlank answer.old }
    ensures checked { script_state.new.desk.machine.checked ≡ script_state.old.desk.machine.checked }
    ensures answered { OnOk result
        (SaidAnswered script_state.old.desk.machine.checked script_state.old (Line.Asked command.now)
        (told_text answer.new) script_state.new) }
    ensures untold { OnErr result (HasLongReply script_state.old command.now script_state.new) }
{
    let reply = script_state.ask(command);
    answer.tell(script_state.checked().system(), command, &reply)
}
