ghost use Rattle.std.specs.Prelude.{◌≡◌, ◌≢◌, ◌≤◌, Err, IfOk, IfErr};
ghost use Rattle.debug_session.specs.Accepting.{AcceptedAs, IsRefused};
ghost use Rattle.debug_session.specs.Counting.{after_reading, after_writing};
ghost use Rattle.debug_session.specs.Holding.{HoldsBack};
ghost use Rattle.debug_session.specs.Transcript.{Debugged};
ghost use Rattle.debug_session.specs.AtLine.{first_line};
ghost use Rattle.debug_session.specs.declared.fault.Fault.TheVariants.{WriteFailed};
ghost use Rattle.system.specs.declared.system.System.{System};

use crate::Fault;
use crate::answer::answer_lines;
use crate::script_state::ScriptState;
use devices::{CountedLines, CountedWrite};
use locked_execution::Machine;
use sharing_check::Checked;
use std::alloc::Global;
use std::mem;
use types::Typed;

/// The system that the source and the stimulus describe, or the first fault of the first pass that refuses them: the
/// source is cut, parsed and typed, then the stimulus is read, then the system is made, and then the rule on sharing is
/// checked.
pub fn accept(alloc: Global, source: &[u8], stimulus: &[u8]) -> Result<Checked, Fault>
    ensures system { IfOk result (λ checked. AcceptedAs source.now stimulus.now checked) }
    ensures fault { IfErr result (λ fault. IsRefused source.now stimulus.now fault) }
{
    Ok(front_end::accept(alloc, source, stimulus)?)
}

/// The same, with the typed source put into `left`: whoever ends behind this need not free it node by node.
pub fn accept_leaving(
    alloc: Global,
    source: &[u8],
    stimulus: &[u8],
    left: &mut Option<Typed>,
) -> Result<Checked, Fault>
    ensures system { IfOk result (λ checked. AcceptedAs source.now stimulus.now checked) }
    ensures fault { IfErr result (λ fault. IsRefused source.now stimulus.now fault) }
{
    Ok(front_end::accept_leaving(alloc, source, stimulus, left)?)
}

/// Answers the lines of `reader` on `writer`, over the system of source and stimulus.
///
/// Source and stimulus are accepted before anything is read. Before the reader asks for more, the answers to all lines
/// before are out and flushed; while its buffer has another line whole, answers may be held back, 8 KB at most. Such a
/// line is only looked at while its answer is made: where a write fails each line that was taken has an answer, and no
/// further line is taken. (A buffer has to have room for a byte at least, or the script looks empty.) At a fault the
/// answers of the lines before are out, and where writing failed a beginning of the answers. All else that was written
/// is flushed. `ReadFailed` and `WriteFailed` come exactly where reader and writer count a failure.
pub fn debug<R: CountedLines, W: CountedWrite>(
    alloc: Global,
    reader: &mut R,
    writer: &mut W,
    source: &[u8],
    stimulus: &[u8],
) -> Result<(), Fault>
    ensures debugged { Debugged source.now stimulus.now ((reader.new ≡ reader.old) × (writer.new ≡ writer.old))
        (R.remaining reader.old) (R.remaining reader.new) (W.contents writer.old) (W.contents writer.new) result }
    ensures held_back { HoldsBack R.buffered R.asked W.contents W.unsent W.wanted source.now stimulus.now reader.new
        (R.remaining reader.old) (R.remaining reader.new) writer.old writer.new result }
    ensures sent { result ≢ Err WriteFailed → W.unsent writer.new ≤ W.unsent writer.old }
    ensures read_failures { R.failed reader.new ≡ after_reading result (R.failed reader.old) }
    ensures write_failures { W.failed writer.new ≡ after_writing result (W.failed writer.old) }
{
    let mut last_line = Vec::new(alloc);
    let mut left = None;
    debug_leaving(
        alloc,
        reader,
        writer,
        source,
        stimulus,
        &mut last_line,
        &mut left,
    )
}

/// The same, where `last_line` has the line that was read last, without its end, once it ends. So a line that says
/// nothing can be shown: no reader has it any more. Where writing failed it may be one that was looked at and not taken.
/// No clause speaks of `last_line`. The execution is not taken apart at the end: it is for a program that ends behind it.
pub fn debug_keeping<R: CountedLines, W: CountedWrite>(
    alloc: Global,
    reader: &mut R,
    writer: &mut W,
    source: &[u8],
    stimulus: &[u8],
    last_line: &mut Vec<u8>,
) -> Result<(), Fault>
    ensures debugged { Debugged source.now stimulus.now ((reader.new ≡ reader.old) × (writer.new ≡ writer.old))
        (R.remaining reader.old) (R.remaining reader.new) (W.contents writer.old) (W.contents writer.new) result }
    ensures held_back { HoldsBack R.buffered R.asked W.contents W.unsent W.wanted source.now stimulus.now reader.new
        (R.remaining reader.old) (R.remaining reader.new) writer.old writer.new result }
    ensures sent { result ≢ Err WriteFailed → W.unsent writer.new ≤ W.unsent writer.old }
    ensures read_failures { R.failed reader.new ≡ after_reading result (R.failed reader.old) }
    ensures write_failures { W.failed writer.new ≡ after_writing result (W.failed writer.old) }
{
    let mut left = None;
    let ended = debug_leaving(
        alloc, reader, writer, source, stimulus, last_line, &mut left,
    );
    // The process ends behind it: to free the execution event by event would only take time.
    mem::forget(left);
    ended
}

/// The same, where the execution that was answered from is put into `left`.
fn debug_leaving<'a, R: CountedLines, W: CountedWrite>(
    alloc: Global,
    reader: &mut R,
    writer: &mut W,
    source: &'a [u8],
    stimulus: &[u8],
    last_line: &mut Vec<u8>,
    left: &mut Option<ScriptState<'a>>,
) -> Result<(), Fault>
    ensures debugged { Debugged source.now stimulus.now ((reader.new ≡ reader.old) × (writer.new ≡ writer.old))
        (R.remaining reader.old) (R.remaining reader.new) (W.contents writer.old) (W.contents writer.new) result }
    ensures held_back { HoldsBack R.buffered R.asked W.contents W.unsent W.wanted source.now stimulus.now reader.new
        (R.remaining reader.old) (R.remaining reader.new) writer.old writer.new result }
    ensures sent { result ≢ Err WriteFailed → W.unsent writer.new ≤ W.unsent writer.old }
    ensures read_failures { R.failed reader.new ≡ after_reading result (R.failed reader.old) }
    ensures write_failures { W.failed writer.new ≡ after_writing result (W.failed writer.old) }
{
    let mut script_state = begin(alloc, source, stimulus)?;
    let ended = answer_lines(alloc, &mut script_state, reader, writer, last_line);
    *left = Some(script_state);
    ended
}

/// Session 0 before its first line, on the system of source and stimulus.
fn begin<'a>(alloc: Global, source: &'a [u8], stimulus: &[u8]) -> Result<ScriptState<'a>, Fault>
    ensures script_state { IfOk result (λ script_state.
        (system : System) × AcceptedAs source.now stimulus.now system × (script_state ≡ first_line system source.now)) }
    ensures fault { IfErr result (λ fault. IsRefused source.now stimulus.now fault) }
{
    let checked = accept(alloc, source, stimulus)?;
    let machine = Machine::new(alloc, checked)?;
    let script_state = ScriptState::new(machine, source);
    Ok(script_state)
}
