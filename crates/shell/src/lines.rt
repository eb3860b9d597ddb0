// A session from its first line to its last.
ghost use Rattle.std.specs.Prelude.{◌≡◌};
ghost use Rattle.std.specs.Option.{option_copied};
ghost use Rattle.std.specs.Io.Buffered.{reader_remaining};
ghost use Rattle.devices.specs.Counting.{device, failures};
ghost use Rattle.debug_session.specs.Counting.{after_reading, after_writing};
ghost use Rattle.shell.specs.Taken.{EndsAt, SessionEnds, prompt_of};
ghost use Rattle.shell.specs.internal.Next.{Ended, GoesOn, NextEnds, TakenEnds};

use crate::output::{write_answer, write_some, write_text};
use crate::start::{begin, setting_of};
use crate::{Answer, Counted, Fault, Host, Outcome, Session, Setting, Texts};
use debug_session::read_line;
use plain_words::Text;
use shell_answers::greeting;
use std::alloc::Global;
use std::io::{BufReader, Read, Write};

/// Answers people's lines from `reader` on `out`, over the system of these texts, until they quit or the reader is at
/// its end.
///
/// Texts that are refused are told before anything is read or written. A line that says nothing is told so, and costs
/// nothing. Before each line there is a prompt where the reader is a terminal. It ends early where reading or writing
/// fails, or where there is no memory for a line.
pub fn run<R: Read, O: Write, H: Host>(
    alloc: Global,
    reader: &mut Counted<BufReader<R>>,
    out: &mut Counted<O>,
    host: &H,
    texts: Texts<'_>,
    is_terminal: bool,
) -> Result<(), Fault>
    ensures ends { SessionEnds (H.files host.now) is_terminal texts.entry.source.now texts.entry.stimulus.now
        (option_copied texts.entry.trace) ((reader.new ≡ reader.old) × (out.new ≡ out.old))
        (reader_remaining R.remaining (device reader.old)) (reader_remaining R.remaining (device reader.new))
        (O.contents (device out.old)) (O.contents (device out.new)) result }
    ensures read_failures { failures reader.new ≡ after_reading result (failures reader.old) }
    ensures write_failures { failures out.new ≡ after_writing result (failures out.old) }
{
    match begin(alloc, &texts) {
        Ok(mut session) => {
            let done = run_on(alloc, &mut session, reader, out, host, &texts, is_terminal);
            session.bench.is_sound();
            done
        }
        Err(fault) => Err(fault),
    }
}

/// Makes what stays the same in the session, says what the circuit is, and answers the lines.
fn run_on<R: Read, O: Write, H: Host>(
    alloc: Global,
    session: &mut Session,
    reader: &mut Counted<BufReader<R>>,
    out: &mut Counted<O>,
    host: &H,
    texts: &Texts<'_>,
    is_terminal: bool,
) -> Result<(), Fault>
    ensures ends { EndsAt (H.files host.now) is_terminal texts.now.source.now texts.now.stimulus.now session.old.bench
        (reader_remaining R.remaining (device reader.old)) (reader_remaining R.remaining (device reader.new))
        (O.contents (device out.old)) (O.contents (device out.new)) result session.new.bench }
    ensures read_failures { failures reader.new ≡ after_reading result (failures reader.old) }
    ensures write_failures { failures out.new ≡ after_writing result (failures out.old) }
{
    match setting_of(alloc, *texts) {
        Ok(setting) => session.greet(&setting, reader, out, host, is_terminal),
        Err(fault) => Err(fault),
    }
}

impl Session {
    /// Says what the circuit is, and answers the lines. What stays the same is lent: dropped here, at each return, it
    /// would make the proof dear.
    fn greet<R: Read, O: Write, H: Host>(
        &mut self,
        setting: &Setting<'_>,
        reader: &mut Counted<BufReader<R>>,
        out: &mut Counted<O>,
        host: &H,
        is_terminal: bool,
    ) -> Result<(), Fault>
        ensures ends { EndsAt (H.files host.now) is_terminal setting.now.texts.source.now
            setting.now.texts.stimulus.now self.old.bench
            (reader_remaining R.remaining (device reader.old)) (reader_remaining R.remaining (device reader.new))
            (O.contents (device out.old)) (O.contents (device out.new)) result self.new.bench }
        ensures read_failures { failures reader.new ≡ after_reading result (failures reader.old) }
        ensures write_failures { failures out.new ≡ after_writing result (failures out.old) }
    {
        match write_text(out, self.first_words(setting)) {
            Ok(()) => self.answer_lines(setting, reader, out, host, is_terminal),
            Err(fault) => Err(fault),
        }
    }

    /// What the circuit is, in words.
    fn first_words(&self, setting: &Setting<'_>) -> Text {
        greeting(&self.scene(setting))
    }

    /// Answers the lines of the reader until one of them ends the session, or the reader is at its end.
    fn answer_lines<R: Read, O: Write, H: Host>(
        &mut self,
        setting: &Setting<'_>,
        reader: &mut Counted<BufReader<R>>,
        out: &mut Counted<O>,
        host: &H,
        is_terminal: bool,
    ) -> Result<(), Fault>
        ensures ends { Ended (H.files host.now) is_terminal setting.now.texts.source.now
            setting.now.texts.stimulus.now self.old.bench
            (reader_remaining R.remaining (device reader.old)) (reader_remaining R.remaining (device reader.new))
            (O.contents (device out.old)) (O.contents (device out.new)) result self.new.bench }
        ensures read_failures { failures reader.new ≡ after_reading result (failures reader.old) }
        ensures write_failures { failures out.new ≡ after_writing result (failures out.old) }
    {
        let mut line = Vec::new(setting.alloc);
        for taken in 0..u64::MAX {
            match self.answer_next(setting, reader, out, host, is_terminal, &mut line) {
                Ok(true) => {}
                Ok(false) => return Ok(()),
                Err(fault) => return Err(fault),
            }
        }
        // No session has so many lines.
        Err(Fault::Memory)
    }

    /// Answers the next line, and tells whether others may follow.
    fn answer_next<R: Read, O: Write, H: Host>(
        &mut self,
        setting: &Setting<'_>,
        reader: &mut Counted<BufReader<R>>,
        out: &mut Counted<O>,
        host: &H,
        is_terminal: bool,
        line: &mut Vec<u8>,
    ) -> Result<bool, Fault>
        ensures ends { NextEnds (H.files host.now) is_terminal setting.now.texts.source.now
            setting.now.texts.stimulus.now self.old.bench
            (reader_remaining R.remaining (device reader.old)) (reader_remaining R.remaining (device reader.new))
            (O.contents (device out.old)) (O.contents (device out.new)) result self.new.bench }
        ensures read_failures { failures reader.new ≡ after_reading result (failures reader.old) }
        ensures write_failures { failures out.new ≡ after_writing result (failures out.old) }
    {
        match write_some(out, prompt(is_terminal)) {
            Ok(()) => {}
            Err(fault) => return Err(fault),
        }
        match read_line(reader, line) {
            Ok(is_complete) => {
                let ends_prompt = is_left(is_terminal, is_complete, line.as_slice());
                self.answer_taken(
                    setting,
                    out,
                    host,
                    line.as_slice(),
                    is_complete,
                    ends_prompt,
                )
            }
            Err(fault) => Err(fault),
        }
    }

    /// Answers a line that was taken, with its end or without, and tells whether others may follow. Where nothing was
    /// typed behind the prompt, its line is ended.
    fn answer_taken<O: Write, H: Host>(
        &mut self,
        setting: &Setting<'_>,
        out: &mut Counted<O>,
        host: &H,
        line: &[u8],
        is_complete: bool,
        ends_prompt: bool,
    ) -> Result<bool, Fault>
        ensures ends { TakenEnds (H.files host.now) setting.now.texts.source.now setting.now.texts.stimulus.now
            self.old.bench line.now is_complete (O.contents (device out.old)) (O.contents (device out.new)) result
            self.new.bench }
        ensures write_failures { failures out.new ≡ after_writing result (failures out.old) }
    {
        let Answer {
            outcome,
            own,
            words,
        } = self.answer_line(setting, host, line);
        let more = goes_on(is_complete, outcome);
        let words = with_end(words, ends_prompt);
        match write_answer(
            out,
            Answer {
                outcome,
                own,
                words,
            },
        ) {
            Ok(()) => Ok(more),
            Err(fault) => Err(fault),
        }
    }
}

/// Whether lines may follow one that was complete or not, and became this.
fn goes_on(is_complete: bool, outcome: Outcome) -> bool
    ensures { GoesOn is_complete outcome result }
{
    match outcome {
        Outcome::Over => false,
        _ => is_complete,
    }
}

/// Whether nothing was typed behind a prompt, and nothing more comes.
fn is_left(is_terminal: bool, is_complete: bool, line: &[u8]) -> bool {
    is_terminal && !is_complete && line.is_empty()
}

/// The words, with the end of the prompt's line behind them where that is due.
fn with_end(mut words: Text, ends_prompt: bool) -> Text {
    if ends_prompt {
        words.add(b"\n");
    }
    words
}

/// What is written before a line.
fn prompt(is_terminal: bool) -> &'static [u8]
    ensures { result.now ≡ prompt_of is_terminal }
{
    if is_terminal { b"> " } else { b"" }
}
