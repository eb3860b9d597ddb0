//! A shell on the files of a request.

ghost use Rattle.std.specs.Prelude.{◌≡◌, MatchResult};
ghost use Rattle.std.specs.Option.{option_copied};
ghost use Rattle.std.specs.Io.Buffered.{reader_remaining};
ghost use Rattle.debug_session.specs.Accepting.{IsRefused};
ghost use Rattle.command_line.specs.Shells.{ShellsFiles, StartHad, StartRefused, TraceHad, TraceNotHad, text_of};
ghost use Rattle.file_answers.specs.Used.{used};

use debug_session::{Counted, Fault, accept};
use file_answers::{Files, Part, Source, Texts, read_texts, read_trace};
use shell::{Local, Texts as Begun, run};
use std::alloc::Global;
use std::fs;
use std::io::{BufReader, Eprint, Read, Write};
use std::time::Clock;

/// What Linux calls the streams of a program.
const STANDARD_INPUT: &str = "/proc/self/fd/0";

const STANDARD_ERROR: &str = "/proc/self/fd/2";

/// The names of the files with which a shell begins.
#[derive(Clone, Copy)]
pub struct Start<'a> {
    pub file: &'a str,
    pub stimulus: &'a str,
    pub trace: Option<&'a str>,
}

/// Refuses a description that is not accepted.
fn refuse_source(alloc: Global, texts: &Texts) -> Result<(), Fault>
    ensures { MatchResult result (λ _. Unit {0}) (IsRefused texts.now.source.items texts.now.values.items) }
{
    accept(alloc, texts.source.as_slice(), texts.values.as_slice())?;
    Ok(())
}

/// The same before a trace is read, where one is named.
fn accept_first(alloc: Global, start: &Start<'_>, texts: &Texts) -> Result<(), Fault>
    ensures { MatchResult result (λ _. Unit {0}) (IsRefused texts.now.source.items texts.now.values.items) }
{
    match start.trace {
        Some(_) => refuse_source(alloc, texts),
        None => Ok(()),
    }
}

/// Keeps what the trace holds, where one is named, beside what is kept already.
fn keep_trace<F: Files>(
    from: &Source<'_, F>,
    start: &Start<'_>,
    texts: &mut Texts,
) -> Result<(), Fault>
    ensures { MatchResult result
        (λ _. TraceHad (F.holds from.now.files.now) (option_copied start.now.trace) texts.new.trace.items
        × (texts.new.source ≡ texts.old.source) × (texts.new.values ≡ texts.old.values))
        (TraceNotHad (F.holds from.now.files.now) (option_copied start.now.trace)) }
{
    match start.trace {
        Some(trace) => read_trace(from, trace, texts),
        None => Ok(()),
    }
}

/// Keeps what the files hold.
fn read_start<F: Files>(
    from: &Source<'_, F>,
    start: &Start<'_>,
    texts: &mut Texts,
) -> Result<(), Fault>
    ensures { MatchResult result
        (λ _. StartHad (F.holds from.now.files.now) start.now.file.now start.now.stimulus.now
        (option_copied start.now.trace) texts.new.source.items texts.new.values.items texts.new.trace.items)
        (StartRefused (F.holds from.now.files.now) start.now.file.now start.now.stimulus.now
        (option_copied start.now.trace)) }
{
    read_texts(from, start.file, start.stimulus, texts)?;
    accept_first(from.alloc, start, texts)?;
    keep_trace(from, start, texts)
}

/// What is kept of the trace, where one is named.
fn trace_text<'a>(start: &Start<'_>, texts: &'a Texts) -> Option<&'a [u8]>
    ensures { option_copied result ≡ text_of (option_copied start.now.trace) texts.now.trace.items }
{
    match start.trace {
        Some(_) => Some(texts.trace.as_slice()),
        None => None,
    }
}

/// Whether a stream is a terminal, by the name that Linux has for it.
fn is_terminal<R: fs::Files + AllocGlobal>(rt: &R, stream: &str) -> bool {
    match fs::read_link(rt, stream) {
        Ok(name) => {
            name.as_str().starts_with("/dev/pts/") || name.as_str().starts_with("/dev/tty")
        }
        Err(_) => false,
    }
}

/// Answers a person who steps the description in these files, from the end of a trace where one is named.
/// Standard input is what `reader` reads.
pub fn shell_files<'a, R: fs::Files + AllocGlobal + Clock + Eprint, F: Files, I: Read, O: Write>(
    rt: &'a R,
    from: &Source<'_, F>,
    start: &Start<'a>,
    texts: &mut Texts,
    reader: &mut Counted<BufReader<I>>,
    out: &mut Counted<O>,
) -> Result<(), Fault>
    ensures { ShellsFiles (F.holds from.now.files.now) start.now.file.now start.now.stimulus.now
        (option_copied start.now.trace) (used (reader_remaining I.remaining) reader.old reader.new)
        (used O.contents out.old out.new) result }
{
    read_start(from, start, texts)?;
    texts.last = Part::Script;
    let begun = Begun {
        source: texts.source.as_slice(),
        stimulus: texts.values.as_slice(),
        trace: trace_text(start, texts),
    };
    let has_prompt = is_terminal(rt, STANDARD_INPUT);
    let host = Local::new(
        rt,
        has_prompt && is_terminal(rt, STANDARD_ERROR),
        [start.file, start.stimulus],
    );
    run(from.alloc, reader, out, &host, begun, has_prompt)
}
