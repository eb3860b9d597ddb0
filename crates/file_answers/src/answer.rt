//! The answers to requests that run a description, or say that it is accepted.

ghost use Rattle.file_answers.specs.Answering.{CheckGives, CheckRefuses, ReplayGives, ReplayRefuses};
ghost use Rattle.file_answers.specs.Answering.{WorkGives, WorkRefuses};
ghost use Rattle.file_answers.specs.Kept.{kept_of};
ghost use Rattle.file_answers.specs.Used.{Answers, used};

use crate::files::{Files, Source};
use crate::output::tell_tally;
use crate::reading::{accepted_source, read_run, read_system};
use crate::texts::{Names, Texts};
use command_words::CrewSize;
use debug_session::{Counted, Fault, replay, write_out};
use locked_execution::Crew;
use std::io::Write;
use std::mem;
use std::sync::Wait;
use std::thread::Threads;

/// Says whether the description in `file` is accepted.
pub fn check<F: Files, O: Write>(
    from: &Source<'_, F>,
    file: &str,
    texts: &mut Texts,
    out: &mut Counted<O>,
) -> Result<(), Fault>
    ensures { Answers (CheckGives (F.holds from.now.files.now) file.now)
        (CheckRefuses (F.holds from.now.files.now) file.now (kept_of texts.new))
        (used O.contents out.old out.new) result }
{
    let mut left = None;
    let checked = accepted_source(from, file, texts, &mut left)?;
    // The process ends behind this answer: to free system and typed source node by node would only take time.
    mem::forget((checked, left));
    write_out(out, b"accepted\n")
}

/// Tells the events of the trace over the description, which is accepted before the trace is read.
pub fn replay_files<F: Files, O: Write>(
    from: &Source<'_, F>,
    names: &Names<'_>,
    texts: &mut Texts,
    out: &mut Counted<O>,
) -> Result<(), Fault>
    ensures { Answers
        (ReplayGives (F.holds from.now.files.now) names.now.file.now names.now.stimulus.now names.now.trace.now)
        (ReplayRefuses (F.holds from.now.files.now) names.now.file.now names.now.stimulus.now names.now.trace.now
        (kept_of texts.new)) (used O.contents out.old out.new) result }
{
    let checked = read_run(from, names, texts)?;
    let events = replay(from.alloc, checked, texts.trace.as_slice())?;
    write_out(out, events.as_slice())
}

/// Tells what the workers of a crew of this size do over the description in `file`.
pub fn work_files<W: Threads + Wait + Sync, F: Files, O: Write>(
    rt: &W,
    from: &Source<'_, F>,
    file: &str,
    stimulus: &str,
    size: CrewSize,
    texts: &mut Texts,
    out: &mut Counted<O>,
) -> Result<(), Fault>
    ensures { Answers (WorkGives (F.holds from.now.files.now) file.now stimulus.now size.workers size.turns)
        (WorkRefuses (F.holds from.now.files.now) file.now stimulus.now (kept_of texts.new))
        (used O.contents out.old out.new) result }
{
    let checked = read_system(from, file, stimulus, texts)?;
    let crew = Crew {
        workers: size.workers,
        turns: size.turns,
    };
    let done = crew.work(rt, from.alloc, checked)?;
    tell_tally(done, out)
}
