//! One run of the program, over whatever reads and writes.

ghost use Rattle.std.specs.Prelude.{◌≡◌, ◌≢◌, ◌≤◌, ◌⊎◌, ℕ, List, [], map};
ghost use Rattle.std.specs.Io.Buffered.{reader_remaining};
ghost use Rattle.command_words.specs.Words.{AreMistaken, AskFor, AskForHelp, AskForSome};
ghost use Rattle.file_answers.specs.Explained.{IsBehind};
ghost use Rattle.file_answers.specs.Kept.{Kept, kept_of};
ghost use Rattle.command_line.specs.Running.{TellsSome, TellsHelp, Explains, ServesAsked};
ghost use Rattle.command_line.specs.Serving.{status_of, told_with, DebugsFiles, Serves};
ghost use Rattle.file_answers.specs.Used.{Outcome, Tells, used};
ghost use Rattle.command_line.specs.internal.Unasked.{HasText, TellsUnasked};

use crate::adapter::serve_editor;
use crate::shells::{Start, shell_files};
use command_words::{Request, Unasked, requested};
use debug_session::{Counted, Fault, debug_keeping, write_out};
use file_answers::{
    Files, Names, Part, Question, Source, Texts, check, outline_file, picture_files, read_texts,
    replay_files, show_page, waiting_files, why_files, words_behind, work_files, write_refusal,
};
use std::convert::AsStr;
use std::fs;
use std::io::{BufReader, Eprint, Read, Write};
use std::sync::Wait;
use std::thread::Threads;
use std::time::Clock;

/// Answers a script over the description in `file`.
fn debug_files<F: Files, I: Read, O: Write>(
    from: &Source<'_, F>,
    file: &str,
    stimulus: &str,
    texts: &mut Texts,
    reader: &mut Counted<BufReader<I>>,
    out: &mut Counted<O>,
) -> Result<(), Fault>
    ensures { DebugsFiles (F.holds from.now.files.now) file.now stimulus.now
        (used (reader_remaining I.remaining) reader.old reader.new) (used O.contents out.old out.new)
        (kept_of texts.new) result }
{
    read_texts(from, file, stimulus, texts)?;
    texts.last = Part::Script;
    debug_keeping(
        from.alloc,
        reader,
        out,
        texts.source.as_slice(),
        texts.values.as_slice(),
        &mut texts.said,
    )
}

/// Does what is asked for with the files that it names. What was read of them is left in `texts`.
fn perform<
    W: fs::Files + Input + Eprint + Clock + AllocGlobal + Threads + Wait + Sync,
    F: Files,
    I: Read,
    O: Write,
>(
    rt: &W,
    request: Request<'_>,
    from: &Source<'_, F>,
    texts: &mut Texts,
    reader: &mut Counted<BufReader<I>>,
    out: &mut Counted<O>,
) -> Result<(), Fault>
    ensures { Serves (F.holds from.now.files.now) request.entry
        (used (reader_remaining I.remaining) reader.old reader.new) (used O.contents out.old out.new)
        (kept_of texts.new) result }
{
    match request {
        Request::Check { file, .. } => check(from, file, texts, out),
        Request::Debug { file, stimulus, .. } => {
            debug_files(from, file, stimulus, texts, reader, out)
        }
        Request::Shell {
            file,
            stimulus,
            trace,
        } => {
            let start = Start {
                file,
                stimulus,
                trace,
            };
            shell_files(rt, from, &start, texts, reader, out)
        }
        Request::Replay {
            file,
            stimulus,
            trace,
            ..
        } => {
            let names = Names {
                file,
                stimulus,
                trace,
            };
            replay_files(from, &names, texts, out)
        }
        Request::Work {
            file,
            stimulus,
            crew,
            ..
        } => work_files(rt, from, file, stimulus, crew, texts, out),
        Request::Explain { page } => show_page(from.alloc, page, out),
        Request::Dap => serve_editor(rt, from, out),
        Request::Outline { file } => outline_file(from, file, texts, out),
        Request::Waiting {
            file,
            stimulus,
            trace,
        } => {
            let names = Names {
                file,
                stimulus,
                trace,
            };
            waiting_files(from, &names, texts, out)
        }
        Request::Why {
            file,
            stimulus,
            trace,
            subject,
            all,
        } => {
            let names = Names {
                file,
                stimulus,
                trace,
            };
            why_files(from, &names, &Question { subject, all }, texts, out)
        }
        Request::Picture {
            file,
            stimulus,
            trace,
            drawing,
        } => {
            let names = Names {
                file,
                stimulus,
                trace,
            };
            picture_files(from, &names, drawing, texts, out)
        }
    }
}

/// How a run ended.
#[derive(Drop)]
pub struct Ended {
    /// The status to end with: 0 where all was done, 1 where it was refused.
    pub status: u8,
    /// Whether a refusal could be told on standard error.
    pub told: Result<(), Fault>,
}

/// The end of a run whose work ended so. A refusal is told on `err`, with these words behind.
fn finish<E: Write>(done: Result<(), Fault>, words: &[u8], err: &mut Counted<E>) -> Ended
    ensures status { result.status ≡ status_of done }
    ensures range { result.status ≤ 1 }
    ensures told { Tells (told_with done words.now) (used E.contents err.old err.new) result.told }
    ensures quiet { result.status ≡ 0 → err.new ≡ err.old }
{
    match done {
        Ok(()) => Ended {
            status: 0,
            told: Ok(()),
        },
        Err(fault) => Ended {
            status: 1,
            told: write_refusal(fault, words, err),
        },
    }
}

/// Does what is asked for with the files that it names, and tells on `err` why it ended early: in a line, and in words
/// where these are asked for.
pub fn serve<
    W: fs::Files + Input + Eprint + Clock + AllocGlobal + Threads + Wait + Sync,
    F: Files,
    I: Read,
    O: Write,
    E: Write,
>(
    rt: &W,
    request: Request<'_>,
    files: &F,
    reader: &mut Counted<BufReader<I>>,
    out: &mut Counted<O>,
    err: &mut Counted<E>,
) -> Ended
    ensures served { (done : Outcome) × (kept : Kept) × (words : List ℕ)
        × Serves (F.holds files.now) request.entry
        (used (reader_remaining I.remaining) reader.old reader.new)
        (used O.contents out.old out.new) kept done
        × IsBehind request.entry kept done words
        × (result.status ≡ status_of done)
        × Tells (told_with done words) (used E.contents err.old err.new) result.told }
    ensures status { result.status ≤ 1 }
    ensures quiet { result.status ≡ 0 → err.new ≡ err.old }
{
    let from = Source {
        alloc: rt.alloc(),
        files,
    };
    let mut texts = Texts::new(from.alloc);
    let done = perform(rt, request, &from, &mut texts, reader, out);
    let words = words_behind(from.alloc, &request, done, &texts);
    finish(done, words.as_slice(), err)
}

/// Tells a mistake in the words, with the status for it.
fn tell_mistake<E: Write>(text: &[u8], err: &mut Counted<E>) -> u8
    requires { text.now ≢ [] }
    ensures status { result ≡ 2 }
    ensures told { TellsSome (used E.contents err.old err.new) }
{
    let _ = write_out(err, text);
    2
}

/// Tells the help that was asked for, with the status for it: a refusal where it could not be written.
fn tell_help<O: Write, E: Write>(text: &[u8], out: &mut Counted<O>, err: &mut Counted<E>) -> u8
    requires { text.now ≢ [] }
    ensures status { result ≤ 1 }
    ensures quiet { result ≡ 0 → err.new ≡ err.old }
    ensures told { TellsHelp result (used O.contents out.old out.new) (used E.contents err.old err.new) }
{
    let done = write_out(out, text);
    finish(done, b"", err).status
}

/// Says why there is nothing to do: help was asked for, or the words are mistaken.
fn tell_unasked<O: Write, E: Write>(
    unasked: Unasked,
    out: &mut Counted<O>,
    err: &mut Counted<E>,
) -> u8
    requires { HasText unasked }
    ensures status { result ≤ 2 }
    ensures mistake { result ≡ 2 → out.new ≡ out.old }
    ensures quiet { result ≡ 0 → err.new ≡ err.old }
    ensures told { TellsUnasked unasked result (used O.contents out.old out.new) (used E.contents err.old err.new) }
{
    match unasked {
        Unasked::Memory => finish(Err(Fault::Memory), b"", err).status,
        Unasked::Help(text) => tell_help(text.as_bytes(), out, err),
        Unasked::Mistake(text) => tell_mistake(text.as_bytes(), err),
    }
}

/// Does what `words` ask for, of which the first is the program's name.
///
/// Answers the status to end with: 0 where it was done, 1 where it was refused, 2 where `words`
/// could not be read.
pub fn run<
    R: fs::Files + Input + Eprint + Clock + AllocGlobal + Threads + Wait + Sync,
    S: AsStr,
    F: Files,
    I: Read,
    O: Write,
    E: Write,
>(
    rt: &R,
    words: &[S],
    files: &F,
    reader: &mut Counted<BufReader<I>>,
    out: &mut Counted<O>,
    err: &mut Counted<E>,
) -> u8
    ensures run { ServesAsked (AskFor (map S.text words.now)) (F.holds files.now) result
        (used (reader_remaining I.remaining) reader.old reader.new)
        (used O.contents out.old out.new) (used E.contents err.old err.new)
        ⊎ ((reader.new ≡ reader.old)
        × Explains (AskForSome (map S.text words.now) → ⊥)
        (AreMistaken (map S.text words.now)) (AskForHelp (map S.text words.now)) result
        (used O.contents out.old out.new) (used E.contents err.old err.new)) }
    ensures status { result ≤ 2 }
    ensures mistake { result ≡ 2 → out.new ≡ out.old }
    ensures unread { result ≡ 2 → reader.new ≡ reader.old }
    ensures quiet { result ≡ 0 → err.new ≡ err.old }
{
    match requested(rt.alloc(), words) {
        Ok(request) => serve(rt, request, files, reader, out, err).status,
        Err(unasked) => tell_unasked(unasked, out, err),
    }
}
