//! The words behind the line of a refusal.

ghost use Rattle.std.specs.Prelude.{◌≡◌, IfOk, codes};
ghost use Rattle.file_answers.specs.Explained as model;
ghost use Rattle.file_answers.specs.Explained.{Explains, IsBehind, TellsIn};
ghost use Rattle.file_answers.specs.Kept.{kept_of};

use crate::texts::{Part, Texts};
use command_words::Request;
use debug_session::Fault;
use diagnosis::{Input, Inputs, UnreadFile, explain};
use std::alloc::{AllocError, Global};

/// The name of the description of a request.
fn file_of<'a>(request: &Request<'a>) -> &'a str
    ensures { result.now ≡ model.file_of request.now }
{
    match *request {
        Request::Check { file, .. }
        | Request::Debug { file, .. }
        | Request::Replay { file, .. }
        | Request::Work { file, .. }
        | Request::Shell { file, .. }
        | Request::Outline { file }
        | Request::Waiting { file, .. }
        | Request::Why { file, .. }
        | Request::Picture { file, .. } => file,
        Request::Explain { .. } | Request::Dap => "",
    }
}

/// The name of its stimulus. A name that it has not is empty.
fn stimulus_of<'a>(request: &Request<'a>) -> &'a str
    ensures { result.now ≡ model.stimulus_of request.now }
{
    match *request {
        Request::Debug { stimulus, .. }
        | Request::Replay { stimulus, .. }
        | Request::Work { stimulus, .. }
        | Request::Shell { stimulus, .. }
        | Request::Waiting { stimulus, .. }
        | Request::Why { stimulus, .. }
        | Request::Picture { stimulus, .. } => stimulus,
        Request::Check { .. } | Request::Explain { .. } | Request::Dap | Request::Outline { .. } =>
            "",
    }
}

/// The name of its trace.
fn trace_of<'a>(request: &Request<'a>) -> &'a str
    ensures { result.now ≡ model.trace_of request.now }
{
    match *request {
        Request::Replay { trace, .. }
        | Request::Waiting { trace, .. }
        | Request::Why { trace, .. }
        | Request::Picture { trace, .. } => trace,
        Request::Shell { trace, .. } => trace.unwrap_or(""),
        Request::Check { .. }
        | Request::Debug { .. }
        | Request::Work { .. }
        | Request::Explain { .. }
        | Request::Dap
        | Request::Outline { .. } => "",
    }
}

/// The file that was read last, where it was one, and why it could not be.
fn unread_file<'a>(request: &Request<'a>, texts: &Texts) -> Option<UnreadFile<'a>> {
    let name = match texts.last {
        Part::Source => file_of(request),
        Part::Stimulus => stimulus_of(request),
        Part::Trace => trace_of(request),
        Part::Script => return None,
    };
    Some(UnreadFile {
        name,
        why: texts.why,
    })
}

/// So many empty lines.
fn empty_lines(alloc: Global, count: u64) -> Result<Vec<u8>, AllocError>
    ensures { IfOk result (λ lines. lines.items ≡ model.empty_lines count) }
{
    let mut lines = Vec::new(alloc);
    for _line in 0..count {
        lines.push(b'\n')?;
    }
    Ok(lines)
}

/// A script of which the last line is the one that says nothing, at its number: the lines before it are gone, so they
/// are empty here.
fn script_of(alloc: Global, fault: Fault, line: &[u8]) -> Result<Vec<u8>, AllocError>
    ensures { IfOk result (λ script. script.items ≡ model.script_of fault line.now) }
{
    let Fault::BadCommand(number) = fault else {
        return Ok(Vec::new(alloc));
    };
    let mut script = empty_lines(alloc, number.saturating_sub(1))?;
    script.extend_from_slice(line)?;
    Ok(script)
}

/// How people call what a script comes on.
fn script_name() -> &'static str
    ensures { result.now ≡ codes "standard input" }
{
    "standard input"
}

/// What is told of a fault in the texts that were read.
fn told_in(
    alloc: Global,
    request: &Request<'_>,
    fault: Fault,
    texts: &Texts,
) -> Result<Vec<u8>, AllocError>
    ensures { IfOk result (λ words. TellsIn request.now (kept_of texts.now) fault words.items) }
{
    let script = script_of(alloc, fault, texts.said.as_slice())?;
    let inputs = Inputs {
        source: Input {
            name: file_of(request),
            bytes: texts.source.as_slice(),
        },
        stimulus: Some(Input {
            name: stimulus_of(request),
            bytes: texts.values.as_slice(),
        }),
        trace: Some(Input {
            name: trace_of(request),
            bytes: texts.trace.as_slice(),
        }),
        script: Some(Input {
            name: script_name(),
            bytes: script.as_slice(),
        }),
        unread: unread_file(request, texts),
    };
    let words = explain(alloc, fault.number(), fault.field(), &inputs)?;
    Ok(words.into_bytes())
}

/// The words that are kept of a question or a picture.
fn said_of(alloc: Global, texts: &Texts) -> Result<Vec<u8>, AllocError>
    ensures { IfOk result (λ words. words.items ≡ texts.now.said.items) }
{
    let mut words = Vec::new(alloc);
    words.extend_from_slice(texts.said.as_slice())?;
    Ok(words)
}

/// What explains the fault of a request.
fn explanation(
    alloc: Global,
    request: &Request<'_>,
    fault: Fault,
    texts: &Texts,
) -> Result<Vec<u8>, AllocError>
    ensures { IfOk result (λ words. Explains request.now (kept_of texts.now) fault words.items) }
{
    match fault {
        Fault::Refused(_) => said_of(alloc, texts),
        _ => told_in(alloc, request, fault, texts),
    }
}

/// What stands behind the line by which a run that ended so is refused: nothing where no words are asked for, or where
/// there is no memory for them.
pub fn words_behind(
    alloc: Global,
    request: &Request<'_>,
    done: Result<(), Fault>,
    texts: &Texts,
) -> Vec<u8>
    ensures { IsBehind request.now (kept_of texts.now) done result.items }
{
    if !request.explains() {
        return Vec::new(alloc);
    }
    let Err(fault) = done else {
        return Vec::new(alloc);
    };
    match explanation(alloc, request, fault, texts) {
        Ok(words) => words,
        Err(_) => Vec::new(alloc),
    }
}
