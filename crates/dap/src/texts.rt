// The texts of the files that a launch names.
ghost use Rattle.std.specs.Prelude.{ℕ, ◌≡◌, List, [], Option, Some, MatchResult, unwrap_or};
ghost use Rattle.dap_requests.specs.Said.{TellsOutputs};
ghost use Rattle.dap.specs.Asking.{asked_by};
ghost use Rattle.dap.specs.Asking as model;
ghost use Rattle.dap.specs.Files.{AreRead, FindsStimulus, IsMissing, IsTrace, IsUnread, TellsFound, text_of};
ghost use Rattle.dap.specs.Stops.{RefusedAs};
ghost use Rattle.dap.specs.Unlaunched.{Fails};
ghost use Rattle.dap.specs.declared.launch.Failed.{Failed as Failing};

use crate::launch::Failed;
use crate::paths::beside;
use crate::sources::Sources;
use dap_messages::Answer;
use dap_requests::tell;
use dap_views::{Launch, Words, base_of};
use std::alloc::{AllocError, Global};

/// The texts of the files that a launch names.
#[derive(Drop)]
pub(crate) struct Texts {
    pub(crate) source: Vec<u8>,
    pub(crate) stimulus: Vec<u8>,
    pub(crate) trace: Option<Vec<u8>>,
}

/// Reads the files.
pub(crate) fn texts_of<F: Sources>(
    alloc: Global,
    files: &F,
    asked: &Launch,
    answer: &mut Answer,
) -> Result<Texts, Failed>
    ensures { MatchResult result
        (λ texts. (found : Option (List ℕ))
        × AreRead (F.reads files.now) (asked_by asked.now) texts.source.items found (text_of texts.trace)
        × (texts.stimulus.items ≡ unwrap_or found []) × TellsFound found answer.old answer.new)
        (λ failed. Fails (IsUnread (F.reads files.now) (asked_by asked.now)) failed answer.new) }
{
    match file(alloc, files, asked.program.as_str(), answer) {
        Ok(source) => texts_beside(alloc, files, asked, source, answer),
        Err(failed) => Err(failed),
    }
}

/// Reads the files beside the source.
fn texts_beside<F: Sources>(
    alloc: Global,
    files: &F,
    asked: &Launch,
    source: Vec<u8>,
    answer: &mut Answer,
) -> Result<Texts, Failed>
    ensures { MatchResult result
        (λ texts. (texts.source ≡ source)
        × ((found : Option (List ℕ))
        × FindsStimulus (F.reads files.now) (asked_by asked.now).program (asked_by asked.now).stimulus found
        × (texts.stimulus.items ≡ unwrap_or found []) × TellsFound found answer.old answer.new)
        × IsTrace (F.reads files.now) (asked_by asked.now).trace (text_of texts.trace))
        (λ failed. Fails (IsUnread (F.reads files.now) (asked_by asked.now)) failed answer.new) }
{
    match stimulus(alloc, files, asked, answer) {
        Ok(stimulus) => texts_with(alloc, files, asked, source, stimulus, answer),
        Err(failed) => Err(failed),
    }
}

/// Reads the trace.
fn texts_with<F: Sources>(
    alloc: Global,
    files: &F,
    asked: &Launch,
    source: Vec<u8>,
    stimulus: Vec<u8>,
    answer: &mut Answer,
) -> Result<Texts, Failed>
    ensures { MatchResult result
        (λ texts. (texts.source ≡ source) × (texts.stimulus ≡ stimulus)
        × IsTrace (F.reads files.now) (asked_by asked.now).trace (text_of texts.trace) × (answer.new ≡ answer.old))
        (λ failed. Fails (IsUnread (F.reads files.now) (asked_by asked.now)) failed answer.new) }
{
    match trace(alloc, files, asked, answer) {
        Ok(trace) => Ok(Texts {
            source,
            stimulus,
            trace,
        }),
        Err(failed) => Err(failed),
    }
}

/// The trace that is named, if one is.
fn trace<F: Sources>(
    alloc: Global,
    files: &F,
    asked: &Launch,
    answer: &mut Answer,
) -> Result<Option<Vec<u8>>, Failed>
    ensures { MatchResult result
        (λ trace. IsTrace (F.reads files.now) (asked_by asked.now).trace (text_of trace) × (answer.new ≡ answer.old))
        (λ failed. Fails (IsUnread (F.reads files.now) (asked_by asked.now)) failed answer.new) }
{
    match &asked.trace {
        Some(name) => trace_at(alloc, files, name.as_str(), answer),
        None => Ok(None),
    }
}

/// The trace in the file of this name.
fn trace_at<F: Sources>(
    alloc: Global,
    files: &F,
    name: &str,
    answer: &mut Answer,
) -> Result<Option<Vec<u8>>, Failed>
    ensures { MatchResult result
        (λ trace. IsTrace (F.reads files.now) (Some name.now) (text_of trace) × (answer.new ≡ answer.old))
        (λ failed. Fails (IsMissing (F.reads files.now) name.now) failed answer.new) }
{
    match file(alloc, files, name, answer) {
        Ok(bytes) => Ok(Some(bytes)),
        Err(failed) => Err(failed),
    }
}

/// The stimulus: the one that is named, else the one beside the source, else none.
fn stimulus<F: Sources>(
    alloc: Global,
    files: &F,
    asked: &Launch,
    answer: &mut Answer,
) -> Result<Vec<u8>, Failed>
    ensures { MatchResult result
        (λ stimulus. (found : Option (List ℕ))
        × FindsStimulus (F.reads files.now) (asked_by asked.now).program (asked_by asked.now).stimulus found
        × (stimulus.items ≡ unwrap_or found []) × TellsFound found answer.old answer.new)
        (λ failed. Fails (IsUnread (F.reads files.now) (asked_by asked.now)) failed answer.new) }
{
    match &asked.stimulus {
        Some(name) => file(alloc, files, name.as_str(), answer),
        None => stimulus_beside(alloc, files, asked.program.as_str(), answer),
    }
}

/// The stimulus beside this source, else none.
fn stimulus_beside<F: Sources>(
    alloc: Global,
    files: &F,
    program: &str,
    answer: &mut Answer,
) -> Result<Vec<u8>, Failed>
    ensures { MatchResult result
        (λ stimulus. (found : Option (List ℕ)) × F.reads files.now (model.beside program.now) found
        × (stimulus.items ≡ unwrap_or found []) × TellsFound found answer.old answer.new)
        (λ failed. failed ≡ Failing.Memory) }
{
    match beside(alloc, program) {
        Ok(path) => stimulus_at(alloc, files, path.as_str(), answer),
        Err(AllocError) => Err(Failed::Memory),
    }
}

/// The stimulus in the file of this name, else none.
fn stimulus_at<F: Sources>(
    alloc: Global,
    files: &F,
    name: &str,
    answer: &mut Answer,
) -> Result<Vec<u8>, Failed>
    ensures { MatchResult result
        (λ stimulus. (found : Option (List ℕ)) × F.reads files.now name.now found
        × (stimulus.items ≡ unwrap_or found []) × TellsFound found answer.old answer.new)
        (λ failed. failed ≡ Failing.Memory) }
{
    match files.read(alloc, name) {
        Ok(Some(bytes)) => Ok(bytes),
        Ok(None) => {
            tell_none(alloc, name, answer);
            Ok(Vec::new(alloc))
        }
        Err(AllocError) => Err(Failed::Memory),
    }
}

/// Tells that the stimulus of this name is not there.
fn tell_none(alloc: Global, name: &str, answer: &mut Answer)
    ensures { TellsOutputs answer.old answer.new }
{
    let mut words = Words::of(alloc, "No `stimulus` is given, and ");
    words.add(base_of(name));
    words.add(" is not there: the inputs get no values.");
    tell(alloc, words.as_str(), "console", answer);
}

/// The bytes of a file, which has to be there.
fn file<F: Sources>(
    alloc: Global,
    files: &F,
    name: &str,
    answer: &mut Answer,
) -> Result<Vec<u8>, Failed>
    ensures { MatchResult result
        (λ bytes. F.reads files.now name.now (Some bytes.items) × (answer.new ≡ answer.old))
        (λ failed. Fails (IsMissing (F.reads files.now) name.now) failed answer.new) }
{
    match files.read(alloc, name) {
        Ok(Some(bytes)) => Ok(bytes),
        Ok(None) => {
            refuse_unread(alloc, name, answer);
            Err(Failed::Told)
        }
        Err(AllocError) => Err(Failed::Memory),
    }
}

/// Refuses a file that cannot be read.
fn refuse_unread(alloc: Global, name: &str, answer: &mut Answer)
    ensures { RefusedAs 41 answer.new.outcome }
{
    let mut words = Words::of(alloc, "refused 41: ");
    words.add(name);
    words.add(" cannot be read");
    answer.refuse(41, words.as_str());
}
