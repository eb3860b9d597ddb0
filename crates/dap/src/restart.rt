// Another launch in place of one.
ghost use Rattle.std.specs.Prelude.{◌≡◌, ◌⊎◌, IfOk, MatchOption, Some, [], false, string_bytes, true};
ghost use Rattle.std.specs.Option.{option_map};
ghost use Rattle.serde_json.specs.View.{view};
ghost use Rattle.dap_requests.specs.Said.{TellsOutputs};
ghost use Rattle.dap_requests.specs.Sets.{ArePlaced, changes_of, file_of, is_again};
ghost use Rattle.dap.specs.Anew.{GoesAnew, IsMeant, KeepsSet, brought};
ghost use Rattle.dap.specs.Anew as model;
ghost use Rattle.dap.specs.Asking.{Asks, asked_by};
ghost use Rattle.dap.specs.Goes.{Restarts};
ghost use Rattle.dap.specs.Launching.{TellsBegun};
ghost use Rattle.dap.specs.Stops.{NotDone};
ghost use Rattle.dap.specs.Unlaunched.{CannotBegin, CannotRestart};

use crate::begin::begin;
use crate::launch::{Launched, start, start_as};
use crate::sources::Sources;
use dap_messages::{Answer, Request, field};
use dap_requests::{Placing, place_again, tell, tell_changed};
use dap_views::{Launch, Program, is_same_file};
use serde_json::Value;
use std::alloc::{AllocError, Global};
use std::mem;

/// Answers `restart`: the same again, from the files as they are now, or what the arguments name. Breakpoints stay.
/// Where it is refused, all is as it was.
pub(crate) fn restart<F: Sources>(
    alloc: Global,
    files: &F,
    launched: &mut Launched,
    request: &Request,
    answer: &mut Answer,
)
    ensures { Restarts (F.reads files.now) launched.old request.now answer.old answer.new launched.new }
{
    match started_again(alloc, files, &launched.program, request, answer) {
        Some(anew) => replace(alloc, launched, anew, answer),
        None => {}
    }
}

/// Takes what was launched anew in place of what was, if there is memory for its breakpoints.
fn replace(alloc: Global, launched: &mut Launched, anew: Launched, answer: &mut Answer)
    ensures { GoesAnew launched.old anew answer.old answer.new launched.new
        ⊎ ((launched.new ≡ launched.old) × (answer.new.lacks ≡ true)) }
{
    match place_again(alloc, anew.desk.machine(), &launched.program, &anew.program) {
        Some(placing) => begin_again(alloc, launched, anew, placing, answer),
        None => answer.lacks = true,
    }
}

/// Takes what was launched anew in place of what was, and begins.
fn begin_again(
    alloc: Global,
    launched: &mut Launched,
    anew: Launched,
    placing: Placing,
    answer: &mut Answer,
)
    requires placed { ArePlaced (is_again launched.old.program anew.program) anew.desk.machine.checked.main
        anew.program.lines [] launched.old.program.asked.items placing.asked.items placing.stops.items }
    requires shown { changes_of placing.shown.items ≡ changes_of placing.asked.items }
    ensures { GoesAnew launched.old anew answer.old answer.new launched.new }
{
    let is_lost = take_over(alloc, launched, anew);
    tell_unwatched(alloc, is_lost, answer);
    tell_changed(alloc, &mut launched.program, placing, answer);
    begin(alloc, launched, answer);
}

/// Tells that nothing is watched any more, where something was.
fn tell_unwatched(alloc: Global, is_lost: bool, answer: &mut Answer)
    ensures { TellsOutputs answer.old answer.new }
{
    if is_lost {
        let words = "The source is another one: its data breakpoints have to be set again.";
        tell(alloc, words, "console", answer);
    }
}

/// Takes what was launched anew in place of what was, with what the client had set, but for breakpoints; whether
/// something was watched that is no more.
fn take_over(alloc: Global, launched: &mut Launched, anew: Launched) -> bool
    ensures set { KeepsSet launched.old.program anew.program launched.new.program }
    ensures memo { launched.new.memo ≡ anew.memo }
    ensures desk { launched.new.desk ≡ anew.desk }
{
    let mut before = mem::replace(launched, anew);
    keep_settings(alloc, &mut before.program, &mut launched.program);
    !before.program.watched.is_empty()
}

/// What a restart launches.
fn started_again<F: Sources>(
    alloc: Global,
    files: &F,
    program: &Program,
    request: &Request,
    answer: &mut Answer,
) -> Option<Launched>
    ensures { MatchOption result
        (NotDone (CannotRestart (F.reads files.now) (brought request.now) (asked_by program.now.launch)) answer.new)
        (λ launched. (asked : Asks) × IsMeant (brought request.now) (asked_by program.now.launch) asked
        × TellsBegun (F.reads files.now) program.now.counting asked answer.old answer.new launched) }
{
    match brought_by(request) {
        Some(arguments) => start(alloc, files, program.counting, arguments, answer),
        None => start_same(alloc, files, program, answer),
    }
}

/// The arguments for a launch that a restart brings, where they name a program.
fn brought_by(request: &Request) -> Option<&Value>
    ensures { option_map (λ v. view v.now) result ≡ brought request.now }
{
    match request.part("arguments") {
        Some(arguments) => with_program(arguments),
        None => None,
    }
}

/// These arguments, where they name a program.
fn with_program(arguments: &Value) -> Option<&Value>
    ensures { option_map (λ v. view v.now) result ≡ model.with_program (view arguments.now) }
{
    if names_program(arguments) {
        Some(arguments)
    } else {
        None
    }
}

/// Whether these arguments name a program.
fn names_program(arguments: &Value) -> bool
    ensures { result ≡ model.names_program (view arguments.now) }
{
    match field(arguments, "program") {
        Some(_) => true,
        None => false,
    }
}

/// The same again.
fn start_same<F: Sources>(
    alloc: Global,
    files: &F,
    program: &Program,
    answer: &mut Answer,
) -> Option<Launched>
    ensures { MatchOption result
        (NotDone (CannotBegin (F.reads files.now) (asked_by program.now.launch)) answer.new)
        (TellsBegun (F.reads files.now) program.now.counting (asked_by program.now.launch) answer.old answer.new) }
{
    match same_launch(alloc, &program.launch) {
        Ok(asked) => start_as(alloc, files, program.counting, asked, answer),
        Err(AllocError) => {
            answer.lacks = true;
            None
        }
    }
}

/// The same launch.
fn same_launch(alloc: Global, launch: &Launch) -> Result<Launch, AllocError>
    ensures { IfOk result (λ same. asked_by same ≡ asked_by launch.now) }
{
    let program = String::from_str(alloc, launch.program.as_str())?;
    let stimulus = same_path(alloc, &launch.stimulus)?;
    let trace = same_path(alloc, &launch.trace)?;
    Ok(Launch {
        program,
        stimulus,
        trace,
        stops: launch.stops,
        most: launch.most,
        free: launch.free,
    })
}

/// The same path, where there is one.
fn same_path(alloc: Global, path: &Option<String>) -> Result<Option<String>, AllocError>
    ensures { IfOk result (λ same.
        option_map (λ p. string_bytes p) same ≡ option_map (λ p. string_bytes p) path.now) }
{
    match path {
        Some(path) => Ok(Some(String::from_str(alloc, path.as_str())?)),
        None => Ok(None),
    }
}

/// Keeps what the client has set on the program before; what is watched only where the source is the same. The
/// breakpoints are placed apart from this.
fn keep_settings(alloc: Global, old: &mut Program, program: &mut Program)
    ensures { KeepsSet old.old program.old program.new }
{
    program.excepts = old.excepts;
    program.last_id = old.last_id;
    keep_file(alloc, old, program);
    if old.source.as_slice() == program.source.as_slice() {
        mem::swap(&mut old.watched, &mut program.watched);
    }
}

/// Keeps the file for which breakpoints were asked, where it is another one.
fn keep_file(alloc: Global, old: &mut Program, program: &mut Program)
    ensures program { program.new ≡ record program.old { elsewhere = program.new.elsewhere } }
    ensures again { is_again old.old program.old ≡ true → program.new.elsewhere ≡ program.old.elsewhere }
    ensures elsewhere { is_again old.old program.old ≡ false
        → option_map (λ file. string_bytes file) program.new.elsewhere ≡ Some (file_of old.old) }
    ensures source { old.new.source ≡ old.old.source }
    ensures watched { old.new.watched ≡ old.old.watched }
{
    let file = file_of(alloc, old);
    if !is_same_file(file.as_str(), program.launch.program.as_str()) {
        program.elsewhere = Some(file);
    }
}

/// The file for which breakpoints were asked: it is taken out.
fn file_of(alloc: Global, old: &mut Program) -> String
    ensures file { string_bytes result ≡ file_of old.old }
    ensures source { old.new.source ≡ old.old.source }
    ensures watched { old.new.watched ≡ old.old.watched }
{
    match old.elsewhere.take() {
        Some(file) => file,
        None => mem::replace(&mut old.launch.program, String::new(alloc)),
    }
}
