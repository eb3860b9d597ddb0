// Expressions and lines that are typed, and how they can be completed.
ghost use Rattle.std.specs.Prelude.{◌≡◌, ◌⊎◌, ◌↔◌, IsTrue, codes, false, true};
ghost use Rattle.locked_execution.specs.Performs.{Answers};
ghost use Rattle.debug_session.specs.Lines.{Says};
ghost use Rattle.debug_session.specs.declared.fault.Fault.{Fault as Failed};
ghost use Rattle.dap_messages.specs.Notes.{IsDone};
ghost use Rattle.dap_moves.specs.Led.{Led};
ghost use Rattle.dap_requests.specs.Reading.{reads};
ghost use Rattle.dap_requests.specs.Said.{TellsTexts};
ghost use Rattle.dap_requests.specs.Typed.{AnswersAt, AsksNone, DoesNothing, Evaluates, IsName, LineDoes, has_moved, is_typed};

use crate::backward::{back_in, reverse_in};
use crate::entered::{has_mark, is_typed, line_in};
use crate::hints::add_in_place;
use crate::said::{stop, tell, words_of};
use dap_messages::{Answer, Members, Request, Stop};
use dap_moves::{Command, Desk, Machine, Reply};
use dap_threads::{channel_words, frame_in};
use dap_views::{Memo, Program, Thing, Words, event_words};
use debug_session::{Fault, Line, read_command, write_answer};
use runs::Event;
use sharing_check::Checked;
use source_view::view;
use std::alloc::{AllocError, Global};
use std::str;
use trace_file::write_trace;

/// Answers `evaluate`: a variable, a channel, or a line of a script. One that changes something is taken only where it
/// was typed for that: in the console, or behind a `!`.
#[tactic(auto, using(crate::proofs::Lines::stays))]
pub fn evaluate(
    alloc: Global,
    desk: &mut Desk,
    program: &Program,
    memo: &mut Memo,
    request: &Request,
    answer: &mut Answer,
)
    ensures led { Led desk.old desk.new }
    ensures system { desk.new.machine.checked ≡ desk.old.machine.checked }
    ensures looks { is_typed request.now ≡ false
        → (desk.new ≡ desk.old) × (memo.new.seen.items ≡ memo.old.seen.items) }
    ensures does { Evaluates program.now request.now desk.old memo.old.seen.items answer.old answer.new desk.new
        memo.new.seen.items }
    ensures refused { (desk.new ≡ desk.old) ⊎ (IsDone answer.old.outcome → IsDone answer.new.outcome) }
{
    if is_typed(request) {
        evaluate_typed(alloc, desk, program, memo, request, answer);
    } else {
        evaluate_seen(alloc, desk, program, request, answer);
    }
}

/// Answers an expression that was typed as a line.
#[tactic(auto, using(crate::proofs::Lines::stays))]
fn evaluate_typed(
    alloc: Global,
    desk: &mut Desk,
    program: &Program,
    memo: &mut Memo,
    request: &Request,
    answer: &mut Answer,
)
    ensures led { Led desk.old desk.new }
    ensures system { desk.new.machine.checked ≡ desk.old.machine.checked }
    ensures does { Evaluates program.now request.now desk.old memo.old.seen.items answer.old answer.new desk.new
        memo.new.seen.items }
    ensures refused { (desk.new ≡ desk.old) ⊎ (IsDone answer.old.outcome → IsDone answer.new.outcome) }
{
    match frame_in(alloc, desk.machine(), program, request, answer) {
        Some((branch, instance)) => {
            let line = line_in(request);
            let marked = has_mark(request);
            typed(
                alloc, desk, program, memo, branch, instance, line, marked, answer,
            );
        }
        None => {}
    }
}

/// Answers an expression that a client looks at, which changes nothing.
fn evaluate_seen(
    alloc: Global,
    desk: &mut Desk,
    program: &Program,
    request: &Request,
    answer: &mut Answer,
)
    ensures { DoesNothing desk.old answer.old answer.new desk.new }
{
    match frame_in(alloc, desk.machine(), program, request, answer) {
        Some((_, instance)) => looked_at(alloc, desk, program, instance, line_in(request), answer),
        None => {}
    }
}

/// Answers a line that was typed.
#[tactic(auto, using(crate::proofs::Lines::stays))]
fn typed(
    alloc: Global,
    desk: &mut Desk,
    program: &Program,
    memo: &mut Memo,
    branch: u32,
    instance: usize,
    line: &str,
    marked: bool,
    answer: &mut Answer,
)
    ensures led { Led desk.old desk.new }
    ensures system { desk.new.machine.checked ≡ desk.old.machine.checked }
    ensures does { (DoesNothing desk.old answer.old answer.new desk.new
        × (memo.new.seen.items ≡ memo.old.seen.items)
        × (IsName program.now instance line.now ⊎ AsksNone desk.old.machine.checked line.now answer.new))
        ⊎ LineDoes program.now desk.old branch line.now memo.old.seen.items answer.old answer.new desk.new
        memo.new.seen.items }
    ensures refused { (desk.new ≡ desk.old) ⊎ (IsDone answer.old.outcome → IsDone answer.new.outcome) }
{
    if is_command(program, instance, line, marked) {
        typed_word(alloc, desk, program, memo, branch, line, answer);
    } else {
        typed_name(alloc, desk, program, memo, branch, instance, line, answer);
    }
}

/// Whether the line is a word that is taken for a line, and not for a name: one behind a mark, or that names nothing.
fn is_command(program: &Program, instance: usize, line: &str, marked: bool) -> bool {
    (is_own(line) || is_bare(line)) && (marked || !is_name(program, instance, line))
}

/// Whether the line names something, or may name more than one thing.
fn is_name(program: &Program, instance: usize, line: &str) -> bool {
    program.index.find(instance, line).is_some() || program.index.is_declared(line)
}

/// Answers a line of one word that was typed.
#[tactic(auto, using(crate::proofs::Lines::stays))]
fn typed_word(
    alloc: Global,
    desk: &mut Desk,
    program: &Program,
    memo: &mut Memo,
    branch: u32,
    line: &str,
    answer: &mut Answer,
)
    ensures led { Led desk.old desk.new }
    ensures system { desk.new.machine.checked ≡ desk.old.machine.checked }
    ensures does { (DoesNothing desk.old answer.old answer.new desk.new
        × (memo.new.seen.items ≡ memo.old.seen.items) × AsksNone desk.old.machine.checked line.now answer.new)
        ⊎ LineDoes program.now desk.old branch line.now memo.old.seen.items answer.old answer.new desk.new
        memo.new.seen.items }
    ensures refused { (desk.new ≡ desk.old) ⊎ (IsDone answer.old.outcome → IsDone answer.new.outcome) }
{
    if is_own(line) {
        own_line(alloc, desk, program, memo, branch, line, answer);
    } else {
        typed_line(alloc, desk, program, memo, branch, line, answer);
    }
}

/// Answers a line that was typed and is no such word: a name, or a line of a script.
#[tactic(auto, using(crate::proofs::Lines::stays))]
fn typed_name(
    alloc: Global,
    desk: &mut Desk,
    program: &Program,
    memo: &mut Memo,
    branch: u32,
    instance: usize,
    line: &str,
    answer: &mut Answer,
)
    ensures led { Led desk.old desk.new }
    ensures system { desk.new.machine.checked ≡ desk.old.machine.checked }
    ensures does { (DoesNothing desk.old answer.old answer.new desk.new
        × (memo.new.seen.items ≡ memo.old.seen.items)
        × (IsName program.now instance line.now ⊎ AsksNone desk.old.machine.checked line.now answer.new))
        ⊎ LineDoes program.now desk.old branch line.now memo.old.seen.items answer.old answer.new desk.new
        memo.new.seen.items }
    ensures refused { (desk.new ≡ desk.old) ⊎ (IsDone answer.old.outcome → IsDone answer.new.outcome) }
{
    match program.index.find(instance, line) {
        Some(thing) => told(alloc, desk.machine(), program, thing, answer),
        None if program.index.is_declared(line) => tell_several(alloc, program, line, answer),
        None => typed_line(alloc, desk, program, memo, branch, line, answer),
    }
}

/// Answers an expression that a client looks at, which changes nothing.
fn looked_at(
    alloc: Global,
    desk: &mut Desk,
    program: &Program,
    instance: usize,
    line: &str,
    answer: &mut Answer,
)
    ensures { DoesNothing desk.old answer.old answer.new desk.new }
{
    match program.index.find(instance, line) {
        Some(thing) => told(alloc, desk.machine(), program, thing, answer),
        None if program.index.is_declared(line) => tell_several(alloc, program, line, answer),
        None if is_own(line) => only_typed(alloc, line, answer),
        None => looked_at_line(alloc, desk, program, line, answer),
    }
}

/// Refuses a name that may mean more than one thing, and tells which.
fn tell_several(alloc: Global, program: &Program, name: &str, answer: &mut Answer)
    ensures { answer.new.notes ≡ answer.old.notes }
{
    let mut words = Words::of(alloc, "the call of this frame does not declare `");
    words.add(name);
    words.add("`, and others do: with the number of its call it is ");
    program.index.add_candidates(name, &mut words);
    answer.refuse(61, words.as_str());
}

/// Whether the line is understood here alone.
fn is_own(line: &str) -> bool
    ensures { IsTrue result ↔ ((line.now ≡ codes "back") ⊎ (line.now ≡ codes "rewind")) }
{
    line == "back" || line == "rewind"
}

/// Whether the line takes one step back.
fn is_back(line: &str) -> bool
    ensures { IsTrue result ↔ line.now ≡ codes "back" }
{
    line == "back"
}

/// Whether the line is one of a script that stands alone.
fn is_bare(line: &str) -> bool {
    line == "ready" || line == "live" || line == "view" || line == "trace"
}

/// Answers `back`, which takes the newest step of the thread back, and `rewind`, which takes all back.
fn own_line(
    alloc: Global,
    desk: &mut Desk,
    program: &Program,
    memo: &mut Memo,
    branch: u32,
    line: &str,
    answer: &mut Answer,
)
    requires { (line.now ≡ codes "back") ⊎ (line.now ≡ codes "rewind") }
    ensures led { Led desk.old desk.new }
    ensures system { desk.new.machine.checked ≡ desk.old.machine.checked }
    ensures does { LineDoes program.now desk.old branch line.now memo.old.seen.items answer.old answer.new desk.new
        memo.new.seen.items }
    ensures done { IsDone answer.old.outcome → IsDone answer.new.outcome }
{
    result(alloc, line, "", answer);
    if is_back(line) {
        back_in(alloc, desk, program, memo, branch, answer);
    } else {
        reverse_in(alloc, desk, program, memo, branch, false, answer);
    }
}

/// Gives the response a result.
fn result(alloc: Global, text: &str, kind: &str, answer: &mut Answer)
    ensures done { IsDone answer.old.outcome → IsDone answer.new.outcome }
    ensures quiet { answer.new.notes ≡ answer.old.notes }
    ensures lacks { answer.new.lacks ≡ false → answer.old.lacks ≡ false }
{
    let mut body = Members::new(alloc);
    body.text("result", text);
    if !kind.is_empty() {
        body.text("type", kind);
    }
    body.number("variablesReference", 0);
    answer.body(body);
}

/// Tells the value of a variable, and the step that wrote it; or who stands at a channel.
fn told(alloc: Global, machine: &Machine, program: &Program, thing: Thing, answer: &mut Answer)
    ensures { answer.new.notes ≡ answer.old.notes }
{
    match thing {
        Thing::Variable(number) => told_variable(alloc, machine, number, answer),
        Thing::Channel(number) => told_channel(alloc, machine, program, number, answer),
    }
}

fn told_variable(alloc: Global, machine: &Machine, number: u32, answer: &mut Answer)
    ensures { answer.new.notes ≡ answer.old.notes }
{
    let mut words = Words::new(alloc);
    let mut kind = Words::new(alloc);
    if let Some(value) = machine.value(number) {
        words.number(value.bits());
        kind.number(u64::from(value.width()));
        kind.add(" bits");
    }
    add_writer(alloc, machine, number, &mut words);
    result(alloc, words.as_str(), kind.as_str(), answer);
}

/// Adds the step that wrote the variable last.
fn add_writer(alloc: Global, machine: &Machine, variable: u32, words: &mut Words) {
    let live = machine.live_events();
    let Some(ticket) = live.last_writer(variable) else {
        words.add(" (never written)");
        return;
    };
    words.add(" (step ");
    words.number(ticket);
    if let Some(index) = live.index_of(ticket) {
        if let Some((_, event)) = live.pair_at(index as u64) {
            words.add(": ");
            words.add(event_words(alloc, machine, event).as_str());
        }
    }
    words.add(")");
}

fn told_channel(
    alloc: Global,
    machine: &Machine,
    program: &Program,
    number: u32,
    answer: &mut Answer,
)
    ensures { answer.new.notes ≡ answer.old.notes }
{
    match &program.sight {
        Some(sight) => {
            let words = channel_words(alloc, machine, program, sight, number);
            result(alloc, words.as_str(), "", answer);
        }
        None => answer.lacks = true,
    }
}

/// Answers a line of a script that was typed.
#[tactic(auto, using(crate::proofs::Lines::stays))]
fn typed_line(
    alloc: Global,
    desk: &mut Desk,
    program: &Program,
    memo: &mut Memo,
    branch: u32,
    line: &str,
    answer: &mut Answer,
)
    ensures led { Led desk.old desk.new }
    ensures system { desk.new.machine.checked ≡ desk.old.machine.checked }
    ensures does { (DoesNothing desk.old answer.old answer.new desk.new
        × (memo.new.seen.items ≡ memo.old.seen.items) × AsksNone desk.old.machine.checked line.now answer.new)
        ⊎ LineDoes program.now desk.old branch line.now memo.old.seen.items answer.old answer.new desk.new
        memo.new.seen.items }
    ensures refused { (desk.new ≡ desk.old) ⊎ (IsDone answer.old.outcome → IsDone answer.new.outcome) }
{
    match read_command(alloc, desk.machine().checked(), line.as_bytes(), 1) {
        Ok(said) => typed_said(alloc, desk, program, memo, branch, line, &said, answer),
        Err(fault) => unread(alloc, fault, line, answer),
    }
}

/// Answers what a line that was typed says.
#[tactic(auto, using(crate::proofs::Lines::stays))]
fn typed_said(
    alloc: Global,
    desk: &mut Desk,
    program: &Program,
    memo: &mut Memo,
    branch: u32,
    line: &str,
    said: &Line,
    answer: &mut Answer,
)
    requires { Says desk.old.machine.checked line.now said.now }
    ensures led { Led desk.old desk.new }
    ensures system { desk.new.machine.checked ≡ desk.old.machine.checked }
    ensures does { (DoesNothing desk.old answer.old answer.new desk.new
        × (memo.new.seen.items ≡ memo.old.seen.items) × AsksNone desk.old.machine.checked line.now answer.new)
        ⊎ LineDoes program.now desk.old branch line.now memo.old.seen.items answer.old answer.new desk.new
        memo.new.seen.items }
    ensures refused { (desk.new ≡ desk.old) ⊎ (IsDone answer.old.outcome → IsDone answer.new.outcome) }
{
    match said {
        Line::Asked(command) => ask(alloc, desk, memo, branch, command, answer),
        other => show_line(alloc, desk, program, other, line, answer),
    }
}

/// Answers a line of a script that a client looks at.
fn looked_at_line(
    alloc: Global,
    desk: &mut Desk,
    program: &Program,
    line: &str,
    answer: &mut Answer,
)
    ensures { DoesNothing desk.old answer.old answer.new desk.new }
{
    match read_command(alloc, desk.machine().checked(), line.as_bytes(), 1) {
        Ok(said) => looked_at_said(alloc, desk, program, line, &said, answer),
        Err(fault) => unread(alloc, fault, line, answer),
    }
}

/// Answers what a line says that a client looks at.
fn looked_at_said(
    alloc: Global,
    desk: &mut Desk,
    program: &Program,
    line: &str,
    said: &Line,
    answer: &mut Answer,
)
    ensures { DoesNothing desk.old answer.old answer.new desk.new }
{
    match said {
        Line::Asked(command) => look(alloc, desk, command, line, answer),
        other => show_line(alloc, desk, program, other, line, answer),
    }
}

/// Answers a line that says nothing, or that there was no memory to read.
fn unread(alloc: Global, fault: Fault, line: &str, answer: &mut Answer)
    ensures quiet { answer.new.notes ≡ answer.old.notes }
    ensures memory { fault ≡ Failed.Memory → answer.new.lacks ≡ true }
{
    match fault {
        Fault::Memory => answer.lacks = true,
        _ => no_line(alloc, line, answer),
    }
}

/// Answers a line that asks the desk nothing.
fn show_line(
    alloc: Global,
    desk: &Desk,
    program: &Program,
    said: &Line,
    line: &str,
    answer: &mut Answer,
)
    ensures { answer.new.notes ≡ answer.old.notes }
{
    match said {
        Line::View => show(alloc, view_bytes(alloc, desk, program), answer),
        Line::Trace => show(alloc, write_trace(alloc, desk.machine()), answer),
        Line::Asked(_) | Line::Session(_) | Line::Empty => no_line(alloc, line, answer),
    }
}

/// The view of the source.
fn view_bytes(alloc: Global, desk: &Desk, program: &Program) -> Result<Vec<u8>, AllocError> {
    view(
        alloc,
        desk.machine(),
        desk.breaks(0),
        program.source.as_slice(),
    )
}

/// Refuses what is no variable, no channel and no line, and tells what serves in its place, where that is known.
fn no_line(alloc: Global, line: &str, answer: &mut Answer)
    ensures { answer.new.notes ≡ answer.old.notes }
{
    let mut words = Words::of(alloc, "`");
    words.add(line);
    words.add("` is no variable, no channel, and no line that is answered here");
    add_in_place(line, &mut words);
    answer.refuse(61, words.as_str());
}

/// Answers with these bytes, without the end of their last line.
fn show(alloc: Global, bytes: Result<Vec<u8>, AllocError>, answer: &mut Answer)
    ensures done { IsDone answer.old.outcome → IsDone answer.new.outcome }
    ensures quiet { answer.new.notes ≡ answer.old.notes }
    ensures lacks { answer.new.lacks ≡ false → answer.old.lacks ≡ false }
{
    match bytes {
        Ok(bytes) => {
            let text = str::from_utf8(bytes.as_slice()).unwrap_or("(not a text)");
            result(alloc, text.strip_suffix('\n').unwrap_or(text), "", answer);
        }
        Err(_) => answer.lacks = true,
    }
}

/// Asks the desk, and answers as a script is answered. Where something has changed, this is told behind.
fn ask(
    alloc: Global,
    desk: &mut Desk,
    memo: &mut Memo,
    branch: u32,
    command: &Command,
    answer: &mut Answer,
)
    ensures led { Led desk.old desk.new }
    ensures system { desk.new.machine.checked ≡ desk.old.machine.checked }
    ensures does { AnswersAt desk.old branch command.now memo.old.seen.items answer.old answer.new desk.new
        memo.new.seen.items }
    ensures done { IsDone answer.old.outcome → IsDone answer.new.outcome }
{
    let reply = asked(desk, command);
    show_reply(alloc, desk.machine(), command, &reply, answer);
    if has_moved(&reply) {
        memo.seen.clear();
        stop(alloc, answer, Stop::Stepped, branch, "");
    } else {
        tell_set(alloc, command, &reply, answer);
    }
}

/// Keeps in mind that breakpoints were set or cleared, and tells what stops there.
fn tell_set(alloc: Global, command: &Command, reply: &Reply, answer: &mut Answer)
    ensures done { IsDone answer.old.outcome → IsDone answer.new.outcome }
    ensures texts { TellsTexts answer.old answer.new }
{
    keep_set(command, answer);
    if is_set(command, reply) {
        let words =
            "`branch` in the console stops there. `continue` stops where the editor has a breakpoint.";
        tell(alloc, words, "console", answer);
    }
}

/// Keeps in mind that breakpoints were set or cleared, if they were.
fn keep_set(command: &Command, answer: &mut Answer)
    ensures done { IsDone answer.old.outcome → IsDone answer.new.outcome }
    ensures quiet { answer.new.notes ≡ answer.old.notes }
    ensures lacks { answer.new.lacks ≡ answer.old.lacks }
{
    match command {
        Command::Break(_) | Command::Clear(_) => answer.did(),
        _ => {}
    }
}

/// Whether the command set a breakpoint.
fn is_set(command: &Command, reply: &Reply) -> bool {
    matches!(command, Command::Break(_)) && matches!(reply, Reply::Done)
}

/// Asks the desk.
fn asked(desk: &mut Desk, command: &Command) -> Reply
    ensures led { Led desk.old desk.new }
    ensures system { desk.new.machine.checked ≡ desk.old.machine.checked }
    ensures answers { Answers desk.old 0 command.now result desk.new }
{
    desk.perform(0, command)
}

/// Answers as a script is answered, and says in words what the numbers mean.
fn show_reply(
    alloc: Global,
    machine: &Machine,
    command: &Command,
    reply: &Reply,
    answer: &mut Answer,
)
    ensures done { IsDone answer.old.outcome → IsDone answer.new.outcome }
    ensures quiet { answer.new.notes ≡ answer.old.notes }
    ensures lacks { answer.new.lacks ≡ false → answer.old.lacks ≡ false }
{
    let meaning = meaning_of(alloc, machine, reply);
    let bytes = reply_bytes(alloc, machine.checked(), command, reply, meaning.as_str());
    show(alloc, bytes, answer);
}

/// What a reply means, in words; nothing where it says so itself.
fn meaning_of(alloc: Global, machine: &Machine, reply: &Reply) -> Words {
    match reply {
        Reply::Refused(why) => Words::of(alloc, words_of(*why)),
        Reply::Stepped(_, event) => event_words(alloc, machine, event),
        Reply::Undone(_, event) => taken_back(alloc, machine, event),
        Reply::Rolled(count) => counted(alloc, *count),
        Reply::Blamed(ticket) => live_words(alloc, machine, *ticket),
        Reply::Stopped(_) => Words::of(alloc, "a breakpoint of the console stops the branch there"),
        Reply::Idle => Words::of(alloc, "the branch has no step"),
        _ => Words::new(alloc),
    }
}

/// The event in words, which was taken back.
fn taken_back(alloc: Global, machine: &Machine, event: &Event) -> Words {
    let mut words = Words::of(alloc, "taken back: ");
    words.add(event_words(alloc, machine, event).as_str());
    words
}

/// That so many steps were taken back.
fn counted(alloc: Global, count: u64) -> Words {
    let mut words = Words::of(alloc, "took back ");
    words.number(count);
    words.add(if count == 1 { " step" } else { " steps" });
    words
}

/// The live step of this ticket in words.
fn live_words(alloc: Global, machine: &Machine, ticket: u64) -> Words {
    let live = machine.live_events();
    match live.index_of(ticket) {
        Some(index) => match live.pair_at(index as u64) {
            Some((_, event)) => event_words(alloc, machine, event),
            None => Words::new(alloc),
        },
        None => Words::new(alloc),
    }
}

/// Asks the desk where the command changes nothing.
fn look(alloc: Global, desk: &mut Desk, command: &Command, line: &str, answer: &mut Answer)
    ensures { DoesNothing desk.old answer.old answer.new desk.new }
{
    if only_reads(command) {
        let reply = asked_alone(desk, command);
        show_reply(alloc, desk.machine(), command, &reply, answer);
    } else {
        only_typed(alloc, line, answer);
    }
}

/// Refuses a line that changes something where it was not typed for that.
fn only_typed(alloc: Global, line: &str, answer: &mut Answer)
    ensures { answer.new.notes ≡ answer.old.notes }
{
    let mut words = Words::of(alloc, "`");
    words.add(line);
    words.add("` changes something: type it in the console, or put a `!` before it");
    answer.refuse(61, words.as_str());
}

/// Asks the desk what changes nothing.
fn asked_alone(desk: &mut Desk, command: &Command) -> Reply
    requires { reads command.now ≡ true }
    ensures { desk.new ≡ desk.old }
{
    asked(desk, command)
}

/// Whether the reply tells that steps were taken or taken back.
fn has_moved(reply: &Reply) -> bool
    ensures { result ≡ has_moved reply.now }
{
    matches!(
        reply,
        Reply::Stepped(_, _) | Reply::Undone(_, _) | Reply::Rolled(_)
    )
}

/// Whether the command changes nothing.
fn only_reads(command: &Command) -> bool
    ensures { result ≡ reads command.now }
{
    matches!(
        command,
        Command::Blame(_)
            | Command::Ready
            | Command::Consequences(_)
            | Command::Live
            | Command::Value(_)
    )
}

/// The bytes with which a script is answered where this is the reply to the command, and a line of what it means.
fn reply_bytes(
    alloc: Global,
    checked: &Checked,
    command: &Command,
    reply: &Reply,
    meaning: &str,
) -> Result<Vec<u8>, AllocError> {
    let mut out = write_answer(alloc, checked, command, reply)?;
    if !meaning.is_empty() {
        out.extend_from_slice(b"  ")?;
        out.extend_from_slice(meaning.as_bytes())?;
    }
    Ok(out)
}
