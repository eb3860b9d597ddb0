// The launch of a description.
ghost use Rattle.std.specs.Prelude.{◌≡◌, None, Some, IfOk, MatchOption, MatchResult, false, true};
ghost use Rattle.front_end.specs.Accepting.{AcceptedAs};
ghost use Rattle.front_end.specs.FaultNumbers.{fault_number};
ghost use Rattle.trace_file.specs.Loading.{IsLoaded};
ghost use Rattle.serde_json.specs.View.{view};
ghost use Rattle.machine.specs.AtMachine.{AtMachine};
ghost use Rattle.dap_views.specs.Lined.{AreLinesOf};
ghost use Rattle.dap.specs.Asking.{Asks, IsAsked, asked_by};
ghost use Rattle.dap.specs.Files.{text_of};
ghost use Rattle.dap.specs.Launching.{BeginsAt, BeginsOn, IsNew, IsUnset, TellsBegun};
ghost use Rattle.dap.specs.Stops.{NotDone, RefusedAs};
ghost use Rattle.dap.specs.Unlaunched.{AreUnaccepted, BeginsNone, CannotBegin, CannotLaunch, Fails, IsOfTexts};
ghost use Rattle.dap.specs.Unlaunched.{IsOfTrace, IsUnloaded};
ghost use Rattle.dap.specs.declared.launch.Failed.{Failed as Failing};

use crate::asked::launch_of;
use crate::paths::beside;
use crate::sources::Sources;
use crate::texts::{Texts, texts_of};
use dap_messages::{Answer, Members, Outcome, Told};
use dap_moves::{Desk, Machine};
use dap_requests::tell;
use dap_views::{Counting, Index, Launch, Lines, Memo, Program, Words, base_of};
use diagnosis::{Input, Inputs, explain};
use front_end::accept;
use refusal_pages::page_of;
use serde_json::Value;
use sharing_check::Checked;
use std::alloc::{AllocError, Global};
use std::mem;
use trace_file::load_text;

/// A program that was launched, and its desk.
#[derive(Drop)]
pub struct Launched {
    pub program: Program,
    pub memo: Memo,
    pub desk: Desk,
}

/// Why nothing is launched.
#[derive(Drop)]
pub(crate) enum Failed {
    Memory,
    /// it was told
    Told,
}

impl From<AllocError> for Failed {
    ghost from_gives = { λ _ failed. failed ≡ Failing.Memory };

    fn from(_error: AllocError) -> Failed {
        Failed::Memory
    }
}

/// Launches what the arguments name. Where it is refused, the answer says so, and none is given.
pub(crate) fn start<F: Sources>(
    alloc: Global,
    files: &F,
    counting: Counting,
    arguments: &Value,
    answer: &mut Answer,
) -> Option<Launched>
    ensures { MatchOption result (NotDone (CannotLaunch (F.reads files.now) (view arguments.now)) answer.new)
        (λ launched. (asked : Asks) × IsAsked (view arguments.now) asked
        × TellsBegun (F.reads files.now) counting asked answer.old answer.new launched) }
{
    match launch_of(alloc, arguments, answer) {
        Ok(asked) => start_as(alloc, files, counting, asked, answer),
        Err(failed) => {
            note(failed, answer);
            None
        }
    }
}

/// Keeps in mind why nothing is launched, where it was not told.
fn note(failed: Failed, answer: &mut Answer)
    ensures memory { failed ≡ Failing.Memory → answer.new.lacks ≡ true }
    ensures told { failed ≡ Failing.Told → answer.new ≡ answer.old }
{
    match failed {
        Failed::Memory => answer.lacks = true,
        Failed::Told => {}
    }
}

/// Launches what is asked for.
pub(crate) fn start_as<F: Sources>(
    alloc: Global,
    files: &F,
    counting: Counting,
    asked: Launch,
    answer: &mut Answer,
) -> Option<Launched>
    ensures { MatchOption result (NotDone (CannotBegin (F.reads files.now) (asked_by asked)) answer.new)
        (λ launched. TellsBegun (F.reads files.now) counting (asked_by asked) answer.old answer.new launched) }
{
    match texts_of(alloc, files, &asked, answer) {
        Ok(texts) => start_on(alloc, counting, asked, texts, answer),
        Err(failed) => {
            note(failed, answer);
            None
        }
    }
}

/// Launches what is asked for on these texts.
fn start_on(
    alloc: Global,
    counting: Counting,
    asked: Launch,
    texts: Texts,
    answer: &mut Answer,
) -> Option<Launched>
    ensures { MatchOption result
        (NotDone (BeginsNone texts.source.items texts.stimulus.items (text_of texts.trace)) answer.new)
        (λ launched. (m : AtMachine) × BeginsAt texts.source.items texts.stimulus.items (text_of texts.trace) m
        × IsNew (asked_by asked) counting texts.source.items m launched × (answer.new ≡ answer.old)) }
{
    match machine_of(alloc, &asked, &texts, counting, answer) {
        Ok(machine) => launched_on(alloc, asked, texts, counting, machine, answer),
        Err(failed) => {
            note(failed, answer);
            None
        }
    }
}

/// The program on this machine.
fn launched_on(
    alloc: Global,
    asked: Launch,
    texts: Texts,
    counting: Counting,
    machine: Machine,
    answer: &mut Answer,
) -> Option<Launched>
    ensures { MatchOption result (answer.new.lacks ≡ true)
        (λ launched. IsNew (asked_by asked) counting texts.source.items machine launched
        × (answer.new ≡ answer.old)) }
{
    match program_of(alloc, asked, texts, counting) {
        Ok(program) => Some(Launched {
            program,
            memo: Memo::new(alloc),
            desk: Desk::new(machine),
        }),
        Err(AllocError) => {
            note(Failed::Memory, answer);
            None
        }
    }
}

/// The machine before the first step, or behind the trace.
fn machine_of(
    alloc: Global,
    asked: &Launch,
    texts: &Texts,
    counting: Counting,
    answer: &mut Answer,
) -> Result<Machine, Failed>
    ensures { MatchResult result
        (λ machine. BeginsAt texts.now.source.items texts.now.stimulus.items (text_of texts.now.trace) machine
        × (answer.new ≡ answer.old))
        (λ failed. Fails (BeginsNone texts.now.source.items texts.now.stimulus.items (text_of texts.now.trace)) failed
        answer.new) }
{
    let source = texts.source.as_slice();
    let stimulus = texts.stimulus.as_slice();
    match checked(alloc, asked, source, stimulus, counting, answer) {
        Ok(checked) => machine_on(alloc, checked, asked, &texts.trace, counting, answer),
        Err(failed) => Err(failed),
    }
}

/// The program over these texts, on which nothing is set.
fn program_of(
    alloc: Global,
    launch: Launch,
    texts: Texts,
    counting: Counting,
) -> Result<Program, AllocError>
    ensures { IfOk result (IsUnset (asked_by launch) counting texts.source.items) }
{
    match seen_in(alloc, texts.source.as_slice()) {
        Ok((index, lines)) => Ok(unset(alloc, launch, texts.source, index, lines, counting)),
        Err(AllocError) => Err(AllocError),
    }
}

/// What the source declares, and its lines.
fn seen_in(alloc: Global, source: &[u8]) -> Result<(Index, Lines), AllocError>
    ensures { IfOk result (λ found. AreLinesOf source.now found.1) }
{
    let index = Index::new(alloc, source)?;
    let lines = Lines::new(alloc, source)?;
    Ok((index, lines))
}

/// The program of this launch over this source, on which nothing is set.
fn unset(
    alloc: Global,
    launch: Launch,
    source: Vec<u8>,
    index: Index,
    lines: Lines,
    counting: Counting,
) -> Program
    requires { AreLinesOf source.items lines }
    ensures { IsUnset (asked_by launch) counting source.items result }
{
    Program {
        launch,
        counting,
        source,
        lines,
        index,
        asked: Vec::new(alloc),
        elsewhere: None,
        stops: Vec::new(alloc),
        watched: Vec::new(alloc),
        excepts: true,
        last_id: 0,
        begun: false,
        ended: false,
        sight: None,
    }
}

/// The system of source and stimulus.
fn checked(
    alloc: Global,
    asked: &Launch,
    source: &[u8],
    stimulus: &[u8],
    counting: Counting,
    answer: &mut Answer,
) -> Result<Checked, Failed>
    ensures { MatchResult result (λ checked. AcceptedAs source.now stimulus.now checked × (answer.new ≡ answer.old))
        (λ failed. Fails (AreUnaccepted source.now stimulus.now) failed answer.new) }
{
    match accept(alloc, source, stimulus) {
        Ok(checked) => Ok(checked),
        Err(fault) => Err(refused(alloc, asked, source, stimulus, fault, counting, answer)),
    }
}

/// Refuses source or stimulus, and tells what is at its place.
fn refused(
    alloc: Global,
    asked: &Launch,
    source: &[u8],
    stimulus: &[u8],
    fault: front_end::Fault,
    counting: Counting,
    answer: &mut Answer,
) -> Failed
    ensures { Fails (IsOfTexts fault) result answer.new }
{
    match fault {
        front_end::Fault::Memory => Failed::Memory,
        _ => {
            refuse_texts(alloc, asked, source, fault, counting, answer);
            let place = (fault.number(), fault.field());
            tell_words(alloc, asked, place, source, Some(stimulus), None, answer);
            Failed::Told
        }
    }
}

/// Refuses source or stimulus.
fn refuse_texts(
    alloc: Global,
    asked: &Launch,
    source: &[u8],
    fault: front_end::Fault,
    counting: Counting,
    answer: &mut Answer,
)
    ensures { NotDone (λ number. number ≡ fault_number fault) answer.new }
{
    let number = fault.number();
    let field = fault.field().unwrap_or(0);
    if number < 30 {
        let (line, column) = place_in(source, field);
        refuse_at(
            alloc,
            asked.program.as_str(),
            line,
            column,
            number,
            counting,
            answer,
        );
        return;
    }
    let line = field.max(1);
    match &asked.stimulus {
        Some(name) => refuse_at(alloc, name.as_str(), line, 1, number, counting, answer),
        None => refuse_beside(
            alloc,
            asked.program.as_str(),
            line,
            number,
            counting,
            answer,
        ),
    }
}

/// Refuses the stimulus beside a source.
fn refuse_beside(
    alloc: Global,
    program: &str,
    line: u64,
    number: u32,
    counting: Counting,
    answer: &mut Answer,
)
    ensures { NotDone (λ n. n ≡ number) answer.new }
{
    match beside(alloc, program) {
        Ok(name) => refuse_at(alloc, name.as_str(), line, 1, number, counting, answer),
        Err(AllocError) => answer.lacks = true,
    }
}

/// The line and the column of the byte at this offset, from 1. Columns count units of UTF-16, as editors do.
fn place_in(source: &[u8], offset: u64) -> (u64, u64) {
    let mut line = 1u64;
    let mut column = 1u64;
    for byte in source.get(..offset as usize).unwrap_or(&[]) {
        if *byte == b'\n' {
            line = line.saturating_add(1);
            column = 1;
        } else {
            column = column.saturating_add(units_of(*byte));
        }
    }
    (line, column)
}

/// How many units of UTF-16 a character has that begins with this byte; none where the byte begins none.
fn units_of(byte: u8) -> u64 {
    match byte {
        0x80..=0xbf => 0,
        0xf0..=0xff => 2,
        _ => 1,
    }
}

/// The machine of the system, behind the trace if there is one.
fn machine_on(
    alloc: Global,
    checked: Checked,
    asked: &Launch,
    trace: &Option<Vec<u8>>,
    counting: Counting,
    answer: &mut Answer,
) -> Result<Machine, Failed>
    ensures { MatchResult result
        (λ machine. BeginsOn checked (text_of trace.now) machine × (answer.new ≡ answer.old))
        (λ failed. Fails (IsUnloaded checked (text_of trace.now)) failed answer.new) }
{
    match trace {
        Some(text) => loaded(alloc, checked, asked, text.as_slice(), counting, answer),
        None => fresh(alloc, checked),
    }
}

/// The machine of the system behind the trace.
fn loaded(
    alloc: Global,
    checked: Checked,
    asked: &Launch,
    trace: &[u8],
    counting: Counting,
    answer: &mut Answer,
) -> Result<Machine, Failed>
    ensures { MatchResult result (λ machine. IsLoaded checked trace.now machine × (answer.new ≡ answer.old))
        (λ failed. Fails (IsUnloaded checked (Some trace.now)) failed answer.new) }
{
    match load_text(alloc, checked, trace) {
        Ok(machine) => Ok(machine),
        Err(fault) => Err(refuse_trace(alloc, asked, fault, trace, counting, answer)),
    }
}

/// The machine before the first step.
fn fresh(alloc: Global, checked: Checked) -> Result<Machine, Failed>
    ensures { MatchResult result (λ machine. BeginsOn checked None machine) (λ failed. failed ≡ Failing.Memory) }
{
    match Machine::new(alloc, checked) {
        Ok(machine) => Ok(machine),
        Err(_) => Err(Failed::Memory),
    }
}

/// Refuses the trace, and tells what is at its place.
fn refuse_trace(
    alloc: Global,
    asked: &Launch,
    fault: trace_file::Fault,
    trace: &[u8],
    counting: Counting,
    answer: &mut Answer,
) -> Failed
    ensures { Fails (IsOfTrace fault) result answer.new }
{
    match fault {
        trace_file::Fault::Memory => Failed::Memory,
        _ => {
            let line = fault.field().unwrap_or(1);
            let name = trace_name(asked);
            refuse_at(alloc, name, line, 1, fault.number(), counting, answer);
            let place = (fault.number(), fault.field());
            tell_words(alloc, asked, place, &[], None, Some(trace), answer);
            Failed::Told
        }
    }
}

/// The name of the trace; nothing where none is asked for.
fn trace_name(asked: &Launch) -> &str {
    match &asked.trace {
        Some(name) => name.as_str(),
        None => "",
    }
}

/// Tells what `--explain` tells of a fault of this number and field in these texts, where there is memory for it. The
/// response stays.
fn tell_words<'a>(
    alloc: Global,
    asked: &'a Launch,
    place: (u32, Option<u64>),
    source: &'a [u8],
    stimulus: Option<&'a [u8]>,
    trace: Option<&'a [u8]>,
    answer: &mut Answer,
)
    ensures outcome { answer.new.outcome ≡ answer.old.outcome }
    ensures lacks { answer.new.lacks ≡ false → answer.old.lacks ≡ false }
{
    let outcome = mem::replace(&mut answer.outcome, Outcome::Done(None));
    add_words(alloc, asked, place, source, stimulus, trace, answer);
    answer.outcome = outcome;
}

/// Tells these words.
fn add_words<'a>(
    alloc: Global,
    asked: &'a Launch,
    place: (u32, Option<u64>),
    source: &'a [u8],
    stimulus: Option<&'a [u8]>,
    trace: Option<&'a [u8]>,
    answer: &mut Answer,
)
    ensures { answer.new.lacks ≡ false → answer.old.lacks ≡ false }
{
    let (number, field) = place;
    let inputs = Inputs {
        source: Input {
            name: base_of(asked.program.as_str()),
            bytes: source,
        },
        stimulus: input_of(&asked.stimulus, "the stimulus beside it", stimulus),
        trace: input_of(&asked.trace, "the trace", trace),
        script: None,
        unread: None,
    };
    if let Ok(words) = explain(alloc, number, field, &inputs) {
        if !words.is_empty() {
            tell(alloc, words.as_str().trim_ascii_end(), "stderr", answer);
        }
    }
}

/// A text with the name of its file, where it is at hand.
fn input_of<'a>(
    name: &'a Option<String>,
    otherwise: &'static str,
    bytes: Option<&'a [u8]>,
) -> Option<Input<'a>> {
    let name = match name {
        Some(name) => base_of(name.as_str()),
        None => otherwise,
    };
    Some(Input {
        name,
        bytes: bytes?,
    })
}

/// Refuses with the place of the fault, and tells it with a link to that place. Words count from 1, members as the
/// client does.
fn refuse_at(
    alloc: Global,
    name: &str,
    line: u64,
    column: u64,
    number: u32,
    counting: Counting,
    answer: &mut Answer,
)
    ensures { RefusedAs number answer.new.outcome }
{
    let mut words = Words::of(alloc, name);
    words.add(":");
    words.number(line);
    words.add(":");
    words.number(column);
    words.add(": refused ");
    words.number(u64::from(number));
    if let Some(page) = page_of(number) {
        words.add(", ");
        words.add(page.name);
    }
    answer.refuse(u64::from(number), words.as_str());
    words.add("\n");
    let mut source = Members::new(alloc);
    source.text("name", base_of(name));
    source.text("path", name);
    let mut body = Members::new(alloc);
    body.text("category", "stderr");
    body.text("output", words.as_str());
    body.object("source", source);
    body.number("line", line.saturating_sub(counting.lines));
    body.number("column", column.saturating_sub(counting.columns));
    answer.note(Told::Output, body);
}
