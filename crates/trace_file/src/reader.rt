ghost use Rattle.std.specs.Prelude.{◌≡◌, ℕ, List, [], MatchResult};
ghost use Rattle.trace_file.specs.TraceText.{HasSteps};
ghost use Rattle.trace_file.specs.Loading.{IsLoaded, IsRefused, StepsStop, Loads, after_reading};
ghost use Rattle.trace_file.specs.internal.Fields.{HasNone};
ghost use Rattle.trace_file.specs.internal.OneStep.{Loading, LineTaken, LineStops, Taken, StepStops, HeaderStops, outcome_of};

use crate::Fault;
use crate::line::{cut_at, fields, read_choice};
use crate::long::refuse_long;
use crate::order::refuse_disorder;
use crate::version::{Version, version_of};
use devices::{CountedRead, ReadFault, read_all};
use machine::{Machine, Ticket};
use runs::{Choice, Event, Refusal};
use sharing_check::Checked;
use std::alloc::Global;

/// A machine that has taken the steps of the trace that the reader has left, which is read whole before the first step.
///
/// Its events have the tickets from 1 on, in the order of the trace.
///
/// # Errors
///
/// - `ReadFailed` exactly where the reader counts a failure;
/// - `BadHeader` where the first line is no header;
/// - `BadLine` for a line of another form, with a number past its type, or without an end, and `NotAStep` for a step
/// that   cannot be taken there: whichever comes first, with the number of its line;
/// - else, for version 2, `NotCanonical` with the number of the first line that differs from the trace of the same
/// events;
/// - `Memory` without memory.
pub fn load<R: CountedRead>(
    alloc: Global,
    checked: Checked,
    reader: &mut R,
) -> Result<Machine, Fault>
    ensures loads { Loads checked (R.remaining reader.old) (R.remaining reader.new) result }
    ensures failures { R.failed reader.new ≡ after_reading result (R.failed reader.old) }
{
    match read_all(alloc, reader) {
        Ok(text) => load_text(alloc, checked, text.as_slice()),
        Err(ReadFault::Memory) => Err(Fault::Memory),
        Err(ReadFault::Failed) => Err(Fault::ReadFailed),
    }
}

/// A machine that has taken the steps of the trace with this text, as `load` does.
/// It is an error if the text is no trace of the system, or if there is no memory; the fault says which.
pub fn load_text(alloc: Global, checked: Checked, text: &[u8]) -> Result<Machine, Fault>
    ensures { MatchResult result (λ machine. IsLoaded checked text.now machine)
        (λ fault. IsRefused checked text.now fault) }
{
    let (version, steps) = behind_header(text)?;
    load_steps(alloc, checked, version, steps)
}

/// A machine that has taken the steps behind a header of this version.
fn load_steps(
    alloc: Global,
    checked: Checked,
    version: Version,
    steps: &[u8],
) -> Result<Machine, Fault>
    ensures { (text : List ℕ) → HasSteps version text steps.now →
        MatchResult result (λ machine. IsLoaded checked text machine) (λ fault. IsRefused checked text fault) }
{
    let mut machine = Machine::new(alloc, checked)?;
    take_all(alloc, &mut machine, version, steps)?;
    Ok(machine)
}

/// Takes the steps behind a header of this version on a new machine, which are to stand as that version has them.
fn take_all(
    alloc: Global,
    machine: &mut Machine,
    version: Version,
    steps: &[u8],
) -> Result<(), Fault>
    requires { machine.old ≡ record { checked = machine.old.checked; live = []; next = 1; marked = [] } }
    ensures { (text : List ℕ) → HasSteps version text steps.now →
        MatchResult result (λ _. IsLoaded machine.old.checked text machine.new)
        (λ fault. IsRefused machine.old.checked text fault) }
{
    take_steps(alloc, machine, steps)?;
    refuse_disorder(alloc, machine, version)
}

/// The version by the first line, which is to be a header, and what is behind that line.
fn behind_header(text: &[u8]) -> Result<(Version, &[u8]), Fault>
    ensures { MatchResult result (λ found. HasSteps found.0 text.now found.1.now)
        (λ fault. HeaderStops text.now fault) }
{
    let Some((line, steps)) = cut_at(text, b'\n') else {
        return Err(without_end(text));
    };
    match version_of(line) {
        Some(version) => Ok((version, steps)),
        None => Err(Fault::BadHeader),
    }
}

/// Why a text that has no end of a line is refused.
fn without_end(text: &[u8]) -> Fault
    requires { HasNone 10 text.now }
    ensures { HeaderStops text.now result }
{
    match version_of(text) {
        Some(_) => Fault::BadLine(1),
        None => Fault::BadHeader,
    }
}

/// Takes the steps of the lines in their order. Lines count from 2.
fn take_steps(alloc: Global, machine: &mut Machine, steps: &[u8]) -> Result<(), Fault>
    requires { machine.old ≡ record { checked = machine.old.checked; live = []; next = 1; marked = [] } }
    ensures { MatchResult result (λ _. Loading machine.old.checked steps.now machine.new [])
        (λ fault. StepsStop machine.old.checked steps.now fault) }
{
    let mut rest = steps;
    for number in 2..u64::MAX {
        if rest.is_empty() {
            return Ok(());
        }
        rest = take_line(alloc, machine, rest, number)?;
    }
    // Never so many: a machine takes no more steps than may be live.
    unreachable!()
}

/// Takes the step of the first line, which has this number, and gives what is behind the line.
fn take_line<'a>(
    alloc: Global,
    machine: &mut Machine,
    rest: &'a [u8],
    number: u64,
) -> Result<&'a [u8], Fault>
    ensures line { MatchResult result (λ after. LineTaken machine.old rest.entry.now after.now machine.new)
        (λ fault. LineStops machine.old rest.entry.now number fault) }
    ensures system { machine.new.checked ≡ machine.old.checked }
    ensures marked { machine.new.marked ≡ machine.old.marked }
{
    let Some((place, arm, after)) = fields(rest) else {
        return Err(Fault::BadLine(number));
    };
    refuse_long(machine, place, arm, number)?;
    let Some(choice) = read_choice(alloc, place, arm)? else {
        return Err(Fault::BadLine(number));
    };
    take_step(machine, &choice, number)?;
    Ok(after)
}

/// Takes the step that the line of this number asks for.
fn take_step(machine: &mut Machine, choice: &Choice, number: u64) -> Result<(), Fault>
    ensures step { MatchResult result (λ _. Taken machine.old choice.now machine.new)
        (λ fault. StepStops machine.old choice.now number fault) }
    ensures system { machine.new.checked ≡ machine.old.checked }
    ensures marked { machine.new.marked ≡ machine.old.marked }
{
    let stepped = machine.step(choice);
    outcome(&stepped, number)
}

/// What becomes of the line of this number whose step is answered so.
fn outcome(stepped: &Result<(Ticket, Event), Refusal>, number: u64) -> Result<(), Fault>
    ensures { result ≡ outcome_of number stepped.now }
{
    match stepped {
        Ok(_) => Ok(()),
        Err(Refusal::Memory) => Err(Fault::Memory),
        Err(_) => Err(Fault::NotAStep(number)),
    }
}
