// What there is to tell where it is asked why, before it is a text.
ghost use Rattle.std.specs.Prelude.{◌≡◌, Some, None, IfOk};
ghost use Rattle.decimal.specs.Reading.{Reads};
ghost use Rattle.questions.specs.Asking.{Explains, variable_of};

use decimal::read_number;
use machine::Machine;
use past::{Past, past_of_event, past_of_variable};
use std::alloc::{AllocError, Global};

/// Why the subject of a question is as it is.
#[derive(Drop)]
pub enum Reason {
    /// the variable of this number has its value by these steps
    Value(u32, Past),
    /// the step of this ticket could be taken by these, the last of which it is
    Step(u64, Past),
    /// no step wrote the variable
    Unwritten,
    /// no step has the ticket
    Missing,
    /// no variable has the name, and it is no number
    Unknown,
}

/// Why the variable of this name has its value on the machine, or why the step of this ticket could be taken: by the
/// steps that carried a value and the one that is asked for, or by `all`. It is an error if there is no memory.
pub fn reason_of(
    alloc: Global,
    machine: &Machine,
    subject: &str,
    all: bool,
) -> Result<Reason, AllocError>
    ensures { IfOk result (Explains machine.now.checked machine.now.live subject.now all) }
{
    let system = machine.checked().system();
    if let Some(variable) = system.variable(subject.as_bytes()) {
        return reason_of_value(alloc, machine, subject, variable, all);
    }
    if let Some(ticket) = read_number(subject.as_bytes()) {
        return reason_of_step(alloc, machine, subject, ticket, all);
    }
    Ok(Reason::Unknown)
}

/// Why the variable has its value.
fn reason_of_value(
    alloc: Global,
    machine: &Machine,
    name: &str,
    variable: u32,
    all: bool,
) -> Result<Reason, AllocError>
    requires { variable_of machine.now.checked name.now ≡ Some variable }
    ensures { IfOk result (Explains machine.now.checked machine.now.live name.now all) }
{
    let found = past_of_variable(alloc, machine.live_events(), variable, all)?;
    match found {
        Some(past) => Ok(Reason::Value(variable, past)),
        None => Ok(Reason::Unwritten),
    }
}

/// Why the step of this ticket could be taken.
fn reason_of_step(
    alloc: Global,
    machine: &Machine,
    subject: &str,
    ticket: u64,
    all: bool,
) -> Result<Reason, AllocError>
    requires none { variable_of machine.now.checked subject.now ≡ None }
    requires ticket { Reads subject.now ticket }
    ensures { IfOk result (Explains machine.now.checked machine.now.live subject.now all) }
{
    let found = past_of_event(alloc, machine.live_events(), ticket, all)?;
    match found {
        Some(past) => Ok(Reason::Step(ticket, past)),
        None => Ok(Reason::Missing),
    }
}
