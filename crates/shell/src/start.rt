// The beginning of a session.
ghost use Rattle.std.specs.Prelude.{◌≡◌, [], Ok, Err, IfOk, IfErr, MatchResult};
ghost use Rattle.std.specs.Option.{option_copied};
ghost use Rattle.system.specs.declared.system.System.{System};
ghost use Rattle.machine.specs.AtMachine.{AtMachine};
ghost use Rattle.debug_session.specs.Accepting.{AcceptedAs, IsRefused};
ghost use Rattle.debug_session.specs.declared.fault.Fault.TheVariants.{Memory};
ghost use Rattle.shell_desk.specs.AtBench.{new_bench};
ghost use Rattle.shell.specs.Beginning.{BeginsAt, RefusesToBegin};

use crate::load::machine_of;
use crate::notes::Notes;
use crate::{Session, Setting, Texts};
use debug_session::{Fault, accept};
use locked_execution::Machine;
use plain_words::Elements;
use shell_desk::Bench;
use std::alloc::Global;

/// What a session on the system of these texts is begun with.
pub fn setting_of<'a>(alloc: Global, texts: Texts<'a>) -> Result<Setting<'a>, Fault>
    ensures source { IfOk result (λ setting. setting.texts.source.now ≡ texts.entry.source.now) }
    ensures stimulus { IfOk result (λ setting. setting.texts.stimulus.now ≡ texts.entry.stimulus.now) }
    ensures fault { IfErr result (λ fault. fault ≡ Memory) }
{
    match Elements::of(alloc, texts.source) {
        Ok(elements) => Ok(Setting {
            alloc,
            texts,
            elements,
        }),
        Err(_) => Err(Fault::Memory),
    }
}

/// A session on the system of these texts, behind the trace if there is one.
pub fn begin(alloc: Global, texts: &Texts<'_>) -> Result<Session, Fault>
    ensures { MatchResult result
        (λ session. (m : AtMachine)
        × BeginsAt texts.now.source.now texts.now.stimulus.now (option_copied texts.now.trace) m
        × (session.bench ≡ new_bench m))
        (RefusesToBegin texts.now.source.now texts.now.stimulus.now (option_copied texts.now.trace)) }
{
    match first_machine(alloc, texts) {
        Ok(machine) => Ok(session_on(alloc, machine)),
        Err(fault) => Err(fault),
    }
}

/// The machine with which a session begins.
fn first_machine(alloc: Global, texts: &Texts<'_>) -> Result<Machine, Fault>
    ensures { MatchResult result
        (BeginsAt texts.now.source.now texts.now.stimulus.now (option_copied texts.now.trace))
        (RefusesToBegin texts.now.source.now texts.now.stimulus.now (option_copied texts.now.trace)) }
{
    match texts.trace {
        Some(trace) => machine_of(alloc, texts, trace),
        None => new_machine(alloc, texts),
    }
}

/// The machine before the first step.
fn new_machine(alloc: Global, texts: &Texts<'_>) -> Result<Machine, Fault>
    ensures { MatchResult result
        (λ machine. (system : System) × AcceptedAs texts.now.source.now texts.now.stimulus.now system
        × (machine ≡ record { checked = system; live = []; next = 1; marked = [] }))
        (IsRefused texts.now.source.now texts.now.stimulus.now) }
{
    match accept(alloc, texts.source, texts.stimulus) {
        Ok(checked) => or_memory(Machine::new(alloc, checked)),
        Err(fault) => Err(fault),
    }
}

/// A machine that was made, or that there was no memory for it.
fn or_memory(made: Result<Machine, machine::Fault>) -> Result<Machine, Fault>
    ensures { MatchResult made (λ machine. result ≡ Ok machine) (λ _. result ≡ Err Memory) }
{
    match made {
        Ok(machine) => Ok(machine),
        Err(_) => Err(Fault::Memory),
    }
}

/// A session on this machine.
fn session_on(alloc: Global, machine: Machine) -> Session
    ensures { result.bench ≡ new_bench machine }
{
    let mut notes = Notes::new(alloc);
    notes.begin_again(&machine);
    Session {
        bench: Bench::new(alloc, machine),
        notes,
    }
}
