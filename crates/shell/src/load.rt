// Another execution in place of the one at hand.
ghost use Rattle.std.specs.Prelude.{◌≡◌, Ok, Err, MatchResult};
ghost use Rattle.shell_desk.specs.Does.{TurnsTo};
ghost use Rattle.shell_desk.specs.declared.word.Word.TheVariants as words;
ghost use Rattle.system.specs.declared.system.System.{System};
ghost use Rattle.debug_session.specs.Accepting.{AcceptedAs};
ghost use Rattle.debug_session.specs.Wrapping.{of_trace};
ghost use Rattle.trace_file.specs.Loading.{IsLoaded};
ghost use Rattle.shell.specs.Beginning.{RefusesTexts};
ghost use Rattle.shell.specs.Lines.{Leaves, line_count};
ghost use Rattle.shell.specs.internal.Parts.{AsksNoDeedAtAll, Begun, LoadsTrace};
ghost use Rattle.shell.specs.declared.answer.Outcome.TheVariants as outcomes;

use crate::answer::spoken;
use crate::notes::Shows;
use crate::save::name_in;
use crate::{Answer, Host, Outcome, Session, Setting, Texts};
use debug_session::{Fault, accept};
use locked_execution::Machine;
use shell_answers::{file_fault_text, loaded_text, refused_trace_text, unnamed_text};
use shell_desk::Word;
use std::alloc::Global;
use trace_file::load_text;

impl Session {
    /// Takes the steps of the trace in the file that `rest` names, in place of those that were taken.
    pub(crate) fn load<H: Host>(&mut self, setting: &Setting<'_>, host: &H, rest: &[u8]) -> Answer
        ensures { Leaves AsksNoDeedAtAll (Begun words.Load rest.now) (H.files host.now)
            setting.now.texts.source.now setting.now.texts.stimulus.now
            self.old.bench result.outcome self.new.bench }
    {
        let Some(name) = name_in(rest) else {
            let words = unnamed_text(setting.alloc, Word::Load, rest);
            return spoken(setting.alloc, Outcome::NotLoaded, words);
        };
        match host.read(setting.alloc, name) {
            Ok(trace) => self.load_trace(setting, name, trace.as_slice()),
            Err(fault) => {
                let words = file_fault_text(setting.alloc, name, fault, Word::Load);
                spoken(setting.alloc, Outcome::NotLoaded, words)
            }
        }
    }

    /// Takes the steps of this trace, in place of those that were taken.
    fn load_trace(&mut self, setting: &Setting<'_>, name: &str, trace: &[u8]) -> Answer
        ensures { LoadsTrace setting.now.texts.source.now setting.now.texts.stimulus.now trace.now
            self.old.bench result.outcome self.new.bench }
    {
        match machine_of(setting.alloc, &setting.texts, trace) {
            Ok(machine) => self.turn_to(setting, machine),
            Err(fault) => not_loaded(setting.alloc, name, trace, fault),
        }
    }

    /// Puts this machine in place of the one at hand.
    fn turn_to(&mut self, setting: &Setting<'_>, machine: Machine) -> Answer
        ensures outcome { result.outcome ≡ outcomes.Loaded }
        ensures turned { TurnsTo self.old.bench (line_count setting.now.texts.source.now) machine self.new.bench }
    {
        let before = self.bench.desk().machine().live_events().len() as u64;
        self.notes.begin_line(Shows::None);
        self.notes.begin_again(&machine);
        let last_line = count_lines(setting.texts.source);
        self.bench.turn_to(machine, last_line, &mut self.notes);
        self.notes.turn_back(self.bench.session());
        let live = self.bench.desk().machine().live_events().len() as u64;
        spoken(
            setting.alloc,
            Outcome::Loaded,
            loaded_text(setting.alloc, live, before),
        )
    }
}

/// That the trace was refused for this reason.
fn not_loaded(alloc: Global, name: &str, trace: &[u8], fault: Fault) -> Answer
    ensures { result.outcome ≡ outcomes.NotLoaded }
{
    let words = refused_trace_text(alloc, name, trace, fault.number(), fault.field());
    spoken(alloc, Outcome::NotLoaded, words)
}

/// The machine that has taken the steps of a trace of the system of these texts.
pub(crate) fn machine_of(alloc: Global, texts: &Texts<'_>, trace: &[u8]) -> Result<Machine, Fault>
    ensures { MatchResult result
        (λ machine. (system : System) × AcceptedAs texts.now.source.now texts.now.stimulus.now system
        × IsLoaded system trace.now machine)
        (RefusesTexts texts.now.source.now texts.now.stimulus.now trace.now) }
{
    match accept(alloc, texts.source, texts.stimulus) {
        Ok(checked) => or_refused(load_text(alloc, checked, trace)),
        Err(fault) => Err(fault),
    }
}

/// A machine that was loaded, or why none was.
fn or_refused(loaded: Result<Machine, trace_file::Fault>) -> Result<Machine, Fault>
    ensures { MatchResult loaded (λ machine. result ≡ Ok machine) (λ fault. result ≡ Err (of_trace fault)) }
{
    match loaded {
        Ok(machine) => Ok(machine),
        Err(fault) => Err(Fault::from(fault)),
    }
}

/// How many lines a text has.
fn count_lines(text: &[u8]) -> u64
    ensures { result ≡ line_count text.now }
{
    let mut ended: u64 = 0;
    for byte in text {
        if *byte == b'\n' {
            ended += 1;
        }
    }
    ended + 1
}
