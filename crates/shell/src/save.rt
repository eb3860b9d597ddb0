// Files that are written: the trace, and the lines so far.
ghost use Rattle.std.specs.Prelude.{◌≡◌, ◌⊎◌, ◌∷◌, IfSome, false};
ghost use Rattle.shell.specs.internal.Parts.{SavesTrace, WritesFile};
ghost use Rattle.shell.specs.declared.answer.Outcome.TheVariants as outcomes;

use crate::answer::{said, spoken};
use crate::{Answer, Host, Outcome, Session, Setting};
use shell_answers::{file_fault_text, unnamed_text, written_text};
use shell_desk::Word;
use std::alloc::Global;
use std::str;
use trace_file::write_trace;

impl Session {
    /// Writes the trace of the live steps to the file that `rest` names.
    pub(crate) fn save<H: Host>(
        &self,
        setting: &Setting<'_>,
        host: &H,
        rest: &[u8],
        over: bool,
    ) -> Answer
        ensures { SavesTrace (H.files host.now) self.now.bench rest.now over result.outcome }
    {
        let Some(name) = name_in(rest) else {
            let word = if over { Word::SaveOver } else { Word::Save };
            let words = unnamed_text(setting.alloc, word, rest);
            return spoken(setting.alloc, Outcome::NotSaved, words);
        };
        match write_trace(setting.alloc, self.bench.desk().machine()) {
            Ok(trace) => write_file(
                setting.alloc,
                host,
                name,
                trace.as_slice(),
                over,
                Outcome::Saved,
                Outcome::NotSaved,
                Word::Save,
            ),
            Err(_) => {
                let words = said(setting.alloc, b"there was no memory for the trace\n");
                spoken(setting.alloc, Outcome::NotSaved, words)
            }
        }
    }

    /// Writes the lines so far to the file that `rest` names.
    pub(crate) fn save_script<H: Host>(
        &self,
        setting: &Setting<'_>,
        host: &H,
        rest: &[u8],
        over: bool,
    ) -> Answer
        ensures { WritesFile (H.files host.now) self.now.notes.script.items rest.now over outcomes.Scripted
            outcomes.NotScripted result.outcome }
    {
        let Some(name) = name_in(rest) else {
            let word = if over { Word::ScriptOver } else { Word::Script };
            let words = unnamed_text(setting.alloc, word, rest);
            return spoken(setting.alloc, Outcome::NotScripted, words);
        };
        match self.notes.script() {
            Some(bytes) => write_file(
                setting.alloc,
                host,
                name,
                bytes,
                over,
                Outcome::Scripted,
                Outcome::NotScripted,
                Word::Script,
            ),
            None => {
                let words = said(
                    setting.alloc,
                    b"there was no memory for some of the lines\n",
                );
                spoken(setting.alloc, Outcome::NotScripted, words)
            }
        }
    }
}

/// The name of a file behind a space.
pub(crate) fn name_in(rest: &[u8]) -> Option<&str>
    ensures { IfSome result (λ name. rest.now ≡ 32 ∷ name.now) }
{
    match rest {
        [b' ', name @ ..] if !name.is_empty() => match str::from_utf8(name) {
            Ok(name) => Some(name),
            Err(_) => None,
        },
        _ => None,
    }
}

/// Writes a file, and tells whether it is there now: then `done` came of the line, else `not_done`.
fn write_file<H: Host>(
    alloc: Global,
    host: &H,
    name: &str,
    bytes: &[u8],
    over: bool,
    done: Outcome,
    not_done: Outcome,
    word: Word,
) -> Answer
    ensures { (result.outcome ≡ not_done)
        ⊎ ((result.outcome ≡ done) × (H.files host.now).holds name.now bytes.now
        × (over ≡ false → (H.files host.now).free name.now)) }
{
    match host.write(alloc, name, bytes, over) {
        Ok(()) => spoken(alloc, done, written_text(alloc, name, bytes.len() as u64)),
        Err(fault) => spoken(alloc, not_done, file_fault_text(alloc, name, fault, word)),
    }
}
