// Lines of a shell.
ghost use Rattle.std.specs.Prelude.{◌≡◌, IfSome};
ghost use Rattle.debug_session.specs.Lines.{AsksNothing};
ghost use Rattle.shell_desk.specs.Does.{Does, NamesSession};
ghost use Rattle.shell_desk.specs.declared.deed.Done.{Done as DoneAt};
ghost use Rattle.shell_desk.specs.Tidied.{tidied};
ghost use Rattle.shell.specs.Asking.{IsWordWith, ShellAsks, TextAsks};
ghost use Rattle.shell.specs.Lines.{AnsweredAsNumber, AnsweredAsStep, AnsweredAsTidied, AnsweredAsTyped, LineLeaves, Leaves, MayGoUnread};
ghost use Rattle.shell.specs.internal.Parts.{Begun, Quits, RestsWith, TakesNumber, WordMeans, WordsAsk, is_want};
ghost use Rattle.shell.specs.declared.answer.Outcome.TheVariants as outcomes;

use crate::answer::{spoken, unread};
use crate::notes::Shows;
use crate::progress::Progress;
use crate::{Answer, Host, Outcome, Session, Setting};
use debug_session::{Fault, line_laws, read_command};
use decimal::read_number;
use line_text::cut_at_space;
use locked_execution::Command;
use plain_words::Text;
use shell_answers::{mistake_text, question_text, reply_text, run_text, unknown_text, way_text};
use shell_desk::{Deed, Done, Word, read_deed, tidied};

impl Session {
    /// Answers a line, without byte 10: as a line of a script where it is one, else as one of a shell.
    pub fn answer_line<H: Host>(&mut self, setting: &Setting<'_>, host: &H, line: &[u8]) -> Answer
        ensures leaves { LineLeaves (H.files host.now) setting.now.texts.source.now setting.now.texts.stimulus.now
            self.old.bench line.now result.outcome self.new.bench }
        ensures own { IfSome result.own (λ text.
            AnsweredAsTyped setting.now.texts.source.now self.old.bench line.now text.items self.new.bench) }
        ensures unread { result.outcome ≡ outcomes.Unread → MayGoUnread self.old.bench.desk.machine.checked line.now }
    {
        line_laws();
        let checked = self.bench.desk().machine().checked();
        match read_command(setting.alloc, checked, line, 1) {
            Ok(said) => self.answer_script(setting, &said),
            Err(fault) => {
                if is_want(fault) {
                    return unread(setting.alloc);
                }
                self.answer_loose(setting, host, line)
            }
        }
    }

    /// Answers a line that is none of a script as it stands: what is meant without blanks and with small letters.
    fn answer_loose<H: Host>(&mut self, setting: &Setting<'_>, host: &H, line: &[u8]) -> Answer
        requires { AsksNothing self.old.bench.desk.machine.checked line.now }
        ensures leaves { LineLeaves (H.files host.now) setting.now.texts.source.now setting.now.texts.stimulus.now
            self.old.bench line.now result.outcome self.new.bench }
        ensures own { IfSome result.own (λ text.
            AnsweredAsTidied setting.now.texts.source.now self.old.bench (tidied line.now) text.items self.new.bench) }
    {
        match tidied(setting.alloc, line) {
            Ok(text) => self.answer_tidied(setting, host, text.as_slice()),
            Err(_) => unread(setting.alloc),
        }
    }

    /// Answers a line that was tidied.
    fn answer_tidied<H: Host>(&mut self, setting: &Setting<'_>, host: &H, text: &[u8]) -> Answer
        ensures leaves { Leaves (TextAsks self.old.bench.desk.machine.checked text.now) (IsWordWith text.now)
            (H.files host.now) setting.now.texts.source.now setting.now.texts.stimulus.now
            self.old.bench result.outcome self.new.bench }
        ensures own { IfSome result.own (λ own.
            AnsweredAsTidied setting.now.texts.source.now self.old.bench text.now own.items self.new.bench) }
    {
        line_laws();
        let checked = self.bench.desk().machine().checked();
        match read_command(setting.alloc, checked, text, 1) {
            Ok(said) => self.answer_script(setting, &said),
            Err(fault) => {
                if is_want(fault) {
                    return unread(setting.alloc);
                }
                self.answer_shell(setting, host, text)
            }
        }
    }

    /// Answers a line that is none of a script: a bare number, or a word with what stands behind it.
    fn answer_shell<H: Host>(&mut self, setting: &Setting<'_>, host: &H, text: &[u8]) -> Answer
        ensures leaves { Leaves (ShellAsks text.now) (IsWordWith text.now) (H.files host.now)
            setting.now.texts.source.now setting.now.texts.stimulus.now
            self.old.bench result.outcome self.new.bench }
        ensures own { IfSome result.own (λ own.
            AnsweredAsNumber setting.now.texts.source.now self.old.bench text.now own.items self.new.bench) }
    {
        match read_number(text) {
            Some(number) => self.answer_number(setting, number),
            None => self.answer_words(setting, host, text),
        }
    }

    /// Takes the step that has this number, and answers as its line of a script is answered, and in words behind it.
    fn answer_number(&mut self, setting: &Setting<'_>, number: u64) -> Answer
        ensures done { TakesNumber number self.old.bench result.outcome self.new.bench }
        ensures own { IfSome result.own (λ own.
            AnsweredAsStep setting.now.texts.source.now self.old.bench number own.items self.new.bench) }
    {
        match self.bench.numbered(setting.alloc, number) {
            Ok(Some(command)) => self.answer_command(setting, &command),
            Ok(None) => self.answer_no_step(setting, number),
            Err(_) => unread(setting.alloc),
        }
    }

    /// Tells that no step has the number.
    fn answer_no_step(&self, setting: &Setting<'_>, number: u64) -> Answer
        ensures { result.outcome ≡ outcomes.Done }
    {
        let words = unknown_text(&self.scene(setting), &Deed::Take(number));
        spoken(setting.alloc, Outcome::Done, words)
    }

    /// Answers a line that begins with a word, if that is one.
    fn answer_words<H: Host>(&mut self, setting: &Setting<'_>, host: &H, text: &[u8]) -> Answer
        ensures { Leaves (WordsAsk text.now) (IsWordWith text.now) (H.files host.now)
            setting.now.texts.source.now setting.now.texts.stimulus.now
            self.old.bench result.outcome self.new.bench }
    {
        let (spelled, rest) = cut_at_space(text);
        match Word::read(spelled) {
            Some(word) => self.answer_word(setting, host, word, rest),
            None => self.answer_mistake(setting, text),
        }
    }

    /// Answers a word with what stands behind it.
    fn answer_word<H: Host>(
        &mut self,
        setting: &Setting<'_>,
        host: &H,
        word: Word,
        rest: &[u8],
    ) -> Answer
        ensures { Leaves (WordMeans word rest.now) (Begun word rest.now) (H.files host.now)
            setting.now.texts.source.now setting.now.texts.stimulus.now
            self.old.bench result.outcome self.new.bench }
    {
        match read_deed(word, rest) {
            Some(deed) => self.answer_deed(setting, host, &deed),
            None => self.answer_other(setting, host, word, rest),
        }
    }

    /// Answers a word that asks nothing of the desk.
    fn answer_other<H: Host>(
        &mut self,
        setting: &Setting<'_>,
        host: &H,
        word: Word,
        rest: &[u8],
    ) -> Answer
        ensures { Leaves (RestsWith word rest.now) (Begun word rest.now) (H.files host.now)
            setting.now.texts.source.now setting.now.texts.stimulus.now
            self.old.bench result.outcome self.new.bench }
    {
        match word {
            Word::Load => self.load(setting, host, rest),
            Word::Quit => self.quit(setting, rest),
            Word::Save => self.save(setting, host, rest, false),
            Word::SaveOver => self.save(setting, host, rest, true),
            Word::Script => self.save_script(setting, host, rest, false),
            Word::ScriptOver => self.save_script(setting, host, rest, true),
            _ => self.answer_question(setting, word, rest),
        }
    }

    /// Ends the session, where nothing stands behind the word.
    fn quit(&self, setting: &Setting<'_>, rest: &[u8]) -> Answer
        ensures { Quits rest.now result.outcome }
    {
        if rest.is_empty() {
            spoken(setting.alloc, Outcome::Over, Text::new(setting.alloc))
        } else {
            self.answer_question(setting, Word::Quit, rest)
        }
    }

    /// Answers a word in words alone.
    fn answer_question(&self, setting: &Setting<'_>, word: Word, rest: &[u8]) -> Answer
        ensures { result.outcome ≡ outcomes.Done }
    {
        let words = question_text(&self.scene(setting), word, rest);
        spoken(setting.alloc, Outcome::Done, words)
    }

    /// Answers a line that says nothing.
    fn answer_mistake(&self, setting: &Setting<'_>, text: &[u8]) -> Answer
        ensures { result.outcome ≡ outcomes.Done }
    {
        let words = mistake_text(&self.scene(setting), text);
        spoken(setting.alloc, Outcome::Done, words)
    }

    /// Does what a line asks, and answers with the answers of a script to its commands, and words.
    fn answer_deed<H: Host>(&mut self, setting: &Setting<'_>, host: &H, deed: &Deed) -> Answer
        requires { NamesSession deed.now }
        ensures outcome { result.outcome ≡ outcomes.Done }
        ensures done { (done : DoneAt) × Does self.old.bench deed.now done self.new.bench }
    {
        self.notes.begin_line(shows_of(deed));
        let mut progress = Progress::new(&mut self.notes, &setting.elements, host);
        let done = self.bench.perform(deed, &mut progress);
        progress.end();
        self.notes
            .end_line(self.bench.desk().machine(), &setting.elements);
        let own = self.notes.take_shown();
        let words = self.done_text(setting, deed, &done);
        Answer {
            outcome: Outcome::Done,
            own,
            words,
        }
    }

    /// What is said behind what was done.
    fn done_text(&self, setting: &Setting<'_>, deed: &Deed, done: &Done) -> Text {
        let scene = self.scene(setting);
        match done {
            Done::Rested => Text::new(setting.alloc),
            Done::Told(reply) => reply_text(&scene, &self.asked_by(deed), reply),
            Done::Unknown => unknown_text(&scene, deed),
            Done::Ran(end) => run_text(&scene, *end, self.notes.steps()),
            Done::Back(last) => way_text(&scene, last, self.notes.steps()),
        }
    }

    /// The command by which the reply to what was done is told in words.
    fn asked_by(&self, deed: &Deed) -> Command {
        match (deed, self.bench.branch()) {
            (Deed::Next(branch), _) => Command::Branch(*branch),
            (Deed::NextAgain, Some(branch)) => Command::Branch(branch),
            _ => Command::Ready,
        }
    }
}

/// Whether a line was not read for want of memory.
fn is_want(fault: Fault) -> bool
    ensures { result ≡ is_want fault }
{
    match fault {
        Fault::Memory => true,
        _ => false,
    }
}

/// Which answers are shown.
fn shows_of(deed: &Deed) -> Shows {
    match deed {
        Deed::Run(_) => Shows::Steps,
        Deed::Back(_) => Shows::Way,
        _ => Shows::All,
    }
}
