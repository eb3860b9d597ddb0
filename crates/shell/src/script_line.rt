// Lines of a script.
ghost use Rattle.std.specs.Prelude.{◌≡◌, ◌<◌, IfSome, MatchResult, Some, None};
ghost use Rattle.debug_session.specs.Lines.{SaysSession};
ghost use Rattle.debug_session.specs.declared.line.Line.TheVariants as lines;
ghost use Rattle.shell_desk.specs.Does.{Does, TurnsSession};
ghost use Rattle.shell_desk.specs.declared.deed.Done.{Done as DoneAt};
ghost use Rattle.shell.specs.Asking.{deed_of};
ghost use Rattle.shell.specs.Lines.{SaidAsScript};
ghost use Rattle.shell.specs.declared.answer.Outcome.TheVariants as outcomes;

use crate::answer::spoken;
use crate::notes::Shows;
use crate::{Answer, Outcome, Session, Setting};
use debug_session::{Line, write_answer, write_session};
use locked_execution::Command;
use plain_words::Text;
use shell_answers::reply_text;
use shell_desk::Deed;
use source_view::view;
use std::alloc::AllocError;
use trace_file::write_trace;

impl Session {
    /// Answers a line of a script as a script is answered, and in words behind it.
    pub(crate) fn answer_script(&mut self, setting: &Setting<'_>, line: &Line) -> Answer
        requires { SaysSession line.now }
        ensures outcome { result.outcome ≡ outcomes.Done }
        ensures done { (done : DoneAt) × Does self.old.bench (deed_of line.now) done self.new.bench }
        ensures own { IfSome result.own (λ text.
            SaidAsScript setting.now.texts.source.now self.old.bench line.now text.items self.new.bench) }
    {
        match line {
            Line::Asked(command) => self.answer_command(setting, command),
            Line::Session(session) => self.answer_turn(setting, *session),
            Line::View => self.answer_view(setting),
            Line::Trace => self.answer_trace(setting),
            Line::Empty => self.answer_nothing(setting),
        }
    }

    /// Answers a command.
    pub(crate) fn answer_command(&mut self, setting: &Setting<'_>, command: &Command) -> Answer
        ensures outcome { result.outcome ≡ outcomes.Done }
        ensures done { (done : DoneAt) × Does self.old.bench (deed_of (lines.Asked command.now)) done self.new.bench }
        ensures own { IfSome result.own (λ text.
            SaidAsScript setting.now.texts.source.now self.old.bench (lines.Asked command.now) text.items
            self.new.bench) }
    {
        self.notes.begin_line(Shows::None);
        let reply = self.bench.ask(command, &mut self.notes);
        let checked = self.bench.desk().machine().checked();
        let own = write_answer(setting.alloc, checked, command, &reply);
        let words = reply_text(&self.scene(setting), command, &reply);
        answered(own, words)
    }

    /// Answers a line that names the session whose lines follow.
    fn answer_turn(&mut self, setting: &Setting<'_>, session: u32) -> Answer
        requires { session < 16 }
        ensures outcome { result.outcome ≡ outcomes.Done }
        ensures done { (done : DoneAt) × Does self.old.bench (deed_of (lines.Session session)) done self.new.bench }
        ensures own { IfSome result.own (λ text.
            SaidAsScript setting.now.texts.source.now self.old.bench (lines.Session session) text.items
            self.new.bench) }
    {
        self.turn(session);
        self.notes.add_turn(session);
        let own = write_session(setting.alloc, session);
        answered(own, Text::new(setting.alloc))
    }

    /// Makes the lines that follow those of this session.
    fn turn(&mut self, session: u32)
        requires { session < 16 }
        ensures { TurnsSession session self.old.bench self.new.bench }
    {
        let _done = self.bench.perform(&Deed::Turn(session), &mut self.notes);
    }

    /// Answers the view that the session has of the source.
    fn answer_view(&mut self, setting: &Setting<'_>) -> Answer
        ensures outcome { result.outcome ≡ outcomes.Done }
        ensures done { (done : DoneAt) × Does self.old.bench (deed_of lines.View) done self.new.bench }
        ensures own { IfSome result.own (λ text.
            SaidAsScript setting.now.texts.source.now self.old.bench lines.View text.items self.new.bench) }
    {
        self.notes.add_line(self.bench.session(), b"view\n");
        let desk = self.bench.desk();
        let breaks = desk.breaks(self.bench.session());
        let own = view(setting.alloc, desk.machine(), breaks, setting.texts.source);
        answered(own, Text::new(setting.alloc))
    }

    /// Answers the trace of the live events.
    fn answer_trace(&mut self, setting: &Setting<'_>) -> Answer
        ensures outcome { result.outcome ≡ outcomes.Done }
        ensures done { (done : DoneAt) × Does self.old.bench (deed_of lines.Trace) done self.new.bench }
        ensures own { IfSome result.own (λ text.
            SaidAsScript setting.now.texts.source.now self.old.bench lines.Trace text.items self.new.bench) }
    {
        self.notes.add_line(self.bench.session(), b"trace\n");
        let own = write_trace(setting.alloc, self.bench.desk().machine());
        answered(own, Text::new(setting.alloc))
    }

    /// Answers an empty line.
    fn answer_nothing(&mut self, setting: &Setting<'_>) -> Answer
        ensures outcome { result.outcome ≡ outcomes.Done }
        ensures done { (done : DoneAt) × Does self.old.bench (deed_of lines.Empty) done self.new.bench }
        ensures own { IfSome result.own (λ text.
            SaidAsScript setting.now.texts.source.now self.old.bench lines.Empty text.items self.new.bench) }
    {
        spoken(setting.alloc, Outcome::Done, Text::new(setting.alloc))
    }
}

/// A line that was answered so, and with words behind.
fn answered(own: Result<Vec<u8>, AllocError>, words: Text) -> Answer
    ensures outcome { result.outcome ≡ outcomes.Done }
    ensures own { MatchResult own (λ text. result.own ≡ Some text) (λ _. result.own ≡ None) }
{
    match own {
        Ok(text) => Answer {
            outcome: Outcome::Done,
            own: Some(text),
            words,
        },
        Err(_) => Answer {
            outcome: Outcome::Done,
            own: None,
            words,
        },
    }
}
