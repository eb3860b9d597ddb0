// How far a long line is.
use crate::Host;
use crate::notes::{Notes, Seen};
use locked_execution::{Command, Desk, Reply};
use plain_words::Elements;
use shell_desk::Watch;
use std::time::Duration;

/// So many commands are answered between two looks at the clock.
const COMMANDS_PER_LOOK: u64 = 64;

/// So many seconds a line takes before it is told how far it is, and so many pass between one telling and the next.
const PATIENCE: u64 = 1;

/// What sees the commands of a line: the record of the session, and who waits for the line.
#[derive(Drop)]
pub(crate) struct Progress<'a, H> {
    notes: &'a mut Notes,
    elements: &'a Elements<'a>,
    host: &'a H,
    commands: u64,
    /// When the line was begun, or it was told last how far it is.
    last: Option<Duration>,
    is_shown: bool,
}

impl<'a, H: Host> Progress<'a, H> {
    /// A line begins.
    pub(crate) fn new(
        notes: &'a mut Notes,
        elements: &'a Elements<'a>,
        host: &'a H,
    ) -> Progress<'a, H> {
        Progress {
            notes,
            elements,
            host,
            commands: 0,
            last: host.clock(),
            is_shown: false,
        }
    }

    /// Shows how many steps were taken, once it has taken long.
    fn look(&mut self) {
        let (Some(last), Some(now)) = (self.last, self.host.clock()) else {
            return;
        };
        if now.saturating_sub(last) >= Duration::from_secs(PATIENCE) {
            self.host.show_steps(self.notes.steps());
            self.last = Some(now);
            self.is_shown = true;
        }
    }

    /// The line was done.
    pub(crate) fn end(&self) {
        if self.is_shown {
            self.host.clear_line();
        }
    }
}

impl<H: Host> Watch for Progress<'_, H> {
    fn see(&mut self, desk: &Desk, session: u32, command: &Command, reply: &Reply) {
        let seen = Seen {
            desk,
            session,
            command,
            reply,
        };
        self.notes.note_seen(seen, self.elements);
        self.commands = self.commands.saturating_add(1);
        if self.commands % COMMANDS_PER_LOOK == 0 {
            self.look();
        }
    }
}
