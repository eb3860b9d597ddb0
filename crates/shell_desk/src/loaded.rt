// Another execution in place of the one at hand.
ghost use Rattle.std.specs.Prelude.{◌≡◌, ◌<◌, MatchBool, true, false};
ghost use Rattle.system.specs.Expression.{is_in};
ghost use Rattle.locked_execution.specs.AtDesk.{breaks_of, new_desk};
ghost use Rattle.shell_desk.specs.Does.{SetsBreaksOf, TurnsTo};
ghost use Rattle.shell_desk.specs.internal.Again.{SetsAgain, IsAt, IsUpTo};

use crate::{Bench, Watch};
use locked_execution::{Command, Desk, Machine};

impl Bench {
    /// Puts this machine in place of the one at hand. The session stays the same, and each session has the breakpoints
    /// that it had on the lines from 1 to this one. No step was numbered or taken yet.
    pub fn turn_to<W: Watch>(&mut self, machine: Machine, last_line: u64, watch: &mut W)
        ensures { TurnsTo self.old last_line machine self.new }
    {
        self.desk = desk_like(&self.desk, machine, last_line, watch);
        self.numbered.clear();
        self.turn = None;
        self.branch = None;
        self.stopped = None;
    }
}

/// A desk with this machine, and with the breakpoints that sessions have at another on the lines from 1 to this one.
fn desk_like<W: Watch>(before: &Desk, machine: Machine, last_line: u64, watch: &mut W) -> Desk
    ensures { SetsBreaksOf before.now last_line (new_desk machine) result }
{
    let mut desk = Desk::new(machine);
    for session in 0..16 {
        break_again(before, &mut desk, session, last_line, watch);
    }
    desk
}

/// Sets the breakpoints of a session that it has at one desk, on the lines from 1 to this one, at another.
fn break_again<W: Watch>(
    before: &Desk,
    desk: &mut Desk,
    session: u32,
    last_line: u64,
    watch: &mut W,
)
    requires { session < 16 }
    ensures { SetsAgain before.now (IsUpTo session last_line) desk.old desk.new }
{
    for line in 0..last_line {
        break_on(before, desk, session, line + 1, watch);
    }
}

/// Sets the breakpoint of a session on this line at a desk, where it has one there at another.
fn break_on<W: Watch>(before: &Desk, desk: &mut Desk, session: u32, line: u64, watch: &mut W)
    requires { session < 16 }
    ensures { SetsAgain before.now (IsAt session line) desk.old desk.new }
{
    if lacks(before, session, line) {
        return;
    }
    let command = Command::Break(line);
    let reply = desk.perform(session, &command);
    watch.see(desk, session, &command, &reply);
}

/// Whether the session has no breakpoint on the line.
fn lacks(desk: &Desk, session: u32, line: u64) -> bool
    requires { session < 16 }
    ensures { MatchBool result
        (is_in line (breaks_of desk.now session) ≡ false)
        (is_in line (breaks_of desk.now session) ≡ true) }
{
    !desk.breaks(session).has(line)
}
