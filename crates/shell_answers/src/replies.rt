// What is said behind the answer to a command.
use crate::Scene;
use crate::numbers::add_numbered;
use crate::refused::add_refused;
use crate::sent_lines::add_sent_line;
use crate::steps::{add_done, add_newest, add_step, add_step_lines, steps_word};
use crate::values::add_valued;
use locked_execution::{Command, Event, Reply};
use plain_words::Text;
use runs::Kind;

/// What is said behind the answer to a command, once it was performed; nothing where the answer says all.
pub fn reply_text(scene: &Scene<'_>, command: &Command, reply: &Reply) -> Text {
    let mut text = Text::new(scene.alloc);
    match reply {
        Reply::Stepped(_, event) => add_done(&mut text, scene, b"  ", event),
        Reply::Undone(_, event) => add_done(&mut text, scene, b"  taken back: ", event),
        Reply::Ready(events) => add_numbered(&mut text, scene, events.as_slice()),
        Reply::Rolled(count) => add_rolled(&mut text, scene, *count),
        Reply::Blamed(ticket) => add_line(&mut text, scene, *ticket),
        Reply::Consequences(tickets) => add_step_lines(&mut text, scene, tickets.as_slice()),
        Reply::Value(_) => add_asked_value(&mut text, scene, command),
        Reply::Stopped(line) => add_stopped(&mut text, *line),
        Reply::Idle => add_idle(&mut text, scene, command),
        Reply::Refused(why) => add_refused(&mut text, scene, command, *why),
        Reply::Live(steps) => add_newest(&mut text, scene, steps.len()),
        Reply::Done => add_set(&mut text, scene, command),
    }
    text
}

/// Adds what is to be known of a breakpoint that was set or cleared.
fn add_set(text: &mut Text, scene: &Scene<'_>, command: &Command) {
    match command {
        Command::Break(line) => add_sent_line(text, scene, *line),
        Command::Clear(line) => {
            text.add_counted(b"  line ", *line, b" has no breakpoint now\n");
        }
        _ => {}
    }
}

/// Adds how many steps were taken back and how many are left.
fn add_rolled(text: &mut Text, scene: &Scene<'_>, count: u64) {
    text.add_counted(b"  took back ", count, steps_word(count));
    let left = scene.machine().live_events().len() as u64;
    text.add_counted(b"; ", left, steps_word(left));
    text.add(if left == 1 {
        b" is live\n"
    } else {
        b" are live\n"
    });
}

/// Adds a line with the step.
fn add_line(text: &mut Text, scene: &Scene<'_>, ticket: u64) {
    text.add(b"  ");
    add_step(text, scene, ticket);
    text.add(b"\n");
}

/// Adds the value that was asked for.
fn add_asked_value(text: &mut Text, scene: &Scene<'_>, command: &Command) {
    if let Command::Value(variable) = command {
        add_valued(text, scene, *variable);
    }
}

/// Adds that a breakpoint holds a branch.
fn add_stopped(text: &mut Text, line: u64) {
    text.add_counted(
        b"  its next step is on line ",
        line,
        b", which has a breakpoint\n  ",
    );
    text.add_counted(
        b"`clear ",
        line,
        b"` takes it off, `ready` and a number take the step\n",
    );
}

/// Adds that a branch has no step, or that there is no such branch.
fn add_idle(text: &mut Text, scene: &Scene<'_>, command: &Command) {
    let Command::Branch(branch) = command else {
        return;
    };
    let count = scene.bench.desk().machine().checked().branches();
    if *branch < count {
        add_no_step(text, scene, *branch);
    } else {
        text.add_counted(
            b"  there is no branch ",
            u64::from(*branch),
            b"; `outline` lists them\n",
        );
    }
}

/// Adds that the branch has no step of its own: what it gives may be a step of another, or nothing of it can go on.
fn add_no_step(text: &mut Text, scene: &Scene<'_>, branch: u32) {
    text.add_counted(b"  branch ", u64::from(branch), b" has no step ");
    match other_step(scene, branch) {
        Some(other) => text.add_counted(other.words(), u64::from(other.branch), b"`\n"),
        None => text.add(b"now; `waiting` lists all that waits\n"),
    }
}

/// A step of another branch, in which this one takes part.
#[derive(Clone, Copy)]
struct OtherStep {
    /// the other one
    branch: u32,
    /// without data, so that nothing is given
    is_sync: bool,
}

impl OtherStep {
    /// What is said of it, up to its branch.
    fn words(self) -> &'static [u8] {
        if self.is_sync {
            b"of its own now\n  its handshake is a step of another: `next "
        } else {
            b"of its own now\n  what it gives is taken by a step of another: `next "
        }
    }
}

/// The first step of another branch in which this one takes part, if there is one.
fn other_step(scene: &Scene<'_>, branch: u32) -> Option<OtherStep> {
    let checked = scene.machine().checked();
    let events = scene.machine().ready().ok()?;
    for event in events.as_slice() {
        if takes_part(scene, event, branch) {
            let acting = checked.branch(event.acting_place())?;
            if acting != branch {
                return Some(OtherStep {
                    branch: acting,
                    is_sync: event.kind == Kind::Sync,
                });
            }
        }
    }
    None
}

/// Whether the branch takes part in the event.
fn takes_part(scene: &Scene<'_>, event: &Event, branch: u32) -> bool {
    let checked = scene.machine().checked();
    if checked.branch(&event.first) == Some(branch) {
        return true;
    }
    match &event.second {
        Some(second) => checked.branch(second) == Some(branch),
        None => false,
    }
}
