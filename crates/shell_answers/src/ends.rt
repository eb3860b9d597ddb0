// How a run, a way back and a number that means nothing ended.
use crate::Scene;
use crate::refused::add_refused;
use crate::steps::{add_possible, none_words, steps_word};
use local_actions::{ActionKind, LocalAction};
use locked_execution::{Command, Reply};
use plain_words::{Text, add_reason, add_value};
use shell_desk::{Deed, End};
use value::Value;
use waiting::{Progress, Waiting, who_waits};

/// Why a run ended that took so many steps.
pub fn run_text(scene: &Scene<'_>, end: End, taken: u64) -> Text {
    let mut text = Text::new(scene.alloc);
    match end {
        End::Enough => add_taken(&mut text, taken, b", as many as were asked for\n"),
        End::Idle => add_still(&mut text, scene, taken),
        End::AtBreak(line) => {
            add_taken(&mut text, taken, b"; ");
            text.add_counted(b"the breakpoint on line ", line, b" ends the run\n");
            text.add_counted(
                b"  `run` goes on from there, `clear ",
                line,
                b"` takes it off\n",
            );
        }
        End::Refused(why) => {
            add_taken(&mut text, taken, b"; ");
            add_reason(&mut text, why);
            text.add(b"\n");
        }
    }
    text
}

/// Adds how many steps were taken.
fn add_taken(text: &mut Text, taken: u64, behind: &[u8]) {
    text.add_counted(b"  took ", taken, steps_word(taken));
    text.add(behind);
}

/// Adds that all is done, or who waits.
fn add_still(text: &mut Text, scene: &Scene<'_>, taken: u64) {
    let live = scene.machine().live_events().len() as u64;
    add_taken(text, taken, b"; ");
    match who_waits(scene.alloc, scene.machine()) {
        Ok(waiting) => match waiting.progress {
            Progress::Done => {
                text.add_counted(b"all done after ", live, steps_word(live));
                text.add(b"\n");
            }
            _ => {
                text.add_counted(b"nothing can go on after ", live, steps_word(live));
                add_why_still(text, scene, &waiting);
                add_waiting(text, scene, &waiting);
            }
        },
        Err(_) => text.add(b"no branch has a step\n"),
    }
}

/// Adds why nothing can go on, where that is plain: a ring of those that wait, that more in the stimulus is all that is
/// missing, or that nothing waits, so that a `halt` is left.
fn add_why_still(text: &mut Text, scene: &Scene<'_>, waiting: &Waiting) {
    if !waiting.ring.is_empty() {
        text.add(b": a deadlock\n  each waits for the next, in a ring\n");
    } else if waiting.lacks_input(scene.machine()) {
        text.add(b": the stimulus is used up\n");
    } else if waiting.actions.is_empty() {
        text.add(b": only a `halt` is left\n");
    } else {
        text.add(b"\n");
    }
}

/// Adds who waits.
pub(crate) fn add_waiting(text: &mut Text, scene: &Scene<'_>, waiting: &Waiting) {
    let mut lines = Vec::new(scene.alloc);
    let written = waiting.write_to(scene.machine(), &mut lines);
    text.add_if(written, lines.as_slice());
    add_elements(text, scene, waiting);
}

/// Adds what waits and can be taken in words, where a value is an element of an enumeration.
fn add_elements(text: &mut Text, scene: &Scene<'_>, waiting: &Waiting) {
    for event in waiting.ready.as_slice() {
        if let (Some(channel), Some(value)) = (event.channel, event.value) {
            if scene.names(channel, value) {
                text.add(b"  can be taken: ");
                add_possible(text, scene, event);
                text.add(b"\n");
            }
        }
    }
    for offered in waiting.actions.as_slice() {
        if let ActionKind::Sends(channel, value, _) = &offered.action {
            if scene.names(*channel, *value) {
                add_sender(text, scene, offered, *channel, *value);
            }
        }
    }
}

/// Adds that an action waits to send the value.
fn add_sender(
    text: &mut Text,
    scene: &Scene<'_>,
    offered: &LocalAction,
    channel: u32,
    value: Value,
) {
    text.add(b"  waits to send ");
    add_value(
        text,
        scene.alloc,
        scene.machine(),
        scene.elements,
        None,
        Some(channel),
        value.bits(),
    );
    text.add(b" on ");
    text.add_channel(scene.system(), Some(channel));
    if let Some(line) = scene.machine().line(&offered.place) {
        text.add_counted(b", line ", line, b"");
    }
    text.add(b"\n");
}

/// What is said behind steps that were taken back, of which the last was answered so.
pub fn way_text(scene: &Scene<'_>, last: &Option<Reply>, taken: u64) -> Text {
    let mut text = Text::new(scene.alloc);
    match last {
        None => add_back(&mut text, scene, taken),
        Some(Reply::Refused(why)) => add_refused(&mut text, scene, &Command::Ready, *why),
        Some(_) => {}
    }
    text
}

/// Adds how many steps were taken back, and how many are left.
fn add_back(text: &mut Text, scene: &Scene<'_>, taken: u64) {
    let left = scene.machine().live_events().len() as u64;
    if taken == 0 {
        text.add(b"  no step was taken back: ");
        text.add(none_words(left));
        text.add(b"\n");
        return;
    }
    text.add_counted(b"  took back ", taken, steps_word(taken));
    text.add_counted(b"; ", left, steps_word(left));
    text.add(if left == 1 {
        b" is live\n"
    } else {
        b" are live\n"
    });
}

/// What is said where a deed names what is not there.
pub fn unknown_text(scene: &Scene<'_>, deed: &Deed) -> Text {
    let mut text = Text::new(scene.alloc);
    match deed {
        Deed::Take(number) => {
            text.add_counted(
                b"  no step has the number ",
                *number,
                b" here; `ready` numbers those that can be taken\n",
            );
        }
        _ => text.add(
            b"  no branch was stepped yet; `next 0` steps branch 0\n  `ready` numbers what can be taken\n",
        ),
    }
    text
}
