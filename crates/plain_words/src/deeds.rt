// An event in words: what it does, with whom, and on which line.
use crate::elements::Elements;
use crate::phrases::{CLOSES, OPENS, RECEIVES, SENDS, SYNCS, TAKES_ARM, TAKES_NONE, TURNS};
use crate::text::Text;
use crate::values::add_value;
use machine::Machine;
use runs::{Event, Kind};
use std::alloc::Global;

/// Whether an event was taken, or may be.
#[derive(Clone, Copy, Debug, PartialEq, Eq)]
pub enum Tense {
    Done,
    Possible,
}

/// Adds what the event does, as `received 5 from a into x, line 7`.
pub fn add_deed(
    text: &mut Text,
    alloc: Global,
    machine: &Machine,
    elements: &Elements<'_>,
    event: &Event,
    tense: Tense,
) {
    match event.kind {
        Kind::Assign => add_assign(text, alloc, machine, elements, event),
        Kind::Test => add_test(text, event, tense),
        Kind::Turn => text.add(TURNS.text(tense)),
        Kind::Meet => add_meet(text, alloc, machine, elements, event, tense),
        Kind::Open => add_open(text, alloc, machine, elements, event, tense),
        Kind::Close => {
            text.add(CLOSES.text(tense));
            text.add_channel(machine.checked().system(), event.channel);
        }
        Kind::Sync => {
            text.add(SYNCS.text(tense));
            text.add_channel(machine.checked().system(), event.channel);
        }
    }
    add_lines(text, machine, event);
}

/// Adds `set x to 3`.
fn add_assign(
    text: &mut Text,
    alloc: Global,
    machine: &Machine,
    elements: &Elements<'_>,
    event: &Event,
) {
    text.add(b"set ");
    text.add_variable(machine.checked().system(), event.written);
    text.add(b" to ");
    add_carried(text, alloc, machine, elements, event);
}

/// Adds the arm that a test takes.
fn add_test(text: &mut Text, event: &Event, tense: Tense) {
    match event.arm {
        Some(arm) => text.add_counted(TAKES_ARM.text(tense), u64::from(arm), b""),
        None => text.add(TAKES_NONE.text(tense)),
    }
}

/// Adds `received 5 from a into x`, or `sent 12 to o` where the value goes out.
fn add_meet(
    text: &mut Text,
    alloc: Global,
    machine: &Machine,
    elements: &Elements<'_>,
    event: &Event,
    tense: Tense,
) {
    let system = machine.checked().system();
    if event.written.is_some() {
        text.add(RECEIVES.text(tense));
        add_carried(text, alloc, machine, elements, event);
        text.add(b" from ");
        text.add_channel(system, event.channel);
        text.add(b" into ");
        text.add_variable(system, event.written);
    } else {
        text.add(SENDS.text(tense));
        add_carried(text, alloc, machine, elements, event);
        text.add(b" to ");
        text.add_channel(system, event.channel);
    }
}

/// Adds `opened arm 0 of a with 5`.
fn add_open(
    text: &mut Text,
    alloc: Global,
    machine: &Machine,
    elements: &Elements<'_>,
    event: &Event,
    tense: Tense,
) {
    let arm = event.arm.unwrap_or(0);
    text.add_counted(OPENS.text(tense), u64::from(arm), b" by ");
    text.add_channel(machine.checked().system(), event.channel);
    if event.value.is_some() {
        text.add(b", with ");
        add_carried(text, alloc, machine, elements, event);
    }
}

/// Adds the value that is written or sent.
fn add_carried(
    text: &mut Text,
    alloc: Global,
    machine: &Machine,
    elements: &Elements<'_>,
    event: &Event,
) {
    match event.value {
        Some(value) => add_value(
            text,
            alloc,
            machine,
            elements,
            event.written,
            event.channel,
            value.bits(),
        ),
        None => text.add(b"nothing"),
    }
}

/// Adds the line of the acting side, and that of the other where it stands on another line.
fn add_lines(text: &mut Text, machine: &Machine, event: &Event) {
    let acting = machine.line(event.acting_place());
    let first = machine.line(&event.first);
    match (acting, first) {
        (Some(line), Some(other)) if line != other => {
            text.add_counted(b", line ", line, b"");
            text.add_counted(b" and line ", other, b"");
        }
        (Some(line), _) => text.add_counted(b", line ", line, b""),
        (None, Some(line)) => text.add_counted(b", line ", line, b""),
        (None, None) => {}
    }
}

/// Adds the live step of this ticket, as `step 3 (sent 12 to o, line 8)`.
pub fn add_step(
    text: &mut Text,
    alloc: Global,
    machine: &Machine,
    elements: &Elements<'_>,
    ticket: u64,
) {
    text.add_counted(b"step ", ticket, b"");
    let live = machine.live_events();
    let Some(index) = live.index_of(ticket) else {
        return;
    };
    if let Some((_, event)) = live.pair_at(index as u64) {
        text.add(b" (");
        add_deed(text, alloc, machine, elements, event, Tense::Done);
        text.add(b")");
    }
}
