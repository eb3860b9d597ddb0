// What led to a step: a line for each step, with what it read and its nearest causes among the others.
use crate::Scene;
use crate::steps::{add_numbers, add_step, joint, steps_word};
use past::{Past, PastEvent};
use plain_words::{Text, add_value};
use runs::Event;
use std::alloc::AllocError;

/// Of a past of more steps than so many the first and the last are told.
const MOST_TOLD: usize = 60;

/// So many of them each.
const TOLD_AT_ENDS: usize = 20;

/// What a variable had at some moment of the run, and the ticket of the step that wrote it. Before the first it has 0.
#[derive(Clone, Copy)]
struct Written {
    bits: u64,
    ticket: Option<u64>,
}

/// Adds a line for each of the steps that led to one, and how many are left out.
pub(crate) fn add_past(text: &mut Text, scene: &Scene<'_>, past: &Past, subject: &[u8]) {
    let Ok(mut written) = none_written(scene) else {
        return text.add(b"  there was no memory to find it out\n");
    };
    let told = past.events.as_slice();
    let mut next: usize = 0;
    for (ticket, event) in scene.machine().live_events().iter() {
        if let Some(one) = told_at(told, next, ticket) {
            if is_shown(next, told.len()) {
                add_past_step(text, scene, one, event, written.as_slice());
            } else if next == TOLD_AT_ENDS {
                add_passed(text, told.len());
            }
            next = next.saturating_add(1);
        }
        note(written.as_mut_slice(), ticket, event);
    }
    add_left_out(text, past.left_out as u64, subject);
}

/// Whether the step of this index is told, of so many.
fn is_shown(index: usize, count: usize) -> bool {
    count <= MOST_TOLD || index < TOLD_AT_ENDS || index >= count.saturating_sub(TOLD_AT_ENDS)
}

/// Adds how many of so many steps are passed over.
fn add_passed(text: &mut Text, count: usize) {
    let passed = count.saturating_sub(2 * TOLD_AT_ENDS) as u64;
    text.add_counted(
        b"  .. ",
        passed,
        b" more steps; `save T`, then ask `balsadbg why FILE STIMULUS T X`\n",
    );
}

/// Adds a line with the step, what it read, and its nearest causes.
fn add_past_step(
    text: &mut Text,
    scene: &Scene<'_>,
    one: &PastEvent,
    event: &Event,
    written: &[Written],
) {
    text.add(b"  ");
    add_step(text, scene, one.ticket);
    add_reads(text, scene, b", from ", event, written);
    add_causes(text, scene, one, event, written);
    text.add(b"\n");
}

/// Adds a line with what the live step of this ticket read, if it read anything.
pub(crate) fn add_read_line(text: &mut Text, scene: &Scene<'_>, ticket: u64) {
    let Ok(mut written) = none_written(scene) else {
        return;
    };
    for (number, event) in scene.machine().live_events().iter() {
        if number == ticket {
            add_reads(text, scene, b"  it read ", event, written.as_slice());
            if !event.read.as_slice().is_empty() {
                text.add(b"\n");
            }
            break;
        }
        note(written.as_mut_slice(), number, event);
    }
}

/// Every variable before the first step.
fn none_written(scene: &Scene<'_>) -> Result<Vec<Written>, AllocError> {
    let unwritten = Written {
        bits: 0,
        ticket: None,
    };
    vec![in scene.alloc; unwritten; scene.system().variables.len()]
}

/// The told step of this number, if it has the ticket.
fn told_at<'a>(told: &'a [PastEvent], number: usize, ticket: u64) -> Option<&'a PastEvent> {
    match told.get(number) {
        Some(one) if one.ticket == ticket => Some(one),
        _ => None,
    }
}

/// Keeps what the event wrote.
fn note(written: &mut [Written], ticket: u64, event: &Event) {
    if let (Some(variable), Some(value)) = (event.written, event.value) {
        let last = Written {
            bits: value.bits(),
            ticket: Some(ticket),
        };
        keep(written, variable, last);
    }
}

/// Keeps the last write of a variable.
fn keep(written: &mut [Written], variable: u32, last: Written) {
    if let Some(place) = written.get_mut(variable as usize) {
        *place = last;
    }
}

/// Adds the variables that the event read, if it read any, each with its value then and the step that wrote it.
fn add_reads(
    text: &mut Text,
    scene: &Scene<'_>,
    before: &[u8],
    event: &Event,
    written: &[Written],
) {
    let variables = event.read.as_slice();
    for (index, variable) in variables.iter().enumerate() {
        text.add(if index == 0 {
            before
        } else {
            joint(index, variables.len())
        });
        add_read(text, scene, *variable, written);
    }
}

/// Adds the variable, its value, and the step that wrote it.
fn add_read(text: &mut Text, scene: &Scene<'_>, variable: u32, written: &[Written]) {
    text.add_variable(scene.system(), Some(variable));
    text.add(b" = ");
    let Some(last) = written.get(variable as usize) else {
        return text.add(b"?");
    };
    add_value(
        text,
        scene.alloc,
        scene.machine(),
        scene.elements,
        Some(variable),
        None,
        last.bits,
    );
    match last.ticket {
        Some(ticket) => text.add_counted(b" of step ", ticket, b""),
        None => text.add(b", never written"),
    }
}

/// Adds its nearest causes, but for those that wrote what it read.
fn add_causes(
    text: &mut Text,
    scene: &Scene<'_>,
    one: &PastEvent,
    event: &Event,
    written: &[Written],
) {
    let mut numbers = Vec::new(scene.alloc);
    for ticket in one.causes.as_slice().iter().rev() {
        if !is_source(event, written, *ticket) {
            let _ = numbers.push(*ticket);
        }
    }
    if !numbers.is_empty() {
        text.add(b", after");
        text.add(steps_word(numbers.len() as u64));
        text.add(b" ");
        add_numbers(text, numbers.as_slice());
    }
}

/// Whether the event read what the step of this ticket wrote.
fn is_source(event: &Event, written: &[Written], ticket: u64) -> bool {
    for variable in event.read.as_slice() {
        if let Some(last) = written.get(*variable as usize) {
            if last.ticket == Some(ticket) {
                return true;
            }
        }
    }
    false
}

/// Adds how many steps are left out, and how to see them.
fn add_left_out(text: &mut Text, count: u64, subject: &[u8]) {
    if count > 0 {
        text.add_counted(b"  ", count, steps_word(count));
        text.add(b" without a value left out: `why ");
        text.add(subject);
        text.add(b" all`\n");
    }
}
