// Steps in words, and lists of their numbers.
use crate::Scene;
use plain_words::{Tense, Text, add_deed, add_step as add_step_of};
use runs::Event;

/// So many numbers or steps of a list are told at most.
const MOST_TOLD: usize = 12;

/// Adds a line with what the event did.
pub(crate) fn add_done(text: &mut Text, scene: &Scene<'_>, before: &[u8], event: &Event) {
    text.add(before);
    add_deed(
        text,
        scene.alloc,
        scene.machine(),
        scene.elements,
        event,
        Tense::Done,
    );
    text.add(b"\n");
}

/// Adds what the event may do.
pub(crate) fn add_possible(text: &mut Text, scene: &Scene<'_>, event: &Event) {
    add_deed(
        text,
        scene.alloc,
        scene.machine(),
        scene.elements,
        event,
        Tense::Possible,
    );
}

/// Adds the live step of this ticket, as `step 3 (sent 12 to o, line 8)`.
pub(crate) fn add_step(text: &mut Text, scene: &Scene<'_>, ticket: u64) {
    add_step_of(text, scene.alloc, scene.machine(), scene.elements, ticket);
}

/// Adds a line for each of these live steps, and how many more there are.
pub(crate) fn add_step_lines(text: &mut Text, scene: &Scene<'_>, tickets: &[u64]) {
    for (index, ticket) in tickets.iter().enumerate() {
        if index >= MOST_TOLD {
            break;
        }
        text.add(b"  ");
        add_step(text, scene, *ticket);
        text.add(b"\n");
    }
    let left = tickets.len().saturating_sub(MOST_TOLD);
    if left > 0 {
        text.add_counted(b"  and ", left as u64, b" more\n");
    }
}

/// Adds a line for each of the newest live steps, of so many.
pub(crate) fn add_newest(text: &mut Text, scene: &Scene<'_>, count: usize) {
    let first = count.saturating_sub(MOST_TOLD);
    if first > 0 {
        text.add_counted(b"  the newest ", MOST_TOLD as u64, b" in words; ");
        text.add(b"`live N` tells N of them, `show T` any one\n");
    }
    add_steps(text, scene, first, count);
}

/// Adds a line for each of so many of the newest live steps, or of all where there are fewer.
pub(crate) fn add_newest_of(text: &mut Text, scene: &Scene<'_>, most: u64) {
    let count = scene.machine().live_events().len();
    let most = usize::try_from(most).unwrap_or(usize::MAX);
    let first = count.saturating_sub(most);
    if first >= count {
        text.add(b"  ");
        text.add(none_words(count as u64));
        text.add(b"\n");
    }
    add_steps(text, scene, first, count);
}

/// Why there is none of the newest steps, where so many are live.
pub(crate) fn none_words(live: u64) -> &'static [u8] {
    if live == 0 {
        b"no step is live"
    } else {
        b"0 steps were asked for"
    }
}

/// Adds a line for each live step from one index up to another.
fn add_steps(text: &mut Text, scene: &Scene<'_>, first: usize, count: usize) {
    for index in first..count {
        if let Some((ticket, _)) = scene.machine().live_at(index as u64) {
            text.add(b"  ");
            add_step(text, scene, ticket);
            text.add(b"\n");
        }
    }
}

/// Adds numbers, as `1, 2 and 5`, and how many more there are.
pub(crate) fn add_numbers(text: &mut Text, numbers: &[u64]) {
    let left = numbers.len().saturating_sub(MOST_TOLD);
    for (index, number) in numbers.iter().enumerate() {
        if index >= MOST_TOLD {
            break;
        }
        text.add(joint(index, numbers.len()));
        text.add_number(*number);
    }
    if left > 0 {
        text.add_counted(b" and ", left as u64, b" more");
    }
}

/// What stands before the item of this index, of so many.
pub(crate) fn joint(index: usize, count: usize) -> &'static [u8] {
    if index == 0 {
        b""
    } else if index.saturating_add(1) == count {
        b" and "
    } else {
        b", "
    }
}

/// `step` for one, else `steps`.
pub(crate) fn steps_word(count: u64) -> &'static [u8] {
    if count == 1 { b" step" } else { b" steps" }
}
