// The source around a line, with its marks.
use crate::Scene;
use crate::names::add_plain;
use crate::steps::add_numbers;
use machine::Machine;
use plain_words::Text;
use runs::Event;
use source_view::view;
use waiting::{Waiting, who_waits};

/// So many lines are shown before and behind the line that is asked for.
const AROUND: u64 = 5;

/// A source of so many lines at most is shown whole where no line is asked for.
const SHORT: u64 = 30;

/// Adds the lines around this one, or where none is asked for those around the newest step or what can be done first,
/// of a short source all.
pub(crate) fn add_lines(text: &mut Text, scene: &Scene<'_>, line: Option<u64>) {
    let breaks = scene.bench.desk().breaks(scene.bench.session());
    let Ok(shown) = view(scene.alloc, scene.machine(), breaks, scene.source) else {
        text.add(b"  there was no memory to show the source\n");
        return;
    };
    let count = count_lines(shown.as_slice());
    match line {
        Some(line) if line > count || line == 0 => {
            text.add_counted(b"  the source has the lines 1 to ", count, b"\n");
        }
        Some(line) => add_around(text, shown.as_slice(), line),
        None if count <= SHORT => add_rows(text, shown.as_slice(), 1, count),
        None => add_around(text, shown.as_slice(), newest_line(scene)),
    }
    add_sending_lines(text, scene);
    add_waiting_lines(text, scene);
}

/// Adds on which lines something can be sent that the environment takes: no mark is on them for it.
fn add_sending_lines(text: &mut Text, scene: &Scene<'_>) {
    let lines = sending_lines(scene);
    if !lines.is_empty() {
        text.add(if lines.len() == 1 {
            b"  line "
        } else {
            b"  lines "
        });
        add_numbers(text, lines.as_slice());
        text.add(b" can send to an output port now\n");
    }
}

/// The lines of what can meet the environment and is stepped there, each once; fewer without memory.
fn sending_lines(scene: &Scene<'_>) -> Vec<u64> {
    let mut lines = Vec::new(scene.alloc);
    let Ok(events) = scene.machine().ready() else {
        return lines;
    };
    for event in events.as_slice() {
        if let Some(line) = sending_line(scene, event) {
            if !lines.contains(&line) {
                let _ = lines.push(line);
            }
        }
    }
    lines
}

/// The line of what meets the environment in the event, where it is stepped there.
fn sending_line(scene: &Scene<'_>, event: &Event) -> Option<u64> {
    let machine = scene.machine();
    match machine.line(event.acting_place()) {
        Some(_) => None,
        None => machine.line(&event.first),
    }
}

/// Adds on which lines something waits, where nothing can go on.
fn add_waiting_lines(text: &mut Text, scene: &Scene<'_>) {
    let Ok(waiting) = who_waits(scene.alloc, scene.machine()) else {
        return;
    };
    if !waiting.ready.is_empty() {
        return;
    }
    let lines = waiting_lines(scene, &waiting);
    if !lines.is_empty() {
        text.add(if lines.len() == 1 {
            b"  nothing can go on: line "
        } else {
            b"  nothing can go on: lines "
        });
        add_numbers(text, lines.as_slice());
        text.add(if lines.len() == 1 {
            b" waits\n"
        } else {
            b" wait\n"
        });
    }
}

/// The lines on which something waits, each once; fewer without memory.
fn waiting_lines(scene: &Scene<'_>, waiting: &Waiting) -> Vec<u64> {
    let mut lines = Vec::new(scene.alloc);
    for offered in waiting.actions.as_slice() {
        if let Some(line) = scene.machine().line(&offered.place) {
            if !lines.contains(&line) {
                let _ = lines.push(line);
            }
        }
    }
    lines
}

/// How many lines these are.
fn count_lines(shown: &[u8]) -> u64 {
    let mut count: u64 = 0;
    for byte in shown {
        if *byte == b'\n' {
            count = count.saturating_add(1);
        }
    }
    count
}

/// The line of the newest step; where it has none the first on which a step can be taken, else the first.
fn newest_line(scene: &Scene<'_>) -> u64 {
    let machine = scene.machine();
    let last = (machine.live_events().len() as u64).saturating_sub(1);
    let line = match machine.live_at(last) {
        Some((_, event)) => line_of(machine, event),
        None => None,
    };
    match line {
        Some(line) => line,
        None => ready_line(scene).unwrap_or(1),
    }
}

/// The first line on which a step can be taken.
fn ready_line(scene: &Scene<'_>) -> Option<u64> {
    let events = scene.machine().ready().ok()?;
    for event in events.as_slice() {
        if let Some(line) = line_of(scene.machine(), event) {
            return Some(line);
        }
    }
    None
}

/// The line on which the event is stepped, and of what the environment takes that of the sender.
fn line_of(machine: &Machine, event: &Event) -> Option<u64> {
    machine
        .line(event.acting_place())
        .or(machine.line(&event.first))
}

/// Adds the lines around this one.
fn add_around(text: &mut Text, shown: &[u8], line: u64) {
    add_rows(
        text,
        shown,
        line.saturating_sub(AROUND),
        line.saturating_add(AROUND),
    );
}

/// Adds the lines from one to another.
fn add_rows(text: &mut Text, shown: &[u8], first: u64, last: u64) {
    for (index, row) in shown.split(|byte| *byte == b'\n').enumerate() {
        let number = (index as u64).saturating_add(1);
        if first <= number && number <= last && !row.is_empty() {
            // A source from Windows has one before each end of a line.
            add_plain(text, row.strip_suffix(b"\r").unwrap_or(row));
            text.add(b"\n");
        }
    }
}
