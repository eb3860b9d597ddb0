// Breakpoints on lines of which a step is on another line.
use crate::Scene;
use crate::steps::add_numbers;
use outline::{BranchEnd, EndTable, Way};
use plain_words::Text;
use std::alloc::Global;

/// Where steps are of what stands on a line.
#[derive(Drop)]
struct Elsewhere {
    /// the other lines on which is received what the line sends, each once
    received: Vec<u64>,
    /// the other lines on which an arm or a sync of an earlier branch meets its syncs, each once
    met: Vec<u64>,
    /// whether the environment takes what it sends
    is_sent_out: bool,
}

/// Adds, where steps of what stands on this line are on other lines, that a run stops at them there.
pub(crate) fn add_sent_line(text: &mut Text, scene: &Scene<'_>, line: u64) {
    let Ok(table) = EndTable::of(scene.alloc, scene.machine().checked()) else {
        return;
    };
    let mut found = Elsewhere::new(scene.alloc);
    for ends in table.rows.as_slice() {
        found.add_channel(ends.as_slice(), line);
    }
    found.add_to(text);
}

/// Adds that a run does not stop at a send to an output port.
fn add_sent_out(text: &mut Text) {
    text.add(b"  a run stops at no send to an output port: the environment takes that step\n");
    text.add(b"  where nothing else is on this line, break on what comes before\n");
}

/// Adds the lines on which the steps are, and that a run stops at them there.
fn add_there(text: &mut Text, words: &[u8], lines: &[u64]) {
    if lines.is_empty() {
        return;
    }
    text.add(words);
    text.add(if lines.len() == 1 {
        b" on line "
    } else {
        b" on lines "
    });
    add_numbers(text, lines);
    text.add(b": break there\n");
}

/// Whether one of the ends sends on this line.
fn sends_on(ends: &[BranchEnd], line: u64) -> bool {
    for end in ends {
        if matches!(end.end.way, Way::Sends) && end.end.line == Some(line) {
            return true;
        }
    }
    false
}

/// The last branch that syncs on this line.
fn last_sync(ends: &[BranchEnd], line: u64) -> Option<u32> {
    let mut last = None;
    for end in ends {
        if matches!(end.end.way, Way::Syncs) && end.end.line == Some(line) {
            last = Some(end.branch);
        }
    }
    last
}

/// Whether a sync of this branch, if there is one, is stepped at the end where the two meet.
fn is_first(end: &BranchEnd, sync: Option<u32>) -> bool {
    match (sync, end.end.way) {
        (Some(_), Way::Opens(_)) => true,
        (Some(branch), Way::Syncs) => end.branch < branch,
        _ => false,
    }
}

/// Adds the line, where it is another than this one; nothing without memory.
fn add_other(lines: &mut Vec<u64>, line: u64, other: u64) {
    if other != line && !lines.contains(&other) {
        let _ = lines.push(other);
    }
}

impl Elsewhere {
    /// None yet.
    fn new(alloc: Global) -> Elsewhere {
        Elsewhere {
            received: Vec::new(alloc),
            met: Vec::new(alloc),
            is_sent_out: false,
        }
    }

    /// Adds where the steps are of what uses on this line the channel that has these ends.
    fn add_channel(&mut self, ends: &[BranchEnd], line: u64) {
        let sends = sends_on(ends, line);
        let sync = last_sync(ends, line);
        for end in ends {
            if sends && matches!(end.end.way, Way::Receives | Way::Opens(_)) {
                self.add_receive(end.end.line, line);
            }
            if is_first(end, sync) {
                add_other(&mut self.met, line, end.end.line.unwrap_or(line));
            }
        }
    }

    /// Adds the line on which is received what this one sends; none is the environment's.
    fn add_receive(&mut self, other: Option<u64>, line: u64) {
        match other {
            Some(other) => add_other(&mut self.received, line, other),
            None => self.is_sent_out = true,
        }
    }

    /// Adds all of it.
    fn add_to(&self, text: &mut Text) {
        if self.is_sent_out {
            add_sent_out(text);
        }
        add_there(
            text,
            b"  what is sent here is stepped where it is received,",
            self.received.as_slice(),
        );
        add_there(
            text,
            b"  a sync is stepped where an arm or an earlier branch meets it,",
            self.met.as_slice(),
        );
    }
}
