// How a line that is typed can be completed.
use dap_messages::{Answer, Listed, Members, Request};
use dap_views::{Program, Words};
use std::alloc::Global;

/// The words with which a line of a script begins, and those that are understood here alone.
static LINE_WORDS: [&str; 16] = [
    "ready",
    "live",
    "value",
    "blame",
    "consequences",
    "view",
    "trace",
    "step",
    "undo",
    "roll",
    "rollvalue",
    "branch",
    "break",
    "clear",
    "back",
    "rewind",
];

/// What was begun of a word or a name: where it begins in its line, as the client counts, and how many UTF-16 code
/// units it has. A client puts what was chosen in its place.
#[derive(Clone, Copy, Debug)]
struct Begun<'a> {
    text: &'a str,
    start: u64,
    length: u64,
}

/// Answers `completions`: the words with which a line begins, and names. As in a line that is taken, blanks and marks
/// may stand before them.
pub fn completions(alloc: Global, program: &Program, request: &Request, answer: &mut Answer) {
    let front = front_in(program, request);
    let line = front
        .trim_ascii_start()
        .trim_start_matches('!')
        .trim_ascii_start();
    let mut list = Listed::new(alloc);
    match line.rsplit_once(' ') {
        Some((_, last)) => add_names(alloc, program, begun_by(program, front, last), &mut list),
        None => {
            let begun = begun_by(program, front, line);
            add_words(alloc, begun, &mut list);
            add_names(alloc, program, begun, &mut list);
        }
    }
    let mut body = Members::new(alloc);
    body.list("targets", list);
    answer.body(body);
}

/// What stands before the column that the request names, in its line.
fn front_in<'a>(program: &Program, request: &'a Request) -> &'a str {
    let column = request.number("column").unwrap_or(0);
    let before = column
        .saturating_add(program.counting.columns)
        .saturating_sub(1);
    front(line_in(program, request), before)
}

/// The line of the text that the request names; the first where it names none.
fn line_in<'a>(program: &Program, request: &'a Request) -> &'a str {
    let above = match request.number("line") {
        Some(line) => program.meant_line(line).saturating_sub(1),
        None => 0,
    };
    let mut rest = request.text("text").unwrap_or("");
    for _ in 0..above {
        match rest.split_once('\n') {
            Some((_, below)) => rest = below,
            None => return "",
        }
    }
    match rest.split_once('\n') {
        Some((line, _)) => line,
        None => rest,
    }
}

/// The front of a text that has so many UTF-16 code units, or all of it. A character that would be cut is left out.
fn front(text: &str, most: u64) -> &str {
    let mut units = 0u64;
    for (offset, byte) in text.as_bytes().iter().enumerate() {
        units = units.saturating_add(units_from(*byte));
        if units > most {
            return match text.split_at_checked(offset) {
                Some((front, _)) => front,
                None => text,
            };
        }
    }
    text
}

/// How many UTF-16 code units a text has.
fn units_of(text: &str) -> u64 {
    let mut units = 0u64;
    for byte in text.as_bytes() {
        units = units.saturating_add(units_from(*byte));
    }
    units
}

/// How many UTF-16 code units the character has that begins with this byte of UTF-8; 0 where none does.
fn units_from(byte: u8) -> u64 {
    match byte {
        0x80..=0xbf => 0,
        0xf0..=0xff => 2,
        _ => 1,
    }
}

/// What was begun by the end of what stands before the column.
fn begun_by<'a>(program: &Program, front: &str, text: &'a str) -> Begun<'a> {
    let length = units_of(text);
    let before = units_of(front).saturating_sub(length);
    Begun {
        text,
        start: before
            .saturating_add(1)
            .saturating_sub(program.counting.columns),
        length,
    }
}

/// Adds the words that begin so.
fn add_words(alloc: Global, begun: Begun, list: &mut Listed) {
    for word in &LINE_WORDS {
        if word.starts_with(begun.text) {
            add_target(alloc, word, begun, list);
        }
    }
}

/// Adds the names that begin so, at most a hundred.
fn add_names(alloc: Global, program: &Program, begun: Begun, list: &mut Listed) {
    let mut count = 0u64;
    for named in &program.index.names {
        let mut words = Words::of(alloc, program.index.prefix(named.instance));
        words.add(named.own.as_str());
        if count < 100 && words.as_str().starts_with(begun.text) {
            add_target(alloc, words.as_str(), begun, list);
            count = count.saturating_add(1);
        }
    }
}

/// Adds what a line can be completed to.
fn add_target(alloc: Global, label: &str, begun: Begun, list: &mut Listed) {
    let mut target = Members::new(alloc);
    target.text("label", label);
    target.number("start", begun.start);
    target.number("length", begun.length);
    list.push(target);
}
