// Lines that say nothing here.
use crate::Scene;
use crate::misfits::{add_no_number, is_number, one_field};
use crate::names::{add_given, add_unknown_name};
use crate::program_words::{add_program_word, program_word};
use crate::steps::add_newest_of;
use crate::usage::{USAGES, add_usage, usage_of};
use findings::Nearest;
use line_text::{cut_at_space, read_ticket};
use plain_words::Text;
use std::alloc::Global;
use std::str;

/// What is said to a line that says nothing: the nearest word where its word is none, else how the word is written.
pub fn mistake_text(scene: &Scene<'_>, line: &[u8]) -> Text {
    let mut text = Text::new(scene.alloc);
    let (word, rest) = cut_at_space(line);
    if is_number(word) && !rest.is_empty() {
        add_number_alone(&mut text, word);
    } else if begins_as_number(word) {
        add_no_step_number(&mut text, word);
    } else if usage_of(word).is_none() {
        add_unknown_word(&mut text, scene.alloc, word, rest);
    } else if word == b"step".as_slice() && read_ticket(rest).is_some() {
        add_step_by_number(&mut text, rest);
    } else if names_variable(word) && one_field(rest).is_some() {
        add_unknown_name(&mut text, scene, rest.get(1..).unwrap_or(b""));
    } else {
        add_other(&mut text, scene, word, rest);
    }
    text
}

/// Adds the newest steps, where so many are asked for, else how the word is written.
fn add_other(text: &mut Text, scene: &Scene<'_>, word: &[u8], rest: &[u8]) {
    match read_ticket(rest) {
        Some(count) if word == b"live".as_slice() => add_newest_of(text, scene, count),
        _ => add_usage(text, word, rest),
    }
}

/// Whether the name of a variable stands behind the word.
fn names_variable(word: &[u8]) -> bool {
    word == b"value".as_slice() || word == b"blame".as_slice() || word == b"rollvalue".as_slice()
}

/// Adds that nothing stands behind the number of a step.
fn add_number_alone(text: &mut Text, number: &[u8]) {
    text.add(b"  the number of a step in `ready` is typed alone, as `");
    add_given(text, number);
    text.add(b"`\n");
}

/// Whether the word begins as a number does.
fn begins_as_number(word: &[u8]) -> bool {
    match word {
        [b'-', digit, ..] => digit.is_ascii_digit(),
        [digit, ..] => digit.is_ascii_digit(),
        [] => false,
    }
}

/// Adds why the word is no number of a step.
fn add_no_step_number(text: &mut Text, word: &[u8]) {
    text.add(b"  `");
    add_given(text, word);
    text.add(b"` is no step's number");
    add_no_number(text, "", word);
    text.add(b"\n  a number alone takes the step that `ready` lists with it, as `1`\n");
}

/// Adds that a place is wanted, and that a number is typed alone.
fn add_step_by_number(text: &mut Text, rest: &[u8]) {
    text.add(
        b"  `step` takes a place, as `step /0.0/0`\n  the number of a step in `ready` is typed alone, as `",
    );
    text.add(rest.strip_prefix(b" ").unwrap_or(b""));
    text.add(b"`\n");
}

/// Adds that this is no word here: a command of the program is told as one.
pub(crate) fn add_unknown_word(text: &mut Text, alloc: Global, word: &[u8], rest: &[u8]) {
    match program_word(word) {
        Some(found) => add_program_word(text, &found, rest),
        None => add_nearest(text, alloc, word),
    }
}

/// Adds that this is no word, and the nearest one, if one is near.
fn add_nearest(text: &mut Text, alloc: Global, word: &[u8]) {
    let given = str::from_utf8(word).unwrap_or("");
    if given.is_empty() || given.len() > 40 {
        text.add(b"  this says nothing here; `help` lists what you can type\n");
        return;
    }
    text.add(b"  `");
    add_given(text, word);
    text.add(b"` is no word here; ");
    match usual_word(given).or(nearest_word(alloc, given)) {
        Some(near) => {
            text.add(b"did you mean `");
            text.add(near.as_bytes());
            text.add(b"`?\n");
        }
        None => text.add(b"`help` lists what you can type\n"),
    }
}

/// A word of other debuggers, and the one that does the same here.
#[derive(Clone, Copy)]
struct Usual {
    given: &'static str,
    word: &'static str,
}

/// What people type who know other debuggers.
const USUALS: [Usual; 24] = [
    Usual {
        given: "exit",
        word: "quit",
    },
    Usual {
        given: "bye",
        word: "quit",
    },
    Usual {
        given: "q",
        word: "quit",
    },
    Usual {
        given: "?",
        word: "help",
    },
    Usual {
        given: "h",
        word: "help",
    },
    Usual {
        given: "man",
        word: "help",
    },
    Usual {
        given: "continue",
        word: "run",
    },
    Usual {
        given: "c",
        word: "run",
    },
    Usual {
        given: "go",
        word: "run",
    },
    Usual {
        given: "print",
        word: "value",
    },
    Usual {
        given: "p",
        word: "value",
    },
    Usual {
        given: "b",
        word: "break",
    },
    Usual {
        given: "l",
        word: "list",
    },
    Usual {
        given: "u",
        word: "undo",
    },
    Usual {
        given: "redo",
        word: "ready",
    },
    Usual {
        given: "s",
        word: "n",
    },
    Usual {
        given: "stop",
        word: "break",
    },
    Usual {
        given: "delete",
        word: "clear",
    },
    Usual {
        given: "restart",
        word: "back 65536",
    },
    Usual {
        given: "reset",
        word: "back 65536",
    },
    Usual {
        given: "where",
        word: "list",
    },
    Usual {
        given: "bt",
        word: "why",
    },
    Usual {
        given: "backtrace",
        word: "why",
    },
    Usual {
        given: "info",
        word: "vars",
    },
];

/// The word that does here what this one does elsewhere.
fn usual_word(given: &str) -> Option<&'static str> {
    for usual in &USUALS {
        if usual.given == given {
            return Some(usual.word);
        }
    }
    None
}

/// The nearest word, if one is near.
fn nearest_word(alloc: Global, given: &str) -> Option<&'static str> {
    let mut nearest = Nearest::none();
    for usage in &USAGES {
        if nearest.offer(alloc, given, usage.word).is_err() {
            return None;
        }
    }
    nearest.name
}
