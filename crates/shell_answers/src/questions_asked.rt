// What words that ask nothing of the desk are answered.
use crate::Scene;
use crate::channels_asked::add_why_name;
use crate::ends::add_waiting;
use crate::help::add_help;
use crate::past_steps::add_past;
use crate::show::add_shown;
use crate::source_lines::add_lines;
use crate::usage::add_usage;
use crate::values::{add_valued, add_variables};
use line_text::read_ticket;
use plain_words::Text;
use questions::{Reason, outline_text, reason_of};
use shell_desk::Word;
use std::str;
use waiting::who_waits;

/// The answer to a word that asks nothing of the desk, or how it is written where `rest` does not fit.
pub fn question_text(scene: &Scene<'_>, word: Word, rest: &[u8]) -> Text {
    let mut text = Text::new(scene.alloc);
    match word {
        Word::Waiting if rest.is_empty() => add_who_waits(&mut text, scene),
        Word::Outline if rest.is_empty() => add_outline(&mut text, scene),
        Word::Vars if rest.is_empty() => add_variables(&mut text, scene),
        Word::List => add_list(&mut text, scene, rest),
        Word::Show => add_show(&mut text, scene, rest),
        Word::Why => add_why(&mut text, scene, rest),
        Word::Help => add_help(&mut text, scene, rest),
        _ => add_usage(&mut text, word.spelling(), rest),
    }
    text
}

/// Adds who waits.
fn add_who_waits(text: &mut Text, scene: &Scene<'_>) {
    match who_waits(scene.alloc, scene.machine()) {
        Ok(waiting) => add_waiting(text, scene, &waiting),
        Err(_) => text.add(b"  there was no memory to find who waits\n"),
    }
}

/// Adds what there is in the system.
fn add_outline(text: &mut Text, scene: &Scene<'_>) {
    match outline_text(scene.alloc, scene.machine().checked(), scene.source) {
        Ok(lines) => text.add(lines.as_slice()),
        Err(_) => text.add(b"  there was no memory for the outline\n"),
    }
}

/// Adds the source, around a line where one is given.
fn add_list(text: &mut Text, scene: &Scene<'_>, rest: &[u8]) {
    if rest.is_empty() {
        return add_lines(text, scene, None);
    }
    match read_ticket(rest) {
        Some(line) => add_lines(text, scene, Some(line)),
        None => add_usage(text, b"list", rest),
    }
}

/// Adds one step.
fn add_show(text: &mut Text, scene: &Scene<'_>, rest: &[u8]) {
    match read_ticket(rest) {
        Some(ticket) => add_shown(text, scene, ticket),
        None => add_usage(text, b"show", rest),
    }
}

/// Adds why a variable has its value, or why a step could be taken.
fn add_why(text: &mut Text, scene: &Scene<'_>, rest: &[u8]) {
    let Some(asked) = rest.strip_prefix(b" ") else {
        return add_usage(text, b"why", rest);
    };
    match without_all(asked) {
        Some(subject) => add_reason_of(text, scene, subject, true),
        None => add_reason_of(text, scene, asked, false),
    }
}

/// What stands before ` all`, in small letters or large ones, where that stands at the end.
fn without_all(asked: &[u8]) -> Option<&[u8]> {
    let length = asked.len().saturating_sub(4);
    match asked.get(length..) {
        Some(end) if end.eq_ignore_ascii_case(b" all") => asked.get(..length),
        _ => None,
    }
}

/// Adds why the subject is so.
fn add_reason_of(text: &mut Text, scene: &Scene<'_>, subject: &[u8], all: bool) {
    let Ok(name) = str::from_utf8(subject) else {
        return add_usage(text, b"why", subject);
    };
    match reason_of(scene.alloc, scene.machine(), name, all) {
        Ok(reason) => add_reason(text, scene, subject, &reason, all),
        Err(_) => text.add(b"  there was no memory to find it out\n"),
    }
}

/// Adds the reason.
fn add_reason(text: &mut Text, scene: &Scene<'_>, subject: &[u8], reason: &Reason, all: bool) {
    match reason {
        Reason::Value(variable, past) => {
            add_valued(text, scene, *variable);
            add_past(text, scene, past, subject);
        }
        Reason::Step(_, past) => add_past(text, scene, past, subject),
        Reason::Unwritten => {
            text.add(b"  no live step wrote `");
            text.add(subject);
            text.add(b"`, so it is 0 as at the beginning\n");
        }
        Reason::Missing => {
            text.add(b"  no live step has the number ");
            text.add(subject);
            text.add(b"; `live` lists them\n");
        }
        Reason::Unknown => add_why_name(text, scene, subject, all),
    }
}
