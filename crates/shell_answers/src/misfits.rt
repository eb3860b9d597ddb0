// What stands behind a word and does not fit there.
use crate::names::add_given;
use line_text::cut_at_space;
use plain_words::Text;

/// How a number is written in the form of a word.
const NUMBERS: [&str; 8] = ["[N]", "K", "[K]", "[K],", "T", "[T]", "LINE", "[LINE]"];

/// Adds that what stands behind the word does not fit there, and where one field is given for a number, why.
pub(crate) fn add_unfit(text: &mut Text, word: &str, operand: &str, rest: &[u8]) {
    match one_field(rest) {
        Some(field) if is_number_due(operand) => {
            text.add(b"`");
            add_given(text, field);
            text.add(b"`");
            add_not_behind(text, word);
            add_no_number(text, word, field);
        }
        _ => match last_of_two(rest) {
            Some(field) if is_number_due(operand) => add_too_much(text, word, field),
            _ => {
                text.add(b"that");
                add_not_behind(text, word);
            }
        },
    }
}

/// Adds that only one number stands behind the word.
fn add_too_much(text: &mut Text, word: &str, field: &[u8]) {
    text.add(b"`");
    add_given(text, field);
    text.add(b"` is too much: one number stands behind `");
    text.add(word.as_bytes());
    text.add(b"`");
}

/// The second of two fields, of which the first is a number.
fn last_of_two(rest: &[u8]) -> Option<&[u8]> {
    let fields = rest.strip_prefix(b" ")?;
    let (first, second) = cut_at_space(fields);
    if is_number(first) {
        one_field(second)
    } else {
        None
    }
}

/// Adds that it does not fit behind the word.
fn add_not_behind(text: &mut Text, word: &str) {
    text.add(b" does not fit behind `");
    text.add(word.as_bytes());
    text.add(b"`");
}

/// Adds why the field is no number that the word takes; as a bare one where that is empty.
pub(crate) fn add_no_number(text: &mut Text, word: &str, field: &[u8]) {
    if is_number(field.strip_prefix(b"-").unwrap_or(b"")) {
        text.add(b": it is less than 0");
    } else if !is_number(field) {
        text.add(b": it is no whole number");
    } else if field.starts_with(b"0") {
        text.add(b": it has a 0 too many in front");
    } else {
        text.add_counted(
            b": it is too great\n  the greatest number is ",
            greatest_behind(word),
            b"",
        );
    }
}

/// The greatest number that the word takes.
fn greatest_behind(word: &str) -> u64 {
    if word == "session" {
        15
    } else if word == "next" || word == "n" || word == "branch" {
        u64::from(u32::MAX)
    } else {
        u64::MAX
    }
}

/// Whether the operand is a number.
fn is_number_due(operand: &str) -> bool {
    for number in &NUMBERS {
        if *number == operand {
            return true;
        }
    }
    false
}

/// What stands behind a space, where that is one field.
pub(crate) fn one_field(rest: &[u8]) -> Option<&[u8]> {
    match rest {
        [b' ', field @ ..] if !field.is_empty() && !field.contains(&b' ') => Some(field),
        _ => None,
    }
}

/// Whether these are digits, and some.
pub(crate) fn is_number(word: &[u8]) -> bool {
    for byte in word {
        if !byte.is_ascii_digit() {
            return false;
        }
    }
    !word.is_empty()
}
