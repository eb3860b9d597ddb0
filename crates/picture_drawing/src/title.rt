// The line over all: the file of the trace, how many steps it has, how the run stands, and what is marked.
use crate::cones::Cones;
use crate::figure::Figure;
use crate::labels::add_number;
use crate::sheet::{Part, SMALL_LETTER, Sheet};
use itoa::Buffer;
use picture_data::{End, Progress};
use std::alloc::{AllocError, Global};

/// Where the line begins, in tenths of a pixel.
const BEGIN: u64 = 80;

/// Writes the line.
pub(crate) fn draw_title(
    alloc: Global,
    sheet: &mut Sheet,
    figure: &Figure<'_>,
    trace: &[u8],
    cones: Option<&Cones>,
) -> Result<(), AllocError> {
    let mut head = Vec::new(alloc);
    tell_run(figure, trace, &mut head)?;
    reach(sheet, letters(head.as_slice()));
    sheet.add_all(&[
        Part::Text("<text x=\"8\" y=\"11\" font-size=\"9\" fill=\"#5d6872\">"),
        Part::Words(head.as_slice()),
    ])?;
    if let Some(cones) = cones {
        draw_marked(sheet, cones, letters(head.as_slice()))?;
    }
    sheet.add_all(&[Part::Text("</text>\n")])
}

/// Notes how far a line with so many letters reaches.
fn reach(sheet: &mut Sheet, letters: u64) {
    let width = letters.saturating_mul(SMALL_LETTER);
    sheet.reach(width.saturating_add(BEGIN));
}

/// How many letters a text in UTF-8 is wide at most: those from three bytes on may be twice as wide as others.
fn letters(text: &[u8]) -> u64 {
    let mut letters: u64 = 0;
    for byte in text {
        letters = letters.saturating_add(letter_width(*byte));
    }
    letters
}

/// How many letters wide the letter is that begins with this byte; 0 where none does.
fn letter_width(byte: u8) -> u64 {
    if byte < 0x80 {
        1
    } else if byte < 0xc0 {
        0
    } else if byte < 0xe0 {
        1
    } else {
        2
    }
}

/// Adds the file, how many steps it has, and how the run stands.
fn tell_run(figure: &Figure<'_>, trace: &[u8], text: &mut Vec<u8>) -> Result<(), AllocError> {
    text.extend_from_slice(base_of(trace))?;
    text.extend_from_slice(b": ")?;
    add_counted(text, figure.scene.live.len() as u64, b" step")?;
    text.extend_from_slice(b", ")?;
    tell_state(&figure.scene.picture.end, text)
}

/// The name of a file without the folders before it.
fn base_of(path: &[u8]) -> &[u8] {
    match path.iter().rposition(|byte| *byte == b'/') {
        Some(slash) => path.get(slash.saturating_add(1)..).unwrap_or(path),
        None => path,
    }
}

/// Adds how many there are of what this word is for.
fn add_counted(text: &mut Vec<u8>, count: u64, word: &[u8]) -> Result<(), AllocError> {
    add_number(text, count)?;
    text.extend_from_slice(word)?;
    text.extend_from_slice(if count == 1 { b"" } else { b"s" })
}

/// Adds how the run stands.
fn tell_state(end: &End, text: &mut Vec<u8>) -> Result<(), AllocError> {
    if end.ready.is_empty() {
        return text.extend_from_slice(standing(end));
    }
    if !end.ring.is_empty() {
        text.extend_from_slice(b"deadlock, ")?;
    }
    add_number(text, end.ready.len() as u64)?;
    text.extend_from_slice(b" ready")
}

/// How a run stands that goes on no more, in the words of `waiting`.
fn standing(end: &End) -> &'static [u8] {
    if !end.ring.is_empty() {
        return b"deadlock";
    }
    match end.progress {
        Progress::GoesOn => b"goes on",
        Progress::Done => b"done",
        Progress::Stuck => {
            if end.lacks_input {
                b"out of input"
            } else {
                b"stuck"
            }
        }
    }
}

/// Writes what is marked, behind so many letters.
fn draw_marked(sheet: &mut Sheet, cones: &Cones, before: u64) -> Result<(), AllocError> {
    let causes = others(cones.causes.as_slice());
    let consequences = others(cones.consequences.as_slice());
    let cause = word_for(causes, " cause", " causes");
    let consequence = word_for(consequences, " consequence", " consequences");
    let digits = digits_of(cones.ticket)
        .saturating_add(digits_of(causes))
        .saturating_add(digits_of(consequences));
    let words = (cause.len() as u64).saturating_add(consequence.len() as u64);
    // Between these words and numbers stand 27 letters.
    let letters = digits.saturating_add(words).saturating_add(27);
    reach(sheet, letters.saturating_add(before));
    sheet.add_all(&[
        Part::Text("; step "),
        Part::Number(cones.ticket),
        Part::Text(", its <tspan fill=\"#0067b1\" font-weight=\"bold\">"),
        Part::Number(causes),
        Part::Text(cause),
        Part::Text("</tspan> and <tspan fill=\"#c24a00\" font-weight=\"bold\">"),
        Part::Number(consequences),
        Part::Text(consequence),
        Part::Text("</tspan> (dashed)"),
    ])
}

/// The word for one, or for another count.
fn word_for(count: u64, one: &'static str, many: &'static str) -> &'static str {
    if count == 1 { one } else { many }
}

/// How many digits the number has.
fn digits_of(number: u64) -> u64 {
    let mut buffer = Buffer::new();
    buffer.format(number).len() as u64
}

/// How many there are beside the event itself.
fn others(tickets: &[u64]) -> u64 {
    (tickets.len() as u64).saturating_sub(1)
}
