// Rows of a text, each with the marks under it.
ghost use Rattle.std.specs.Prelude.{◌≡◌, ◌++◌, ◌+◌, ◌<◌, ◌≤◌, ℕ, [], List, IfOk, codes, decimal, drop, length, min, string_bytes, take};
ghost use Rattle.marked_lines.specs.declared.marks.Mark.{Mark};
ghost use Rattle.marked_lines.specs.Rows as rows;

use crate::part::{Part, add_marks, add_under, bytes_between, character_from, part_around};
use crate::shown::add_blanks;
use std::alloc::{AllocError, Global};

/// What is marked: the bytes from one offset up to another, the sign under them, and what is said of them.
#[derive(Clone, Copy)]
pub struct Mark<'a> {
    pub start: usize,
    pub stop: usize,
    pub sign: char,
    /// Nothing is said where it is empty.
    pub note: &'a str,
}

/// Adds the number of a line as a row has it in front, or as many blanks: `columns` in all.
fn add_gutter(out: &mut String, number: &str, columns: usize) -> Result<(), AllocError>
    ensures { IfOk result (λ _. string_bytes out.new ≡ string_bytes out.old ++ rows.gutter number.now columns) }
{
    out.push_str("  ")?;
    add_blanks(out, columns.saturating_sub(number.len()))?;
    out.push_str(number)?;
    out.push_str(" | ")
}

impl Part {
    /// Whether a mark shares a row with the one before it: it begins behind that, in the part or behind its last byte.
    fn goes_on(self, before: Mark<'_>, mark: Mark<'_>) -> bool
        ensures { result ≡ rows.goes_on self before.entry mark.entry }
    {
        self.from <= mark.start
            && mark.start <= self.to
            && before.stop <= mark.start
            && before.start < mark.start
    }

    /// Where what stands over the signs of a mark ends. A mark of no bytes has the character behind it over its sign,
    /// but a tab stands behind the sign.
    fn stop_of(self, text: &[u8], mark: Mark<'_>) -> usize
        ensures some { mark.entry.start < mark.entry.stop → result ≡ min mark.entry.stop self.to }
        ensures none { mark.entry.stop ≤ mark.entry.start → result ≤ mark.entry.start + 4 }
    {
        if mark.start < mark.stop || text.get(mark.start) == Some(&b'\t') {
            return mark.stop.min(self.to);
        }
        let behind = character_from(text, mark.start.saturating_add(1));
        behind.min(mark.start.saturating_add(4)).min(self.to)
    }
}

/// Adds the signs of marks under a part, of which those before the byte at `behind` are there.
fn add_signs_behind(
    out: &mut String,
    text: &[u8],
    part: Part,
    behind: usize,
    marks: &[Mark<'_>],
) -> Result<(), AllocError>
    ensures { IfOk result (λ _. (told : List ℕ) × rows.IsSigns text.now part behind marks.now told
        × (string_bytes out.new ≡ string_bytes out.old ++ told)) }
{
    let Some((mark, rest)) = marks.split_first() else {
        return Ok(());
    };
    let stop = part.stop_of(text, *mark);
    add_under(out, bytes_between(text, behind, mark.start))?;
    add_marks(out, bytes_between(text, mark.start, stop), mark.sign)?;
    add_signs_behind(out, text, part, stop.max(mark.start), rest)
}

/// What is said of the last mark.
fn last_note<'a>(marks: &[Mark<'a>]) -> &'a str
    ensures { result.now ≡ rows.last_note marks.now }
{
    let Some((mark, rest)) = marks.split_first() else {
        return "";
    };
    if rest.is_empty() {
        mark.note
    } else {
        last_note(rest)
    }
}

/// Adds what is said of the last mark, and ends its row.
fn add_last_note(out: &mut String, note: &str) -> Result<(), AllocError>
    ensures { IfOk result (λ _. string_bytes out.new
        ≡ string_bytes out.old ++ rows.behind_blank note.now ++ codes "\n") }
{
    if !note.is_empty() {
        out.push(' ')?;
        out.push_str(note)?;
    }
    out.push('\n')
}

/// Adds what is said of a mark in a row of its own, under the byte at which it begins.
fn add_note_row(
    out: &mut String,
    text: &[u8],
    part: Part,
    start: usize,
    note: &str,
    columns: usize,
) -> Result<(), AllocError>
    ensures { IfOk result (λ _. string_bytes out.new
        ≡ string_bytes out.old ++ rows.note_row text.now part columns start note.now) }
{
    if note.is_empty() {
        return Ok(());
    }
    add_gutter(out, "", columns)?;
    part.add_cut(out)?;
    add_under(out, bytes_between(text, part.from, start))?;
    out.push_str(note)?;
    out.push('\n')
}

/// Adds what is said of all marks but the last, from the right to the left, each under its mark.
fn add_note_rows(
    out: &mut String,
    text: &[u8],
    part: Part,
    marks: &[Mark<'_>],
    columns: usize,
) -> Result<(), AllocError>
    ensures { IfOk result (λ _. string_bytes out.new
        ≡ string_bytes out.old ++ rows.note_rows text.now part columns marks.now) }
{
    let Some((mark, rest)) = marks.split_first() else {
        return Ok(());
    };
    if rest.is_empty() {
        return Ok(());
    }
    add_note_rows(out, text, part, rest, columns)?;
    add_note_row(out, text, part, mark.start, mark.note, columns)
}

/// Adds a part of a line, and its marks under it.
fn add_row(
    alloc: Global,
    out: &mut String,
    text: &[u8],
    part: Part,
    marks: &[Mark<'_>],
    columns: usize,
) -> Result<(), AllocError>
    ensures { IfOk result (λ _. (signs : List ℕ) × rows.IsSigns text.now part part.from marks.now signs
        × (string_bytes out.new ≡ string_bytes out.old ++ rows.row_text text.now columns part signs marks.now)) }
{
    add_line(alloc, out, text, part, columns)?;
    add_gutter(out, "", columns)?;
    part.add_cut(out)?;
    add_signs_behind(out, text, part, part.from, marks)?;
    add_last_note(out, last_note(marks))?;
    add_note_rows(out, text, part, marks, columns)
}

/// Adds a part of a line behind the number of the line, and ends the row.
fn add_line(
    alloc: Global,
    out: &mut String,
    text: &[u8],
    part: Part,
    columns: usize,
) -> Result<(), AllocError>
    ensures { IfOk result (λ _. string_bytes out.new ≡ string_bytes out.old
        ++ rows.gutter (decimal part.line) columns ++ rows.part_text text.now part ++ codes "\n") }
{
    let number = line_text(alloc, part.line)?;
    add_gutter(out, number.as_str(), columns)?;
    part.add(out, text)?;
    out.push('\n')
}

/// The number of a line as text.
fn line_text(alloc: Global, line: usize) -> Result<String, AllocError>
    ensures { IfOk result (λ text. string_bytes text ≡ decimal line) }
{
    format!(in alloc; "{line}")
}

/// How many columns the number of the last marked line takes.
fn gutter_columns(alloc: Global, text: &[u8], marks: &[Mark<'_>]) -> Result<usize, AllocError> {
    let mut last = 1;
    for mark in marks {
        last = last.max(part_around(text, mark.start, true).line);
    }
    Ok(line_text(alloc, last)?.len())
}

/// How many of the marks share the row of the one before them.
fn marks_within(part: Part, before: Mark<'_>, marks: &[Mark<'_>]) -> usize
    ensures within { result ≤ length marks.now }
    ensures share { rows.ShareRow part before.entry (take result marks.now) (drop result marks.now) }
{
    let Some((mark, rest)) = marks.split_first() else {
        return 0;
    };
    if !part.goes_on(before, *mark) {
        return 0;
    }
    1 + marks_within(part, *mark, rest)
}

/// Adds a row with the first of the marks, and those that share it. How many there are.
fn add_next(
    alloc: Global,
    out: &mut String,
    text: &[u8],
    marks: &[Mark<'_>],
    keeps_return: bool,
    columns: usize,
) -> Result<usize, AllocError>
    requires { 0 < length marks.now }
    ensures { IfOk result (λ count. (0 < count) × (count ≤ length marks.now) × rows.AddsRow text.now keeps_return columns
        (take count marks.now) (drop count marks.now) (string_bytes out.old) (string_bytes out.new)) }
{
    let Some((first, behind)) = marks.split_first() else {
        return Ok(0);
    };
    let part = part_around(text, first.start, keeps_return);
    let count = 1 + marks_within(part, *first, behind);
    let (row, _) = marks.split_at(count);
    add_row(alloc, out, text, part, row, columns)?;
    Ok(count)
}

/// Adds rows with all the marks, those that can share a row in one.
fn add_rows(
    alloc: Global,
    out: &mut String,
    text: &[u8],
    marks: &[Mark<'_>],
    keeps_return: bool,
    columns: usize,
) -> Result<(), AllocError>
    ensures { IfOk result (λ _. (all : List (List Mark)) × (told : List ℕ) × (rows.marks_in all ≡ marks.now)
        × rows.AreRows text.now keeps_return columns all [] told × (string_bytes out.new ≡ string_bytes out.old ++ told)) }
{
    let mut shown = 0;
    'shown: while shown < marks.len() {
        let (_, rest) = marks.split_at(shown);
        shown += add_next(alloc, out, text, rest, keeps_return, columns)?;
    }
    Ok(())
}

/// Adds the lines of the marks, which are in the order of their places, with the marks under them: those of one line
/// together. A byte 13 at the end of a line is shown where `keeps_return` is set.
pub fn add_marked(
    alloc: Global,
    out: &mut String,
    text: &[u8],
    marks: &[Mark<'_>],
    keeps_return: bool,
) -> Result<(), AllocError>
    ensures { IfOk result (λ _. (told : List ℕ) × rows.AreMarked text.now keeps_return marks.now told
        × (string_bytes out.new ≡ string_bytes out.old ++ told)) }
{
    let columns = gutter_columns(alloc, text, marks)?;
    add_rows(alloc, out, text, marks, keeps_return, columns)
}
