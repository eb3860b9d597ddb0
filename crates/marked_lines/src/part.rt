// The part of a line that is shown.
ghost use Rattle.std.specs.Prelude.{◌≡◌, ◌≢◌, ◌++◌, ◌+◌, ◌-◌, ◌<◌, ◌≤◌, ℕ, IfOk, length, min, nat_lt, slice_index, string_bytes};
ghost use Rattle.bstr.specs.Utf8.{lossy_chars};
ghost use Rattle.source_places.specs.Places.{line_end, within};
ghost use Rattle.marked_lines.specs.Marks.{blanks_under, sign_under, signs_under, under};
ghost use Rattle.marked_lines.specs.Rows.{EndsShown, IsPartAt, between, columns_of, cut_off, least_shown, mark_signs, part_text, shown_text, under_cut};

use crate::shown::{add_blanks, add_signs, columns, shown};
use bstr::ByteSlice;
use source_places::{end_of_line, place_of};
use std::alloc::AllocError;

/// A line of more bytes is shown in part.
const LONGEST: usize = 160;

/// So many bytes of a long line are shown before a mark.
const BEFORE: usize = 60;

/// The part of a line, from one byte up to another.
#[derive(Clone, Copy)]
pub struct Part {
    /// The number of its line, from 1.
    pub line: usize,
    pub from: usize,
    pub to: usize,
    /// Whether the line begins before it.
    is_cut_before: bool,
    /// Whether the line goes on behind it.
    is_cut_behind: bool,
}

/// The first byte from `offset` on that does not go on with a character.
pub fn character_from(text: &[u8], offset: usize) -> usize
    ensures { within text.now offset ≤ result }
{
    for index in offset..text.len() {
        if !matches!(text[index], 0x80..=0xBF) {
            return index;
        }
    }
    text.len()
}

/// Where what is shown of a line ends: without a byte 13 that ends it.
fn shown_end(text: &[u8], start: usize, keeps_return: bool) -> usize
    ensures within { result ≤ length text.now }
    ensures behind { within text.now start ≤ result }
    ensures inside { (k : ℕ) → within text.now start ≤ k → k < result → slice_index text.now k ≢ line_end }
    ensures end { EndsShown text.now keeps_return start result }
{
    let end = end_of_line(text, start);
    if keeps_return || end <= start || text.get(end - 1) != Some(&b'\r') {
        return end;
    }
    end - 1
}

/// Where the part of a line begins that is shown of the byte at `offset`.
fn part_start(text: &[u8], start: usize, end: usize, offset: usize) -> usize
    requires order { start ≤ end }
    requires within { end ≤ length text.now }
    ensures behind { start ≤ result }
    ensures end { result ≤ end }
    ensures ahead { start ≤ offset → result ≤ offset }
    ensures near { min offset (end - 100) ≤ result + 60 }
{
    if end.saturating_sub(start) > LONGEST && offset.saturating_sub(start) > BEFORE {
        character_from(text, offset.saturating_sub(BEFORE))
            .min(offset)
            .min(end)
    } else {
        start
    }
}

/// Where the part of a line ends that begins at `from`.
fn part_stop(text: &[u8], from: usize, end: usize) -> usize
    ensures within { result ≤ end }
    ensures long { end ≤ length text.now → result < end → from + least_shown ≤ result }
{
    if end.saturating_sub(from) > LONGEST {
        character_from(text, from.saturating_add(LONGEST)).min(end)
    } else {
        end
    }
}

/// The part of a line around the byte at `offset`.
pub fn part_around(text: &[u8], offset: usize, keeps_return: bool) -> Part
    ensures { IsPartAt text.now keeps_return offset result }
{
    let place = place_of(text, offset);
    let start = place.start;
    let end = shown_end(text, start, keeps_return);
    let from = part_start(text, start, end, offset);
    let to = part_stop(text, from, end);
    Part {
        line: place.line,
        from,
        to,
        is_cut_before: from > start,
        is_cut_behind: to < end,
    }
}

/// The bytes from one offset up to another, as far as the text has them.
pub fn bytes_between(text: &[u8], from: usize, to: usize) -> &[u8]
    ensures { result.now ≡ between text.now from to }
{
    text.get(from..to).unwrap_or(b"")
}

impl Part {
    /// Adds it as it is shown.
    pub fn add(self, out: &mut String, text: &[u8]) -> Result<(), AllocError>
        ensures { IfOk result (λ _. string_bytes out.new ≡ string_bytes out.old ++ part_text text.now self) }
    {
        add_dots(out, self.is_cut_before)?;
        add_shown(out, bytes_between(text, self.from, self.to))?;
        add_dots(out, self.is_cut_behind)
    }

    /// Adds the blanks that stand under the sign for what was cut off before it.
    pub fn add_cut(self, out: &mut String) -> Result<(), AllocError>
        ensures { IfOk result (λ _. string_bytes out.new ≡ string_bytes out.old ++ under_cut self.is_cut_before) }
    {
        if self.is_cut_before {
            out.push_str("   ")?;
        }
        Ok(())
    }
}

/// Adds the sign for what was cut off.
fn add_dots(out: &mut String, is_cut: bool) -> Result<(), AllocError>
    ensures { IfOk result (λ _. string_bytes out.new ≡ string_bytes out.old ++ cut_off is_cut) }
{
    if is_cut {
        out.push_str("...")?;
    }
    Ok(())
}

/// Adds bytes as they are shown.
fn add_shown(out: &mut String, bytes: &[u8]) -> Result<(), AllocError>
    ensures { IfOk result (λ _. string_bytes out.new ≡ string_bytes out.old ++ shown_text bytes.now) }
{
    let mut chars = bytes.chars();
    'chars: while let Some(character) = chars.next() {
        out.push(shown(character))?;
    }
    Ok(())
}

/// Adds what stands under some characters, so that what comes behind stands under what comes behind them: blanks, and a
/// tab for each tab.
pub fn add_under(out: &mut String, bytes: &[u8]) -> Result<(), AllocError>
    ensures { IfOk result (λ _. string_bytes out.new ≡ string_bytes out.old ++ blanks_under (lossy_chars bytes.now)) }
{
    let mut chars = bytes.chars();
    'chars: while let Some(character) = chars.next() {
        add_under_one(out, character)?;
    }
    Ok(())
}

/// Adds what stands under a character.
fn add_under_one(out: &mut String, character: char) -> Result<(), AllocError>
    ensures { IfOk result (λ _. string_bytes out.new ≡ string_bytes out.old ++ under character) }
{
    if character == '\t' {
        return out.push('\t');
    }
    add_blanks(out, columns(character))
}

/// Adds what stands under characters that are marked: a tab under a tab, else a sign under each column; one sign in front
/// where they take none.
pub fn add_marks(out: &mut String, bytes: &[u8], sign: char) -> Result<(), AllocError>
    ensures { IfOk result (λ _. string_bytes out.new ≡ string_bytes out.old ++ mark_signs bytes.now sign) }
{
    if !takes_columns(bytes) {
        out.push(sign)?;
    }
    add_signs_under(out, bytes, sign)
}

/// Whether some characters take a column.
#[tactic(auto, using(crate::proofs::Rowed::some_columns, crate::proofs::Rowed::no_columns))]
fn takes_columns(bytes: &[u8]) -> bool
    ensures { result ≡ nat_lt 0 (columns_of bytes.now) }
{
    let mut chars = bytes.chars();
    'chars: while let Some(character) = chars.next() {
        if columns(character) > 0 {
            return true;
        }
    }
    false
}

/// Adds a tab under each tab of some characters, and a sign under each other column.
fn add_signs_under(out: &mut String, bytes: &[u8], sign: char) -> Result<(), AllocError>
    ensures { IfOk result (λ _. string_bytes out.new
        ≡ string_bytes out.old ++ signs_under sign (lossy_chars bytes.now)) }
{
    let mut chars = bytes.chars();
    'chars: while let Some(character) = chars.next() {
        add_sign_under(out, character, sign)?;
    }
    Ok(())
}

/// Adds what stands under a character that is marked.
fn add_sign_under(out: &mut String, character: char, sign: char) -> Result<(), AllocError>
    ensures { IfOk result (λ _. string_bytes out.new ≡ string_bytes out.old ++ sign_under sign character) }
{
    if character != '\t' {
        return add_signs(out, sign, columns(character));
    }
    out.push('\t')
}
