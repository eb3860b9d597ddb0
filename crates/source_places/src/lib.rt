//! Where a byte of a text stands: its line and its column, both from 1. A column counts characters.
//!
//! Lines end with byte 10 alone. The bytes of a line are read as UTF-8, and each piece that is none counts as one
//! character, so that every text has columns.
#![tactic(auto)]

ghost use Rattle.std.specs.Prelude.{◌≡◌, ◌≢◌, ℕ, ◌+◌, ◌<◌, ◌≤◌, length, count_by, ◌==◌, slice_index, IfSome, MatchOption, take};
ghost use Rattle.source_places.specs.Places.{BeginsLine, HasNoLine, characters, ends_before, line_end, within};

use bstr::ByteSlice;

/// Where a byte stands.
#[derive(Clone, Copy)]
pub struct Place {
    /// From 1.
    pub line: usize,
    /// From 1, in characters.
    pub column: usize,
    /// The offset at which its line begins.
    pub start: usize,
}

/// The offset, or the text's length for an offset behind it.
fn held(text: &[u8], offset: usize) -> usize
    ensures { result ≡ within text.now offset }
{
    offset.min(text.len())
}

/// Where the line of the byte at `offset` begins.
fn line_start(text: &[u8], offset: usize) -> usize
    requires { offset ≤ length text.now }
    ensures { BeginsLine text.now offset result }
{
    let mut start = 0;
    for index in 0..offset {
        if text[index] == b'\n' {
            start = index + 1;
        }
    }
    start
}

/// How many lines end before the byte at `offset`.
fn lines_ended(text: &[u8], offset: usize) -> usize
    requires { offset ≤ length text.now }
    ensures value { result ≡ ends_before text.now offset }
    ensures bound { result ≤ length text.now }
{
    text[..offset].iter().filter(|byte| **byte == b'\n').count()
}

/// How many characters stand from one byte up to another.
fn characters_between(text: &[u8], start: usize, stop: usize) -> usize
    requires order { start ≤ stop }
    requires end { stop ≤ length text.now }
    ensures value { result ≡ characters text.now start stop }
    ensures bound { result ≤ length text.now }
{
    let part = &text[start..stop];
    let mut count = 0;
    let mut chars = part.chars();
    'chars: while let Some(_) = chars.next() {
        count += 1;
    }
    count
}

/// Where the byte at `offset` stands. An offset behind the text's last byte stands behind that.
pub fn place_of(text: &[u8], offset: usize) -> Place
    ensures line { result.line ≡ ends_before text.now (within text.now offset) + 1 }
    ensures start { BeginsLine text.now (within text.now offset) result.start }
    ensures column { result.column ≡ characters text.now result.start (within text.now offset) + 1 }
{
    let offset = held(text, offset);
    let start = line_start(text, offset);
    Place {
        line: lines_ended(text, offset) + 1,
        column: characters_between(text, start, offset) + 1,
        start,
    }
}

/// Where the line with this number, from 1, begins. None: the text has fewer lines.
pub fn start_of_line(text: &[u8], line: usize) -> Option<usize>
    ensures within { IfSome result (λ start. start ≤ length text.now) }
    ensures line { IfSome result (λ start. ends_before text.now start + 1 ≡ line) }
    ensures start { IfSome result (λ start. BeginsLine text.now start start) }
    ensures none { result ≡ None → HasNoLine text.now line }
{
    let mut ended = 1;
    let mut start = 0;
    for index in 0..text.len() {
        if ended == line {
            return Some(start);
        }
        if text[index] == b'\n' {
            ended += 1;
            start = index + 1;
        }
    }
    if ended == line { Some(start) } else { None }
}

/// The offset at which the line of the byte at `offset` ends: that of its byte 10, or the text's length.
pub fn end_of_line(text: &[u8], offset: usize) -> usize
    ensures within { result ≤ length text.now }
    ensures behind { within text.now offset ≤ result }
    ensures end { result < length text.now → slice_index text.now result ≡ line_end }
    ensures none { (k : ℕ) → within text.now offset ≤ k → k < result → slice_index text.now k ≢ line_end }
{
    let from = held(text, offset);
    for index in from..text.len() {
        if text[index] == b'\n' {
            return index;
        }
    }
    text.len()
}
