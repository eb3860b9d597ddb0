// Lines of words with one blank between them: of scripts, traces and stimuli.
ghost use Rattle.std.specs.Prelude.{MatchOption};
ghost use Rattle.diagnosis.specs.Numbers.{IsNoNumberUpTo, IsNumberUpTo};

use bstr::decode_utf8 as decode;
use decimal::read_number;
use findings::Finding;
use std::alloc::{AllocError, Global};

/// A word of a line.
#[derive(Clone, Copy)]
pub struct Field<'a> {
    /// Where it begins in the line.
    pub start: u64,
    pub text: &'a str,
}

impl Field<'_> {
    /// Where it ends in the line.
    pub fn stop(self) -> u64 {
        self.start.saturating_add(self.text.len() as u64)
    }
}

/// The words of a line.
pub fn fields_of<'a>(alloc: Global, line: &'a str) -> Result<Vec<Field<'a>>, AllocError> {
    let mut fields = Vec::new(alloc);
    let mut start = 0_u64;
    for text in line.split(' ') {
        fields.push(Field { start, text })?;
        start = start.saturating_add(text.len() as u64).saturating_add(1);
    }
    Ok(fields)
}

/// Marks a part of the line at which the finding stands.
pub fn point(finding: &mut Finding, line: u64, start: u64, stop: u64) {
    finding.start = line.saturating_add(start);
    finding.stop = line.saturating_add(stop);
}

/// What is wrong with a blank or with a byte that no word has.
#[derive(Clone, Copy)]
enum Blemish {
    Mark,
    Tab,
    Escape,
    Control,
    Foreign,
    Front,
    Twice,
    Behind,
}

/// The first blemish of a line, and where it begins and stops.
fn first_blemish(text: &[u8]) -> Option<(Blemish, usize, usize)> {
    if text.starts_with(b"\xEF\xBB\xBF") {
        return Some((Blemish::Mark, 0, 3));
    }
    let mut before = b' ';
    for (index, byte) in text.iter().enumerate() {
        if let Some(found) = blemish_at(*byte, before, index) {
            return Some((found, index, character_end(text, index)));
        }
        before = *byte;
    }
    if before == b' ' && !text.is_empty() {
        let last = text.len().saturating_sub(1);
        return Some((Blemish::Behind, last, text.len()));
    }
    None
}

/// Where the character that begins at the index ends.
fn character_end(text: &[u8], index: usize) -> usize {
    let rest = text.get(index..).unwrap_or(b"");
    let (_, size) = decode(rest);
    index.saturating_add(size)
}

/// The blemish of a byte with the byte before it. The first byte has a blank before it.
fn blemish_at(byte: u8, before: u8, index: usize) -> Option<Blemish> {
    match byte {
        b'\t' => Some(Blemish::Tab),
        0x1B => Some(Blemish::Escape),
        0..=31 | 127 => Some(Blemish::Control),
        128..=255 => Some(Blemish::Foreign),
        b' ' if index == 0 => Some(Blemish::Front),
        b' ' if before == b' ' => Some(Blemish::Twice),
        _ => None,
    }
}

/// What is wrong, in words.
fn blemish_text(blemish: Blemish) -> &'static str {
    match blemish {
        Blemish::Mark => "a byte order mark begins this line",
        Blemish::Tab => "a tab stands here, and words have one blank between them",
        Blemish::Escape => "an arrow key, or another that writes no letter, left this byte",
        Blemish::Control => "this control character stands in no line",
        Blemish::Foreign => "letters are a to z and A to Z, without accents, and this is none",
        Blemish::Front => "a blank stands in front, and a line begins with its word",
        Blemish::Twice => "two blanks stand here, and words have one between them",
        Blemish::Behind => "a blank stands at the end, and a line ends with its last word",
    }
}

/// What helps against it.
fn blemish_help(blemish: Blemish) -> &'static str {
    match blemish {
        Blemish::Mark => "save the file without it",
        Blemish::Tab => "write a blank in its place",
        Blemish::Escape => "`rlwrap balsadbg debug ..` gives a session arrow keys",
        Blemish::Control | Blemish::Foreign => "write the line anew",
        Blemish::Front | Blemish::Twice | Blemish::Behind => "take this blank out",
    }
}

/// Tells the first blank or byte of a line that stands wrong. Whether there is one.
pub fn find_blemish(text: &[u8], finding: &mut Finding) -> Result<bool, AllocError> {
    let Some((found, start, stop)) = first_blemish(text) else {
        return Ok(false);
    };
    let line = finding.start;
    point(finding, line, start as u64, stop as u64);
    finding.say(&[blemish_text(found)])?;
    finding.advise(&[blemish_help(found)])?;
    Ok(true)
}

/// Why a text is no number in decimal up to `most`; none where it is one.
#[tactic(auto, using(crate::proofs::Greater::too_great, crate::proofs::Greater::no_number))]
pub fn number_fault(text: &str, most: u64) -> Option<&'static str>
    ensures { MatchOption result (IsNumberUpTo text.now most) (λ _. IsNoNumberUpTo text.now most) }
{
    let Some(number) = read_number(text.as_bytes()) else {
        return Some(form_fault(text));
    };
    if number <= most {
        None
    } else {
        Some("it is too great")
    }
}

/// Why a text is no number in decimal.
fn form_fault(text: &str) -> &'static str {
    if text.starts_with('-') || text.starts_with('+') {
        return "a number has no sign";
    }
    if text.bytes().all(|byte| byte.is_ascii_digit()) && !text.is_empty() {
        return if text.starts_with('0') {
            "a number has no 0 in front"
        } else {
            "it is too great"
        };
    }
    if text.starts_with('0') {
        "a number is decimal: `0xFF` is written 255"
    } else {
        "a number has digits alone"
    }
}
