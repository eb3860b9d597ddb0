// Pieces of lines that several parts of the text have.
ghost use Rattle.std.specs.Prelude.{◌≡◌, ◌++◌, OnOk, slice_get};
ghost use Rattle.outline.specs.OutlineText as model;

use crate::ends::Way;
use std::alloc::AllocError;
use text_parts::{Piece, add_pieces, add_words};

/// Adds a word and how many there are.
pub(crate) fn write_count(word: &[u8], count: usize, out: &mut Vec<u8>) -> Result<(), AllocError>
    ensures { OnOk result (out.new.items ≡ out.old.items ++ model.count_line word.now count) }
{
    add_pieces(
        out,
        &[
            Piece::Words(word),
            Piece::Words(b" "),
            Piece::Number(count as u64),
            Piece::Words(b"\n"),
        ],
    )
}

/// Adds a line of the source, if it is known.
fn write_line(line: Option<u64>, out: &mut Vec<u8>) -> Result<(), AllocError>
    ensures { OnOk result (out.new.items ≡ out.old.items ++ model.on_line line) }
{
    match line {
        Some(line) => add_pieces(out, &[Piece::Words(b" line "), Piece::Number(line)]),
        None => Ok(()),
    }
}

/// Adds a line of the source, if it is known, and the end of the line of text.
pub(crate) fn end_with_line(line: Option<u64>, out: &mut Vec<u8>) -> Result<(), AllocError>
    ensures { OnOk result (out.new.items ≡ out.old.items ++ (model.on_line line ++ model.ending)) }
{
    write_line(line, out)?;
    add_words(out, b"\n")
}

/// The line of this number.
pub(crate) fn line_at(lines: &[u64], number: u32) -> Option<u64>
    ensures { result ≡ slice_get lines.now number }
{
    match lines.get(number as usize) {
        Some(line) => Some(*line),
        None => None,
    }
}

/// Adds how a channel is used.
pub(crate) fn write_way(way: Way, out: &mut Vec<u8>) -> Result<(), AllocError>
    ensures { OnOk result (out.new.items ≡ out.old.items ++ model.way_text way) }
{
    match way {
        Way::Sends => add_words(out, b"sends"),
        Way::Receives => add_words(out, b"receives"),
        Way::Syncs => add_words(out, b"syncs"),
        Way::Opens(arm) => add_pieces(out, &[Piece::Words(b"opens arm "), Piece::Number(arm)]),
    }
}
