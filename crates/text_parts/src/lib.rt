//! Pieces of texts: words, numbers, names and places, one behind another.
#![tactic(auto)]

ghost use Rattle.std.specs.Prelude.{◌≡◌, ◌∷◌, ◌++◌, OnOk};
ghost use Rattle.std.specs.Fmt.{decimal};
ghost use Rattle.std.specs.List.{flat_map};
ghost use Rattle.address.specs.Text.{entry_text, text_of};
ghost use Rattle.text_parts.specs.Shown.{shown};

use address::{Address, Entry};
use itoa::Buffer;
use std::alloc::AllocError;
use system::QualifiedName;

/// A piece of a text.
#[derive(Clone, Copy)]
pub enum Piece<'a> {
    /// these bytes
    Words(&'a [u8]),
    /// a number in decimal
    Number(u64),
    /// the name of a variable or a channel
    Name(&'a QualifiedName),
    /// a place
    Place(&'a Address),
}

/// Adds the pieces behind what is there. Without memory some of them may be there.
pub fn add_pieces(out: &mut Vec<u8>, pieces: &[Piece<'_>]) -> Result<(), AllocError>
    ensures { OnOk result (out.new.items ≡ out.old.items ++ flat_map shown pieces.now) }
{
    for piece in pieces {
        add_piece(out, *piece)?;
    }
    Ok(())
}

/// Adds words behind what is there. Without memory none are added.
pub fn add_words(out: &mut Vec<u8>, words: &[u8]) -> Result<(), AllocError>
    ensures { OnOk result (out.new.items ≡ out.old.items ++ words.now) }
{
    out.extend_from_slice(words)
}

/// Adds a piece.
fn add_piece(out: &mut Vec<u8>, piece: Piece<'_>) -> Result<(), AllocError>
    ensures { OnOk result (out.new.items ≡ out.old.items ++ shown piece.entry) }
{
    match piece {
        Piece::Words(words) => add_words(out, words),
        Piece::Number(number) => add_number(out, number),
        Piece::Name(name) => name.write_to(out),
        Piece::Place(place) => add_place(out, place),
    }
}

/// Adds a number in decimal.
fn add_number(out: &mut Vec<u8>, number: u64) -> Result<(), AllocError>
    ensures { OnOk result (out.new.items ≡ out.old.items ++ decimal number) }
{
    let mut buffer = Buffer::new();
    let digits = buffer.format(number);
    out.extend_from_slice(digits.as_bytes())
}

/// Adds a mark and a number.
fn add_marked(out: &mut Vec<u8>, mark: u8, number: u32) -> Result<(), AllocError>
    ensures { OnOk result (out.new.items ≡ out.old.items ++ (mark ∷ decimal number)) }
{
    out.push(mark)?;
    add_number(out, u64::from(number))
}

/// Adds an entry of a place.
fn add_entry(out: &mut Vec<u8>, entry: Entry) -> Result<(), AllocError>
    ensures { OnOk result (out.new.items ≡ out.old.items ++ entry_text entry) }
{
    match entry {
        Entry::Ordered(number) => add_marked(out, b'.', number),
        Entry::Branch(number) => add_marked(out, b'/', number),
    }
}

/// Adds a place.
fn add_place(out: &mut Vec<u8>, place: &Address) -> Result<(), AllocError>
    ensures { OnOk result (out.new.items ≡ out.old.items ++ text_of place.now) }
{
    let entries = place.entries();
    for entry in entries {
        add_entry(out, *entry)?;
    }
    Ok(())
}
