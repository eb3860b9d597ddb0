//! Pieces of answers. Each function adds its text behind what is there; without memory a part of it may be there.
ghost use Rattle.std.specs.Prelude.{◌≡◌, ◌≤◌, ◌+◌, ◌∷◌, ◌++◌, [], OnOk};
ghost use Rattle.std.specs.Fmt.{decimal};
ghost use Rattle.std.specs.Vec.{vec_len, vec_capacity};
ghost use Rattle.address.specs.Text.{entry_text, text_of};

use crate::digits::{MOST_DIGITS, put_decimal};
use address::{Address, Entry};
use std::alloc::AllocError;

/// Adds bytes.
pub fn add_bytes(out: &mut Vec<u8>, bytes: &[u8]) -> Result<(), AllocError>
    ensures { OnOk result (out.new.items ≡ out.old.items ++ bytes.now) }
{
    out.extend_from_slice(bytes)
}

/// Adds a byte. Nearly always there is room for it, and then nothing is asked of the allocator.
#[inline(always)]
pub fn add_byte(out: &mut Vec<u8>, byte: u8) -> Result<(), AllocError>
    ensures { OnOk result (out.new.items ≡ out.old.items ++ byte ∷ []) }
{
    if out.len() < out.capacity() {
        out.push_reserved(byte);
        return Ok(());
    }
    add_grown(out, byte)
}

/// Adds a byte for which there is no room yet. It stands by itself, so that what asks for no room stays short.
#[inline(never)]
fn add_grown(out: &mut Vec<u8>, byte: u8) -> Result<(), AllocError>
    ensures { OnOk result (out.new.items ≡ out.old.items ++ byte ∷ []) }
{
    out.push(byte)?;
    Ok(())
}

/// Makes room for so many more bytes. Nearly always there is room, and then nothing is asked of the allocator.
#[inline(always)]
pub(crate) fn make_room(out: &mut Vec<u8>, count: usize) -> Result<(), AllocError>
    ensures items { out.new.items ≡ out.old.items }
    ensures room { OnOk result (vec_len out.new + count ≤ vec_capacity out.new) }
{
    if count <= out.capacity() - out.len() {
        return Ok(());
    }
    grow(out, count)
}

/// Makes room that is not there yet.
#[inline(never)]
fn grow(out: &mut Vec<u8>, count: usize) -> Result<(), AllocError>
    ensures items { out.new.items ≡ out.old.items }
    ensures room { OnOk result (vec_len out.new + count ≤ vec_capacity out.new) }
{
    out.reserve(count)
}

/// Adds the few bytes of a word.
#[inline(always)]
pub(crate) fn add_word(out: &mut Vec<u8>, word: &[u8]) -> Result<(), AllocError>
    ensures { OnOk result (out.new.items ≡ out.old.items ++ word.now) }
{
    make_room(out, word.len())?;
    for byte in word {
        out.push_reserved(*byte);
    }
    Ok(())
}

/// Adds a number in decimal.
pub fn add_decimal(out: &mut Vec<u8>, number: u64) -> Result<(), AllocError>
    ensures { OnOk result (out.new.items ≡ out.old.items ++ decimal number) }
{
    make_room(out, MOST_DIGITS)?;
    put_decimal(out, number);
    Ok(())
}

/// Adds a mark and a number in decimal.
#[inline(always)]
pub(crate) fn add_marked(out: &mut Vec<u8>, mark: u8, number: u64) -> Result<(), AllocError>
    ensures { OnOk result (out.new.items ≡ out.old.items ++ (mark ∷ decimal number)) }
{
    make_room(out, 1 + MOST_DIGITS)?;
    out.push_reserved(mark);
    put_decimal(out, number);
    Ok(())
}

/// The mark of an entry of a place, and its number.
fn parts(entry: Entry) -> (u8, u32)
    ensures { entry_text entry ≡ result.0 ∷ decimal result.1 }
{
    match entry {
        Entry::Ordered(number) => (b'.', number),
        Entry::Branch(number) => (b'/', number),
    }
}

/// Adds the entries of a place.
pub(crate) fn add_entries(out: &mut Vec<u8>, place: &Address) -> Result<(), AllocError>
    ensures { OnOk result (out.new.items ≡ out.old.items ++ text_of place.now) }
{
    let entries = place.entries();
    for entry in entries {
        let (mark, number) = parts(*entry);
        add_marked(out, mark, u64::from(number))?;
    }
    Ok(())
}
