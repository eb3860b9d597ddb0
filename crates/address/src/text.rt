// The text of an address, and what reads it.
ghost use Rattle.std.specs.Prelude.{Some, IfOk, OnOk, MatchOption, length, ◌≡◌, ◌+◌, ◌<◌, ◌≤◌, ◌^◌, ◌∷◌, ◌++◌, []};
ghost use Rattle.std.specs.Option.{SomeIff};
ghost use Rattle.address.specs.Text.{entry_text, text_of};
ghost use Rattle.address.specs.Reading.{HasNoText, IsTextOf};
ghost use Rattle.address.specs.internal.Entries.{IsDigitsEnd, ReadsEntry, ReadsNumber, BeginsNoEntry, ReadsNoNumber};

use crate::{Address, Entry, INLINE};
use smallvec::SmallVec;
use std::alloc::{AllocError, Global};
use std::fmt;

impl fmt::Display for Entry {
    ghost output = { λ e. Some (entry_text e) };

    fn fmt<W: fmt::Write>(&self, f: &mut fmt::Formatter<W>) -> fmt::Result {
        match self {
            Entry::Ordered(number) => write!(f, ".{number}"),
            Entry::Branch(number) => write!(f, "/{number}"),
        }
    }
}

impl fmt::Display for Address {
    ghost output = { λ a. Some (text_of a) };

    fn fmt<W: fmt::Write>(&self, f: &mut fmt::Formatter<W>) -> fmt::Result {
        for entry in self.entries() {
            write!(f, "{entry}")?;
        }
        Ok(())
    }
}

/// The most bytes of a text for whose entries no room is asked before they are read.
const SHORT: usize = 64;

/// The address with this text, or `None` if no address has it: one with a leading zero, with a
/// number of 2^32 and more, or with no number. It is an error if there is no memory for it.
pub fn read(alloc: Global, text: &[u8]) -> Result<Option<Address>, AllocError>
    ensures { IfOk result (λ r. MatchOption r (HasNoText text.now) (λ a. IsTextOf a text.now)) }
{
    // Each entry has two bytes at least. A short text has few, which mostly stand in the address itself.
    let room = if text.len() > SHORT {
        text.len() / 2
    } else {
        0
    };
    let mut entries = SmallVec::with_capacity(alloc, room)?;
    let mut rest = text;
    while !rest.is_empty() {
        let Some((entry, after)) = read_entry(rest) else {
            return Ok(None);
        };
        add_entry(&mut entries, entry)?;
        rest = after;
    }
    Ok(Some(Address { entries }))
}

/// Adds an entry. Nearly always there is room for it.
#[inline]
fn add_entry(entries: &mut SmallVec<Entry, INLINE>, entry: Entry) -> Result<(), AllocError>
    ensures { OnOk result (entries.new.items ≡ entries.old.items ++ entry ∷ []) }
{
    if entries.len() < entries.capacity() {
        entries.push_reserved(entry);
        return Ok(());
    }
    entries.push(entry)?;
    Ok(())
}

/// The entry at the start of the text, and what follows it; `None` where the text does not begin with `.` or `/` and a
/// number below 2^32 without leading zeros. It takes no memory.
pub fn read_entry(text: &[u8]) -> Option<(Entry, &[u8])>
    ensures { MatchOption result (BeginsNoEntry text.entry.now) (λ r. ReadsEntry text.entry.now r.0 r.1.now) }
{
    let (mark, rest) = text.split_first()?;
    let (digits, after) = rest.split_at(count_digits(rest));
    let number = read_number(digits)?;
    match mark {
        b'.' => Some((Entry::Ordered(number), after)),
        b'/' => Some((Entry::Branch(number), after)),
        _ => None,
    }
}

// How many digits `text` starts with.
fn count_digits(text: &[u8]) -> usize
    ensures { IsDigitsEnd text.now result }
{
    for (i, byte) in text.iter().enumerate() {
        if !byte.is_ascii_digit() {
            return i;
        }
    }
    text.len()
}

// The number of 32 bits that `digits` are the decimal text of, if there is one.
fn read_number(digits: &[u8]) -> Option<u32>
    ensures { MatchOption result (ReadsNoNumber digits.now) (λ n. ReadsNumber digits.now n) }
{
    // Most numbers of a place have one digit.
    if let [digit @ b'0'..=b'9'] = digits {
        return Some(worth(*digit));
    }
    narrow(decimal::read_number(digits)?)
}

// What a digit is worth.
fn worth(digit: u8) -> u32
    requires low { 48 ≤ digit }
    requires high { digit < 58 }
    ensures digit { digit ≡ 48 + result }
    ensures one { result < 10 }
{
    u32::from(digit - b'0')
}

// The number, if it has 32 bits.
fn narrow(number: u64) -> Option<u32>
    ensures { SomeIff result (number < 2 ^ 32) number }
{
    u32::try_from(number).ok()
}
