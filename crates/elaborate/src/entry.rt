// The lines of a stimulus.
ghost use Rattle.std.specs.Prelude.{◌≡◌, ◌≢◌, List, ℕ, ◌∷◌, ◌++◌, length, drop, IfOk, MatchOption};
ghost use Rattle.elaborate.specs.internal.CutAt.{IsBefore};
ghost use Rattle.elaborate.specs.StimulusText.{Gives};
ghost use Rattle.elaborate.specs.internal.LineParts.{IsNoEntry, IsNoGiven, ReadsGiven, IsNoNumbers, ReadsNumbers, BeginsNoNumber, ReadsNext};

use crate::stimulus::Given;
use decimal::read_number;
use std::alloc::{AllocError, Global};
use syntax::{Items, Name};

/// The most handshakes that a line may ask for.
const MOST_SYNCS: u64 = 65536;

/// The port and what it is given, or `None` where the line has another form.
pub fn read_entry(alloc: Global, line: &[u8]) -> Result<Option<(Name, Given)>, AllocError>
    ensures { IfOk result (λ r. MatchOption r (IsNoEntry line.now) (λ made. Gives line.now made.0 made.1)) }
{
    let (name, rest) = line.split_at(length_before(b' ', line));
    if !lexer::is_name(name) {
        return Ok(None);
    }
    let Some(given) = read_given(alloc, rest)? else {
        return Ok(None);
    };
    Ok(Some((Name::new(alloc, name)?, given)))
}

/// What stands behind the name.
fn read_given(alloc: Global, text: &[u8]) -> Result<Option<Given>, AllocError>
    ensures { IfOk result (λ r. MatchOption r (IsNoGiven text.now) (λ given. ReadsGiven text.now given)) }
{
    if let Some(rest) = behind(text, b" =") {
        return read_feed(alloc, rest);
    }
    match behind(text, b" * ") {
        Some(rest) => Ok(read_syncs(rest)),
        None => Ok(None),
    }
}

/// What stands behind the mark, where the text begins with it.
pub fn behind<'a>(text: &'a [u8], mark: &[u8]) -> Option<&'a [u8]>
    ensures { MatchOption result ((rest : List ℕ) →
        text.entry.now ≢ mark.entry.now ++ rest) (λ rest. text.entry.now ≡ mark.entry.now ++ rest.now) }
{
    text.strip_prefix(mark)
}

/// What ` =` and this text give.
fn read_feed(alloc: Global, text: &[u8]) -> Result<Option<Given>, AllocError>
    ensures { IfOk result (λ r.
        MatchOption r (IsNoGiven (32 ∷ 61 ∷ text.now)) (λ given. ReadsGiven (32 ∷ 61 ∷ text.now) given)) }
{
    match read_values(alloc, text)? {
        Some(values) => Ok(Some(Given::Values(values))),
        None => Ok(None),
    }
}

/// What ` * ` and this text give.
pub fn read_syncs(digits: &[u8]) -> Option<Given>
    ensures { MatchOption result (IsNoGiven (32 ∷ 42 ∷ 32 ∷ digits.now)) (λ given.
        ReadsGiven (32 ∷ 42 ∷ 32 ∷ digits.now) given) }
{
    match read_number(digits) {
        Some(number) => {
            if number <= MOST_SYNCS {
                Some(Given::Syncs(number as u32))
            } else {
                None
            }
        }
        None => None,
    }
}

/// The numbers, each behind a space.
fn read_values(alloc: Global, text: &[u8]) -> Result<Option<Items<u64>>, AllocError>
    ensures { IfOk result (λ r. MatchOption r (IsNoNumbers text.now) (λ values. ReadsNumbers text.now values)) }
{
    let mut values = Items::new(alloc);
    let mut rest = text;
    while !rest.is_empty() {
        let Some((value, after)) = read_next(rest) else {
            return Ok(None);
        };
        values.push(value)?;
        rest = after;
    }
    Ok(Some(values))
}

/// The number at the start of the text, behind a space, and what follows it.
pub fn read_next(text: &[u8]) -> Option<(u64, &[u8])>
    ensures { MatchOption result (BeginsNoNumber text.entry.now) (λ r. ReadsNext text.entry.now r.0 r.1.now) }
{
    let (mark, rest) = text.split_first()?;
    let (digits, after) = rest.split_at(length_before(b' ', rest));
    let number = read_number(digits)?;
    if *mark == b' ' {
        Some((number, after))
    } else {
        None
    }
}

/// How many bytes stand before the first of this byte, or before the end.
pub fn length_before(byte: u8, text: &[u8]) -> usize
    ensures { IsBefore byte text.now result }
{
    for (count, held) in text.iter().enumerate() {
        if *held == byte {
            return count;
        }
    }
    text.len()
}
