// A line of a trace, read from the text.
ghost use Rattle.std.specs.Prelude.{ℕ, List, ◌≡◌, ◌<◌, ◌^◌, ◌++◌, codes, MatchOption, IfOk};
ghost use Rattle.std.specs.Option.{SomeIff};
ghost use Rattle.trace_file.specs.Loading.{IsStep, IsNoStep};
ghost use Rattle.trace_file.specs.internal.Fields.{HasNone, IsCut, AreFields, HasNoFields, HasNoWord, IsArm, IsNoArm};

use decimal::read_number;
use runs::Choice;
use std::alloc::{AllocError, Global};

/// The choice of a line with this place and this arm.
pub(crate) fn read_choice(
    alloc: Global,
    place: &[u8],
    arm: &[u8],
) -> Result<Option<Choice>, AllocError>
    ensures { (text after : List ℕ) → AreFields text place.now arm.now after → IfOk result (λ found.
        MatchOption found (IsNoStep text) (λ choice. IsStep choice text after)) }
{
    let Some(arm) = read_arm(arm) else {
        return Ok(None);
    };
    if place.is_empty() {
        return Ok(None);
    }
    let Some(place) = address::read(alloc, place)? else {
        return Ok(None);
    };
    Ok(Some(Choice { place, arm }))
}

/// The two fields of the first line of the text, and what is behind that line.
pub(crate) fn fields(text: &[u8]) -> Option<(&[u8], &[u8], &[u8])>
    ensures { MatchOption result (HasNoFields text.now) (λ f. AreFields text.now f.0.now f.1.now f.2.now) }
{
    let (place, behind_place) = cut_at(behind_word(text)?, b' ')?;
    let (arm, after) = cut_at(behind_place, b'\n')?;
    Some((place, arm, after))
}

/// What is behind the word of a step and a space.
fn behind_word(text: &[u8]) -> Option<&[u8]>
    ensures { MatchOption result (HasNoWord text.now) (λ rest. text.now ≡ codes "step " ++ rest.now) }
{
    match text {
        [b's', b't', b'e', b'p', b' ', rest @ ..] => Some(rest),
        _ => None,
    }
}

/// What stands before the first of these bytes, and what behind it.
pub(crate) fn cut_at(text: &[u8], byte: u8) -> Option<(&[u8], &[u8])>
    ensures { MatchOption result (HasNone byte text.now) (λ parts. IsCut byte text.now parts.0.now parts.1.now) }
{
    for (i, other) in text.iter().enumerate() {
        if *other == byte {
            return Some((&text[..i], &text[i + 1..]));
        }
    }
    None
}

/// The number of an arm.
pub(crate) fn read_arm(text: &[u8]) -> Option<u32>
    ensures { MatchOption result (IsNoArm text.now) (λ arm. IsArm arm text.now) }
{
    narrow(read_number(text)?)
}

/// The number, if it has 32 bits.
fn narrow(number: u64) -> Option<u32>
    ensures { SomeIff result (number < 2 ^ 32) number }
{
    u32::try_from(number).ok()
}
