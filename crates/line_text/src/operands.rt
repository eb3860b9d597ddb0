//! What stands behind the keyword of a line.
ghost use Rattle.std.specs.Prelude.{◌≡◌, ◌<◌, ◌^◌, MatchOption, IfOk, OnErr};
ghost use Rattle.std.specs.Option.{SomeIff};
ghost use Rattle.line_text.specs.EventText.{field};
ghost use Rattle.line_text.specs.Fields.{CutAtSpace};
ghost use Rattle.line_text.specs.internal.FieldParts.{IsFieldEnd, IsNoField};
ghost use Rattle.line_text.specs.Operands.{IsNumber, IsBranch, IsVariable, IsArm, IsChoice, MayBeChoice};
ghost use Rattle.line_text.specs.internal.NoOperand.{IsNoTicket, IsNoBranch, IsNoVariable, IsNoArm, IsNoChoice};

use decimal::read_number;
use runs::Choice;
use std::alloc::{AllocError, Global};
use system::System;

/// The part of `text` before its first space, and the part from there on.
pub fn cut_at_space(text: &[u8]) -> (&[u8], &[u8])
    ensures { CutAtSpace text.now result.0.now result.1.now }
{
    text.split_at(length_to_space(text))
}

/// How many bytes stand before the first space.
fn length_to_space(text: &[u8]) -> usize
    ensures { IsFieldEnd text.now result }
{
    for (i, byte) in text.iter().enumerate() {
        if *byte == b' ' {
            return i;
        }
    }
    text.len()
}

/// What stands behind a space at the start of `rest`.
fn behind_space(rest: &[u8]) -> Option<&[u8]>
    ensures { MatchOption result (IsNoField rest.now) (λ text. rest.now ≡ field text.now) }
{
    match rest {
        [b' ', text @ ..] => Some(text),
        _ => None,
    }
}

/// The ticket.
pub fn read_ticket(rest: &[u8]) -> Option<u64>
    ensures { MatchOption result (IsNoTicket rest.now) (λ ticket. IsNumber ticket rest.now) }
{
    read_number(behind_space(rest)?)
}

/// The number of a branch.
pub fn read_branch(rest: &[u8]) -> Option<u32>
    ensures { MatchOption result (IsNoBranch rest.now) (λ branch. IsBranch branch rest.now) }
{
    narrow(read_ticket(rest)?)
}

/// The number of the variable that is named.
pub fn read_variable(system: &System, rest: &[u8]) -> Option<u32>
    ensures { MatchOption result (IsNoVariable system.now rest.now) (λ x. IsVariable system.now x rest.now) }
{
    system.variable(behind_space(rest)?)
}

/// The number, if it has 32 bits.
fn narrow(number: u64) -> Option<u32>
    ensures { SomeIff result (number < 2 ^ 32) number }
{
    u32::try_from(number).ok()
}

/// The place and the arm.
pub fn read_choice(alloc: Global, rest: &[u8]) -> Result<Option<Choice>, AllocError>
    ensures found { IfOk result (λ found.
        MatchOption found (IsNoChoice rest.now) (λ choice. IsChoice choice rest.now)) }
    ensures memory { OnErr result (MayBeChoice rest.now) }
{
    let Some(text) = behind_space(rest) else {
        return Ok(None);
    };
    if text.is_empty() {
        return Ok(None);
    }
    // Mostly no arm stands there, and then no byte of the place is looked at before it is read.
    match address::read(alloc, text) {
        Ok(Some(place)) => Ok(Some(Choice { place, arm: 0 })),
        _ => read_parts(alloc, text),
    }
}

/// The place and the arm, where they are not a place alone, or no memory was there to read it so.
fn read_parts(alloc: Global, text: &[u8]) -> Result<Option<Choice>, AllocError>
    ensures found { IfOk result (λ found.
        MatchOption found (IsNoChoice (field text.now)) (λ choice. IsChoice choice (field text.now))) }
    ensures memory { OnErr result (MayBeChoice (field text.now)) }
{
    let (place, arm) = cut_at_space(text);
    let Some(arm) = read_arm(arm) else {
        return Ok(None);
    };
    if place.is_empty() {
        return Ok(None);
    }
    let Some(place) = address::read(alloc, place)? else {
        return Ok(None);
    };
    Ok(Some(Choice { place, arm }))
}

/// The arm, 0 where none is given.
fn read_arm(rest: &[u8]) -> Option<u32>
    ensures { MatchOption result (IsNoArm rest.now) (λ arm. IsArm arm rest.now) }
{
    if rest.is_empty() {
        return Some(0);
    }
    let number = read_number(behind_space(rest)?)?;
    narrow(number)
}
