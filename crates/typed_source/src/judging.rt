//! Parts of a source that are judged, one behind the other. Each is dropped before the next is read.

ghost use Rattle.std.specs.Prelude.{◌≡◌, ◌<◌, ℕ, false, List, [], length, IfSome, IfOk, IfErr};
ghost use Rattle.lexer.specs.Standing.{rest_of};
ghost use Rattle.lexer.specs.internal.Parts.{HasRead};
ghost use Rattle.typed_source.specs.Source.{IsRefused};
ghost use Rattle.typed_source.specs.internal.InParts.{Stands};
ghost use Rattle.types.specs.internal.Judged.{Judges};

use crate::Fault;
use crate::part::next_part;
use lexer::{Lexing, Token};
use std::alloc::{AllocError, Global};
use syntax::Description;
use types::Typing;

/// Reads the first part of the source and judges it, and tells whether it is the last. None: the part does not tell.
pub(crate) fn judged_first<'a>(
    alloc: Global,
    lexing: &mut Lexing<'a>,
    tokens: &mut Vec<Token<'a>>,
) -> Result<Option<(Typing, bool)>, Fault>
    ensures judged { (source : List ℕ) → HasRead source [] lexing.old
        → IfOk result (λ found. IfSome found (λ first. Stands source first.1 lexing.new first.0)) }
    ensures fault { (source : List ℕ) → HasRead source [] lexing.old → IfErr result (λ fault. IsRefused source fault) }
{
    let Some(first) = next_part(alloc, lexing, tokens, true)? else {
        return Ok(None);
    };
    let typing = judged(alloc, &first.description)?;
    Ok(Some((typing, first.is_last)))
}

/// The types and procedures of the description, judged.
fn judged(alloc: Global, description: &Description) -> Result<Typing, AllocError>
    ensures { IfOk result (λ typing. Judges typing description.now) }
{
    let mut typing = Typing::new(alloc, description.types.as_slice())?;
    typing.add(alloc, description.procedures.as_slice())?;
    Ok(typing)
}

/// Reads the next part of the source and judges it behind those before, and tells whether it is the last. None: the
/// part does not tell.
pub(crate) fn judge_next<'a>(
    alloc: Global,
    lexing: &mut Lexing<'a>,
    tokens: &mut Vec<Token<'a>>,
    typing: &mut Typing,
) -> Result<Option<bool>, Fault>
    ensures judged { (source : List ℕ) → Stands source false lexing.old typing.old
        → IfOk result (λ found. IfSome found (λ is_last. Stands source is_last lexing.new typing.new)) }
    ensures fewer { IfOk result (λ found. IfSome found (λ is_last.
        is_last ≡ false → length (rest_of lexing.new) < length (rest_of lexing.old))) }
    ensures fault { (source : List ℕ) → Stands source false lexing.old typing.old
        → IfErr result (λ fault. IsRefused source fault) }
{
    let Some(next) = next_part(alloc, lexing, tokens, false)? else {
        return Ok(None);
    };
    typing.add(alloc, next.description.procedures.as_slice())?;
    Ok(Some(next.is_last))
}
