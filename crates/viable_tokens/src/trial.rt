// Which kinds of tokens can stand at a place: each is tried behind the tokens before it.
ghost use Rattle.std.specs.Prelude.{◌≡◌, ◌≢◌, ◌≤◌, ◌++◌, ◌∷◌, [], List, length, take, IfOk, IsTrue};
ghost use Rattle.std.specs.Bool.{MatchBool};
ghost use Rattle.lexer.specs.declared.token.Kind.{Kind};
ghost use Rattle.lexer.specs.internal.Parts.{BeginsProcedure};
ghost use Rattle.parser.specs.Accepted.{Begins};
ghost use Rattle.refusals.specs.declared.parser.Fault.TheVariants.{Memory};
ghost use Rattle.viable_tokens.specs.Viable.{AreAllViable, AreViable, CanStand};
ghost use Rattle.viable_tokens.specs.internal.Trials.{Counts, IsHopeless, IsWhole};

use crate::KINDS;
use lexer::{Excerpt, Kind, Token};
use parser::{Fault, parse, refusal_within};
use std::alloc::{AllocError, Global};
use syntax::Span;

/// A token of a kind, for a trial.
fn sample(kind: Kind) -> Token<'static>
    ensures { result.kind ≡ kind }
{
    Token {
        kind,
        text: Excerpt::new(b""),
        number: 1,
        span: Span {
            start: 0,
            stop: 0,
            line: 1,
        },
    }
}

/// Want of memory is handed on; another fault is none of this kind.
fn not_memory(fault: Fault) -> Result<(), AllocError>
    ensures { IfOk result (λ _. fault ≢ Memory) }
{
    match fault {
        Fault::Memory => Err(AllocError),
        Fault::Unexpected(_) | Fault::TooDeep(_) => Ok(()),
    }
}

/// Whether a description begins with the tokens.
fn is_begun(alloc: Global, tokens: &[Token<'_>]) -> Result<bool, AllocError>
    ensures { IfOk result (λ begun. MatchBool begun (Begins tokens.now) (IsHopeless tokens.now)) }
{
    let Some(fault) = refusal_within(alloc, tokens) else {
        return Ok(true);
    };
    not_memory(fault)?;
    Ok(false)
}

/// Whether the tokens are a description, and none of them is an end.
fn is_whole(alloc: Global, tokens: &[Token<'_>]) -> Result<bool, AllocError>
    ensures { IfOk result (λ whole. IsTrue whole → IsWhole tokens.now) }
{
    if tokens.iter().any(|token| token.kind == Kind::End) {
        return Ok(false);
    }
    match parse(alloc, tokens) {
        Ok(_) => Ok(true),
        Err(Fault::Memory) => Err(AllocError),
        Err(_) => Ok(false),
    }
}

/// Whether the tokens begin with the word `procedure`.
fn begins_procedure(tokens: &[Token<'_>]) -> bool
    ensures { IsTrue result → BeginsProcedure tokens.now }
{
    match tokens.first() {
        Some(token) => matches!(token.kind, Kind::ProcedureWord),
        None => false,
    }
}

/// From which of the tokens on it hangs with what they can go on, where it hangs from `first` on: from `index` on, if a
/// procedure begins there and what stands before it is whole.
fn next_that_counts(
    alloc: Global,
    tokens: &[Token<'_>],
    first: usize,
    index: usize,
) -> Result<usize, AllocError>
    requires order { first ≤ index }
    requires within { index ≤ length tokens.now }
    requires counts { Counts tokens.now first }
    ensures within { IfOk result (λ next. next ≤ index) }
    ensures counts { IfOk result (λ next. Counts tokens.now next) }
{
    if !begins_procedure(&tokens[index..]) {
        return Ok(first);
    }
    let is_whole = is_whole(alloc, &tokens[first..index])?;
    if !is_whole {
        return Ok(first);
    }
    Ok(index)
}

/// From which of the tokens on it hangs with what they can go on: from the last procedure, since procedures stand one
/// behind the other; else from the first.
fn first_that_counts(alloc: Global, tokens: &[Token<'_>]) -> Result<usize, AllocError>
    ensures within { IfOk result (λ first. first ≤ length tokens.now) }
    ensures counts { IfOk result (λ first. Counts tokens.now first) }
{
    let mut first = 0;
    for index in 0..tokens.len() {
        first = next_that_counts(alloc, tokens, first, index)?;
    }
    Ok(first)
}

/// Whether a token of this kind can stand behind `tokens`, of which those from `first` on count.
fn can_stand(
    alloc: Global,
    tokens: &mut Vec<Token<'_>>,
    first: usize,
    kind: Kind,
) -> Result<bool, AllocError>
    requires within { first ≤ length tokens.old.items }
    requires counts { Counts tokens.old.items first }
    ensures same { IfOk result (λ _. tokens.new.items ≡ tokens.old.items) }
    ensures can { IfOk result (λ can. MatchBool can (CanStand tokens.old.items kind) (CanStand tokens.old.items kind → ⊥)) }
{
    tokens.push(sample(kind))?;
    let is_begun = is_begun(alloc, &tokens.as_slice()[first..])?;
    tokens.pop();
    Ok(is_begun)
}

/// Adds a kind of which a token can stand behind `tokens`. Those from `first` on count.
fn add_viable(
    alloc: Global,
    tokens: &mut Vec<Token<'_>>,
    first: usize,
    kind: Kind,
    viable: &mut Vec<Kind>,
) -> Result<(), AllocError>
    requires within { first ≤ length tokens.old.items }
    requires counts { Counts tokens.old.items first }
    ensures same { IfOk result (λ _. tokens.new.items ≡ tokens.old.items) }
    ensures viable { IfOk result (λ _. (among next : List Kind) → next ≡ among ++ kind ∷ []
        → AreViable tokens.old.items among viable.old.items → AreViable tokens.old.items next viable.new.items) }
{
    if !can_stand(alloc, tokens, first, kind)? {
        return Ok(());
    }
    viable.push(kind)?;
    Ok(())
}

/// Those of some kinds of which a token can stand behind `tokens`, in their order. Those from `first` on count.
fn viable_among(
    alloc: Global,
    tokens: &mut Vec<Token<'_>>,
    first: usize,
    kinds: &[Kind],
) -> Result<Vec<Kind>, AllocError>
    requires within { first ≤ length tokens.old.items }
    requires counts { Counts tokens.old.items first }
    ensures { IfOk result (λ viable. AreViable tokens.old.items kinds.now viable.items) }
{
    let mut viable = Vec::new(alloc);
    for kind in kinds {
        add_viable(alloc, tokens, first, *kind, &mut viable)?;
    }
    Ok(viable)
}

/// The kinds of tokens with which a description can go on behind the first `place` of `tokens`, in the order of
/// `KINDS`. The tokens from there on are taken off. It is an error if there is no memory.
pub fn viable_kinds(
    alloc: Global,
    tokens: &mut Vec<Token<'_>>,
    place: usize,
) -> Result<Vec<Kind>, AllocError>
    ensures { IfOk result (λ viable. AreAllViable (take place tokens.old.items) viable.items) }
{
    tokens.truncate(place);
    let first = first_that_counts(alloc, tokens.as_slice())?;
    viable_among(alloc, tokens, first, &KINDS)
}
