//! From a source to its description with names, kinds and widths settled. It is read part by part, a procedure at a
//! time, so that its tokens and trees need not all be in memory. Where the parts alone do not tell, all are made.
#![tactic(auto)]

ghost use Rattle.std.specs.Prelude.{[], IfOk, IfErr, IfSome};
ghost use Rattle.lexer.specs.internal.Parts.{HasRead};
ghost use Rattle.typed_source.specs.Source.{IsRefused, IsTyped};

mod fault;
mod judging;
mod laws;
mod part;

pub use fault::Fault;
use judging::{judge_next, judged_first};
pub use laws::names_are_own;
use lexer::{Lexing, Token, lex};
use parser::parse;
use part::try_room;
use std::alloc::Global;
use types::{Typed, check_types};

/// The source with its names, kinds and widths settled. All its tokens are made first, and then all its trees.
fn typed_at_once(alloc: Global, source: &[u8]) -> Result<Typed, Fault>
    ensures typed { IfOk result (λ typed. IsTyped source.now typed) }
    ensures fault { IfErr result (λ fault. IsRefused source.now fault) }
{
    let tokens = lex(alloc, source)?;
    let description = parse(alloc, tokens.as_slice())?;
    Ok(check_types(alloc, &description)?)
}

/// The same, with the tokens and the trees of one part at a time. None: the parts alone do not tell.
fn typed_in_parts(alloc: Global, source: &[u8]) -> Result<Option<Typed>, Fault>
    ensures typed { IfOk result (λ found. IfSome found (λ typed. IsTyped source.now typed)) }
    ensures fault { IfErr result (λ fault. IsRefused source.now fault) }
{
    let mut lexing = Lexing::new(source);
    let mut tokens = Vec::new(alloc);
    typed_from(alloc, source, &mut lexing, &mut tokens)
}

/// The same, of a source of which nothing is read yet. (It only borrows the tokens, so that no early end drops them.)
fn typed_from<'a>(
    alloc: Global,
    source: &'a [u8],
    lexing: &mut Lexing<'a>,
    tokens: &mut Vec<Token<'a>>,
) -> Result<Option<Typed>, Fault>
    requires { HasRead source.now [] lexing.old }
    ensures typed { IfOk result (λ found. IfSome found (λ typed. IsTyped source.now typed)) }
    ensures fault { IfErr result (λ fault. IsRefused source.now fault) }
{
    try_room(alloc, source.len());
    let Some((mut typing, mut is_last)) = judged_first(alloc, lexing, tokens)? else {
        return Ok(None);
    };
    while !is_last {
        let Some(is_end) = judge_next(alloc, lexing, tokens, &mut typing)? else {
            return Ok(None);
        };
        is_last = is_end;
    }
    Ok(Some(typing.finish()?))
}

/// The source with its names, kinds and widths settled, or the first fault of the first pass that refuses it: it is cut
/// into tokens, parsed and typed.
pub fn typed_source(alloc: Global, source: &[u8]) -> Result<Typed, Fault>
    ensures typed { IfOk result (λ typed. IsTyped source.now typed) }
    ensures fault { IfErr result (λ fault. IsRefused source.now fault) }
{
    match typed_in_parts(alloc, source)? {
        Some(typed) => Ok(typed),
        None => typed_at_once(alloc, source),
    }
}
