//! The parser of Balsa descriptions: it makes a tree of tokens.
#![tactic(auto)]

ghost use Rattle.std.specs.Prelude.{◌≡◌, ◌⊎◌, IfOk, IfErr, MatchResult};
ghost use Rattle.parser.specs.Accepted.{IsRefused, Parses, most_levels};
ghost use Rattle.parser.specs.internal.Answer.{IsAnswer};
ghost use Rattle.parser.specs.Input.{input};
ghost use Rattle.parser.specs.Offsets as offsets;
ghost use Rattle.parser.specs.internal.Readers as readers;
ghost use Rattle.parser.specs.internal.Reading as reading;
ghost use Rattle.refusals.specs.declared.parser.Fault.{Fault};
ghost use Rattle.refusals.specs.declared.parser.Fault.TheVariants.{Memory};
ghost use Rattle.syntax.specs.declared.declaration.Description.{Description};

mod command;
mod cursor;
mod declaration;
mod expression;
mod front;
mod halt;
mod list;
mod name;
mod rule;

use cursor::{Cursor, LEVELS};
use declaration::whole;
pub use front::refusal_within;
use lexer::Token;
pub use refusals::parser::Fault;
use std::alloc::Global;
use syntax::Description;

/// Where the last of `tokens` ends, or 0.
fn end_of(tokens: &[Token<'_>]) -> u64
    ensures { result ≡ offsets.end_of tokens.now }
{
    match tokens.last() {
        Some(last) => last.span.stop,
        None => 0,
    }
}

/// Where the first of `rest` begins, with which `tokens` end; or where nothing is left, their end.
fn offset_at(tokens: &[Token<'_>], rest: &[Token<'_>]) -> u64
    ensures { result ≡ offsets.offset_at tokens.now rest.now }
{
    match rest {
        [token, ..] => token.span.start,
        [] => end_of(tokens),
    }
}

/// What `parse` answers.
fn answer(alloc: Global, tokens: &[Token<'_>]) -> Result<Description, Fault>
    ensures { IsAnswer tokens.now
        (readers.whole (reading.description most_levels) (input most_levels tokens.now)) result }
{
    let mut cursor = Cursor::new(alloc, LEVELS, tokens);
    match whole(&mut cursor) {
        Ok(description) => Ok(description),
        Err(halt) => {
            let offset = offset_at(tokens, cursor.rest());
            Err(halt.at(offset))
        }
    }
}

/// The description that `tokens` are, up to the first of the kind `End`. Where there is
/// none, one is taken to stand behind the last token, or at 0.
///
/// Other tokens are refused at the first with which no description goes on, or which would open
/// level 65.
pub fn parse(alloc: Global, tokens: &[Token<'_>]) -> Result<Description, Fault>
    ensures description { IfOk result (λ given. Parses tokens.now given) }
    ensures fault { IfErr result (λ fault. (fault ≡ Memory) ⊎ IsRefused tokens.now fault) }
    // Whatever description the tokens are, the answer is that one, or memory is out.
    ensures every_description { (due : Description) → Parses tokens.now due
        → MatchResult result (λ given. given ≡ due) (λ fault. fault ≡ Memory) }
    ensures every_fault { (due : Fault) → IsRefused tokens.now due
        → MatchResult result (λ _. ⊥) (λ fault. (fault ≡ Memory) ⊎ (fault ≡ due)) }
{
    answer(alloc, tokens)
}
