//! The lexer of Balsa descriptions: it cuts a source into tokens.
#![tactic(auto)]

ghost use Rattle.std.specs.Prelude.{◌≡◌, List, ◌⊎◌, IfOk, IfErr, MatchResult};
ghost use Rattle.lexer.specs.Refusal.{IsRefused};
ghost use Rattle.lexer.specs.Tokens.{AreTokens};
ghost use Rattle.refusals.specs.declared.lexer.Fault.{Fault};
ghost use Rattle.refusals.specs.declared.lexer.Fault.TheVariants.{Memory};
ghost use Rattle.lexer.specs.declared.token.Token.{Token};

mod class;
mod excerpt;
mod lexing;
mod name;
mod number;
mod piece;
mod position;
mod table;
mod token;

pub use excerpt::Excerpt;
pub use lexing::{Lexing, Stop};
pub use name::is_name;
pub use refusals::lexer::Fault;
use std::alloc::Global;
use token::push_token;
pub use token::{Kind, Token};

/// The tokens of `source`, with one of the kind `End` behind them.
///
/// A source that is no list of tokens is refused at the first byte where that shows.
pub fn lex<'a>(alloc: Global, source: &'a [u8]) -> Result<Vec<Token<'a>>, Fault>
    ensures tokens { IfOk result (λ tokens. AreTokens source.now tokens.items) }
    ensures fault { IfErr result (λ fault. (fault ≡ Memory) ⊎ IsRefused source.now fault) }
    // Whatever the source is cut into, the answer is that one, or memory is out.
    ensures every_source { (tokens : List Token) → AreTokens source.now tokens
        → MatchResult result (λ given. given.items ≡ tokens) (λ fault. fault ≡ Memory) }
    ensures every_fault { (due : Fault) → IsRefused source.now due
        → MatchResult result (λ _. ⊥) (λ fault. (fault ≡ Memory) ⊎ (fault ≡ due)) }
{
    let mut lexing = Lexing::new(source);
    let mut tokens = Vec::new(alloc);
    while let Some(found) = lexing.cut()? {
        push_token(&mut tokens, found.position, found.class, found.text)?;
    }
    tokens.push(lexing.end())?;
    Ok(tokens)
}
