//! Refusals that show in the first tokens of a source, whatever stands behind them.

ghost use Rattle.std.specs.Prelude.{◌≡◌, ◌⊎◌, ◌++◌, List, MatchOption};
ghost use Rattle.lexer.specs.declared.token.Token.{Token};
ghost use Rattle.parser.specs.Accepted.{Begins, IsRefused};
ghost use Rattle.parser.specs.internal.Answer as answer;
ghost use Rattle.refusals.specs.declared.parser.Fault.TheVariants.{Memory};

use crate::Fault;
use crate::cursor::{Cursor, LEVELS};
use crate::declaration::whole;
use crate::halt::Halt;
use lexer::Token;
use std::alloc::Global;

/// The fault of a reading that stopped before `rest`. None: it stopped where the tokens end.
fn fault_before(halt: Halt, rest: &[Token<'_>]) -> Option<Fault>
    ensures { result ≡ answer.fault_before halt rest.now }
{
    match (halt, rest) {
        (Halt::Memory, _) => Some(Fault::Memory),
        (_, [token, ..]) => Some(halt.at(token.span.start)),
        (_, []) => None,
    }
}

/// Why no description begins with these tokens, and `Memory` is told too. None: one does.
pub fn refusal_within(alloc: Global, tokens: &[Token<'_>]) -> Option<Fault>
    ensures { MatchOption result (Begins tokens.now)
        (λ fault. (fault ≡ Memory) ⊎ ((later : List Token) → IsRefused (tokens.now ++ later) fault)) }
{
    let mut cursor = Cursor::new(alloc, LEVELS, tokens);
    match whole(&mut cursor) {
        Ok(_) => None,
        Err(halt) => fault_before(halt, cursor.rest()),
    }
}
