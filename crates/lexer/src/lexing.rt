//! A source that is read part by part, so that its tokens are never all in memory.

ghost use Rattle.std.specs.Prelude.{◌<◌, ◌+◌, ◌^◌, length};

use crate::class::Class;
use crate::piece::{blanks_length, has_one_space, longest_piece};
use crate::position::Position;
use crate::token::{add_token, refuse_piece, token_of};
use crate::{Fault, Kind, Token};

/// A source of which a part is cut into tokens.
#[derive(Clone, Copy)]
pub struct Lexing<'a> {
    position: Position,
    rest: &'a [u8],
    ghost offsets: { position.offset + length rest.now < 2 ^ 64 },
    ghost lines: { position.line + length rest.now < 2 ^ 64 },
}

/// Where a part ends.
#[derive(Clone, Copy, Debug)]
pub enum Stop {
    /// As many tokens were added as were asked for.
    Full,
    /// The next token is `procedure`, and there is one in the part already.
    Procedure,
    /// The source ends: the last token is of the kind `End`.
    EndOfSource,
}

/// A piece of the source, and where it begins.
#[derive(Clone, Copy)]
pub(crate) struct Found<'a> {
    pub(crate) position: Position,
    pub(crate) class: Class,
    pub(crate) text: &'a [u8],
    ghost offsets: { position.offset + length text.now < 2 ^ 64 },
}

impl<'a> Lexing<'a> {
    ghost use Rattle.std.specs.Prelude.{◌≡◌, ◌≤◌, ◌++◌, ◌⊎◌, [], List, IfOk, IfErr, OnOk, MatchOption};
    ghost use Rattle.lexer.specs.Tokens.{token_at};
    ghost use Rattle.lexer.specs.internal.Parts.{BeginsProcedure, HasRead, IsAtProcedure, IsCutOff, IsKept, IsPart, IsRest, Refuses, Skips};
    ghost use Rattle.lexer.specs.Standing.{position_of, rest_of};
    ghost use Rattle.lexer.specs.declared.token.Kind.TheVariants.{End};
    ghost use Rattle.lexer.specs.declared.token.Token.{Token};
    ghost use Rattle.refusals.specs.declared.lexer.Fault.TheVariants.{Memory};

    /// The source, of which nothing is read yet.
    pub fn new(source: &'a [u8]) -> Lexing<'a>
        ensures { HasRead source.now [] result }
    {
        Lexing {
            position: Position { offset: 0, line: 1 },
            rest: source,
        }
    }

    /// Cuts off the longest piece at the front. None: nothing is left.
    #[inline(always)]
    pub(crate) fn cut(&mut self) -> Result<Option<Found<'a>>, Fault>
        ensures ok { IfOk result (λ found.
            MatchOption found
            ((rest_of self.old ≡ []) × (self.new ≡ self.old)) (λ found. IsCutOff self.old found self.new)) }
        ensures err { IfErr result (λ fault. Refuses self.old fault) }
    {
        if self.rest.is_empty() {
            return Ok(None);
        }
        let Some(piece) = longest_piece(self.rest) else {
            return Err(Fault::BadCharacter(self.position.offset));
        };
        let (text, rest) = self.rest.split_at(piece.length);
        let found = Found {
            position: self.position,
            class: piece.class,
            text,
        };
        *self = Lexing {
            position: self.position.behind_piece(piece.class, text),
            rest,
        };
        Ok(Some(found))
    }

    /// Goes behind the blanks at the front, if there are any. They are so many that no piece is made of them.
    #[inline(always)]
    fn skip_blanks(&mut self)
        ensures { Skips self.old self.new }
    {
        // Mostly it is one space.
        if has_one_space(self.rest) {
            *self = Lexing {
                position: Position {
                    offset: self.position.offset + 1,
                    line: self.position.line,
                },
                rest: &self.rest[1..],
            };
            return;
        }
        let Some(length) = blanks_length(self.rest) else {
            return;
        };
        let (blanks, rest) = self.rest.split_at(length);
        *self = Lexing {
            position: self.position.behind(blanks),
            rest,
        };
    }

    /// The token that stands where nothing is left.
    pub(crate) fn end(&self) -> Token<'a>
        ensures { result ≡ token_at (position_of self.now) End [] 0 }
    {
        Token::new(self.position, Kind::End, b"", 0)
    }

    /// Adds the tokens that follow to `part`: `most` of them, or those up to a `procedure` where one stands in `part`
    /// already, or all up to the end of the source with one of the kind `End`.
    ///
    /// A `procedure` that `part` held before counts too; other tokens that it held do not count against `most`.
    /// `Memory` may come at any token. At an error `part` has the tokens before the fault, and this source stands
    /// behind the last of them.
    pub fn add_part(&mut self, part: &mut Vec<Token<'a>>, most: usize) -> Result<Stop, Fault>
        ensures part { IfOk result (λ stop. (added : List Token) × (part.new.items ≡ part.old.items ++ added)
            × IsPart stop most self.old added self.new) }
        // A part that is begun where the one before it stopped at a `procedure` begins with that word.
        ensures begins { IfOk result (λ _. IsAtProcedure self.old → part.old.items ≡ [] → 1 ≤ most →
            BeginsProcedure part.new.items) }
        ensures fault { IfErr result (λ fault. (fault ≡ Memory) ⊎ Refuses self.old fault) }
        ensures kept { IfErr result (λ _. IsKept self.old part.old.items self.new part.new.items) }
    {
        let mut has_procedure = part
            .iter()
            .any(|token| matches!(token.kind, Kind::ProcedureWord));
        let mut left = most;
        while left > 0 {
            self.skip_blanks();
            let mut next = *self;
            let Some(found) = next.cut()? else {
                part.push(self.end())?;
                return Ok(Stop::EndOfSource);
            };
            if let Some(token) = token_of(found.position, found.class, found.text)? {
                if matches!(token.kind, Kind::ProcedureWord) {
                    if has_procedure {
                        return Ok(Stop::Procedure);
                    }
                    has_procedure = true;
                }
                add_token(part, token)?;
                left -= 1;
            }
            *self = next;
        }
        Ok(Stop::Full)
    }

    /// Reads what is left for its faults, and keeps no token of it. This takes no memory: each fault is the source's.
    pub fn finish(mut self) -> Result<(), Fault>
        ensures read { OnOk result (IsRest self.entry) }
        ensures fault { IfErr result (λ fault. Refuses self.entry fault) }
    {
        while let Some(found) = self.cut()? {
            refuse_piece(found.position, found.class, found.text)?;
        }
        Ok(())
    }
}
