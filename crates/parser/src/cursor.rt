ghost use Rattle.std.specs.Prelude.{◌≡◌, ℕ, [], ◌∷◌};
ghost use Rattle.parser.specs.Input as spec;
ghost use Rattle.parser.specs.Input.{input, next};
ghost use Rattle.parser.specs.internal.Readers.{take, take_open};
ghost use Rattle.parser.specs.internal.Reading as reading;
ghost use Rattle.parser.specs.internal.Reads.{place, Reads, Lends};

use crate::halt::Halt;
use lexer::{Kind, Token};
use std::alloc::Global;
use syntax::{Identifier, Name};

/// How many levels may be open around one another.
pub const LEVELS: usize = 64;

/// The tokens that are still to be read, and how many levels may still be opened.
#[derive(Drop)]
pub struct Cursor<'a, 's> {
    alloc: Global,
    levels: usize,
    rest: &'a [Token<'s>],
}

/// Whether `kind` is among `kinds`.
#[tactic(auto, unfolding(crate::specs::Input::same_kind))]
fn is_one_of(kinds: &[Kind], kind: Kind) -> bool
    ensures { result ≡ spec.is_one_of kinds.now kind }
{
    let mut rest = kinds;
    while let [first, others @ ..] = rest {
        if kind == *first {
            return true;
        }
        rest = others;
    }
    false
}

impl<'a, 's> Cursor<'a, 's> {
    /// A cursor before the first of `tokens`, with so many levels to open.
    pub fn new(alloc: Global, levels: usize, tokens: &'a [Token<'s>]) -> Cursor<'a, 's>
        ensures { place result ≡ input levels tokens.now }
    {
        Cursor {
            alloc,
            levels,
            rest: tokens,
        }
    }

    /// Where trees get their memory from.
    pub fn alloc(&self) -> Global {
        self.alloc
    }

    /// How many levels may still be opened.
    pub fn levels(&self) -> usize
        ensures { result ≡ self.now.levels }
    {
        self.levels
    }

    /// Closes what was opened since there were `levels` to open.
    pub fn close_to(&mut self, levels: usize)
        ensures { place self.new ≡ input levels self.old.rest.now }
    {
        self.levels = levels;
    }

    /// The tokens that are still to be read.
    pub fn rest(&self) -> &'a [Token<'s>]
        ensures { result.now ≡ self.now.rest.now }
    {
        self.rest
    }

    /// The kind of the next token, which is `End` behind the last one.
    fn next(&self) -> Kind
        ensures { result ≡ next self.now.rest.now }
    {
        match self.rest.first() {
            Some(token) => token.kind,
            None => Kind::End,
        }
    }

    /// Whether the next token is of one of these kinds.
    pub fn sees_any(&self, kinds: &[Kind]) -> bool
        ensures { result ≡ spec.is_one_of kinds.now (next self.now.rest.now) }
    {
        is_one_of(kinds, self.next())
    }

    /// Whether the next token is of this kind.
    pub fn sees(&self, kind: Kind) -> bool
        ensures { result ≡ spec.is_one_of (kind ∷ []) (next self.now.rest.now) }
    {
        self.sees_any(&[kind])
    }

    /// Goes behind the next token, which has to be of one of these kinds.
    #[tactic(auto, unfolding(crate::specs::internal::Readers::take))]
    pub fn take_any(&mut self, kinds: &[Kind]) -> Result<&'a Token<'s>, Halt>
        ensures { Lends (take kinds.now (place self.old)) result (place self.new) }
    {
        match self.rest {
            [token, rest @ ..] if is_one_of(kinds, token.kind) => {
                self.rest = rest;
                Ok(token)
            }
            _ => Err(Halt::Unexpected),
        }
    }

    /// The same, and the token opens a level: one of `depth`, of which the cursor may open fewer.
    #[tactic(auto, unfolding(crate::specs::internal::Readers::take_open))]
    pub fn open_any(&mut self, depth: usize, kinds: &[Kind]) -> Result<&'a Token<'s>, Halt>
        ensures { Lends (take_open depth kinds.now (place self.old)) result (place self.new) }
    {
        match self.rest {
            [token, rest @ ..] if is_one_of(kinds, token.kind) => {
                if depth == 0 || self.levels == 0 {
                    return Err(Halt::TooDeep);
                }
                self.levels -= 1;
                self.rest = rest;
                Ok(token)
            }
            _ => Err(Halt::Unexpected),
        }
    }

    /// Goes behind the next token, which has to be of this kind.
    pub fn take(&mut self, kind: Kind) -> Result<&'a Token<'s>, Halt>
        ensures { Lends (take (kind ∷ []) (place self.old)) result (place self.new) }
    {
        self.take_any(&[kind])
    }

    /// The same, and the token opens a level.
    pub fn open(&mut self, depth: usize, kind: Kind) -> Result<&'a Token<'s>, Halt>
        ensures { Lends (take_open depth (kind ∷ []) (place self.old)) result (place self.new) }
    {
        self.open_any(depth, &[kind])
    }

    /// A name.
    #[tactic(auto, unfolding(crate::specs::internal::Reading::identifier, crate::specs::internal::Readers::bind, crate::specs::internal::Readers::pure))]
    pub fn identifier(&mut self) -> Result<Identifier, Halt>
        ensures { Reads (reading.identifier (place self.old)) result (place self.new) }
    {
        let token = self.take(Kind::Name)?;
        Ok(Identifier {
            span: token.span,
            name: Name::new(self.alloc, token.text.text())?,
        })
    }
}
