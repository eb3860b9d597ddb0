ghost use Rattle.std.specs.Prelude.{◌≡◌, ◌+◌, ◌<◌, ◌^◌, length};
ghost use Rattle.lexer.specs.Spelling.{Spells};
ghost use Rattle.lexer.specs.Tokens.{behind};

use crate::class::Class;
use syntax::Span;

/// Where a piece begins.
#[derive(Clone, Copy)]
pub struct Position {
    /// In bytes, from 0.
    pub offset: u64,
    /// From 1.
    pub line: u64,
}

impl Position {
    /// The position behind `text`, which begins here.
    pub fn behind(self, text: &[u8]) -> Position
        requires offset { self.offset + length text.now < 2 ^ 64 }
        requires line { self.line + length text.now < 2 ^ 64 }
        ensures { result ≡ behind self text.now }
    {
        let line_ends = text.iter().filter(|byte| **byte == b'\n').count();
        Position {
            offset: self.offset + text.len() as u64,
            line: self.line + line_ends as u64,
        }
    }

    /// The position behind a piece of this class, which begins here.
    #[inline(always)]
    pub fn behind_piece(self, class: Class, text: &[u8]) -> Position
        requires offset { self.offset + length text.now < 2 ^ 64 }
        requires line { self.line + length text.now < 2 ^ 64 }
        requires spelled { Spells class text.now }
        ensures { result ≡ behind self text.now }
    {
        match class {
            Class::Blank | Class::NestedComment | Class::OpenComment => self.behind(text),
            // No line ends in these.
            Class::LineComment | Class::Word | Class::Number | Class::Symbol => Position {
                offset: self.offset + text.len() as u64,
                line: self.line,
            },
        }
    }

    /// The span of so many bytes that begin here.
    #[inline(always)]
    pub fn span(self, length: usize) -> Span
        requires { self.offset + length < 2 ^ 64 }
        ensures { result ≡ record { start = self.offset; stop = self.offset + length; line = self.line } }
    {
        Span {
            start: self.offset,
            stop: self.offset + length as u64,
            line: self.line,
        }
    }
}
