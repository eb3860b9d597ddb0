ghost use Rattle.std.specs.Prelude.{◌≡◌};
ghost use Rattle.refusals.specs.Numbers.{lexer_number};
ghost use Rattle.refusals.specs.Places.{lexer_offset};
ghost use Rattle.refusals.specs.declared.lexer.Fault.TheVariants.{Memory};

use std::alloc::{AllocError, AllocFailed};
use thiserror::Error;

/// Why a source has no tokens. An offset is in bytes, from 0.
#[derive(Clone, Copy, Debug, PartialEq, Eq, Error)]
pub enum Fault {
    #[error("out of memory")]
    Memory,
    /// The byte there begins nothing.
    #[error("the byte at offset {0} begins no name, number, symbol or comment")]
    BadCharacter(u64),
    /// No `--)` closes the `(--` there.
    #[error("the comment at offset {0} is not closed")]
    OpenComment(u64),
    /// The number there is over 2^64 - 1.
    #[error("the number at offset {0} is too large")]
    NumberTooLarge(u64),
}

impl Fault {
    /// The number that stands for this refusal in messages: 1 to 4.
    pub fn number(&self) -> u32
        ensures { result ≡ lexer_number self.now }
    {
        match self {
            Fault::Memory => 1,
            Fault::BadCharacter(_) => 2,
            Fault::OpenComment(_) => 3,
            Fault::NumberTooLarge(_) => 4,
        }
    }

    /// Where the source is refused. Memory has no place.
    pub fn offset(&self) -> Option<u64>
        ensures { result ≡ lexer_offset self.now }
    {
        match self {
            Fault::Memory => None,
            Fault::BadCharacter(offset)
            | Fault::OpenComment(offset)
            | Fault::NumberTooLarge(offset) => Some(*offset),
        }
    }
}

impl From<AllocError> for Fault {
    ghost from_gives = { λ _ fault. fault ≡ Memory };

    fn from(_error: AllocError) -> Fault {
        Fault::Memory
    }
}

impl<T: Drop> From<AllocFailed<T>> for Fault {
    ghost from_gives = { λ _ fault. fault ≡ Memory };

    fn from(_error: AllocFailed<T>) -> Fault {
        Fault::Memory
    }
}
