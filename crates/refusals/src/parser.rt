ghost use Rattle.std.specs.Prelude.{◌≡◌};
ghost use Rattle.refusals.specs.Numbers.{parser_number};
ghost use Rattle.refusals.specs.Places.{parser_offset};

use thiserror::Error;

/// Why tokens are no description. An offset is in bytes, from 0.
#[derive(Clone, Copy, Debug, PartialEq, Eq, Error)]
pub enum Fault {
    #[error("out of memory")]
    Memory,
    /// No description goes on with the token there.
    #[error("no description goes on with what stands at offset {0}")]
    Unexpected(u64),
    /// The token there would open one level more than there may be.
    #[error("the token at offset {0} would open more than 64 levels")]
    TooDeep(u64),
}

impl Fault {
    /// The number that stands for this refusal in messages: 1, 5 or 6.
    pub fn number(&self) -> u32
        ensures { result ≡ parser_number self.now }
    {
        match self {
            Fault::Memory => 1,
            Fault::Unexpected(_) => 5,
            Fault::TooDeep(_) => 6,
        }
    }

    /// Where the source is refused. Memory has no place.
    pub fn offset(&self) -> Option<u64>
        ensures { result ≡ parser_offset self.now }
    {
        match self {
            Fault::Memory => None,
            Fault::Unexpected(offset) | Fault::TooDeep(offset) => Some(*offset),
        }
    }
}
