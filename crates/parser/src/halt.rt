// Why reading stops, before it is known where.
ghost use Rattle.std.specs.Prelude.{◌≡◌};
ghost use Rattle.parser.specs.internal.Answer.{fault_at};

use crate::Fault;
use std::alloc::{AllocError, AllocFailed};

/// Why a part could not be read. The cursor stands at the token that is to blame.
#[derive(Clone, Copy)]
pub enum Halt {
    Memory,
    Unexpected,
    TooDeep,
}

impl Halt {
    /// The fault that it is at `offset`.
    pub fn at(self, offset: u64) -> Fault
        ensures { result ≡ fault_at self offset }
    {
        match self {
            Halt::Memory => Fault::Memory,
            Halt::Unexpected => Fault::Unexpected(offset),
            Halt::TooDeep => Fault::TooDeep(offset),
        }
    }
}

impl From<AllocError> for Halt {
    ghost use Rattle.parser.specs.declared.halt.Halt.TheVariants.{Memory};

    ghost from_gives = { λ _ halt. halt ≡ Memory };

    fn from(_error: AllocError) -> Halt {
        Halt::Memory
    }
}

impl<T: Drop> From<AllocFailed<T>> for Halt {
    ghost use Rattle.parser.specs.declared.halt.Halt.TheVariants.{Memory};

    ghost from_gives = { λ _ halt. halt ≡ Memory };

    fn from(_error: AllocFailed<T>) -> Halt {
        Halt::Memory
    }
}
