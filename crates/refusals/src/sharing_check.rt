ghost use Rattle.std.specs.Prelude.{◌≡◌};
ghost use Rattle.refusals.specs.Numbers.{sharing_number};
ghost use Rattle.refusals.specs.Places.{sharing_offset};
ghost use Rattle.refusals.specs.declared.sharing_check.Fault.TheVariants.{Memory};

use std::alloc::{AllocError, AllocFailed};
use thiserror::Error;

/// Why a system may not be run. An offset is in bytes, from 0.
#[derive(Clone, Copy, Debug, PartialEq, Eq, Error)]
pub enum Fault {
    #[error("out of memory")]
    Memory,
    /// One branch of a parallel writes a variable that another branch uses. The name there is the first use that takes
    /// part.
    #[error("the variable at offset {0} is used in one branch and written in another")]
    SharedVariable(u64),
    /// More branches than may use a channel at one time use the one that is declared there: two senders, two receivers,
    /// or three users of a channel without data. The environment counts as a branch.
    #[error("too many branches use the channel that is declared at offset {0}")]
    SharedChannel(u64),
}

impl Fault {
    /// The number that stands for this refusal in messages: 1, 15 or 16.
    pub fn number(&self) -> u32
        ensures { result ≡ sharing_number self.now }
    {
        match self {
            Fault::Memory => 1,
            Fault::SharedVariable(_) => 15,
            Fault::SharedChannel(_) => 16,
        }
    }

    /// Where the source is refused. Memory has no place.
    pub fn offset(&self) -> Option<u64>
        ensures { result ≡ sharing_offset self.now }
    {
        match self {
            Fault::Memory => None,
            Fault::SharedVariable(offset) | Fault::SharedChannel(offset) => Some(*offset),
        }
    }
}

impl From<AllocError> for Fault {
    ghost from_gives = { λ _ fault. fault ≡ Memory };

    fn from(_error: AllocError) -> Fault {
        Fault::Memory
    }
}

impl<T: Drop> From<AllocFailed<T>> for Fault {
    ghost from_gives = { λ _ fault. fault ≡ Memory };

    fn from(_error: AllocFailed<T>) -> Fault {
        Fault::Memory
    }
}
