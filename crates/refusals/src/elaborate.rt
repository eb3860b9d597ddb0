ghost use Rattle.std.specs.Prelude.{◌≡◌};
ghost use Rattle.refusals.specs.Numbers.{elaborate_number};
ghost use Rattle.refusals.specs.Places.{elaborate_line};
ghost use Rattle.refusals.specs.declared.elaborate.Fault.TheVariants.{Memory};

use std::alloc::{AllocError, AllocFailed};
use thiserror::Error;

/// Why a description and a stimulus make no system. Lines are counted from 1.
#[derive(Clone, Copy, Debug, PartialEq, Eq, Error)]
pub enum Fault {
    #[error("out of memory")]
    Memory,
    /// The system would have more than 16,384 nodes, or a command inside more than 1,024 others.
    #[error("the system has more than 16384 nodes, or a command inside more than 1024 others")]
    TooManyNodes,
    /// The line of the stimulus has another form, names no port of the root or one of another kind, names a port again,
    /// or has a value that the port does not hold.
    #[error("line {0} of the stimulus fits no port")]
    BadStimulus(u64),
}

impl Fault {
    /// The number that stands for this refusal in messages: 1, 14 or 51.
    pub fn number(&self) -> u32
        ensures { result ≡ elaborate_number self.now }
    {
        match self {
            Fault::Memory => 1,
            Fault::TooManyNodes => 14,
            Fault::BadStimulus(_) => 51,
        }
    }

    /// The line of the stimulus that is refused.
    pub fn line(&self) -> Option<u64>
        ensures { result ≡ elaborate_line self.now }
    {
        match self {
            Fault::Memory | Fault::TooManyNodes => None,
            Fault::BadStimulus(line) => Some(*line),
        }
    }
}

impl From<AllocError> for Fault {
    ghost from_gives = { λ _ fault. fault ≡ Memory };

    fn from(_error: AllocError) -> Fault {
        Fault::Memory
    }
}

impl<T: Drop> From<AllocFailed<T>> for Fault {
    ghost from_gives = { λ _ fault. fault ≡ Memory };

    fn from(_error: AllocFailed<T>) -> Fault {
        Fault::Memory
    }
}
