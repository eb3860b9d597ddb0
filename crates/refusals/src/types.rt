ghost use Rattle.std.specs.Prelude.{◌≡◌};
ghost use Rattle.refusals.specs.Numbers.{types_number};
ghost use Rattle.refusals.specs.Places.{types_offset};
ghost use Rattle.refusals.specs.declared.types.Fault.TheVariants.{Memory};

use std::alloc::{AllocError, AllocFailed};
use thiserror::Error;

/// Why a description is not typed. An offset is in bytes, from 0.
#[derive(Clone, Copy, Debug, PartialEq, Eq, Error)]
pub enum Fault {
    #[error("out of memory")]
    Memory,
    /// Nothing visible has the name there.
    #[error("the name at offset {0} is not declared")]
    UnknownName(u64),
    /// A name that is visible already is declared there again.
    #[error("the name at offset {0} is declared already")]
    NameTwice(u64),
    /// The name there denotes another kind of thing than stands at its place.
    #[error("the name at offset {0} denotes another kind of thing")]
    WrongKind(u64),
    /// The width there is none, or what stands there is wider than its target.
    #[error("what stands at offset {0} is too wide, or has no width from 1 to 64")]
    TooWide(u64),
    /// The guard there has another width than 1.
    #[error("the guard at offset {0} is not one bit wide")]
    GuardNotOneBit(u64),
    /// The label or channel there stands in an earlier place already, or the label is too wide.
    #[error("the label or channel at offset {0} stood before, or is too wide")]
    BadArm(u64),
    /// The arguments of the call there do not fit the ports of the procedure.
    #[error("the arguments of the call at offset {0} do not fit the ports")]
    PortMismatch(u64),
    /// The channel there is open around that place.
    #[error("the channel at offset {0} is enclosed already")]
    EnclosedTwice(u64),
}

impl Fault {
    /// The number that stands for this refusal in messages: 1, 7 to 13 or 17.
    pub fn number(&self) -> u32
        ensures { result ≡ types_number self.now }
    {
        match self {
            Fault::Memory => 1,
            Fault::UnknownName(_) => 7,
            Fault::NameTwice(_) => 8,
            Fault::WrongKind(_) => 9,
            Fault::TooWide(_) => 10,
            Fault::GuardNotOneBit(_) => 11,
            Fault::BadArm(_) => 12,
            Fault::PortMismatch(_) => 13,
            Fault::EnclosedTwice(_) => 17,
        }
    }

    /// Where the source is refused. Memory has no place.
    pub fn offset(&self) -> Option<u64>
        ensures { result ≡ types_offset self.now }
    {
        match self {
            Fault::Memory => None,
            Fault::UnknownName(offset)
            | Fault::NameTwice(offset)
            | Fault::WrongKind(offset)
            | Fault::TooWide(offset)
            | Fault::GuardNotOneBit(offset)
            | Fault::BadArm(offset)
            | Fault::PortMismatch(offset)
            | Fault::EnclosedTwice(offset) => Some(*offset),
        }
    }
}

impl From<AllocError> for Fault {
    ghost from_gives = { λ _ fault. fault ≡ Memory };

    fn from(_error: AllocError) -> Fault {
        Fault::Memory
    }
}

impl<T: Drop> From<AllocFailed<T>> for Fault {
    ghost from_gives = { λ _ fault. fault ≡ Memory };

    fn from(_error: AllocFailed<T>) -> Fault {
        Fault::Memory
    }
}
