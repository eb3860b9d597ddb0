ghost use Rattle.std.specs.Prelude.{◌≡◌};
ghost use Rattle.locked_execution.specs.declared.fault.Fault.TheVariants.{Memory};

use std::alloc::AllocError;
use thiserror::Error;

/// Why nothing was made, or nothing performed.
#[derive(Clone, Copy, Debug, PartialEq, Eq, Error)]
pub enum Fault {
    #[error("out of memory")]
    Memory,
}

impl Fault {
    /// The number by which programs know the fault.
    pub fn number(&self) -> u32
        ensures { result ≡ 1 }
    {
        match self {
            Fault::Memory => 1,
        }
    }
}

impl From<AllocError> for Fault {
    ghost from_gives = { λ _ fault. fault ≡ Memory };

    fn from(_error: AllocError) -> Fault {
        Fault::Memory
    }
}

impl From<Fault> for AllocError {
    fn from(_fault: Fault) -> AllocError {
        AllocError
    }
}
