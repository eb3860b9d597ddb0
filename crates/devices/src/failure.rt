ghost use Rattle.std.specs.Prelude.{◌≡◌};
ghost use Rattle.devices.specs.Numbers.{read_number, write_number};

use thiserror::Error;

/// A writer failed, or took no byte of some.
#[derive(Clone, Copy, Debug, PartialEq, Eq, Error)]
#[error("writing failed")]
pub struct WriteFailed;

impl WriteFailed {
    /// The number that stands for this refusal in messages: 42.
    pub fn number(&self) -> u32
        ensures { result ≡ write_number }
    {
        42
    }
}

/// Why not all bytes of a reader were had.
#[derive(Clone, Copy, Debug, PartialEq, Eq, Error)]
pub enum ReadFault {
    /// There was no memory for them.
    #[error("out of memory")]
    Memory,
    /// The reader failed.
    #[error("reading failed")]
    Failed,
}

impl ReadFault {
    /// The number that stands for this refusal in messages: 1 or 41.
    pub fn number(&self) -> u32
        ensures { result ≡ read_number self.now }
    {
        match self {
            ReadFault::Memory => 1,
            ReadFault::Failed => 41,
        }
    }
}
