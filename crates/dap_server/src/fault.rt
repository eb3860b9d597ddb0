use std::alloc::AllocError;
use thiserror::Error;

/// Why a session ended early.
#[derive(Clone, Copy, Debug, PartialEq, Eq, Error)]
pub enum Fault {
    #[error("out of memory")]
    Memory,
    /// The reader failed, or ended inside a message.
    #[error("the requests could not be read")]
    ReadFailed,
    /// The writer failed.
    #[error("the messages could not be written")]
    WriteFailed,
    /// What was read is no header of a message.
    #[error("a request has no header")]
    NoHeader,
}

impl Fault {
    /// The number that stands for this refusal in messages.
    pub fn number(&self) -> u32 {
        match self {
            Fault::Memory => 1,
            Fault::ReadFailed | Fault::NoHeader => 41,
            Fault::WriteFailed => 42,
        }
    }
}

impl From<AllocError> for Fault {
    fn from(_error: AllocError) -> Fault {
        Fault::Memory
    }
}
