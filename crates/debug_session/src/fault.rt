ghost use Rattle.std.specs.Prelude.{◌≡◌};
ghost use Rattle.debug_session.specs.FaultNumbers.{fault_number, fault_field};
ghost use Rattle.debug_session.specs.Wrapping.{of_front_end, of_trace};
ghost use Rattle.debug_session.specs.declared.fault.Fault.TheVariants.{Memory};

use runs::Refusal;
use std::alloc::{AllocError, AllocFailed};
use thiserror::Error;

/// Why a session was refused or ended early. Lines count from 1.
#[derive(Clone, Copy, Debug, PartialEq, Eq, Error)]
pub enum Fault {
    #[error("out of memory")]
    Memory,
    /// Source and stimulus make no system that may be debugged.
    #[error("{0}")]
    NoSystem(front_end::Fault),
    /// The trace was not loaded.
    #[error("{0}")]
    Trace(trace_file::Fault),
    /// The reader of the script failed.
    #[error("the script could not be read")]
    ReadFailed,
    /// The writer of the answers failed.
    #[error("the answers could not be written")]
    WriteFailed,
    /// The line of the script says nothing that can be answered.
    #[error("line {0} of the script is no command")]
    BadCommand(u64),
    /// What is asked of a run cannot be told, as a question about a step that is not there. A session never ends so: it
    /// answers its line with the refusal, and goes on.
    #[error("{0}")]
    Refused(Refusal),
}

impl Fault {
    /// The number that stands for this refusal in messages.
    pub fn number(&self) -> u32
        ensures { result ≡ fault_number self.now }
    {
        match self {
            Fault::Memory => 1,
            Fault::NoSystem(fault) => fault.number(),
            Fault::Trace(fault) => fault.number(),
            Fault::ReadFailed => 41,
            Fault::WriteFailed => 42,
            Fault::BadCommand(_) => 61,
            Fault::Refused(why) => u32::from(why.number()),
        }
    }

    /// What stands behind the number: an offset in the source, or a line of the stimulus, the trace or the script.
    pub fn field(&self) -> Option<u64>
        ensures { result ≡ fault_field self.now }
    {
        match self {
            Fault::NoSystem(fault) => fault.field(),
            Fault::Trace(fault) => fault.field(),
            Fault::BadCommand(line) => Some(*line),
            Fault::Memory | Fault::ReadFailed | Fault::WriteFailed | Fault::Refused(_) => None,
        }
    }
}

impl From<front_end::Fault> for Fault {
    ghost from_gives = { λ fault wrapped. wrapped ≡ of_front_end fault };

    fn from(fault: front_end::Fault) -> Fault {
        match fault {
            front_end::Fault::Memory => Fault::Memory,
            refused => Fault::NoSystem(refused),
        }
    }
}

impl From<trace_file::Fault> for Fault {
    ghost from_gives = { λ fault wrapped. wrapped ≡ of_trace fault };

    fn from(fault: trace_file::Fault) -> Fault {
        match fault {
            trace_file::Fault::Memory => Fault::Memory,
            refused => Fault::Trace(refused),
        }
    }
}

impl From<machine::Fault> for Fault {
    ghost from_gives = { λ _ fault. fault ≡ Memory };

    fn from(_fault: machine::Fault) -> Fault {
        Fault::Memory
    }
}

impl From<locked_execution::Fault> for Fault {
    ghost from_gives = { λ _ fault. fault ≡ Memory };

    fn from(_fault: locked_execution::Fault) -> Fault {
        Fault::Memory
    }
}

impl From<AllocError> for Fault {
    ghost from_gives = { λ _ fault. fault ≡ Memory };

    fn from(_error: AllocError) -> Fault {
        Fault::Memory
    }
}

impl<T: Drop> From<AllocFailed<T>> for Fault {
    ghost from_gives = { λ _ fault. fault ≡ Memory };

    fn from(_error: AllocFailed<T>) -> Fault {
        Fault::Memory
    }
}
