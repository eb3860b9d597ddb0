ghost use Rattle.std.specs.Prelude.{◌≡◌};
ghost use Rattle.trace_file.specs.FaultNumbers.{fault_number, fault_field};
ghost use Rattle.trace_file.specs.declared.fault.Fault.TheVariants.{Memory};

use std::alloc::AllocError;
use thiserror::Error;

/// Why a trace was not saved or not loaded. Lines count from 1.
#[derive(Clone, Copy, Debug, PartialEq, Eq, Error)]
pub enum Fault {
    #[error("out of memory")]
    Memory,
    /// The first line is no header of a version.
    #[error("the trace does not begin with a header")]
    BadHeader,
    /// The line has another form, a number past its type, or no end.
    #[error("line {0} of the trace is no step")]
    BadLine(u64),
    /// The step of the line cannot be taken.
    #[error("the step of line {0} of the trace cannot be taken")]
    NotAStep(u64),
    /// The steps are not in canonical order: the line is the first that differs from the trace of the same events.
    #[error("line {0} of the trace is not the step that comes next in canonical order")]
    NotCanonical(u64),
    /// The reader of the trace failed.
    #[error("the trace could not be read")]
    ReadFailed,
    /// The writer of the trace failed.
    #[error("the trace could not be written")]
    WriteFailed,
}

impl Fault {
    /// The number that stands for this refusal in messages.
    pub fn number(&self) -> u32
        ensures { result ≡ fault_number self.now }
    {
        match self {
            Fault::Memory => 1,
            Fault::BadHeader => 31,
            Fault::BadLine(_) => 32,
            Fault::NotAStep(_) => 33,
            Fault::NotCanonical(_) => 34,
            Fault::ReadFailed => 41,
            Fault::WriteFailed => 42,
        }
    }

    /// The line of the trace, where the refusal names one.
    pub fn field(&self) -> Option<u64>
        ensures { result ≡ fault_field self.now }
    {
        match self {
            Fault::BadLine(line) | Fault::NotAStep(line) | Fault::NotCanonical(line) => Some(*line),
            Fault::Memory | Fault::BadHeader | Fault::ReadFailed | Fault::WriteFailed => None,
        }
    }
}

impl From<machine::Fault> for Fault {
    ghost from_gives = { λ _ fault. fault ≡ Memory };

    fn from(_fault: machine::Fault) -> Fault {
        Fault::Memory
    }
}

impl From<AllocError> for Fault {
    ghost from_gives = { λ _ fault. fault ≡ Memory };

    fn from(_error: AllocError) -> Fault {
        Fault::Memory
    }
}
