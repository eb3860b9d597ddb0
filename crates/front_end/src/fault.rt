ghost use Rattle.std.specs.Prelude.{◌≡◌};
ghost use Rattle.front_end.specs.FaultNumbers.{fault_number, fault_field};
ghost use Rattle.front_end.specs.Wrapping.{of_source, of_elaborate, of_sharing};

use thiserror::Error;

/// Why source and stimulus are refused.
#[derive(Clone, Copy, Debug, PartialEq, Eq, Error)]
pub enum Fault {
    #[error("out of memory")]
    Memory,
    /// The source is no typed description.
    #[error("{0}")]
    Source(typed_source::Fault),
    /// Description and stimulus make no system.
    #[error("{0}")]
    Elaborate(elaborate::Fault),
    /// The system breaks the rule on sharing.
    #[error("{0}")]
    Sharing(sharing_check::Fault),
}

impl Fault {
    /// The number that stands for this refusal in messages.
    pub fn number(&self) -> u32
        ensures { result ≡ fault_number self.now }
    {
        match self {
            Fault::Memory => 1,
            Fault::Source(fault) => fault.number(),
            Fault::Elaborate(fault) => fault.number(),
            Fault::Sharing(fault) => fault.number(),
        }
    }

    /// What stands behind the number: an offset in the source, or a line of the stimulus.
    pub fn field(&self) -> Option<u64>
        ensures { result ≡ fault_field self.now }
    {
        match self {
            Fault::Memory => None,
            Fault::Source(fault) => fault.offset(),
            Fault::Elaborate(fault) => fault.line(),
            Fault::Sharing(fault) => fault.offset(),
        }
    }
}

impl From<typed_source::Fault> for Fault {
    ghost from_gives = { λ fault wrapped. wrapped ≡ of_source fault };

    fn from(fault: typed_source::Fault) -> Fault {
        match fault {
            typed_source::Fault::Memory => Fault::Memory,
            refused => Fault::Source(refused),
        }
    }
}

impl From<elaborate::Fault> for Fault {
    ghost from_gives = { λ fault wrapped. wrapped ≡ of_elaborate fault };

    fn from(fault: elaborate::Fault) -> Fault {
        match fault {
            elaborate::Fault::Memory => Fault::Memory,
            refused => Fault::Elaborate(refused),
        }
    }
}

impl From<sharing_check::Fault> for Fault {
    ghost from_gives = { λ fault wrapped. wrapped ≡ of_sharing fault };

    fn from(fault: sharing_check::Fault) -> Fault {
        match fault {
            sharing_check::Fault::Memory => Fault::Memory,
            refused => Fault::Sharing(refused),
        }
    }
}
