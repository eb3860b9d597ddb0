ghost use Rattle.std.specs.Prelude.{◌≡◌};
ghost use Rattle.typed_source.specs.FaultNumbers.{source_number, source_offset};
ghost use Rattle.typed_source.specs.Wrapping.{of_lexer, of_parser, of_types};
ghost use Rattle.typed_source.specs.declared.fault.Fault.TheVariants.{Memory};

use std::alloc::AllocError;
use thiserror::Error;

/// Why a source is no typed description.
#[derive(Clone, Copy, Debug, PartialEq, Eq, Error)]
pub enum Fault {
    #[error("out of memory")]
    Memory,
    /// The source cannot be cut into tokens.
    #[error("{0}")]
    Lexer(lexer::Fault),
    /// The tokens are no description.
    #[error("{0}")]
    Parser(parser::Fault),
    /// The description is not typed.
    #[error("{0}")]
    Types(types::Fault),
}

impl Fault {
    /// The number that stands for this refusal in messages.
    pub fn number(&self) -> u32
        ensures { result ≡ source_number self.now }
    {
        match self {
            Fault::Memory => 1,
            Fault::Lexer(fault) => fault.number(),
            Fault::Parser(fault) => fault.number(),
            Fault::Types(fault) => fault.number(),
        }
    }

    /// Where it is in the source: an offset in bytes, from 0.
    pub fn offset(&self) -> Option<u64>
        ensures { result ≡ source_offset self.now }
    {
        match self {
            Fault::Memory => None,
            Fault::Lexer(fault) => fault.offset(),
            Fault::Parser(fault) => fault.offset(),
            Fault::Types(fault) => fault.offset(),
        }
    }
}

impl From<lexer::Fault> for Fault {
    ghost from_gives = { λ fault wrapped. wrapped ≡ of_lexer fault };

    fn from(fault: lexer::Fault) -> Fault {
        match fault {
            lexer::Fault::Memory => Fault::Memory,
            refused => Fault::Lexer(refused),
        }
    }
}

impl From<parser::Fault> for Fault {
    ghost from_gives = { λ fault wrapped. wrapped ≡ of_parser fault };

    fn from(fault: parser::Fault) -> Fault {
        match fault {
            parser::Fault::Memory => Fault::Memory,
            refused => Fault::Parser(refused),
        }
    }
}

impl From<types::Fault> for Fault {
    ghost from_gives = { λ fault wrapped. wrapped ≡ of_types fault };

    fn from(fault: types::Fault) -> Fault {
        match fault {
            types::Fault::Memory => Fault::Memory,
            refused => Fault::Types(refused),
        }
    }
}

impl From<AllocError> for Fault {
    ghost from_gives = { λ _ fault. fault ≡ Memory };

    fn from(_error: AllocError) -> Fault {
        Fault::Memory
    }
}
