ghost use Rattle.std.specs.Prelude.{◌≢◌, IfOk};
ghost use Rattle.described.specs.Told.{TellsNothing};
ghost use Rattle.questions.specs.Asking.{IsOutlineText, TellsOfSource};
ghost use Rattle.typed_source.specs.declared.fault.Fault.TheVariants as not_typed;

use described::{Described, describe};
use outline::outline_of;
use sharing_check::Checked;
use std::alloc::{AllocError, Global};
use typed_source::{Fault, typed_source};

/// The text of the outline of the system, where the source is the one that was accepted as this system. It is an error
/// if there is no memory.
pub fn outline_text(alloc: Global, checked: &Checked, source: &[u8]) -> Result<Vec<u8>, AllocError>
    ensures { IfOk result (λ text. IsOutlineText source.now checked.now text.items) }
{
    let outline = outline_of(alloc, checked)?;
    let described = described_in(alloc, checked, source)?;
    let mut text = Vec::new(alloc);
    outline.write_with(&described, &mut text)?;
    Ok(text)
}

/// What the source tells of the system. Where it is not accepted, which it was, it tells nothing.
fn described_in(alloc: Global, checked: &Checked, source: &[u8]) -> Result<Described, AllocError>
    ensures { IfOk result (λ d. TellsOfSource source.now checked.now d) }
{
    match typed_source(alloc, source) {
        Ok(typed) => describe(alloc, source, typed.procedures(), checked.system()),
        Err(fault) => nothing_told(alloc, fault),
    }
}

/// Nothing, where the source is refused; an error where there was no memory.
fn nothing_told(alloc: Global, fault: Fault) -> Result<Described, AllocError>
    ensures { IfOk result (λ d. TellsNothing d × (fault ≢ not_typed.Memory)) }
{
    match fault {
        Fault::Memory => Err(AllocError),
        Fault::Lexer(_) | Fault::Parser(_) | Fault::Types(_) => Ok(Described::nothing(alloc)),
    }
}
