// The other one of two uses of a variable that clash.
ghost use Rattle.std.specs.Prelude.{◌≡◌, ◌≢◌, None, IfOk};
ghost use Rattle.diagnosis.specs.Clashes.{Makes, TellsClash, TellsUse};
ghost use Rattle.refusals.specs.declared.elaborate.Fault.TheVariants as no_system;
ghost use Rattle.typed_source.specs.declared.fault.Fault.TheVariants as not_typed;

use clash_places::{OtherUse, other_use};
use elaborate::{Fault, Stimulus, elaborate};
use std::alloc::{AllocError, Global};
use syntax::Items;
use system::System;
use typed_source::typed_source;
use types::Typed;

/// The first use that clashes, by the rule on sharing, with one whose name stands at the offset, in the system that the
/// source makes. None where it makes none, or no use there clashes. It is an error if there is no memory.
pub(crate) fn clashing_use(
    alloc: Global,
    source: &[u8],
    offset: u64,
) -> Result<Option<OtherUse>, AllocError>
    ensures { IfOk result (λ found. TellsClash source.now offset found) }
{
    match typed_source(alloc, source) {
        Ok(typed) => use_in(alloc, &typed, offset),
        Err(fault) => none_found(fault),
    }
}

/// None, where the source is refused; an error where there was no memory.
fn none_found(fault: typed_source::Fault) -> Result<Option<OtherUse>, AllocError>
    ensures { IfOk result (λ found. (found ≡ None) × (fault ≢ not_typed.Memory)) }
{
    match fault {
        typed_source::Fault::Memory => Err(AllocError),
        typed_source::Fault::Lexer(_)
        | typed_source::Fault::Parser(_)
        | typed_source::Fault::Types(_) => Ok(None),
    }
}

/// The same in the system that a typed description makes.
fn use_in(alloc: Global, typed: &Typed, offset: u64) -> Result<Option<OtherUse>, AllocError>
    ensures { IfOk result (λ found. TellsUse typed.now offset found) }
{
    match made_of(alloc, typed)? {
        Some(system) => other_use(alloc, &system, offset),
        None => Ok(None),
    }
}

/// The system that the description makes with an empty stimulus, on which its commands do not depend. None where it is
/// too large.
fn made_of(alloc: Global, typed: &Typed) -> Result<Option<System>, AllocError>
    ensures { IfOk result (λ made. Makes typed.now made) }
{
    let stimulus = Stimulus {
        entries: Items::new(alloc),
    };
    match elaborate(alloc, typed, &stimulus) {
        Ok(system) => Ok(Some(system)),
        Err(fault) => none_possible(fault),
    }
}

/// None, where there is no system; an error where there was no memory.
fn none_possible(fault: Fault) -> Result<Option<System>, AllocError>
    ensures { IfOk result (λ made. (made ≡ None) × (fault ≢ no_system.Memory)) }
{
    match fault {
        Fault::Memory => Err(AllocError),
        Fault::TooManyNodes | Fault::BadStimulus(_) => Ok(None),
    }
}
