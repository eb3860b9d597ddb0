ghost use Rattle.std.specs.Prelude.{ℕ, List, IfOk, IfErr};
ghost use Rattle.front_end.specs.Accepting.{AcceptedAs, IsRefused};
ghost use Rattle.typed_source.specs.Source.{IsTyped};

use crate::Fault;
use crate::make::make_system;
use sharing_check::{Checked, check_sharing};
use std::alloc::Global;
use typed_source::typed_source;
use types::Typed;

/// The system that a typed source and the stimulus describe, or why they describe none. (It only borrows the typed
/// source, whose nodes are dropped when all else is made: what is freed before makes each large block dear.)
fn checked(alloc: Global, typed: &Typed, stimulus: &[u8]) -> Result<Checked, Fault>
    ensures system { (source : List ℕ) → IsTyped source typed.now →
        IfOk result (λ checked. AcceptedAs source stimulus.now checked) }
    ensures fault { (source : List ℕ) → IsTyped source typed.now →
        IfErr result (λ fault. IsRefused source stimulus.now fault) }
{
    match make_system(alloc, typed, stimulus) {
        Ok(system) => Ok(check_sharing(alloc, system)?),
        Err(fault) => Err(Fault::from(fault)),
    }
}

/// The system that the source and the stimulus describe, or the first fault of the first pass that refuses them: the
/// source is cut, parsed and typed, then the stimulus is read, then the system is made, and then the rule on sharing is
/// checked.
pub fn accept(alloc: Global, source: &[u8], stimulus: &[u8]) -> Result<Checked, Fault>
    ensures system { IfOk result (λ checked. AcceptedAs source.now stimulus.now checked) }
    ensures fault { IfErr result (λ fault. IsRefused source.now stimulus.now fault) }
{
    let mut left = None;
    accept_leaving(alloc, source, stimulus, &mut left)
}

/// The same, with the typed source put into `left`: whoever ends behind this need not free it node by node.
pub fn accept_leaving(
    alloc: Global,
    source: &[u8],
    stimulus: &[u8],
    left: &mut Option<Typed>,
) -> Result<Checked, Fault>
    ensures system { IfOk result (λ checked. AcceptedAs source.now stimulus.now checked) }
    ensures fault { IfErr result (λ fault. IsRefused source.now stimulus.now fault) }
{
    let typed = typed_source(alloc, source)?;
    let made = checked(alloc, &typed, stimulus);
    *left = Some(typed);
    made
}
