ghost use Rattle.std.specs.Prelude.{◌≡◌, IfOk};
ghost use Rattle.types.specs.Findings as findings;
ghost use Rattle.types.specs.Refusal as refusal;
ghost use Rattle.types.specs.internal.Least.{least};

use crate::Fault;
use std::alloc::AllocError;
use syntax::Items;

/// What is found of a construct: it is right, with what it becomes, or it has faults, of which the one is kept that
/// would be answered.
pub(crate) type Verdict<T> = Result<T, Fault>;

/// A verdict. Want of memory is none: it ends the pass at once.
pub(crate) type Settled<T> = Result<Verdict<T>, AllocError>;

/// Two constructs, or the fault that is answered where one or both have some.
pub(crate) fn both<A: Drop, B: Drop>(first: Verdict<A>, second: Verdict<B>) -> Verdict<(A, B)>
    ensures { result ≡ findings.both least first second }
{
    match first {
        Ok(first) => match second {
            Ok(second) => Ok((first, second)),
            Err(fault) => Err(fault),
        },
        Err(fault) => match second {
            Ok(_) => Err(fault),
            Err(other) => Err(lesser(fault, other)),
        },
    }
}

/// Two demands that are to be met, or the fault that is answered.
pub(crate) fn and(first: Verdict<()>, second: Verdict<()>) -> Verdict<()>
    ensures { result ≡ findings.and least first second }
{
    both(first, second)?;
    Ok(())
}

/// The constructs with the next one behind them, or the fault that is answered.
pub(crate) fn with_next<T: Drop>(list: Verdict<Items<T>>, next: Verdict<T>) -> Settled<Items<T>>
    ensures { IfOk result (λ made. made ≡ findings.with_next least list next) }
{
    match both(list, next) {
        Ok((mut list, next)) => {
            list.push(next)?;
            Ok(Ok(list))
        }
        Err(fault) => Ok(Err(fault)),
    }
}

/// The one that is answered where a description has both: that of the lesser offset, at one offset that of the lesser
/// number. Memory goes before all.
#[tactic(auto, unfolding(crate::specs::Refusal::lesser))]
fn lesser(one: Fault, other: Fault) -> Fault
    ensures { result ≡ refusal.lesser one other }
{
    if goes_before(&other, &one) {
        other
    } else {
        one
    }
}

#[tactic(auto, unfolding(crate::specs::Refusal::goes_before))]
fn goes_before(one: &Fault, other: &Fault) -> bool
    ensures { result ≡ refusal.goes_before one.now other.now }
{
    match (one.offset(), other.offset()) {
        (None, _) => true,
        (_, None) => false,
        (Some(here), Some(there)) => {
            here < there || here == there && one.number() < other.number()
        }
    }
}
