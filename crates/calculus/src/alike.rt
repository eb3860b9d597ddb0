// Whether two lists have the same events, and those on one variable in one order.
ghost use Rattle.std.specs.Prelude.{◌≡◌, ◌↔◌, Some, IsTrue, IfOk, MatchOption, slice_get};
ghost use Rattle.syntax.specs.Lists.{In};
ghost use Rattle.calculus.specs.internal.Comparing.{ActsOnce, Indexes, Alike};

use crate::index::Index;
use crate::uses::Uses;
use runs::Event;
use std::alloc::{AllocError, Global};

/// Whether the lists have the same events, and any two on one variable, one of them writing it, stand in one order.
/// (That a variable is shared need not be asked: on the others a run has one order.)
pub(crate) fn are_alike(alloc: Global, a: &[Event], b: &[Event]) -> Result<bool, AllocError>
    requires first { ActsOnce a.now }
    requires second { ActsOnce b.now }
    ensures { IfOk result (λ alike. IsTrue alike ↔ Alike a.now b.now) }
{
    if a.len() != b.len() {
        return Ok(false);
    }
    let index = Index::of(alloc, b)?;
    let mut uses = Uses::new(alloc);
    for event in a {
        let Some(place) = place_of(&index, b, event) else {
            return Ok(false);
        };
        if !uses.all_before(event, place, b.len() as u64) {
            return Ok(false);
        }
        uses.put(event, place)?;
    }
    Ok(true)
}

/// Where the event stands in the list; `None` where it is not there.
fn place_of(index: &Index, events: &[Event], event: &Event) -> Option<u64>
    requires indexes { Indexes index.now events.now }
    requires once { ActsOnce events.now }
    ensures { MatchOption result (In event.now events.now → ⊥) (λ place. slice_get events.now place ≡ Some event.now) }
{
    let place = index.place(event.acting_place())?;
    let held = events.get(place as usize)?;
    if held.equals(event) {
        Some(place)
    } else {
        None
    }
}
