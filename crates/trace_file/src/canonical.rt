// The canonical order: what waits for nothing that is left is taken, the least acting address first.
ghost use Rattle.std.specs.Prelude.{List, IfOk};
ghost use Rattle.system.specs.declared.system.System.{System};
ghost use Rattle.runs.specs.Live.{events};
ghost use Rattle.runs.specs.Steps.{State, Run, opening};
ghost use Rattle.runs.specs.declared.event.Event.{Event};
ghost use Rattle.trace_file.specs.Canonical.{IsCanonicalOrder, StandAt};

use crate::queue::{first_free, leads_of_all, tell_followers};
use dependence::Live;
use std::alloc::{AllocError, Global};
use std::cmp::Reverse;

/// The indexes of the live events, which run, in their canonical order. It is an error if there is no memory.
///
/// It takes as long as a sort of the events, and a search of the live events for each follower.
pub fn canonical_order(alloc: Global, live: &Live) -> Result<Vec<usize>, AllocError>
    requires { (system : System) × (T : State) × Run (opening system) (events live.now.live) T }
    ensures { IfOk result (λ order. (g : List Event) × IsCanonicalOrder (events live.now.live) g
        × StandAt live.now.live order.items g) }
{
    live.is_sound();
    let mut left = leads_of_all(alloc, live)?;
    let mut free = first_free(alloc, live, left.as_slice())?;
    let mut order = Vec::new(alloc);
    while let Some(Reverse(next)) = free.pop() {
        order.push(next.index)?;
        tell_followers(live, next.index, left.as_mut_slice(), &mut free)?;
    }
    Ok(order)
}
