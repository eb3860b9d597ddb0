// What is shown of each live event.
ghost use Rattle.std.specs.Prelude.{IfOk};
ghost use Rattle.run_depths.specs.Depths.{AreBelow};
ghost use Rattle.picture_data.specs.Shown.{ShowsSteps};

use crate::actions::{Actions, live_actions};
use machine::Machine;
use picture_lanes::LaneTable;
use run_depths::{Race, all_ahead, all_since, depths_of, races_of};
use std::alloc::{AllocError, Global};
use syntax::Items;

/// What is shown of the live events: what is said of each stands at its index, counted from 0 in order of tickets.
#[derive(Drop)]
pub struct Steps {
    /// the row of each event: the length of the longest chain of events that led to it
    pub depths: Vec<usize>,
    /// how many events further on each follower of the event stands
    pub ahead: Items<Items<usize>>,
    /// where each event stands
    pub actions: Vec<Actions>,
    /// from which depth on the two actions of the event may have stood there
    pub since: Vec<(usize, usize)>,
    /// the orders that only a shared variable makes
    pub races: Vec<Race>,
}

/// What is shown of the live events.
pub(crate) fn steps_of(
    alloc: Global,
    machine: &Machine,
    table: &LaneTable,
) -> Result<Steps, AllocError>
    ensures shown { IfOk result (λ steps. ShowsSteps machine.now table.now steps) }
    ensures small { IfOk result (λ steps. AreBelow steps.depths.items) }
{
    machine.is_sound();
    let live = machine.live_events();
    let depths = depths_of(alloc, live)?;
    let ahead = all_ahead(alloc, live)?;
    let actions = live_actions(alloc, machine, table)?;
    let since = all_since(alloc, live, depths.as_slice())?;
    let races = races_of(alloc, live)?;
    Ok(Steps {
        depths,
        ahead,
        actions,
        since,
        races,
    })
}
