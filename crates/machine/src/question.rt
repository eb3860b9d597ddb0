// Questions, which change nothing.
ghost use Rattle.std.specs.Prelude.{◌≡◌, ◌∷◌, ◌++◌, [], Ok, IfOk, OnOk};
ghost use Rattle.sharing_check.specs.declared.checked.Checked.{Checked};
ghost use Rattle.runs.specs.Does.{Does};
ghost use Rattle.runs.specs.Commands.{Command};
ghost use Rattle.machine.specs.Results.{live_reply, value_reply};
ghost use Rattle.machine.specs.internal.Histories.{execution, Holds};

use crate::history::History;
use crate::reply::in_vec;
use dependence::Live;
use runs::Event;
use std::alloc::{AllocError, Global};
use syntax::Items;
use value::Value;

impl History {
    /// The live events.
    pub(crate) fn tell_live(&self, alloc: Global) -> Result<Vec<(u64, Event)>, AllocError>
        ensures { (system : Checked) →
            IfOk result (λ live.
            Does (execution system self.now) Command.Live (live_reply (Ok live)) (execution system self.now)) }
    {
        in_vec(copy_live(alloc, &self.live))
    }

    /// The value of the variable now, `None` where there is no such variable.
    pub(crate) fn tell_value(&self, variable: u32) -> Option<Value>
        ensures { (system : Checked) → Holds system self.now →
            Does (execution system self.now) (Command.Value variable) (value_reply result) (execution system self.now) }
    {
        match self.store.as_slice().get(variable as usize) {
            Some(held) => Some(*held),
            None => None,
        }
    }
}

/// Copies of the live events.
fn copy_live(alloc: Global, live: &Live) -> Result<Items<(u64, Event)>, AllocError>
    ensures { IfOk result (λ copies. copies ≡ live.now.live) }
{
    let mut copies = Items::with_capacity(alloc, live.len())?;
    for (ticket, event) in live.iter() {
        add_copy(alloc, &mut copies, ticket, event)?;
    }
    Ok(copies)
}

/// Adds a copy of the event of this ticket.
fn add_copy(
    alloc: Global,
    copies: &mut Items<(u64, Event)>,
    ticket: u64,
    event: &Event,
) -> Result<(), AllocError>
    ensures { OnOk result (copies.new ≡ copies.old ++ (ticket, event.now) ∷ []) }
{
    copies.push((ticket, event.copy(alloc)?))
}
