// On which channels actions wait, and which ends there are on each.
ghost use Rattle.std.specs.Prelude.{◌≡◌, ◌<◌, ℕ, true, Some, slice_get, length, IfOk, OnOk};
ghost use Rattle.std.specs.Option.{option_copied};
ghost use Rattle.syntax.specs.Lists.{In};
ghost use Rattle.local_actions.specs.declared.action.LocalAction as any;
ghost use Rattle.rings.specs.Partners.{sought_by};
ghost use Rattle.rings.specs.declared.sought.Sought as any_sought;
ghost use Rattle.rings.specs.internal.Ends as model;
ghost use Rattle.rings.specs.internal.Loosened.{is_marked};

use crate::ends::End;
use crate::sought::Sought;
use dependence::UseTable;
use local_actions::LocalAction;
use std::alloc::{AllocError, Global};

/// The channels on which one of the actions waits for another, marked by their numbers.
pub(crate) fn wanted_by(alloc: Global, actions: &[LocalAction]) -> Result<Vec<bool>, AllocError>
    ensures { IfOk result (λ wanted. model.WantsEach actions.now wanted.items) }
{
    let mut wanted = Vec::new(alloc);
    for action in actions {
        want(Sought::by(&action.action), &mut wanted)?;
    }
    Ok(wanted)
}

/// Marks the channel of what is sought.
fn want(sought: Option<Sought>, wanted: &mut Vec<bool>) -> Result<(), AllocError>
    ensures { OnOk result (model.Wanted sought wanted.old.items wanted.new.items) }
{
    match sought {
        Some(sought) => mark(sought.channel() as usize, wanted),
        None => Ok(()),
    }
}

/// Marks this number.
fn mark(number: usize, wanted: &mut Vec<bool>) -> Result<(), AllocError>
    ensures { OnOk result (model.MarksAlso number wanted.old.items wanted.new.items) }
{
    'growing: while wanted.len() <= number {
        wanted.push(false)?;
    }
    wanted[number] = true;
    Ok(())
}

/// The numbers of the ends on each channel.
pub(crate) fn uses_of(alloc: Global, ends: &[End]) -> Result<UseTable, AllocError>
    ensures { IfOk result (λ uses. model.HasEnds uses ends.now) }
{
    let mut uses = UseTable::new(alloc);
    for (number, end) in ends.iter().enumerate() {
        uses.put(end.sought.channel(), number as u64)?;
    }
    Ok(uses)
}
