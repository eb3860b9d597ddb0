// What sends and syncs offer on a channel.
ghost use Rattle.std.specs.Prelude.{◌≡◌, [], ◌∷◌, OnOk};
ghost use Rattle.address.specs.declared.Entry.TheVariants.{Ordered};
ghost use Rattle.process_tree.specs.Remaining.{residual_sender, channel_of};
ghost use Rattle.process_tree.specs.View.{sender_view};
ghost use Rattle.process_tree.specs.internal.Received.{puts_sender};
ghost use Rattle.local_actions.specs.Walk.{action_at, added};
ghost use Rattle.local_actions.specs.internal.Listed.{actions_of_residual};
ghost use Rattle.local_actions.specs.declared.action.ActionKind.TheVariants.{Releases};
ghost use Rattle.channel_uses.specs.OnChannel.{on};

use crate::part::channel_of;
use local_actions::{Cursor, list_held, list_sender};
use process_tree::Sender;
use std::alloc::{AllocError, Global};
use value::Value;

/// Lists a send or sync that waits.
pub(crate) fn waiting_on(
    alloc: Global,
    sender: &Sender,
    channel: u32,
    values: &[Value],
    cursor: &mut Cursor,
) -> Result<(), AllocError>
    ensures { OnOk result (cursor.new
        ≡ added
        (on channel
        (actions_of_residual values.now (residual_sender (puts_sender cursor.old.received (sender_view sender.now)))))
        cursor.old) }
{
    if channel_of(sender) == channel {
        return list_sender(alloc, sender, values, cursor);
    }
    Ok(())
}

/// Lists a send or sync that is held.
pub(crate) fn held_on(
    alloc: Global,
    sender: &Sender,
    channel: u32,
    cursor: &mut Cursor,
) -> Result<(), AllocError>
    ensures { OnOk result (cursor.new
        ≡ added
        (on channel (action_at (Ordered 1 ∷ []) (Releases (channel_of (sender_view sender.now))) ∷ [])) cursor.old) }
{
    if channel_of(sender) == channel {
        return list_held(alloc, sender, cursor);
    }
    Ok(())
}
