// What is at work in a tree, listed one leaf at a time.
ghost use Rattle.std.specs.Prelude.{◌≡◌, ◌≤◌, ◌*◌, ◌^◌, [], ◌∷◌, None, option_map, IfOk, OnOk, OnErr};
ghost use Rattle.system.specs.Translation.{expression_of, decision_of};
ghost use Rattle.process_tree.specs.Remaining.{residual_once, residual_sender, channel_of};
ghost use Rattle.process_tree.specs.View.{once_view, sender_view};
ghost use Rattle.process_tree.specs.internal.Received.{puts_once, puts_sender, puts_guard, puts_decision};
ghost use Rattle.local_actions.specs.Walk.{action_at, added};
ghost use Rattle.local_actions.specs.internal.Listed.{actions_of_residual, again_at, tested_at, open_actions};

use crate::action::ActionKind;
use crate::cursor::{Cursor, small};
use crate::kinds::{kind_of_again, kind_of_held, kind_of_once, kind_of_sender, kind_of_test};
use crate::site::list_opens;
use address::Entry;
use process_tree::{Once, Sender};
use std::alloc::{AllocError, Global};
use system::{Decision, Expression};
use value::Value;

/// Lists what makes one move, before it has made it. It is an error if there is no memory.
#[tactic(auto, using(crate::proofs::public::Sites::once_alone))]
pub(crate) fn list_once(
    alloc: Global,
    once: &Once,
    values: &[Value],
    cursor: &mut Cursor,
) -> Result<(), AllocError>
    ensures { OnOk result (cursor.new
        ≡ added
        (actions_of_residual values.now (residual_once (puts_once cursor.old.received (once_view once.now))))
        cursor.old) }
{
    let kind = kind_of_once(alloc, once, values, cursor.around())?;
    cursor.add(alloc, kind)
}

/// Lists a send or sync that waits. It is an error if there is no memory.
#[tactic(auto, using(crate::proofs::public::Sites::sender_alone))]
pub fn list_sender(
    alloc: Global,
    sender: &Sender,
    values: &[Value],
    cursor: &mut Cursor,
) -> Result<(), AllocError>
    ensures { OnOk result (cursor.new
        ≡ added
        (actions_of_residual values.now (residual_sender (puts_sender cursor.old.received (sender_view sender.now))))
        cursor.old) }
{
    let kind = kind_of_sender(alloc, sender, values, cursor.around())?;
    cursor.add_act(alloc, 0, kind)
}

/// Lists a send or sync that is held. It is an error if there is no memory.
pub fn list_held(alloc: Global, sender: &Sender, cursor: &mut Cursor) -> Result<(), AllocError>
    ensures { OnOk result (cursor.new
        ≡ added
        (action_at (Entry.Ordered 1 ∷ []) (ActionKind.Releases (channel_of (sender_view sender.now))) ∷ [])
        cursor.old) }
{
    cursor.add_act(alloc, 1, kind_of_held(sender))
}

/// Lists a loop before this turn, with its guard where it has one. It is an error if there is no memory.
#[tactic(auto, using(crate::proofs::public::Sites::again_alone))]
pub(crate) fn list_again(
    alloc: Global,
    guard: &Option<Expression>,
    turn: u64,
    values: &[Value],
    cursor: &mut Cursor,
) -> Result<(), AllocError>
    ensures { OnOk result (cursor.new
        ≡ added
        (again_at values.now turn (puts_guard cursor.old.received (option_map expression_of guard.now))) cursor.old) }
{
    let kind = kind_of_again(alloc, guard, values, cursor.around())?;
    cursor.add_act(alloc, act_of_turn(turn)?, kind)
}

/// Lists a test, with the arm that it takes. It is an error if there is no memory.
pub(crate) fn list_test(
    alloc: Global,
    decision: &Decision,
    values: &[Value],
    cursor: &mut Cursor,
) -> Result<(), AllocError>
    ensures { OnOk result (cursor.new
        ≡ added (tested_at values.now 0 (puts_decision cursor.old.received (decision_of decision.now))) cursor.old) }
{
    let kind = kind_of_test(alloc, decision, values, cursor.around())?;
    cursor.add_act(alloc, 0, kind)
}

/// Lists arms that wait on these channels. It is an error if there is no memory; some may be listed then.
#[tactic(auto, using(crate::proofs::public::Walks::through, crate::proofs::public::Sites::opens_behind))]
pub(crate) fn list_arms(
    alloc: Global,
    channels: &[u32],
    cursor: &mut Cursor,
) -> Result<(), AllocError>
    ensures { OnOk result (cursor.new ≡ added (open_actions 0 channels.now) cursor.old) }
{
    cursor.enter_child(0)?;
    list_opens(alloc, channels, cursor)?;
    cursor.leave();
    Ok(())
}

/// Lists the close of an arm that opened on this channel. It is an error if there is no memory.
pub(crate) fn list_close(alloc: Global, channel: u32, cursor: &mut Cursor) -> Result<(), AllocError>
    ensures { OnOk result (cursor.new
        ≡ added (action_at (Entry.Ordered 2 ∷ []) (ActionKind.Closes channel) ∷ []) cursor.old) }
{
    cursor.add_act(alloc, 2, ActionKind::Closes(channel))
}

/// Lists the receives on an output port, after so many. It is an error if there is no memory.
pub(crate) fn list_drain(
    alloc: Global,
    channel: u32,
    count: u64,
    cursor: &mut Cursor,
) -> Result<(), AllocError>
    ensures { OnOk result (cursor.new
        ≡ added (action_at (Entry.Ordered count ∷ []) (ActionKind.Receives channel None) ∷ []) cursor.old) }
{
    cursor.add_act(alloc, count, ActionKind::Receives(channel, None))
}

/// The act with which this turn of a loop begins. It is an error from turn 2^32 on, which no run reaches.
pub(crate) fn act_of_turn(turn: u64) -> Result<u64, AllocError>
    ensures act { IfOk result (λ act. act ≡ 2 * turn) }
    ensures large { OnErr result (2 ^ 32 ≤ turn) }
{
    Ok(u64::from(small(turn)?) * 2)
}
