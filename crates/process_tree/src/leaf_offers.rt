// The offers of what is at work in a tree, one leaf at a time.
ghost use Rattle.std.specs.Prelude.{◌≡◌, ◌≤◌, ◌*◌, ◌^◌, [], ◌∷◌, None, option_map, IfOk, OnOk, OnErr};
ghost use Rattle.system.specs.Translation.{expression_of};
ghost use Rattle.process_tree.specs.Remaining.{residual_once, residual_sender, channel_of};
ghost use Rattle.process_tree.specs.View.{once_view, sender_view};
ghost use Rattle.process_tree.specs.internal.Listed.{offer_at, offers_of, again_at, opens_from, added};

use crate::code::{Once, Sender};
use crate::finder::{Finder, small};
use crate::offer::OfferKind;
use address::Entry;
use std::alloc::{AllocError, Global};
use system::Expression;

/// Lists what makes one move, before it has made it.
pub(crate) fn list_once(alloc: Global, once: &Once, finder: &mut Finder) -> Result<(), AllocError>
    ensures { OnOk result (finder.new ≡ added (offers_of (residual_once (once_view once.now))) finder.old) }
{
    match once {
        Once::Assign(variable, _, _) => finder.add(alloc, OfferKind::Assigns(*variable)),
        Once::Receive(channel, variable) => {
            finder.add(alloc, OfferKind::Receives(*channel, Some(*variable)))
        }
    }
}

/// Lists a send or sync that waits.
pub(crate) fn list_sender(
    alloc: Global,
    sender: &Sender,
    finder: &mut Finder,
) -> Result<(), AllocError>
    ensures { OnOk result (finder.new ≡ added (offers_of (residual_sender (sender_view sender.now))) finder.old) }
{
    match sender {
        Sender::Send(channel, _, _) => finder.add_act(alloc, 0, OfferKind::Sends(*channel)),
        Sender::Sync(channel) => finder.add_act(alloc, 0, OfferKind::Syncs(*channel)),
    }
}

/// Lists a send or sync that is held.
pub(crate) fn list_held(
    alloc: Global,
    sender: &Sender,
    finder: &mut Finder,
) -> Result<(), AllocError>
    ensures { OnOk result (finder.new
        ≡ added
        (offer_at (Entry.Ordered 1 ∷ []) (OfferKind.Releases (channel_of (sender_view sender.now))) ∷ [])
        finder.old) }
{
    match sender {
        Sender::Send(channel, _, _) => finder.add_act(alloc, 1, OfferKind::Releases(*channel)),
        Sender::Sync(channel) => finder.add_act(alloc, 1, OfferKind::Releases(*channel)),
    }
}

/// Lists a loop before this turn, with its guard where it has one.
pub(crate) fn list_again(
    alloc: Global,
    guard: &Option<Expression>,
    turn: u64,
    finder: &mut Finder,
) -> Result<(), AllocError>
    ensures { OnOk result (finder.new
        ≡ added (again_at turn (option_map expression_of guard.now)) finder.old) }
{
    let act = act_of_turn(turn)?;
    match guard {
        None => finder.add_act(alloc, act, OfferKind::Turns),
        Some(_) => finder.add_act(alloc, act, OfferKind::Tests),
    }
}

/// Lists a test.
pub(crate) fn list_test(alloc: Global, finder: &mut Finder) -> Result<(), AllocError>
    ensures { OnOk result (finder.new
        ≡ added (offer_at (Entry.Ordered 0 ∷ []) OfferKind.Tests ∷ []) finder.old) }
{
    finder.add_act(alloc, 0, OfferKind::Tests)
}

/// Lists arms that wait on these channels. Without memory some may be listed.
pub(crate) fn list_arms(
    alloc: Global,
    channels: &[u32],
    finder: &mut Finder,
) -> Result<(), AllocError>
    ensures { OnOk result (finder.new ≡ added (opens_from 0 channels.now) finder.old) }
{
    for (arm, channel) in channels.iter().enumerate() {
        let arm = small(arm as u64)?;
        finder.add_act(alloc, 0, OfferKind::Opens(*channel, arm))?;
    }
    Ok(())
}

/// Lists the close of an arm that opened on this channel.
pub(crate) fn list_close(alloc: Global, channel: u32, finder: &mut Finder) -> Result<(), AllocError>
    ensures { OnOk result (finder.new
        ≡ added (offer_at (Entry.Ordered 2 ∷ []) (OfferKind.Closes channel) ∷ []) finder.old) }
{
    finder.add_act(alloc, 2, OfferKind::Closes(channel))
}

/// Lists the receives on an output port, after so many.
pub(crate) fn list_drain(
    alloc: Global,
    channel: u32,
    count: u64,
    finder: &mut Finder,
) -> Result<(), AllocError>
    ensures { OnOk result (finder.new
        ≡ added (offer_at (Entry.Ordered count ∷ []) (OfferKind.Receives channel None) ∷ []) finder.old) }
{
    finder.add_act(alloc, count, OfferKind::Receives(channel, None))
}

/// The act with which this turn of a loop begins. It is an error from turn 2^32 on, whose acts have no place.
fn act_of_turn(turn: u64) -> Result<u64, AllocError>
    ensures act { IfOk result (λ act. act ≡ 2 * turn) }
    ensures large { OnErr result (2 ^ 32 ≤ turn) }
{
    Ok(u64::from(small(turn)?) * 2)
}
