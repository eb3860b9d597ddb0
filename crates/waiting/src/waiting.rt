// The answer.
ghost use Rattle.std.specs.Prelude.{◌≡◌, IfOk, Some, length, map};
ghost use Rattle.system.specs.Residual.{Residual};
ghost use Rattle.rings.specs.Partners.{partner_in};
ghost use Rattle.rings.specs.Rings.{TellsDeadlocked};
ghost use Rattle.waiting.specs.Input.{is_helped};
ghost use Rattle.waiting.specs.Told.{TellsWaits};

use crate::actions::left_over;
use crate::input::helped_among;
use crate::places::Places;
use crate::progress::{Progress, progress_of};
use allowed_events::events_among;
use local_actions::{LocalAction, actions_of};
use machine::Machine;
use rings::{Partner, deadlocked_among, partners_of, ring_among};
use runs::Event;
use std::alloc::{AllocError, Global};
use syntax::Items;

/// Who waits after a run.
#[derive(Drop)]
pub struct Waiting {
    pub progress: Progress,
    /// the events that may be taken, in order
    pub ready: Items<Event>,
    /// the actions that wait, in order of place, each once; arms of one choice in their order
    pub actions: Items<LocalAction>,
    /// for each of them what has to go on before its partner can come
    pub partners: Vec<Partner>,
    /// for each of them whether its place is deadlocked: one of some of which none goes on before another one does,
    /// whatever the environment gives
    pub deadlocked: Vec<bool>,
    /// the indexes of deadlocked actions of which each waits for the place of the next, and the last for the first;
    /// empty where there is no such ring. Of several it is the one that a search from the first action on comes to
    /// first
    pub ring: Vec<usize>,
}

/// Exactly the actions that the state of the machine offers and whose place no allowed event has, each once, in order
/// of place, the allowed events, how the run stands, what each of the actions waits for, which are deadlocked, and a
/// ring exactly where there is one, of one state always the same. It walks once over what the tree offers, from which
/// it tells the allowed events too, and once over what is still to come, where partners stand that are not offered yet.
/// It is an error if there is no memory.
pub fn who_waits(alloc: Global, machine: &Machine) -> Result<Waiting, AllocError>
    ensures { IfOk result (λ told. TellsWaits machine.now told) }
{
    let (tree, store) = machine.state();
    let actions = actions_of(alloc, tree, store)?;
    let ready = events_among(alloc, actions.as_slice())?;
    let progress = progress_of(tree, ready.as_slice());
    let places = Places::of(alloc, ready.as_slice())?;
    let actions = left_over(actions, &places);
    let partners = partners_of(alloc, tree, actions.as_slice())?;
    let deadlocked = deadlocked_of(alloc, machine, actions.as_slice(), partners.as_slice())?;
    let ring = ring_among(
        alloc,
        actions.as_slice(),
        partners.as_slice(),
        deadlocked.as_slice(),
    )?;
    Ok(Waiting {
        progress,
        ready,
        actions,
        partners,
        deadlocked,
        ring,
    })
}

/// For each of the actions, which have these partners, whether its place is deadlocked. It is an error if there is no
/// memory.
fn deadlocked_of(
    alloc: Global,
    machine: &Machine,
    actions: &[LocalAction],
    partners: &[Partner],
) -> Result<Vec<bool>, AllocError>
    requires { length partners.now ≡ length actions.now }
    ensures { (r : Residual) → partners.now ≡ map (partner_in r) actions.now → IfOk result (λ marks.
        TellsDeadlocked (λ x. is_helped machine.now x (Some (partner_in r x))) r actions.now marks.items) }
{
    let helped = helped_among(alloc, machine, actions, partners)?;
    deadlocked_among(alloc, actions, partners, helped.as_slice())
}
