// Whether more in the stimulus is all that a run lacks.
ghost use Rattle.std.specs.Prelude.{◌≡◌, ◌↔◌, IfOk, IsTrue, slice_get};
ghost use Rattle.std.specs.Option.{option_copied};
ghost use Rattle.runs.specs.Steps.{State};
ghost use Rattle.waiting.specs.Input as model;
ghost use Rattle.waiting.specs.Lacking.{LacksInput};
ghost use Rattle.waiting.specs.Told.{IsTold};
ghost use Rattle.waiting.specs.internal.Helps.{helps};
ghost use Rattle.waiting.specs.internal.LackTests as tests;

use crate::progress::{Progress, is_idle, is_in_body, is_outlet};
use crate::text::partner_at;
use crate::waiting::Waiting;
use local_actions::{ActionKind, LocalAction};
use machine::Machine;
use rings::Partner;
use std::alloc::{AllocError, Global};
use system::{Branch, System};

impl Waiting {
    /// Whether nothing can go on for want of input alone: nothing in the body is deadlocked, so that whatever waits
    /// there waits for the environment in the end, by whichever of its arms, and an action of the body waits for what
    /// the environment has no more of. What the environment has left over, and nobody takes, counts for nothing. Where
    /// it is not known from where a partner comes, the answer is no. The machine is the one that was asked.
    pub fn lacks_input(&self, machine: &Machine) -> bool
        ensures result { result ≡ tests.lacks_input machine.now self.now }
        ensures meant { (S : State) → IsTold machine.now S self.now → IsTrue result ↔ LacksInput machine.now S }
    {
        passes_tests(self, machine)
    }
}

/// Whether input is all that lacks, test by test.
fn passes_tests(waiting: &Waiting, machine: &Machine) -> bool
    ensures { result ≡ tests.lacks_input machine.now waiting.now }
{
    let actions = waiting.actions.as_slice();
    let partners = waiting.partners.as_slice();
    is_stuck(waiting.progress)
        && none_deadlocked(actions, waiting.deadlocked.as_slice())
        && any_starved(machine, actions, partners)
        && all_settled(actions, partners)
}

/// For each of the actions whether it is helped from elsewhere, so that none of the others has to go on for it. It is
/// an error if there is no memory.
pub(crate) fn helped_among(
    alloc: Global,
    machine: &Machine,
    actions: &[LocalAction],
    partners: &[Partner],
) -> Result<Vec<bool>, AllocError>
    ensures { IfOk result (λ helped. helped.items ≡ helps machine.now partners.now 0 actions.now) }
{
    let mut helped = Vec::with_capacity(alloc, actions.len())?;
    for (index, action) in actions.iter().enumerate() {
        helped.push(is_helped(machine, action, partner_at(partners, index)))?;
    }
    Ok(helped)
}

/// Whether it is stuck.
fn is_stuck(progress: Progress) -> bool
    ensures { result ≡ tests.is_stuck progress }
{
    match progress {
        Progress::Stuck => true,
        Progress::GoesOn | Progress::Done => false,
    }
}

/// Whether one of the actions waits for more input.
fn any_starved(machine: &Machine, actions: &[LocalAction], partners: &[Partner]) -> bool
    ensures { result ≡ tests.any_starved machine.now partners.now 0 actions.now }
{
    for (index, action) in actions.iter().enumerate() {
        if is_starved(machine, action, partner_at(partners, index)) {
            return true;
        }
    }
    false
}

/// Whether of each of the actions it is known where its partner stands.
fn all_settled(actions: &[LocalAction], partners: &[Partner]) -> bool
    ensures { result ≡ tests.all_settled partners.now 0 actions.now }
{
    for (index, action) in actions.iter().enumerate() {
        if !is_settled(action, partner_at(partners, index)) {
            return false;
        }
    }
    true
}

/// Whether none of the actions, which have these marks, stands in the body or is held by it, and is deadlocked.
fn none_deadlocked(actions: &[LocalAction], marks: &[bool]) -> bool
    ensures { result ≡ tests.none_deadlocked marks.now 0 actions.now }
{
    for (index, action) in actions.iter().enumerate() {
        if !is_idle(action) && is_set(marks, index) {
            return false;
        }
    }
    true
}

/// Whether the mark of this index is there, and set.
fn is_set(marks: &[bool], index: usize) -> bool
    ensures { result ≡ tests.is_set (slice_get marks.now index) }
{
    match marks.get(index) {
        Some(mark) => *mark,
        None => false,
    }
}

/// Whether the action is an output port's, or waits for more input.
fn is_helped(machine: &Machine, offered: &LocalAction, partner: Option<&Partner>) -> bool
    ensures { result ≡ model.is_helped machine.now offered.now (option_copied partner.entry) }
{
    is_outlet(&offered.action) || is_starved(machine, offered, partner)
}

/// Whether the action is an output port's, or it is known where its partner stands.
fn is_settled(offered: &LocalAction, partner: Option<&Partner>) -> bool
    ensures { result ≡ tests.is_settled offered.now (option_copied partner.entry) }
{
    is_outlet(&offered.action) || !is_open(partner)
}

/// Whether it may be there already, or come from more than one branch.
fn is_open(partner: Option<&Partner>) -> bool
    ensures { result ≡ tests.is_open (option_copied partner.entry) }
{
    match partner {
        Some(Partner::Open) => true,
        Some(Partner::Behind(_)) | Some(Partner::Gone) | None => false,
    }
}

/// Whether the action stands in the body and waits for what the environment has no more of.
fn is_starved(machine: &Machine, offered: &LocalAction, partner: Option<&Partner>) -> bool
    ensures { result ≡ model.is_starved machine.now offered.now (option_copied partner.entry) }
{
    match partner {
        Some(Partner::Gone) => takes_input(machine, offered),
        Some(Partner::Behind(_)) | Some(Partner::Open) | None => false,
    }
}

/// Whether the action stands in the body and takes what the environment has a number of.
fn takes_input(machine: &Machine, offered: &LocalAction) -> bool
    ensures { result ≡ model.takes_input machine.now offered.now }
{
    is_in_body(&offered.place) && fed_channel(machine.checked().system(), &offered.action).is_some()
}

/// The channel on which the action takes what the environment has a number of, if it is one.
pub(crate) fn fed_channel(system: &System, action: &ActionKind) -> Option<u32>
    ensures { result ≡ model.fed_channel system.now action.now }
{
    match action {
        ActionKind::Receives(channel, _)
        | ActionKind::Opens(channel, _)
        | ActionKind::Syncs(channel) => { fed(system, *channel) }
        _ => None,
    }
}

/// The channel, if the environment has a number of values or handshakes for it.
fn fed(system: &System, channel: u32) -> Option<u32>
    ensures { result ≡ model.fed_if (model.is_fed channel system.now.environment) channel }
{
    if is_fed(system.environment.as_slice(), channel) {
        Some(channel)
    } else {
        None
    }
}

/// Whether one of these branches of the environment has a number of values or handshakes for the channel.
fn is_fed(branches: &[Branch], channel: u32) -> bool
    ensures { result ≡ model.is_fed channel branches.now }
{
    for branch in branches {
        if feeds(branch, channel) {
            return true;
        }
    }
    false
}

/// Whether the branch of the environment has.
fn feeds(branch: &Branch, channel: u32) -> bool
    ensures { result ≡ model.feeds channel branch.now }
{
    match branch {
        Branch::Feed(port, _, _) => *port == channel,
        Branch::Syncs(port, _) => *port == channel,
        Branch::Drain(_) => false,
    }
}
