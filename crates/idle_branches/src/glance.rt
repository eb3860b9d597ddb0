// What a look at a branch tells of its next step, without a list of what it offers.
ghost use Rattle.std.specs.Prelude.{◌≡◌, ◌⊎◌, ◌∷◌, ℕ, List, map, length, false, None, Some};
ghost use Rattle.address.specs.Places.{Before};
ghost use Rattle.runs.specs.Moves.{Place};
ghost use Rattle.runs.specs.Steps.{Run, opening};
ghost use Rattle.runs.specs.declared.event.Event as any_event;
ghost use Rattle.system.specs.Expression.{Store};
ghost use Rattle.system.specs.declared.command.Command.{Command};
ghost use Rattle.system_places.specs.SystemBranches.{branch_at, parallel_of};
ghost use Rattle.process_tree.specs.Children.{proc_at};
ghost use Rattle.process_tree.specs.Proc as model;
ghost use Rattle.process_tree.specs.Tidy.{Tidy};
ghost use Rattle.process_tree.specs.View.{proc_view, procs_of, tree_view};
ghost use Rattle.local_actions.specs.Actions.{Offered};
ghost use Rattle.local_actions.specs.View.{state_of};
ghost use Rattle.local_actions.specs.declared.action.LocalAction as any;
ghost use Rattle.idle_branches.specs.Idle.{AreEnds};
ghost use Rattle.idle_branches.specs.Glance.{IsFaced, Tells};
ghost use Rattle.idle_branches.specs.internal.Sights.{IsBranch, IsChild, NoChild, NoneGives, SeenIn, Sees};

use crate::ends::{Ends, parallel_of};
use crate::givers::Giver;
use crate::sight::{Sight, sight_of};
use process_tree::{Proc, Tree};
use system::System;

/// What a look at a branch tells of its next step, and at the other side of which channels it is.
#[derive(Clone, Copy)]
pub enum Glance {
    /// it has no step, and it is at the other side of this channel alone, if of any
    Rests(Option<u32>),
    /// it may have a step, and it is at the other side of this channel alone, if of any
    Acts(Option<u32>),
    /// it is not known
    Unknown,
}

/// What a look at the branch tells, and one at the branch that gives on the channel on which it acts, where the ends are
/// those of the system and the tree stands for one of its runs. It follows each branch to the one place where it is at
/// work; where that is a parallel, nothing is known.
pub fn glance_of(ends: &Ends, system: &System, tree: &Tree, branch: u32) -> Glance
    ensures rests { Tidy (tree_view tree.now) → (h : List any_event.Event) (values : Store) → AreEnds system.now ends.now →
        Run (opening system.now) h (state_of tree.now values) →
        Tells result system.now (state_of tree.now values) branch }
    ensures faced { Tidy (tree_view tree.now) → (values : Store) (a : Place) (x : any.LocalAction) →
        Offered (state_of tree.now values) x → Before a x.place → branch_at system.now a ≡ Some branch →
        IsFaced result x.action }
{
    match sight_of_branch(system, tree, branch) {
        Sight::Nothing => Glance::Rests(None),
        Sight::Gives(channel) => Glance::Rests(Some(channel)),
        Sight::Takes(channel) => taker(ends, system, tree, channel),
        Sight::Acts => Glance::Acts(None),
        Sight::Syncs(channel) => Glance::Acts(Some(channel)),
        Sight::Unknown => Glance::Unknown,
    }
}

/// What is told of a branch that takes on this channel, and does nothing else.
fn taker(ends: &Ends, system: &System, tree: &Tree, channel: u32) -> Glance
    ensures { (result ≡ Glance.Acts None) ⊎ ((result ≡ Glance.Rests None) × (Tidy (tree_view tree.now) →
        (h : List any_event.Event) (values : Store) → AreEnds system.now ends.now →
        Run (opening system.now) h (state_of tree.now values) → NoneGives (state_of tree.now values) channel)) }
{
    if is_given(ends, system, tree, channel) {
        Glance::Acts(None)
    } else {
        Glance::Rests(None)
    }
}

/// Whether somebody may be at the other side of the channel.
fn is_given(ends: &Ends, system: &System, tree: &Tree, channel: u32) -> bool
    ensures { result ≡ false → Tidy (tree_view tree.now) → (h : List any_event.Event) (values : Store) →
        AreEnds system.now ends.now → Run (opening system.now) h (state_of tree.now values) →
        NoneGives (state_of tree.now values) channel }
{
    match ends.giver_on(channel) {
        Giver::Nobody => false,
        Giver::One(branch) => !sight_of_branch(system, tree, branch).gives_none_on(channel),
        Giver::Several => true,
    }
}

/// What the branch offers.
fn sight_of_branch(system: &System, tree: &Tree, branch: u32) -> Sight
    ensures { Tidy (tree_view tree.now) → (values : Store) → SeenIn system.now (state_of tree.now values) branch result }
{
    match tree.root() {
        Proc::Parallel(parts) => sight_among(system, parts.as_slice(), branch),
        _ => Sight::Unknown,
    }
}

/// What the branch offers, where these are the body and the ports.
fn sight_among(system: &System, parts: &[Proc], branch: u32) -> Sight
    ensures { IsBranch system.now (procs_of (map proc_view parts.now)) branch result }
{
    let Some((body, ports)) = parts.split_first() else {
        return Sight::Unknown;
    };
    match parallel_of(&system.main) {
        Some(children) => sight_beside(children.len(), body, ports, branch),
        None => sight_alone(body, ports, branch),
    }
}

/// The same, where the body is one branch.
fn sight_alone(body: &Proc, ports: &[Proc], branch: u32) -> Sight
    ensures { (system : System) → parallel_of system.main ≡ None →
        IsBranch system (procs_of (map proc_view (body.now ∷ ports.now))) branch result }
{
    if branch == 0 {
        sight_of(body)
    } else {
        sight_at(ports, branch - 1)
    }
}

/// The same, where the body is so many branches.
fn sight_beside(count: usize, body: &Proc, ports: &[Proc], branch: u32) -> Sight
    ensures { (system : System) (children : List Command) → parallel_of system.main ≡ Some children →
        length children ≡ count → IsBranch system (procs_of (map proc_view (body.now ∷ ports.now))) branch result }
{
    if (branch as usize) < count {
        sight_of_child(body, branch)
    } else if has_child(body, branch) {
        Sight::Unknown
    } else {
        sight_at(ports, branch - count as u32)
    }
}

/// What the child of this number offers, where the body is still a parallel.
fn sight_of_child(body: &Proc, number: u32) -> Sight
    ensures { IsChild (proc_view body.now) number result }
{
    match body {
        Proc::Parallel(children) => sight_at(children.as_slice(), number),
        _ => Sight::Unknown,
    }
}

/// Whether the body may have a child of this number.
fn has_child(body: &Proc, number: u32) -> bool
    ensures { NoChild (proc_view body.now) number result }
{
    match body {
        Proc::Parallel(children) => (number as usize) < children.len(),
        _ => true,
    }
}

/// What the process of this number offers, if there is one.
fn sight_at(processes: &[Proc], number: u32) -> Sight
    ensures { (p : model.Proc) → proc_at (procs_of (map proc_view processes.now)) number ≡ Some p → Sees result p }
{
    let index = number as usize;
    if index < processes.len() {
        return sight_of(&processes[index]);
    }
    Sight::Nothing
}
