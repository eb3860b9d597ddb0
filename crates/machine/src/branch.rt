// A step of a branch: its first ready event whose line has no breakpoint.
ghost use Rattle.std.specs.Prelude.{◌≡◌, true, false, slice_get, Some, IfOk, MatchOption};
ghost use Rattle.std.specs.Option.{option_copied};
ghost use Rattle.syntax.specs.Lists.{Every};
ghost use Rattle.system_places.specs.SystemBranches.{branch_at, parallel_of};
ghost use Rattle.runs.specs.Events.{acting};
ghost use Rattle.runs.specs.Moves.{Place};
ghost use Rattle.event_inverse.specs.Grown.{state_of_tree};
ghost use Rattle.allowed_events.specs.ReadyBelow.{ReadyBelow};
ghost use Rattle.machine.specs.Branching.{is_branch, acts_in, in_branch, is_free, AnswersBranch};
ghost use Rattle.machine.specs.internal.Choosing.{moves, line_of_first, FirstAt, AnswersTaking, IsChosenAt};
ghost use Rattle.machine.specs.internal.Sites.{IsAtSite, ReadyWith, site_among};
ghost use Rattle.machine.specs.AtMachine.{at_machine};
ghost use Rattle.machine.specs.internal.Histories.{tree_of, Holds, KnowsUses, IsSearched};

use crate::among::is_among;
use crate::history::History;
use address::Entry;
use allowed_events::ready_below;
use channel_uses::ChannelUses;
use dependence::line_after;
use runs::{Event, Refusal};
use sharing_check::Checked;
use std::alloc::{AllocError, Global};
use syntax::Items;
use system::{Action, Command, System};

/// What is answered to a step of a branch.
#[derive(Drop)]
pub enum BranchReply {
    /// the event was taken, under this ticket
    Stepped(u64, Event),
    /// breakpoints keep all its ready events back; the line of the first
    Stopped(u64),
    /// no event of it is ready, or there is no such branch
    Idle,
    /// nothing was done
    Refused(Refusal),
}

impl History {
    /// Takes the first ready event of the branch whose line is not among these.
    pub(crate) fn branch_step(
        &mut self,
        alloc: Global,
        system: &Checked,
        uses: &ChannelUses,
        branch: u32,
        breaks: &[u64],
    ) -> BranchReply
        requires holds { Holds system.now self.old }
        requires uses { KnowsUses system.now uses.now }
        ensures answers { AnswersBranch (at_machine system.now self.old) branch breaks.now result
            (at_machine system.now self.new) }
        ensures holds { Holds system.now self.new }
        ensures marked { self.new.live.marked ≡ self.old.live.marked }
    {
        let Ok(events) = self.ready_near(alloc, system, uses, branch) else {
            return BranchReply::Refused(Refusal::Memory);
        };
        match self.first_moving(system, events.as_slice(), branch, breaks) {
            Some(index) => self.take_ready(alloc, system, events, index),
            None => self.kept_back(system, events.as_slice(), branch),
        }
    }

    /// Events that are ready, in order, and all that act in the branch among them.
    fn ready_near(
        &self,
        alloc: Global,
        system: &Checked,
        uses: &ChannelUses,
        branch: u32,
    ) -> Result<Items<Event>, AllocError>
        requires holds { Holds system.now self.now }
        requires uses { KnowsUses system.now uses.now }
        ensures { IfOk result (λ events.
            ReadyWith (state_of_tree (tree_of self.now)) (acts_in (at_machine system.now self.now) branch) events) }
    {
        match site_of(system.system(), branch) {
            Site::Child => {
                self.ready_under(alloc, uses, &[Entry::Branch(0), Entry::Branch(branch)])
            }
            Site::Body => self.ready_under(alloc, uses, &[Entry::Branch(0)]),
            Site::Port(number) => self.ready_under(alloc, uses, &[Entry::Branch(number)]),
            Site::Unknown => self.ready_under(alloc, uses, &[]),
        }
    }

    /// The events that are allowed now and act at the place or below it, in order.
    fn ready_under(
        &self,
        alloc: Global,
        uses: &ChannelUses,
        place: &[Entry],
    ) -> Result<Items<Event>, AllocError>
        requires { IsSearched self.now uses.now }
        ensures { IfOk result (λ events. ReadyBelow (state_of_tree (tree_of self.now)) place.now events) }
    {
        ready_below(alloc, uses, &self.tree, &self.store, place)
    }

    /// Takes the event at this index of the list of those that are ready, where the limits leave room for it. There may
    /// be no memory for an event that is taken, and for no other.
    fn take_ready(
        &mut self,
        alloc: Global,
        system: &Checked,
        events: Items<Event>,
        index: usize,
    ) -> BranchReply
        requires holds { Holds system.now self.old }
        requires chosen { IsChosenAt (state_of_tree (tree_of self.old)) events index }
        ensures done { (e : Event) → slice_get events index ≡ Some e →
            AnswersTaking (at_machine system.now self.old) e result (at_machine system.now self.new) }
        ensures holds { Holds system.now self.new }
        ensures marked { self.new.live.marked ≡ self.old.live.marked }
    {
        if let Some(why) = self.limit() {
            return BranchReply::Refused(why);
        }
        let mut events = events.into_vec();
        match self.add(alloc, system, events.swap_remove(index)) {
            Ok((ticket, event)) => BranchReply::Stepped(ticket, event),
            Err(_) => BranchReply::Refused(Refusal::Memory),
        }
    }

    /// Where the first of these events stands that acts in the branch and whose line is not among these.
    fn first_moving(
        &self,
        system: &Checked,
        events: &[Event],
        branch: u32,
        breaks: &[u64],
    ) -> Option<usize>
        ensures { MatchOption result
            (Every (λ e. moves (at_machine system.now self.now) branch breaks.now e ≡ false) events.now) (λ i.
            FirstAt (moves (at_machine system.now self.now) branch breaks.now) events.now i) }
    {
        for (i, event) in events.iter().enumerate() {
            if self.moves(system, event, branch, breaks) {
                return Some(i);
            }
        }
        None
    }

    /// Whether the event acts in the branch and its line is not among these.
    fn moves(&self, system: &Checked, event: &Event, branch: u32, breaks: &[u64]) -> bool
        ensures { result ≡ moves (at_machine system.now self.now) branch breaks.now event.now }
    {
        acts_in(system, event, branch) && self.is_free(system, event, breaks)
    }

    /// Whether the line of the event is not among these. It is looked for only where there are some, since each choice
    /// on the way to the place is looked up.
    fn is_free(&self, system: &Checked, event: &Event, breaks: &[u64]) -> bool
        ensures { result ≡ is_free (at_machine system.now self.now) breaks.now event.now }
    {
        if breaks.is_empty() {
            return true;
        }
        match line_after(system, &self.live, event.acting_place()) {
            Some(line) => !is_among(breaks, line),
            None => true,
        }
    }

    /// The answer where no event of the branch is taken: the line of the first, or that there is none.
    fn kept_back(&self, system: &Checked, events: &[Event], branch: u32) -> BranchReply
        ensures { MatchOption
            (line_of_first (at_machine system.now self.now)
            (in_branch (at_machine system.now self.now) branch events.now)) (result ≡ BranchReply.Idle) (λ line.
            result ≡ BranchReply.Stopped line) }
    {
        match self.first_line(system, events, branch) {
            Some(line) => BranchReply::Stopped(line),
            None => BranchReply::Idle,
        }
    }

    /// The line of the first of these events that acts in the branch.
    fn first_line(&self, system: &Checked, events: &[Event], branch: u32) -> Option<u64>
        ensures { result
            ≡ line_of_first (at_machine system.now self.now)
            (in_branch (at_machine system.now self.now) branch events.now) }
    {
        for event in events {
            if acts_in(system, event, branch) {
                return line_after(system, &self.live, event.acting_place());
            }
        }
        None
    }
}

/// Where the events of branch k act: at `/0/k`, where it is a child of a body that is a parallel; at `/0`, where the
/// body is none; at the place of a port; or at a place that is not known.
#[derive(Clone, Copy)]
pub(crate) enum Site {
    Child,
    Body,
    Port(u32),
    Unknown,
}

/// Where the events of the branch act.
fn site_of(system: &System, branch: u32) -> Site
    ensures { (a : Place) → is_branch branch (branch_at system.now a) ≡ true → IsAtSite branch result a }
{
    match parallel_of(&system.main) {
        Some(children) => site_among(children.len(), branch, Site::Child),
        None => site_among(1, branch, Site::Body),
    }
}

/// The children of a command that is a parallel.
fn parallel_of(command: &Command) -> Option<&Items<Command>>
    ensures { option_copied result ≡ parallel_of command.now }
{
    match command.action.get() {
        Action::Parallel(children) => Some(children),
        _ => None,
    }
}

/// The site of the first branches, so many, which are those of the body, else that of a port: these come behind, and
/// the first of them lies at `/1`.
fn site_among(count: usize, branch: u32, body: Site) -> Site
    ensures { result ≡ site_among count branch body }
{
    if (branch as usize) < count {
        return body;
    }
    match (branch - count as u32).checked_add(1) {
        Some(number) => Site::Port(number),
        None => Site::Unknown,
    }
}

/// Whether the event acts in the branch.
fn acts_in(system: &Checked, event: &Event, branch: u32) -> bool
    ensures { result ≡ is_branch branch (branch_at system.now (acting event.now)) }
{
    match system.branch(event.acting_place()) {
        Some(number) => number == branch,
        None => false,
    }
}
