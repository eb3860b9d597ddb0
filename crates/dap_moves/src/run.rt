// A run: the branches step in turn, one step each, until something stops them.
ghost use Rattle.std.specs.Prelude.{◌≡◌, ◌≤◌, ◌<◌, ℕ, List, [], MatchOption, None, Some, false, unwrap_or};
ghost use Rattle.system.specs.Expression.{is_in};
ghost use Rattle.system_places.specs.SystemBranches as places;
ghost use Rattle.runs.specs.Choices.{choice_of};
ghost use Rattle.runs.specs.Object.{Reaches};
ghost use Rattle.runs.specs.Ready.{ReadyList};
ghost use Rattle.runs.specs.Steps.{State};
ghost use Rattle.runs.specs.declared.event.Choice as choices;
ghost use Rattle.locked_execution.specs.AtDesk.{execution};
ghost use Rattle.locked_execution.specs.declared.command.Command as asked;
ghost use Rattle.dap_moves.specs.Led.{Led};
ghost use Rattle.dap_moves.specs.Passing.{IsAtLine, IsIdle, IsNext, MayAsk, MayGo, PassesBy, StopsAt, stands_on, turn_behind, turns_to};
ghost use Rattle.dap_moves.specs.Running.{RunsFrom};
ghost use Rattle.dap_moves.specs.internal.Turning.{ActsFirst, EndsAfter, IsNearest, Nearer, NoneActs, Stands, StepsFirst, StepsIfNext, TakesOne, branch_for, turn_of};

use crate::QUIET;
use crate::forth::step_at;
use crate::known::ready_events;
use crate::seen::{is_seen, is_watched, keep};
use address::Address;
use dap_views::{Watched, acts_in};
use dependence::line_after;
use locked_execution::{Command, Desk, Machine, Reply};
use runs::{Choice, Event, Refusal};
use std::alloc::Global;
use syntax::Items;
use system::System;
use system_places::{branch_at, branch_count};

/// How a run goes on, and what stops it.
#[derive(Clone, Copy)]
pub struct Plan<'a> {
    /// the branch whose turn is first
    pub first: u32,
    /// the one that steps alone
    pub only: Option<u32>,
    /// lines with a breakpoint
    pub lines: &'a [u64],
    pub watched: &'a [Watched],
    /// the most steps
    pub most: u64,
}

/// Why a run ended.
#[derive(Clone, Copy, PartialEq, Eq)]
pub enum Ended {
    /// no step is ready
    Nothing,
    /// the next step has an action in this branch on this line, which has a breakpoint
    AtLine(u32, u64),
    /// the step of this ticket in this branch, which is watched, was taken
    Watched(u32, u64),
    /// as many steps were taken as there may be; the next is one of this branch
    Most(u32),
    /// the next step, of this branch, was refused
    Refused(u32, Refusal),
}

/// What came of a turn.
#[derive(Clone, Copy, PartialEq, Eq)]
enum Turn {
    /// a step of this branch was taken, of this ticket; and whether it is watched
    Took(u32, u64, bool),
    Ended(Ended),
}

/// Goes on as planned. Each step is one command, and none passes a line with a breakpoint, but for the first, before
/// which the run may have stood already: `seen` has the choices of the steps before which it has. They stay there until
/// a step is taken, and the step before which it stops comes behind them.
pub fn go_on(alloc: Global, desk: &mut Desk, plan: &Plan<'_>, seen: &mut Vec<Choice>) -> Ended
    ensures led { Led desk.old desk.new }
    ensures system { desk.new.machine.checked ≡ desk.old.machine.checked }
    ensures runs { RunsFrom plan.now seen.old.items desk.old desk.new result seen.new.items }
{
    let count = branch_count(desk.machine().checked().system());
    let mut turn = plan.first;
    for taken in 0..plan.most {
        match take_turn(alloc, desk, plan, seen, turn, count) {
            Turn::Took(branch, ticket, watched) => {
                seen.clear();
                if watched {
                    return Ended::Watched(branch, ticket);
                }
                turn = turn_behind(count, branch);
            }
            Turn::Ended(ended) => return ended,
        }
    }
    after_most(desk, plan, turn, count)
}

/// The branch whose turn it is behind a step of this one, of so many.
fn turn_behind(count: u32, branch: u32) -> u32
    ensures { result ≡ turn_behind count branch }
{
    if branch < count && count - branch > 1 {
        branch + 1
    } else {
        0
    }
}

/// Why a run ends that took as many steps as there may be: there is no next step, or that is why.
fn after_most(desk: &mut Desk, plan: &Plan<'_>, turn: u32, count: u32) -> Ended
    requires count { count ≡ places.branch_count desk.old.machine.checked }
    ensures same { desk.new ≡ desk.old }
    ensures ends { EndsAfter desk.old plan.now.only turn result }
{
    match ready_events(desk) {
        Ok(events) => most_among(desk, plan, &events, turn, count),
        Err(why) => Ended::Refused(meant(plan, turn), why),
    }
}

/// The same where these steps are ready.
fn most_among(desk: &Desk, plan: &Plan<'_>, events: &Items<Event>, turn: u32, count: u32) -> Ended
    requires count { count ≡ places.branch_count desk.now.machine.checked }
    requires ready { (T : State) × Reaches (execution desk.now) T × ReadyList T events.now }
    ensures { EndsAfter desk.now plan.now.only turn result }
{
    let system = desk.machine().checked().system();
    match next_in_turn(system, events.as_slice(), plan.only, turn, count) {
        Some((branch, _)) => Ended::Most(branch),
        None => Ended::Nothing,
    }
}

/// The branch for which there is no memory to look: the one that steps alone, or the one whose turn it is.
fn meant(plan: &Plan<'_>, turn: u32) -> u32
    ensures { result ≡ unwrap_or plan.now.only turn }
{
    plan.only.unwrap_or(turn)
}

/// One step, of this branch or of the next that has one. Where no line has a breakpoint nobody looks at the step before
/// it is taken.
fn take_turn(
    alloc: Global,
    desk: &mut Desk,
    plan: &Plan<'_>,
    seen: &mut Vec<Choice>,
    turn: u32,
    count: u32,
) -> Turn
    requires { count ≡ places.branch_count desk.old.machine.checked }
    ensures led { Led desk.old desk.new }
    ensures system { desk.new.machine.checked ≡ desk.old.machine.checked }
    ensures takes { TakesOne plan.now turn seen.old.items desk.old desk.new result seen.new.items }
{
    if plan.lines.is_empty() {
        step_freely(desk, plan, turn, count)
    } else {
        look_and_step(alloc, desk, plan, seen, turn, count)
    }
}

/// One step, of this branch or of the next that has one, whatever it is.
fn step_freely(desk: &mut Desk, plan: &Plan<'_>, turn: u32, count: u32) -> Turn
    requires free { plan.now.lines.now ≡ [] }
    requires count { count ≡ places.branch_count desk.old.machine.checked }
    ensures led { Led desk.old desk.new }
    ensures system { desk.new.machine.checked ≡ desk.old.machine.checked }
    ensures takes { (seen : List choices.Choice) → TakesOne plan.now turn seen desk.old desk.new result seen }
{
    match plan.only {
        Some(branch) => step_alone(desk, plan, branch),
        None => step_next(desk, plan, turn, count),
    }
}

/// One step of the branch, which alone may step.
fn step_alone(desk: &mut Desk, plan: &Plan<'_>, branch: u32) -> Turn
    requires free { plan.now.lines.now ≡ [] }
    requires alone { plan.now.only ≡ Some branch }
    ensures led { Led desk.old desk.new }
    ensures system { desk.new.machine.checked ≡ desk.old.machine.checked }
    ensures takes { (turn : ℕ) (seen : List choices.Choice) →
        TakesOne plan.now turn seen desk.old desk.new result seen }
{
    match step_branch(desk, plan, branch) {
        Some(outcome) => outcome,
        None => Turn::Ended(Ended::Nothing),
    }
}

/// One step of the first branch in turn that has one.
fn step_next(desk: &mut Desk, plan: &Plan<'_>, turn: u32, count: u32) -> Turn
    requires free { plan.now.lines.now ≡ [] }
    requires all { plan.now.only ≡ None }
    requires count { count ≡ places.branch_count desk.old.machine.checked }
    ensures led { Led desk.old desk.new }
    ensures system { desk.new.machine.checked ≡ desk.old.machine.checked }
    ensures takes { (seen : List choices.Choice) → TakesOne plan.now turn seen desk.old desk.new result seen }
{
    match step_between(desk, plan, turn, count) {
        Some(outcome) => outcome,
        None => step_before(desk, plan, turn, count),
    }
}

/// One step of the first branch before the one whose turn it is, where no other has one.
fn step_before(desk: &mut Desk, plan: &Plan<'_>, turn: u32, count: u32) -> Turn
    requires free { plan.now.lines.now ≡ [] }
    requires all { plan.now.only ≡ None }
    requires count { count ≡ places.branch_count desk.old.machine.checked }
    requires idle { (k : ℕ) → turn ≤ k → k < count → IsIdle desk.old k }
    ensures led { Led desk.old desk.new }
    ensures system { desk.new.machine.checked ≡ desk.old.machine.checked }
    ensures takes { (seen : List choices.Choice) → TakesOne plan.now turn seen desk.old desk.new result seen }
{
    match step_between(desk, plan, 0, turn) {
        Some(outcome) => outcome,
        None => Turn::Ended(Ended::Nothing),
    }
}

/// One step of the first branch that has one, of those from `from` on and before `below`; none where no such has one.
fn step_between(desk: &mut Desk, plan: &Plan<'_>, from: u32, below: u32) -> Option<Turn>
    requires free { plan.now.lines.now ≡ [] }
    requires all { plan.now.only ≡ None }
    ensures led { Led desk.old desk.new }
    ensures system { desk.new.machine.checked ≡ desk.old.machine.checked }
    ensures takes { MatchOption result
        ((desk.new ≡ desk.old) × ((k : ℕ) → from ≤ k → k < below → IsIdle desk.old k))
        (λ turn. StepsFirst plan.now desk.old desk.new from below turn) }
{
    for branch in from..below {
        if let Some(outcome) = step_branch(desk, plan, branch) {
            return Some(outcome);
        }
    }
    None
}

/// The first step of the branch; none where it has none.
#[tactic(auto, using(crate::proofs::Running::branch_took, crate::proofs::Running::branch_idle))]
fn step_branch(desk: &mut Desk, plan: &Plan<'_>, branch: u32) -> Option<Turn>
    requires free { plan.now.lines.now ≡ [] }
    requires may { MayGo plan.now.only branch }
    ensures led { Led desk.old desk.new }
    ensures system { desk.new.machine.checked ≡ desk.old.machine.checked }
    ensures takes { MatchOption result ((desk.new ≡ desk.old) × IsIdle desk.old branch)
        (λ turn. StepsIfNext plan.now desk.old desk.new branch turn) }
{
    match desk.perform(QUIET, &Command::Branch(branch)) {
        Reply::Idle => None,
        reply => Some(told(plan, branch, reply)),
    }
}

/// What a step of the branch comes to that was answered so.
fn told(plan: &Plan<'_>, branch: u32, reply: Reply) -> Turn
    ensures { result ≡ turn_of plan.now.watched.now branch reply }
{
    match reply {
        Reply::Stepped(ticket, event) => {
            Turn::Took(branch, ticket, is_watched(plan.watched, &event))
        }
        Reply::Refused(why) => Turn::Ended(Ended::Refused(branch, why)),
        Reply::Stopped(line) => Turn::Ended(Ended::AtLine(branch, line)),
        _ => Turn::Ended(Ended::Nothing),
    }
}

/// The next step in turn, unless an action of it is on a line with a breakpoint.
fn look_and_step(
    alloc: Global,
    desk: &mut Desk,
    plan: &Plan<'_>,
    seen: &mut Vec<Choice>,
    turn: u32,
    count: u32,
) -> Turn
    requires { count ≡ places.branch_count desk.old.machine.checked }
    ensures led { Led desk.old desk.new }
    ensures system { desk.new.machine.checked ≡ desk.old.machine.checked }
    ensures takes { TakesOne plan.now turn seen.old.items desk.old desk.new result seen.new.items }
{
    match ready_events(desk) {
        Ok(events) => step_among(alloc, desk, plan, seen, turn, count, &events),
        Err(why) => Turn::Ended(Ended::Refused(meant(plan, turn), why)),
    }
}

/// The next of these steps in turn, which are ready, unless an action of it is on a line with a breakpoint.
fn step_among(
    alloc: Global,
    desk: &mut Desk,
    plan: &Plan<'_>,
    seen: &mut Vec<Choice>,
    turn: u32,
    count: u32,
    events: &Items<Event>,
) -> Turn
    requires count { count ≡ places.branch_count desk.old.machine.checked }
    requires ready { (T : State) × Reaches (execution desk.old) T × ReadyList T events.now }
    ensures led { Led desk.old desk.new }
    ensures system { desk.new.machine.checked ≡ desk.old.machine.checked }
    ensures takes { TakesOne plan.now turn seen.old.items desk.old desk.new result seen.new.items }
{
    let system = desk.machine().checked().system();
    match next_in_turn(system, events.as_slice(), plan.only, turn, count) {
        Some((branch, event)) => step_or_stop(alloc, desk, plan, seen, branch, event),
        None => Turn::Ended(Ended::Nothing),
    }
}

/// The step of the branch, unless an action of it is on a line with a breakpoint.
fn step_or_stop(
    alloc: Global,
    desk: &mut Desk,
    plan: &Plan<'_>,
    seen: &mut Vec<Choice>,
    branch: u32,
    event: &Event,
) -> Turn
    ensures led { Led desk.old desk.new }
    ensures system { desk.new.machine.checked ≡ desk.old.machine.checked }
    ensures takes { (turn : ℕ) → IsNext desk.old plan.now.only turn branch event.now →
        TakesOne plan.now turn seen.old.items desk.old desk.new result seen.new.items }
{
    if is_seen(seen.as_slice(), event) {
        return step_past(alloc, desk, plan, branch, event);
    }
    match line_among(desk.machine(), plan.lines, event) {
        Some((at, line)) => Turn::Ended(stand(alloc, seen, branch, event, at, line)),
        None => step_past(alloc, desk, plan, branch, event),
    }
}

/// Stands before the step of the branch, an action of which in the branch `at` is on this line. Without memory to keep
/// that in mind it is refused.
fn stand(
    alloc: Global,
    seen: &mut Vec<Choice>,
    branch: u32,
    event: &Event,
    at: u32,
    line: u64,
) -> Ended
    ensures { Stands branch at line (choice_of event.now) seen.old.items result seen.new.items }
{
    if keep(alloc, seen, event) {
        Ended::AtLine(at, line)
    } else {
        Ended::Refused(branch, Refusal::Memory)
    }
}

/// The step of the branch, which may be taken: no action of it is on a line with a breakpoint, or the run has stood
/// before it already.
fn step_past(alloc: Global, desk: &mut Desk, plan: &Plan<'_>, branch: u32, event: &Event) -> Turn
    ensures led { Led desk.old desk.new }
    ensures system { desk.new.machine.checked ≡ desk.old.machine.checked }
    ensures takes { (turn : ℕ) (seen : List choices.Choice) →
        MayAsk desk.old plan.now.only turn branch plan.now.lines.now seen
        (asked.Command.Step (choice_of event.now)) → TakesOne plan.now turn seen desk.old desk.new result seen }
{
    let reply = step_at(alloc, desk, event);
    told(plan, branch, reply)
}

/// The next of these steps in turn, and its branch: the first that acts in the first branch in turn in which one does,
/// of those that may step.
fn next_in_turn<'a>(
    system: &System,
    events: &'a [Event],
    only: Option<u32>,
    turn: u32,
    count: u32,
) -> Option<(u32, &'a Event)>
    ensures { MatchOption result (NoneActs system.now only events.now) (λ found.
        IsNearest system.now only turn count events.now found.0 found.1.now) }
{
    match first_that_goes(system, events, only) {
        Some(first) => Some(nearest(system, events, only, turn, count, first)),
        None => None,
    }
}

/// The first of the events that acts in a branch that may step, and that branch.
fn first_that_goes<'a>(
    system: &System,
    events: &'a [Event],
    only: Option<u32>,
) -> Option<(u32, &'a Event)>
    ensures { MatchOption result (NoneActs system.now only events.now) (λ found.
        ActsFirst system.now only events.now found.0 found.1.now) }
{
    for event in events {
        if let Some(branch) = branch_of(system, only, event) {
            return Some((branch, event));
        }
    }
    None
}

/// The next of these steps in turn, where this one of them is the first that acts in a branch that may step.
fn nearest<'a>(
    system: &System,
    events: &'a [Event],
    only: Option<u32>,
    turn: u32,
    count: u32,
    first: (u32, &'a Event),
) -> (u32, &'a Event)
    requires { ActsFirst system.now only events.now first.0 first.1.now }
    ensures { IsNearest system.now only turn count events.now result.0 result.1.now }
{
    let mut found = first;
    for event in events {
        found = nearer(system, only, turn, count, found, event);
    }
    found
}

/// The step that is next of one that was found and of another, which may be of no branch that may step.
fn nearer<'a>(
    system: &System,
    only: Option<u32>,
    turn: u32,
    count: u32,
    found: (u32, &'a Event),
    event: &'a Event,
) -> (u32, &'a Event)
    ensures { Nearer system.now only turn count event.now found.entry.0 found.entry.1.now result.0 result.1.now }
{
    match branch_of(system, only, event) {
        Some(branch) => {
            if distance(turn, branch, count) < distance(turn, found.0, count) {
                (branch, event)
            } else {
                found
            }
        }
        None => found,
    }
}

/// The branch in which the event acts, where that may step.
fn branch_of(system: &System, only: Option<u32>, event: &Event) -> Option<u32>
    ensures { result ≡ branch_for system.now only event.now }
{
    match only {
        Some(branch) if !acts_in(system, branch, event) => None,
        _ => branch_at(system, event.acting_place()),
    }
}

/// How many turns the branch is behind the one whose turn it is, of so many.
fn distance(turn: u32, branch: u32, count: u32) -> u64
    ensures { result ≡ turns_to count turn branch }
{
    let (turn, branch, count) = (u64::from(turn), u64::from(branch), u64::from(count));
    if branch < turn {
        (branch + count).saturating_sub(turn)
    } else {
        branch - turn
    }
}

/// The branch and the line of an action of the event that is on one of these lines, the one that acts before the other.
pub(crate) fn line_among(machine: &Machine, lines: &[u64], event: &Event) -> Option<(u32, u64)>
    ensures { MatchOption result (PassesBy machine.now lines.now event.now) (λ hit.
        StopsAt machine.now lines.now event.now hit.0 hit.1) }
{
    if lines.is_empty() {
        return None;
    }
    match line_at(machine, lines, event.acting_place()) {
        Some(found) => Some(found),
        None => line_of_actions(machine, lines, event),
    }
}

/// The branch and the line of the first action of the event, else of the second, where that is one of these.
fn line_of_actions(machine: &Machine, lines: &[u64], event: &Event) -> Option<(u32, u64)>
    ensures { MatchOption result (PassesBy machine.now lines.now event.now) (λ hit.
        StopsAt machine.now lines.now event.now hit.0 hit.1) }
{
    if let Some(found) = line_at(machine, lines, &event.first) {
        return Some(found);
    }
    match &event.second {
        Some(place) => line_at(machine, lines, place),
        None => None,
    }
}

/// The branch and the line of the place, where that is one of these.
#[tactic(auto, using(crate::proofs::Passing::on_lines))]
fn line_at(machine: &Machine, lines: &[u64], place: &Address) -> Option<(u32, u64)>
    ensures { MatchOption result (stands_on machine.now lines.now place.now ≡ false) (λ hit.
        IsAtLine machine.now lines.now place.now hit.0 hit.1) }
{
    let line = line_after(machine.checked(), machine.live_events(), place)?;
    if !is_among(lines, line) {
        return None;
    }
    let branch = branch_at(machine.checked().system(), place).unwrap_or(0);
    Some((branch, line))
}

/// Whether the line is one of these.
fn is_among(lines: &[u64], line: u64) -> bool
    ensures { result ≡ is_in line lines.now }
{
    for held in lines {
        if line == *held {
            return true;
        }
    }
    false
}
