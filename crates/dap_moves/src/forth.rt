// One step forth: a step that is ready, and what a step of a branch can be.
ghost use Rattle.std.specs.Prelude.{◌≡◌, filter, slice_get};
ghost use Rattle.std.specs.Option.{option_copied};
ghost use Rattle.dap_moves.specs.Led.{Led};
ghost use Rattle.dap_moves.specs.Moves.{StepsAt, targets, joins};

use crate::QUIET;
use dap_views::{acts_in, takes_part};
use locked_execution::{Command, Desk, Reply};
use runs::{Event, Refusal};
use std::alloc::Global;
use system::System;

/// Takes the event, which is ready, by its choice. Without memory for it nothing changes.
pub fn step_at(alloc: Global, desk: &mut Desk, event: &Event) -> Reply
    ensures steps { StepsAt desk.old event.now result desk.new }
    ensures led { Led desk.old desk.new }
    ensures system { desk.new.machine.checked ≡ desk.old.machine.checked }
{
    match event.choice(alloc) {
        Ok(choice) => desk.perform(QUIET, &Command::Step(choice)),
        Err(_) => Reply::Refused(Refusal::Memory),
    }
}

/// The step of this number, counted from 0, among those that a step of the branch can be: of these events the ones that
/// act in it, and behind them the others in which it takes part.
pub fn target_at<'a>(
    system: &System,
    events: &'a [Event],
    branch: u32,
    number: u64,
) -> Option<&'a Event>
    ensures { option_copied result ≡ slice_get (targets system.now branch events.now) number }
{
    let mut left = number;
    for event in events {
        if acts_in(system, branch, event) {
            if left == 0 {
                return Some(event);
            }
            left -= 1;
        }
    }
    joined_at(system, events, branch, left)
}

/// The one of this number among the events in which the branch takes part and that act in another.
fn joined_at<'a>(
    system: &System,
    events: &'a [Event],
    branch: u32,
    number: u64,
) -> Option<&'a Event>
    ensures { option_copied result ≡ slice_get (filter (joins system.now branch) events.now) number }
{
    let mut left = number;
    for event in events {
        if joins(system, branch, event) {
            if left == 0 {
                return Some(event);
            }
            left -= 1;
        }
    }
    None
}

/// Whether the branch takes part in the event, and it acts in another.
fn joins(system: &System, branch: u32, event: &Event) -> bool
    ensures { result ≡ joins system.now branch event.now }
{
    takes_part(system, branch, event) && !acts_in(system, branch, event)
}
