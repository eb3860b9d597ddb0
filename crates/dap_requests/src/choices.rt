// What a step of a thread can be.
ghost use Rattle.std.specs.Prelude.{◌≡◌, ◌<◌, ◌+◌, ℕ, Option, codes, false, length, map};
ghost use Rattle.serde_json.specs.Data.{array, unsigned};
ghost use Rattle.serde_json.specs.Data as json;
ghost use Rattle.serde_json.specs.View.{items_view, view};
ghost use Rattle.dap_messages.specs.Arguments.{number_named};
ghost use Rattle.dap_messages.specs.Written.{Has};
ghost use Rattle.dap_moves.specs.Moves as moves;
ghost use Rattle.dap_threads.specs.Frames.{FindsNamed};
ghost use Rattle.dap_threads.specs.Given.{AreNumbered, numbers_to};
ghost use Rattle.dap_requests.specs.Targets.{GivesSteps, GivesTargets, ListsTargets};

use dap_messages::{Answer, Listed, Members, Request};
use dap_moves::{Machine, target_at};
use dap_threads::frame_in;
use dap_views::{Program, Sight, event_words};
use runs::Event;
use std::alloc::Global;

/// Answers `stepInTargets`: all steps that a step of the frame's thread can be. It is refused where no frame is named,
/// or none that there is.
pub fn targets(
    alloc: Global,
    machine: &Machine,
    program: &Program,
    request: &Request,
    answer: &mut Answer,
)
    ensures { answer.new.lacks ≡ false
        → ListsTargets machine.now program.now.index program.now.sight (view request.now.arguments) answer.new }
{
    match request.number("frameId") {
        Some(_) => targets_in(alloc, machine, program, request, answer),
        None => answer.refuse(104, "`frameId` is missing or no number"),
    }
}

/// The same of the frame that is named.
fn targets_in(
    alloc: Global,
    machine: &Machine,
    program: &Program,
    request: &Request,
    answer: &mut Answer,
)
    ensures { answer.new.lacks ≡ false → (found : Option (ℕ × ℕ))
        × FindsNamed machine.now program.now.index program.now.sight
        (number_named (codes "frameId") (view request.now.arguments)) found
        × GivesTargets machine.now program.now.sight found answer.new.outcome }
{
    match frame_in(alloc, machine, program, request, answer) {
        Some(found) => match &program.sight {
            Some(sight) => give_steps(alloc, machine, sight, found.0, answer),
            None => answer.lacks = true,
        },
        None => {}
    }
}

/// Gives the steps that a step of the branch can be.
fn give_steps(alloc: Global, machine: &Machine, sight: &Sight, branch: u32, answer: &mut Answer)
    ensures { answer.new.lacks ≡ false → GivesSteps machine.now sight.now branch answer.new.outcome }
{
    let list = target_list(alloc, machine, sight.ready.as_slice(), branch);
    answer.body(listing(alloc, list));
}

/// The list of steps.
fn listing(alloc: Global, list: Listed) -> Members
    ensures lists { Has result (codes "targets") (array (items_view list.made.items)) }
    ensures whole { result.lacks ≡ false → list.lacks ≡ false }
{
    let mut body = Members::new(alloc);
    body.list("targets", list);
    body
}

/// The steps, numbered from 1.
fn target_list(alloc: Global, machine: &Machine, events: &[Event], branch: u32) -> Listed
    ensures { result.lacks ≡ false → AreNumbered (map view result.made.items)
        (numbers_to (length (moves.targets machine.now.checked branch events.now))) }
{
    let system = machine.checked().system();
    let mut list = Listed::new(alloc);
    for number in 0..events.len() as u64 {
        match target_at(system, events, branch, number) {
            Some(event) => list.push(target(alloc, machine, event, number)),
            None => break,
        }
    }
    list
}

/// A step that can be taken.
fn target(alloc: Global, machine: &Machine, event: &Event, number: u64) -> Members
    requires { number < 18446744073709551615 }
    ensures { Has result (codes "id") (json.number (unsigned (number + 1))) }
{
    let mut target = Members::new(alloc);
    target.number("id", number + 1);
    target.text("label", event_words(alloc, machine, event).as_str());
    target
}
