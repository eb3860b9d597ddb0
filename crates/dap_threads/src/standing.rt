// The list of threads.
ghost use Rattle.std.specs.Prelude.{◌≡◌, ◌+◌, codes, false, map};
ghost use Rattle.serde_json.specs.Data.{number, unsigned};
ghost use Rattle.serde_json.specs.View.{view};
ghost use Rattle.system_places.specs.SystemBranches.{branch_count};
ghost use Rattle.dap_messages.specs.Written.{Has};
ghost use Rattle.dap_threads.specs.Given.{AreNumbered, numbers_to};
ghost use Rattle.dap_threads.specs.Threads.{ListsThreads};

use crate::values::{lacking, listing};
use address::{Address, compare};
use dap_messages::{Answer, Listed, Members};
use dap_views::{Program, Rank, Sight, Words, line_at};
use machine::Machine;
use runs::Event;
use std::alloc::{AllocError, Global};
use std::cmp::Ordering;
use system::{Branch, System};
use system_places::{branch_at, branch_count};

/// How a branch stands: how far the place that goes on first is from that, and which it is.
#[derive(Clone, Copy)]
struct Standing<'a> {
    rank: Rank,
    place: &'a Address,
}

/// Answers `threads`: all branches, with how each stands.
pub fn threads(alloc: Global, machine: &Machine, program: &Program, answer: &mut Answer)
    ensures { answer.new.lacks ≡ false → ListsThreads machine.now answer.new }
{
    match &program.sight {
        Some(sight) => {
            let list = thread_list(alloc, machine, program, sight);
            answer.body(listing(alloc, "threads", list));
        }
        None => answer.lacks = true,
    }
}

/// The list of threads.
fn thread_list(alloc: Global, machine: &Machine, program: &Program, sight: &Sight) -> Listed
    ensures { result.lacks ≡ false
        → AreNumbered (map view result.made.items) (numbers_to (branch_count machine.now.checked)) }
{
    match standings(alloc, machine.checked().system(), sight) {
        Ok(standings) => listed(alloc, machine, program, standings.as_slice()),
        Err(_) => lacking(alloc),
    }
}

/// The threads that stand so.
fn listed(
    alloc: Global,
    machine: &Machine,
    program: &Program,
    standings: &[Option<Standing<'_>>],
) -> Listed
    ensures { result.lacks ≡ false
        → AreNumbered (map view result.made.items) (numbers_to (branch_count machine.now.checked)) }
{
    let mut list = Listed::new(alloc);
    for branch in 0..branch_count(machine.checked().system()) {
        let standing = standing_at(standings, branch);
        list.push(thread(alloc, machine, program, branch, standing));
    }
    list
}

/// How this branch stands.
fn standing_at<'a>(standings: &[Option<Standing<'a>>], branch: u32) -> Option<Standing<'a>> {
    match standings.get(branch as usize) {
        Some(found) => *found,
        None => None,
    }
}

/// How each branch stands: one look at each step that is ready and at each action.
fn standings<'a>(
    alloc: Global,
    system: &System,
    sight: &'a Sight,
) -> Result<Vec<Option<Standing<'a>>>, AllocError> {
    let mut standings = Vec::new(alloc);
    for _ in 0..branch_count(system) {
        standings.push(None)?;
    }
    note_ready(system, sight.ready.as_slice(), standings.as_mut_slice());
    note_actions(system, sight, standings.as_mut_slice());
    Ok(standings)
}

/// Notes where the steps that are ready are taken.
fn note_ready<'a>(system: &System, events: &'a [Event], standings: &mut [Option<Standing<'a>>]) {
    for event in events {
        note(system, Rank::Acts, event.acting_place(), standings);
        note(system, Rank::Joins, &event.first, standings);
        if let Some(second) = &event.second {
            note(system, Rank::Joins, second, standings);
        }
    }
}

/// Notes where actions are offered.
fn note_actions<'a>(system: &System, sight: &'a Sight, standings: &mut [Option<Standing<'a>>]) {
    for offered in sight.actions.as_slice() {
        note(system, Rank::Waits, &offered.place, standings);
    }
}

/// Notes a place that is so far from going on for its branch, where no other of that goes on before it.
fn note<'a>(
    system: &System,
    rank: Rank,
    place: &'a Address,
    standings: &mut [Option<Standing<'a>>],
) {
    let Some(branch) = branch_at(system, place) else {
        return;
    };
    let standing = Standing { rank, place };
    if let Some(noted) = standings.get_mut(branch as usize) {
        if is_before(standing, *noted) {
            *noted = Some(standing);
        }
    }
}

/// Whether a place goes on before the one that was noted.
fn is_before(standing: Standing<'_>, noted: Option<Standing<'_>>) -> bool {
    match noted {
        Some(other) => {
            let (rank, least) = (number_of(standing.rank), number_of(other.rank));
            rank < least || rank == least && is_less(standing.place, other.place)
        }
        None => true,
    }
}

/// Whether a place comes before another one.
fn is_less(place: &Address, other: &Address) -> bool {
    compare(place, other) == Ordering::Less
}

/// The lesser, the nearer it is to going on.
fn number_of(rank: Rank) -> u8 {
    match rank {
        Rank::Acts => 0,
        Rank::Joins => 1,
        Rank::Waits => 2,
    }
}

/// A thread, with its name.
fn thread(
    alloc: Global,
    machine: &Machine,
    program: &Program,
    branch: u32,
    standing: Option<Standing<'_>>,
) -> Members
    ensures { Has result (codes "id") (number (unsigned (branch + 1))) }
{
    let mut words = thread_name(alloc, machine, program, branch, standing);
    words.add(state_text(standing));
    let mut thread = Members::new(alloc);
    thread.number("id", u64::from(branch) + 1);
    thread.text("name", words.as_str());
    thread
}

/// How a branch stands, behind its name.
fn state_text(standing: Option<Standing<'_>>) -> &'static str {
    match standing {
        Some(
            Standing {
                rank: Rank::Waits,
                ..
            },
        ) => " (waits)",
        Some(_) => "",
        None => " (done)",
    }
}

/// The name of a thread: the procedure that begins there, with the number of its call where there are several of it,
/// and the line on which it stands now, from 1; or the port.
fn thread_name(
    alloc: Global,
    machine: &Machine,
    program: &Program,
    branch: u32,
    standing: Option<Standing<'_>>,
) -> Words {
    let system = machine.checked().system();
    let mut words = Words::new(alloc);
    if branch as usize >= body_branches(system) {
        add_port(alloc, system, branch, &mut words);
    } else {
        let instance = program.index.instance_of_branch(branch);
        program.index.add_title(instance, &mut words);
        add_line(machine, standing, &mut words);
    }
    words
}

/// Adds the line on which a branch stands, where it is not done: that of its first frame.
fn add_line(machine: &Machine, standing: Option<Standing<'_>>, words: &mut Words) {
    let Some(standing) = standing else {
        return;
    };
    if let Some(line) = line_at(machine, standing.place) {
        words.add(", line ");
        words.number(line);
    }
}

/// Adds the port at which a branch of the environment stands.
fn add_port(alloc: Global, system: &System, branch: u32, words: &mut Words) {
    let number = (branch as usize).saturating_sub(body_branches(system));
    match system.environment.as_slice().get(number) {
        Some(Branch::Feed(channel, _, _)) => port(alloc, system, "input ", *channel, words),
        Some(Branch::Drain(channel)) => port(alloc, system, "output ", *channel, words),
        Some(Branch::Syncs(channel, _)) => port(alloc, system, "sync ", *channel, words),
        None => words.add("?"),
    }
}

/// How many branches the body is.
fn body_branches(system: &System) -> usize {
    (branch_count(system) as usize).saturating_sub(system.environment.len())
}

fn port(alloc: Global, system: &System, word: &str, channel: u32, words: &mut Words) {
    words.add(word);
    words.channel(alloc, system, channel);
}
