// Why nothing goes on, in words.
use dap_moves::Machine;
use dap_threads::places_in;
use dap_views::{Program, Sight, Words, add_waits};
use std::alloc::Global;
use waiting::{Progress, Waiting, who_waits};

/// Why the branch has no step.
pub(crate) fn why_none(alloc: Global, machine: &Machine, program: &Program, branch: u32) -> Words {
    match &program.sight {
        Some(sight) => waits_words(alloc, machine, program, sight, branch),
        None => Words::of(alloc, "No step"),
    }
}

/// For whom the branch waits, at each of its places.
fn waits_words(
    alloc: Global,
    machine: &Machine,
    program: &Program,
    sight: &Sight,
    branch: u32,
) -> Words {
    let mut words = Words::new(alloc);
    for number in &places_in(alloc, machine, sight, branch).unwrap_or(Vec::new(alloc)) {
        add_wait(alloc, machine, program, sight, *number, &mut words);
    }
    if words.is_empty() {
        words.add("Done");
    }
    words
}

/// Adds for whom the action at this index waits.
fn add_wait(
    alloc: Global,
    machine: &Machine,
    program: &Program,
    sight: &Sight,
    number: usize,
    words: &mut Words,
) {
    if let Some(offered) = sight.actions.as_slice().get(number) {
        words.add(if words.is_empty() {
            "Waits for "
        } else {
            " and "
        });
        add_waits(alloc, machine, &program.lines, sight, offered, words);
    }
}

/// Tells that nothing can go on, and why: all is done, the stimulus is used up, or a deadlock.
pub(crate) fn nothing_words(alloc: Global, machine: &Machine, only: Option<u32>) -> Words {
    let mut words = match only {
        Some(_) => Words::of(alloc, "This thread cannot go on"),
        None => end_words(alloc, machine),
    };
    add_live_count(machine, &mut words);
    words
}

/// Adds how many steps are live.
fn add_live_count(machine: &Machine, words: &mut Words) {
    let live = machine.live_events().len();
    words.add(", ");
    words.number(live as u64);
    words.add(if live == 1 {
        " step is live"
    } else {
        " steps are live"
    });
}

/// How a run stands of which nothing can go on.
fn end_words(alloc: Global, machine: &Machine) -> Words {
    match who_waits(alloc, machine) {
        Ok(waiting) => Words::of(alloc, end_text(machine, &waiting)),
        Err(_) => Words::of(alloc, "Nothing can go on"),
    }
}

/// The same, where it is known who waits.
fn end_text(machine: &Machine, waiting: &Waiting) -> &'static str {
    match waiting.progress {
        Progress::GoesOn => "Nothing can go on",
        Progress::Done => "All is done",
        Progress::Stuck if !waiting.ring.is_empty() => {
            "Nothing can go on: a deadlock, where each waits for the next"
        }
        Progress::Stuck if waiting.lacks_input(machine) => {
            "Nothing can go on: the stimulus is used up"
        }
        Progress::Stuck => "Nothing can go on: who waits, waits for what never comes",
    }
}
