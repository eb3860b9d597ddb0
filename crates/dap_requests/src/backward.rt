// Requests to run back. Each that succeeds ends with one `stopped`.
ghost use Rattle.std.specs.Prelude.{◌≡◌, ℕ, MatchOption};
ghost use Rattle.runs.specs.Events.{acting};
ghost use Rattle.runs.specs.Live.{IsLive, LiveAt, NoneAt};
ghost use Rattle.runs.specs.Refusals.{refusal_number};
ghost use Rattle.runs.specs.declared.command.Refusal.TheVariants.{NeededBy};
ghost use Rattle.runs.specs.declared.event.Event.{Event as Step};
ghost use Rattle.system_places.specs.SystemBranches.{branch_at};
ghost use Rattle.locked_execution.specs.declared.command.Reply.{Reply as Replied};
ghost use Rattle.dap_moves.specs.Led.{Led};
ghost use Rattle.dap_moves.specs.TakingBack.{GoesBack};
ghost use Rattle.dap_moves.specs.declared.back.Back.{Back as Went};
ghost use Rattle.dap_messages.specs.Notes.{IsDone, IsRefusal};
ghost use Rattle.dap_messages.specs.declared.told.Stop.{Stop as Stopped};
ghost use Rattle.dap_requests.specs.Back.{Backs, Reverses, ReversesFor, SeenBehind, StandsBack, stands_behind, stop_back, stop_behind};
ghost use Rattle.dap_requests.specs.Denied.{NamesNoThread};
ghost use Rattle.dap_requests.specs.Forth.{alone, stop_of};
ghost use Rattle.dap_requests.specs.Said.{Runs, TellsStop};

use crate::said::{stop, stop_at_line, tell_refused, tell_step, words_of};
use dap_messages::{Answer, Request, Stop};
use dap_moves::{
    Back, Desk, Machine, Marks, Reply, Rewound, rewind, rewind_branch, step_back, step_back_laws,
};
use dap_threads::thread_in;
use dap_views::{Memo, Program, Words, event_words};
use runs::{Event, Refusal};
use std::alloc::Global;
use system_places::branch_at;

/// Takes the newest step of the branch back.
pub fn back_in(
    alloc: Global,
    desk: &mut Desk,
    program: &Program,
    memo: &mut Memo,
    branch: u32,
    answer: &mut Answer,
)
    ensures led { Led desk.old desk.new }
    ensures system { desk.new.machine.checked ≡ desk.old.machine.checked }
    ensures goes { (stop : Stopped) × (there : ℕ) × TellsStop answer.old stop there answer.new
        × Backs program.now.excepts desk.old branch memo.old.seen.items stop there desk.new memo.new.seen.items }
{
    // What one that is refused leaves.
    step_back_laws();
    let moved = step_back(desk, branch);
    tell_moved_back(alloc, desk.machine(), program, memo, branch, &moved, answer);
}

/// Tells what came of a step back, if there was one to take.
fn tell_moved_back(
    alloc: Global,
    machine: &Machine,
    program: &Program,
    memo: &mut Memo,
    branch: u32,
    moved: &Back,
    answer: &mut Answer,
)
    requires { (t u : ℕ) → moved.now ≡ Went.Asked t (Replied.Refused (NeededBy u)) → IsLive machine.now.live u }
    ensures seen { SeenBehind moved.now memo.old.seen.items memo.new.seen.items }
    ensures stops { (there : ℕ) × TellsStop answer.old (stop_back program.now.excepts moved.now) there answer.new
        × StandsBack machine.now branch moved.now there }
{
    match moved {
        Back::AtBeginning => {
            let text = "At its beginning: no step of this thread is live";
            stop(alloc, answer, Stop::Stepped, branch, text);
        }
        Back::Asked(ticket, reply) => {
            tell_back(
                alloc, machine, program, memo, branch, *ticket, reply, answer,
            );
        }
    }
}

/// Tells what came of a step back.
fn tell_back(
    alloc: Global,
    machine: &Machine,
    program: &Program,
    memo: &mut Memo,
    branch: u32,
    ticket: u64,
    reply: &Reply,
    answer: &mut Answer,
)
    requires { (u : ℕ) → reply.now ≡ Replied.Refused (NeededBy u) → IsLive machine.now.live u }
    ensures seen { SeenBehind (Went.Asked ticket reply.now) memo.old.seen.items memo.new.seen.items }
    ensures stops { (there : ℕ) × TellsStop answer.old (stop_of program.now.excepts reply.now) there answer.new
        × StandsBack machine.now branch (Went.Asked ticket reply.now) there }
{
    match reply {
        Reply::Refused(why) => tell_kept(
            alloc, machine, program, memo, branch, ticket, *why, answer,
        ),
        Reply::Undone(_, event) => {
            memo.seen.clear();
            tell_undone(alloc, machine, branch, ticket, event, answer);
        }
        _ => {
            memo.seen.clear();
            stop(alloc, answer, Stop::Stepped, branch, "");
        }
    }
}

/// Tells the step that was taken back.
fn tell_undone(
    alloc: Global,
    machine: &Machine,
    branch: u32,
    ticket: u64,
    event: &Event,
    answer: &mut Answer,
)
    ensures { TellsStop answer.old Stopped.Stepped branch answer.new }
{
    tell_step(alloc, machine, "taken back, step ", ticket, event, answer);
    stop(alloc, answer, Stop::Stepped, branch, "");
}

/// Tells that a step stays, at the thread of the step that is in the way.
fn tell_kept(
    alloc: Global,
    machine: &Machine,
    program: &Program,
    memo: &mut Memo,
    branch: u32,
    ticket: u64,
    why: Refusal,
    answer: &mut Answer,
)
    requires { (u : ℕ) → why ≡ NeededBy u → IsLive machine.now.live u }
    ensures seen { memo.new.seen ≡ memo.old.seen }
    ensures stops { (there : ℕ)
        × TellsStop answer.old (Stopped.Refused (refusal_number why) program.now.excepts) there answer.new
        × StandsBack machine.now branch (Went.Asked ticket (Replied.Refused why)) there }
{
    let (words, thread) = kept_words(alloc, machine, branch, ticket, why);
    tell_refused(alloc, program, memo, answer, thread, why, words.as_str());
}

/// Why a step stays, and the branch of the step that is in the way.
fn kept_words(
    alloc: Global,
    machine: &Machine,
    branch: u32,
    ticket: u64,
    why: Refusal,
) -> (Words, u32)
    requires { (u : ℕ) → why ≡ NeededBy u → IsLive machine.now.live u }
    ensures { StandsBack machine.now branch (Went.Asked ticket (Replied.Refused why)) result.1 }
{
    match why {
        Refusal::NeededBy(first) => {
            let words = needed_words(alloc, machine, ticket, first);
            (words, acting_branch(machine, first).unwrap_or(branch))
        }
        _ => (Words::of(alloc, words_of(why)), branch),
    }
}

/// That a step stays, since this one depends on it.
fn needed_words(alloc: Global, machine: &Machine, ticket: u64, first: u64) -> Words {
    let mut words = Words::of(alloc, "Step ");
    add_live(alloc, machine, ticket, &mut words);
    words.add(" stays: step ");
    add_live(alloc, machine, first, &mut words);
    words.add(" depends on it. Take that back first, or `roll ");
    words.number(ticket);
    words.add("` takes back all that do.");
    words
}

/// Adds the live step of this ticket in words.
fn add_live(alloc: Global, machine: &Machine, ticket: u64, words: &mut Words) {
    words.number(ticket);
    if let Some(event) = live_event(machine, ticket) {
        words.add(" (");
        words.add(event_words(alloc, machine, event).as_str());
        words.add(")");
    }
}

/// The live step of this ticket.
fn live_event(machine: &Machine, ticket: u64) -> Option<&Event>
    ensures { MatchOption result (NoneAt machine.now.live ticket) (λ e. LiveAt machine.now.live ticket e.now) }
{
    let live = machine.live_events();
    match live.index_of(ticket) {
        Some(index) => match live.pair_at(index as u64) {
            Some((_, event)) => Some(event),
            None => None,
        },
        None => None,
    }
}

/// The branch in which the live step of this ticket acts.
fn acting_branch(machine: &Machine, ticket: u64) -> Option<u32>
    ensures { IsLive machine.now.live ticket → (e : Step) × LiveAt machine.now.live ticket e
        × (result ≡ branch_at machine.now.checked (acting e)) }
{
    match live_event(machine, ticket) {
        Some(event) => branch_at(machine.checked().system(), event.acting_place()),
        None => None,
    }
}

/// Answers `reverseContinue`.
pub fn reverse(
    alloc: Global,
    desk: &mut Desk,
    program: &Program,
    memo: &mut Memo,
    request: &Request,
    answer: &mut Answer,
)
    ensures led { Led desk.old desk.new }
    ensures system { desk.new.machine.checked ≡ desk.old.machine.checked }
    ensures goes { Runs answer.old answer.new desk.old desk.new memo.old.seen.items memo.new.seen.items
        (λ stop there. ReversesFor program.now desk.old request.now stop there desk.new memo.new.seen.items) }
    ensures denied { IsDone answer.old.outcome → IsRefusal answer.new.outcome → NamesNoThread desk.old request.now }
{
    match thread_in(request, desk.machine(), answer) {
        Some(branch) => {
            let single = request.flag("singleThread", false);
            reverse_in(alloc, desk, program, memo, branch, single, answer);
        }
        None => {}
    }
}

/// Takes steps back until something stops it: those of the branch with all that depend on them, or all.
pub fn reverse_in(
    alloc: Global,
    desk: &mut Desk,
    program: &Program,
    memo: &mut Memo,
    branch: u32,
    single: bool,
    answer: &mut Answer,
)
    ensures led { Led desk.old desk.new }
    ensures system { desk.new.machine.checked ≡ desk.old.machine.checked }
    ensures goes { (stop : Stopped) × (there : ℕ) × TellsStop answer.old stop there answer.new
        × Reverses program.now branch (alone branch single) desk.old stop there desk.new memo.new.seen.items }
{
    let ended = rewind_in(alloc, desk, program, memo, branch, single);
    tell_rewound(alloc, program, branch, single, ended, answer);
}

/// Takes steps back until something stops it; why it ended.
fn rewind_in(
    alloc: Global,
    desk: &mut Desk,
    program: &Program,
    memo: &mut Memo,
    branch: u32,
    single: bool,
) -> Rewound
    ensures led { Led desk.old desk.new }
    ensures system { desk.new.machine.checked ≡ desk.old.machine.checked }
    ensures back { GoesBack (alone branch single) program.now.stops.items program.now.watched.items desk.old desk.new
        result memo.new.seen.items }
{
    let marks = Marks {
        lines: program.stops.as_slice(),
        watched: program.watched.as_slice(),
    };
    if single {
        rewind_branch(alloc, desk, branch, &marks, &mut memo.seen)
    } else {
        rewind(alloc, desk, &marks, &mut memo.seen)
    }
}

/// Tells why a run back ended.
fn tell_rewound(
    alloc: Global,
    program: &Program,
    branch: u32,
    single: bool,
    ended: Rewound,
    answer: &mut Answer,
)
    ensures { TellsStop answer.old (stop_behind ended) (stands_behind branch ended) answer.new }
{
    match ended {
        Rewound::AtBeginning => stop(alloc, answer, Stop::Entry, branch, beginning_text(single)),
        Rewound::AtLine(action, line) => stop_at_line(alloc, program, answer, action, line),
        Rewound::Watched(branch, ticket) => stop_before(alloc, branch, ticket, answer),
    }
}

/// Where nothing is left to take back: of this thread alone, or of all.
fn beginning_text(single: bool) -> &'static str {
    if single {
        "At its beginning: no step of this thread is live"
    } else {
        "At the beginning"
    }
}

/// Tells that a step was taken back that is watched.
fn stop_before(alloc: Global, branch: u32, ticket: u64, answer: &mut Answer)
    ensures { TellsStop answer.old Stopped.Watched branch answer.new }
{
    let mut words = Words::of(alloc, "before step ");
    words.number(ticket);
    stop(alloc, answer, Stop::Watched, branch, words.as_str());
}
