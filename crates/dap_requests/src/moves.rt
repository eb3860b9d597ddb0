// Requests to run forth. Each that succeeds ends with one `stopped`.
ghost use Rattle.std.specs.Prelude.{◌≡◌, [], ℕ, MatchBool, MatchOption, None, Some, codes, is_some, slice_get};
ghost use Rattle.serde_json.specs.View.{view};
ghost use Rattle.runs.specs.Object.{Reaches};
ghost use Rattle.runs.specs.Ready.{ReadyList};
ghost use Rattle.runs.specs.Refusals.{refusal_number};
ghost use Rattle.runs.specs.Steps.{State};
ghost use Rattle.machine.specs.AtMachine.{object};
ghost use Rattle.locked_execution.specs.AtDesk.{AtDesk};
ghost use Rattle.dap_moves.specs.Led.{Led};
ghost use Rattle.dap_moves.specs.Moves.{targets};
ghost use Rattle.dap_messages.specs.Arguments.{number_named, part_named};
ghost use Rattle.dap_messages.specs.Notes.{IsDone, IsRefusal};
ghost use Rattle.dap_messages.specs.declared.kind.Kind as asks;
ghost use Rattle.dap_messages.specs.declared.told.Stop.{Stop as Stopped};
ghost use Rattle.dap_requests.specs.Denied.{NamesNoStep};
ghost use Rattle.dap_requests.specs.Forth.{AreSeen, RunsBy, RunsFree, SeenAfter, StepsForth, Takes, alone, going_of, stands_at, stop_at, stop_of, target_in};
ghost use Rattle.dap_requests.specs.Said.{Runs, TellsOutputs, TellsStop};

use crate::said::{stop, stop_at_line, tell, tell_outputs, tell_refused, tell_step, words_of};
use crate::still::{nothing_words, why_none};
use dap_messages::{Answer, Kind, Members, Request, Stop};
use dap_moves::{Desk, Ended, Machine, Plan, Reply, go_on, see, step_at, target_at};
use dap_views::{Memo, Program, Words, event_words};
use runs::{Choice, Event, Refusal};
use std::alloc::Global;
use syntax::Items;

/// Answers `next`, `stepIn` and `stepOut`: one step of the branch.
pub fn step_in(
    alloc: Global,
    desk: &mut Desk,
    program: &Program,
    memo: &mut Memo,
    branch: u32,
    request: &Request,
    answer: &mut Answer,
)
    ensures led { Led desk.old desk.new }
    ensures system { desk.new.machine.checked ≡ desk.old.machine.checked }
    ensures goes { Runs answer.old answer.new desk.old desk.new memo.old.seen.items memo.new.seen.items
        (λ stop there. (there ≡ branch) × StepsForth program.now.excepts desk.old branch (target_in request.now)
        memo.old.seen.items stop desk.new memo.new.seen.items) }
    ensures denied { IsDone answer.old.outcome → IsRefusal answer.new.outcome → NamesNoStep request.now }
    ensures named { NamesNoStep request.now → IsRefusal answer.new.outcome }
{
    match target_asked(request, answer) {
        Some(number) => next_in(alloc, desk, program, memo, branch, number, answer),
        None => {}
    }
}

/// The number of the step that is asked for among those that it can be, from 0. `stepIn` may name one, and is refused
/// where it names none by a number from 1 on.
fn target_asked(request: &Request, answer: &mut Answer) -> Option<u64>
    ensures { MatchOption result
        (IsRefusal answer.new.outcome × (answer.new.notes ≡ answer.old.notes) × NamesNoStep request.now)
        (λ number. (number ≡ target_in request.now) × (answer.new ≡ answer.old) × (NamesNoStep request.now → ⊥)) }
{
    match request.kind {
        Kind::StepIn => target_named(request, answer),
        _ => Some(0),
    }
}

/// The number of the step that `stepIn` names, from 0; the first where it names none.
fn target_named(request: &Request, answer: &mut Answer) -> Option<u64>
    requires { request.now.kind ≡ asks.Kind.StepIn }
    ensures { MatchOption result
        (IsRefusal answer.new.outcome × (answer.new.notes ≡ answer.old.notes) × NamesNoStep request.now)
        (λ number. (number ≡ target_in request.now) × (answer.new ≡ answer.old) × (NamesNoStep request.now → ⊥)) }
{
    match request.number("targetId") {
        Some(number) => target_numbered(request, number, answer),
        None => target_unnumbered(request, answer),
    }
}

/// The step that `stepIn` names by this number, from 0.
fn target_numbered(request: &Request, number: u64, answer: &mut Answer) -> Option<u64>
    requires step { request.now.kind ≡ asks.Kind.StepIn }
    requires named { number_named (codes "targetId") (view request.now.arguments) ≡ Some number }
    ensures { MatchOption result
        (IsRefusal answer.new.outcome × (answer.new.notes ≡ answer.old.notes) × NamesNoStep request.now)
        (λ target. (target ≡ target_in request.now) × (answer.new ≡ answer.old) × (NamesNoStep request.now → ⊥)) }
{
    if number > 0 {
        Some(number - 1)
    } else {
        answer.refuse(104, "`targetId` is no number from 1 on");
        None
    }
}

/// The first step, where `stepIn` names none.
fn target_unnumbered(request: &Request, answer: &mut Answer) -> Option<u64>
    requires step { request.now.kind ≡ asks.Kind.StepIn }
    requires named { number_named (codes "targetId") (view request.now.arguments) ≡ None }
    ensures { MatchOption result
        (IsRefusal answer.new.outcome × (answer.new.notes ≡ answer.old.notes) × NamesNoStep request.now)
        (λ target. (target ≡ target_in request.now) × (answer.new ≡ answer.old) × (NamesNoStep request.now → ⊥)) }
{
    if names_target(request) {
        answer.refuse(104, "`targetId` is no number from 1 on");
        None
    } else {
        Some(0)
    }
}

/// Whether the request names a step.
fn names_target(request: &Request) -> bool
    ensures { result ≡ is_some (part_named (codes "targetId") (view request.now.arguments)) }
{
    match request.part("targetId") {
        Some(_) => true,
        None => false,
    }
}

/// One step of the branch, that of this number among those that it can be, counted from 0.
pub fn next_in(
    alloc: Global,
    desk: &mut Desk,
    program: &Program,
    memo: &mut Memo,
    branch: u32,
    number: u64,
    answer: &mut Answer,
)
    ensures led { Led desk.old desk.new }
    ensures system { desk.new.machine.checked ≡ desk.old.machine.checked }
    ensures goes { (stop : Stopped) × TellsStop answer.old stop branch answer.new
        × StepsForth program.now.excepts desk.old branch number memo.old.seen.items stop desk.new
        memo.new.seen.items }
{
    match desk.machine().ready() {
        Ok(events) => {
            let events = Items::from_vec(events);
            take_target(alloc, desk, program, memo, &events, branch, number, answer)
        }
        Err(_) => no_memory(alloc, program, memo, branch, answer),
    }
}

/// Tells that there is no memory to look for a step.
fn no_memory(alloc: Global, program: &Program, memo: &mut Memo, branch: u32, answer: &mut Answer)
    ensures seen { memo.new.seen ≡ memo.old.seen }
    ensures stops { TellsStop answer.old (Stopped.Refused 1 program.now.excepts) branch answer.new }
{
    let words = "no memory to look for a step";
    tell_refused(alloc, program, memo, answer, branch, Refusal::Memory, words);
}

/// Takes the step of this number among those that a step of the branch can be.
fn take_target(
    alloc: Global,
    desk: &mut Desk,
    program: &Program,
    memo: &mut Memo,
    events: &Items<Event>,
    branch: u32,
    number: u64,
    answer: &mut Answer,
)
    ensures led { Led desk.old desk.new }
    ensures system { desk.new.machine.checked ≡ desk.old.machine.checked }
    ensures goes { (stop : Stopped) × TellsStop answer.old stop branch answer.new
        × Takes program.now.excepts desk.old (slice_get (targets desk.old.machine.checked branch events.now) number)
        memo.old.seen.items stop desk.new memo.new.seen.items }
{
    let system = desk.machine().checked().system();
    match target_at(system, events.as_slice(), branch, number) {
        Some(event) => take(alloc, desk, program, memo, event, branch, answer),
        None => no_target(alloc, desk.machine(), program, branch, number, answer),
    }
}

/// Takes the event, and tells it.
fn take(
    alloc: Global,
    desk: &mut Desk,
    program: &Program,
    memo: &mut Memo,
    event: &Event,
    branch: u32,
    answer: &mut Answer,
)
    ensures led { Led desk.old desk.new }
    ensures system { desk.new.machine.checked ≡ desk.old.machine.checked }
    ensures goes { (stop : Stopped) × TellsStop answer.old stop branch answer.new
        × Takes program.now.excepts desk.old (Some event.now) memo.old.seen.items stop desk.new memo.new.seen.items }
{
    let before = desk.machine().live_events().len();
    let reply = step_at(alloc, desk, event);
    forget_seen(memo, &reply);
    tell_took(
        alloc,
        desk.machine(),
        program,
        memo,
        before,
        branch,
        &reply,
        answer,
    );
}

/// Forgets before which steps a run has stood, where a step was taken.
fn forget_seen(memo: &mut Memo, reply: &Reply)
    ensures { SeenAfter reply.now memo.old.seen.items memo.new.seen.items }
{
    match reply {
        Reply::Refused(_) => {}
        _ => memo.seen.clear(),
    }
}

/// Tells what came of a step; where it was taken it is the live one at this index.
fn tell_took(
    alloc: Global,
    machine: &Machine,
    program: &Program,
    memo: &mut Memo,
    index: usize,
    branch: u32,
    reply: &Reply,
    answer: &mut Answer,
)
    ensures seen { memo.new.seen ≡ memo.old.seen }
    ensures stops { TellsStop answer.old (stop_of program.now.excepts reply.now) branch answer.new }
{
    match reply {
        Reply::Refused(why) => {
            tell_refused(alloc, program, memo, answer, branch, *why, words_of(*why));
        }
        _ => tell_taken(alloc, machine, index, branch, answer),
    }
}

/// Tells the live step at this index, which was taken.
fn tell_taken(alloc: Global, machine: &Machine, index: usize, branch: u32, answer: &mut Answer)
    ensures { TellsStop answer.old Stopped.Stepped branch answer.new }
{
    tell_outputs(alloc, machine, index, answer);
    tell_live(alloc, machine, index, answer);
    stop(alloc, answer, Stop::Stepped, branch, "");
}

/// Tells the live step at this index, if there is one.
#[tactic(auto, using(crate::proofs::public::Saying::says_none))]
fn tell_live(alloc: Global, machine: &Machine, index: usize, answer: &mut Answer)
    ensures { TellsOutputs answer.old answer.new }
{
    if let Some((ticket, event)) = machine.live_events().pair_at(index as u64) {
        tell_step(alloc, machine, "step ", ticket, event, answer);
    }
}

/// Tells that the thread has no such step, and for whom it waits.
fn no_target(
    alloc: Global,
    machine: &Machine,
    program: &Program,
    branch: u32,
    number: u64,
    answer: &mut Answer,
)
    ensures { TellsStop answer.old Stopped.Stepped branch answer.new }
{
    let words = if number > 0 {
        Words::of(alloc, "There is no such step any more")
    } else {
        why_none(alloc, machine, program, branch)
    };
    tell_and_stop(alloc, answer, Stop::Stepped, branch, &words);
}

/// Tells the words, and that nothing moves.
#[tactic(auto, using(crate::proofs::public::Saying::stops_on))]
fn tell_and_stop(alloc: Global, answer: &mut Answer, why: Stop, branch: u32, words: &Words)
    ensures { TellsStop answer.old why branch answer.new }
{
    tell(alloc, words.as_str(), "console", answer);
    stop(alloc, answer, why, branch, words.as_str());
}

/// Answers `continue`: goes on from where the branch stands, alone or in turn with the others.
pub fn go_in(
    alloc: Global,
    desk: &mut Desk,
    program: &Program,
    memo: &mut Memo,
    branch: u32,
    single: bool,
    answer: &mut Answer,
)
    ensures led { Led desk.old desk.new }
    ensures system { desk.new.machine.checked ≡ desk.old.machine.checked }
    ensures goes { (stop : Stopped) × (there : ℕ) × TellsStop answer.old stop there answer.new
        × RunsBy (going_of program.now (alone branch single)) (Some branch) desk.old memo.old.seen.items stop there
        desk.new memo.new.seen.items }
{
    answer.body(continued(alloc, single));
    let only = alone(branch, single);
    run(alloc, desk, program, memo, Some(branch), only, answer);
}

/// That all threads go on, or one.
fn continued(alloc: Global, single: bool) -> Members {
    let mut body = Members::new(alloc);
    body.flag("allThreadsContinued", !single);
    body
}

/// The branch, where it steps alone.
fn alone(branch: u32, single: bool) -> Option<u32>
    ensures { result ≡ alone branch single }
{
    if single { Some(branch) } else { None }
}

/// Goes on from where the branch stands, which a run has seen.
pub fn run(
    alloc: Global,
    desk: &mut Desk,
    program: &Program,
    memo: &mut Memo,
    branch: Option<u32>,
    only: Option<u32>,
    answer: &mut Answer,
)
    ensures led { Led desk.old desk.new }
    ensures system { desk.new.machine.checked ≡ desk.old.machine.checked }
    ensures goes { (stop : Stopped) × (there : ℕ) × TellsStop answer.old stop there answer.new
        × RunsBy (going_of program.now only) branch desk.old memo.old.seen.items stop there desk.new
        memo.new.seen.items }
{
    let before = desk.machine().live_events().len();
    let ended = run_on(alloc, desk, program, memo, branch, only);
    tell_outputs(alloc, desk.machine(), before, answer);
    tell_ended(
        alloc,
        desk.machine(),
        program,
        memo,
        answer,
        branch,
        only,
        ended,
    );
}

/// Goes on; why it ended.
fn run_on(
    alloc: Global,
    desk: &mut Desk,
    program: &Program,
    memo: &mut Memo,
    branch: Option<u32>,
    only: Option<u32>,
) -> Ended
    ensures led { Led desk.old desk.new }
    ensures system { desk.new.machine.checked ≡ desk.old.machine.checked }
    ensures goes { RunsBy (going_of program.now only) branch desk.old memo.old.seen.items
        (stop_at program.now.excepts result) (stands_at branch result) desk.new memo.new.seen.items }
{
    if !see_first(alloc, desk.machine(), branch, &mut memo.seen) {
        return Ended::Refused(branch.unwrap_or(0), Refusal::Memory);
    }
    let plan = Plan {
        first: branch.unwrap_or(0),
        only,
        lines: program.stops.as_slice(),
        watched: program.watched.as_slice(),
        most: program.launch.most,
    };
    go_on(alloc, desk, &plan, &mut memo.seen)
}

/// Runs to the end without stops, and tells what came out. Returns whether no step was refused.
pub fn run_free(alloc: Global, desk: &mut Desk, program: &Program, answer: &mut Answer) -> bool
    ensures led { Led desk.old desk.new }
    ensures system { desk.new.machine.checked ≡ desk.old.machine.checked }
    ensures runs { RunsFree program.now.launch.most desk.old desk.new }
    ensures tells { TellsOutputs answer.old answer.new }
{
    let before = desk.machine().live_events().len();
    let plan = Plan {
        first: 0,
        only: None,
        lines: &[],
        watched: &[],
        most: program.launch.most,
    };
    let mut seen = Vec::new(alloc);
    let ended = go_on(alloc, desk, &plan, &mut seen);
    tell_outputs(alloc, desk.machine(), before, answer);
    tell_free_end(alloc, desk.machine(), ended, answer);
    !matches!(ended, Ended::Refused(_, _))
}

/// Tells why a run ended that nobody debugs.
fn tell_free_end(alloc: Global, machine: &Machine, ended: Ended, answer: &mut Answer)
    ensures { TellsOutputs answer.old answer.new }
{
    match ended {
        Ended::Refused(_, why) => tell(alloc, words_of(why), "important", answer),
        Ended::Most(_) => tell(
            alloc,
            "Paused after as many steps as `maxSteps` allows",
            "important",
            answer,
        ),
        _ => {
            let words = nothing_words(alloc, machine, None);
            tell(alloc, words.as_str(), "console", answer);
        }
    }
}

/// Keeps in mind the step before which the branch stands. Without memory for that nothing changes, and it returns
/// `false`.
fn see_first(alloc: Global, machine: &Machine, branch: Option<u32>, seen: &mut Vec<Choice>) -> bool
    ensures { MatchBool result
        ((d : AtDesk) → d.machine ≡ machine.now → AreSeen d branch seen.old.items seen.new.items)
        (seen.new.items ≡ seen.old.items) }
{
    match branch {
        Some(branch) => see_in(alloc, machine, branch, seen),
        None => true,
    }
}

/// Keeps in mind the first step of the branch, if it has one.
fn see_in(alloc: Global, machine: &Machine, branch: u32, seen: &mut Vec<Choice>) -> bool
    ensures { MatchBool result
        ((d : AtDesk) → d.machine ≡ machine.now → AreSeen d (Some branch) seen.old.items seen.new.items)
        (seen.new.items ≡ seen.old.items) }
{
    match machine.ready() {
        Ok(events) => see_among(alloc, machine, branch, &Items::from_vec(events), seen),
        Err(_) => false,
    }
}

/// Keeps in mind the first of these steps, which are ready, that the branch can take.
fn see_among(
    alloc: Global,
    machine: &Machine,
    branch: u32,
    events: &Items<Event>,
    seen: &mut Vec<Choice>,
) -> bool
    requires { (T : State) × Reaches (object machine.now) T × ReadyList T events.now }
    ensures { MatchBool result
        ((d : AtDesk) → d.machine ≡ machine.now → AreSeen d (Some branch) seen.old.items seen.new.items)
        (seen.new.items ≡ seen.old.items) }
{
    let system = machine.checked().system();
    match target_at(system, events.as_slice(), branch, 0) {
        Some(event) => see(alloc, seen, event),
        None => true,
    }
}

/// Tells why a run ended.
fn tell_ended(
    alloc: Global,
    machine: &Machine,
    program: &Program,
    memo: &mut Memo,
    answer: &mut Answer,
    branch: Option<u32>,
    only: Option<u32>,
    ended: Ended,
)
    ensures seen { memo.new.seen ≡ memo.old.seen }
    ensures stops { TellsStop answer.old (stop_at program.now.excepts ended) (stands_at branch ended) answer.new }
{
    match ended {
        Ended::Nothing => {
            let words = nothing_words(alloc, machine, only);
            tell_and_stop(alloc, answer, Stop::Pause, branch.unwrap_or(0), &words);
        }
        Ended::AtLine(action, line) => stop_at_line(alloc, program, answer, action, line),
        Ended::Watched(branch, ticket) => stop_watched(alloc, machine, answer, branch, ticket),
        Ended::Most(branch) => stop_after_most(alloc, program, answer, branch),
        Ended::Refused(branch, why) => {
            tell_refused(alloc, program, memo, answer, branch, why, words_of(why));
        }
    }
}

/// Tells that as many steps were taken as there may be.
fn stop_after_most(alloc: Global, program: &Program, answer: &mut Answer, branch: u32)
    ensures { TellsStop answer.old Stopped.Pause branch answer.new }
{
    let mut words = Words::of(alloc, "Paused after ");
    words.number(program.launch.most);
    words.add(if program.launch.most == 1 {
        " step"
    } else {
        " steps"
    });
    stop(alloc, answer, Stop::Pause, branch, words.as_str());
}

/// Tells that a step was taken that is watched.
fn stop_watched(alloc: Global, machine: &Machine, answer: &mut Answer, branch: u32, ticket: u64)
    ensures { TellsStop answer.old Stopped.Watched branch answer.new }
{
    let words = watched_words(alloc, machine, ticket);
    stop(alloc, answer, Stop::Watched, branch, words.as_str());
}

/// The live step of this ticket in words.
fn watched_words(alloc: Global, machine: &Machine, ticket: u64) -> Words {
    let live = machine.live_events();
    let mut words = Words::of(alloc, "step ");
    words.number(ticket);
    if let Some(index) = live.index_of(ticket) {
        if let Some((_, event)) = live.pair_at(index as u64) {
            words.add(": ");
            words.add(event_words(alloc, machine, event).as_str());
        }
    }
    words
}
