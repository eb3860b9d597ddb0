// Requests that ask a thread to move, or to stand.
ghost use Rattle.std.specs.Prelude.{List};
ghost use Rattle.runs.specs.declared.event.Choice.{Choice};
ghost use Rattle.dap_messages.specs.Notes.{IsDone, IsRefusal};
ghost use Rattle.dap_moves.specs.Led.{Led};
ghost use Rattle.dap_requests.specs.Said.{Runs};
ghost use Rattle.dap.specs.Steps.{Backward, Forward, GoesOn, IsDenied, Stays, Steps, thread_of};

use dap_messages::{Answer, Kind, Request, Stop};
use dap_moves::Desk;
use dap_requests::{back_in, go_in, reverse, step_in, stop};
use dap_threads::thread_in;
use dap_views::{Memo, Program};
use std::alloc::Global;

/// Answers a request that asks a thread to move, or to stand.
pub(crate) fn make_move(
    alloc: Global,
    desk: &mut Desk,
    program: &Program,
    memo: &mut Memo,
    request: &Request,
    answer: &mut Answer,
)
    ensures led { Led desk.old desk.new }
    ensures goes { Runs answer.old answer.new desk.old desk.new memo.old.seen.items memo.new.seen.items
        (λ stop branch. Steps program.now memo.old.seen.items memo.new.seen.items desk.old request.now.kind request.now
        stop branch desk.new) }
    ensures denied { IsDone answer.old.outcome → IsRefusal answer.new.outcome → IsDenied desk.old request.now }
{
    match request.kind {
        Kind::StepBack => back(alloc, desk, program, memo, request, answer),
        Kind::Continue => go(alloc, desk, program, memo, request, answer),
        Kind::ReverseContinue => reverse(alloc, desk, program, memo, request, answer),
        Kind::Pause => pause(alloc, desk, request, answer),
        _ => step(alloc, desk, program, memo, request, answer),
    }
}

/// Answers `next`, `stepIn` and `stepOut`: one step of the thread.
fn step(
    alloc: Global,
    desk: &mut Desk,
    program: &Program,
    memo: &mut Memo,
    request: &Request,
    answer: &mut Answer,
)
    ensures led { Led desk.old desk.new }
    ensures goes { Runs answer.old answer.new desk.old desk.new memo.old.seen.items memo.new.seen.items
        (λ stop branch. Forward program.now.excepts memo.old.seen.items memo.new.seen.items desk.old request.now
        (thread_of desk.old request.now) stop branch desk.new) }
    ensures denied { IsDone answer.old.outcome → IsRefusal answer.new.outcome → IsDenied desk.old request.now }
{
    match thread_in(request, desk.machine(), answer) {
        Some(branch) => step_in(alloc, desk, program, memo, branch, request, answer),
        None => {}
    }
}

/// Answers `continue`: on from where the thread stands.
fn go(
    alloc: Global,
    desk: &mut Desk,
    program: &Program,
    memo: &mut Memo,
    request: &Request,
    answer: &mut Answer,
)
    ensures led { Led desk.old desk.new }
    ensures goes { Runs answer.old answer.new desk.old desk.new memo.old.seen.items memo.new.seen.items
        (λ stop branch. GoesOn program.now memo.old.seen.items memo.new.seen.items desk.old request.now
        (thread_of desk.old request.now) stop branch desk.new) }
    ensures denied { IsDone answer.old.outcome → IsRefusal answer.new.outcome → IsDenied desk.old request.now }
{
    match thread_in(request, desk.machine(), answer) {
        Some(branch) => {
            let single = request.flag("singleThread", false);
            go_in(alloc, desk, program, memo, branch, single, answer);
        }
        None => {}
    }
}

/// Answers `stepBack`: the newest step in which the branch of the thread took part.
fn back(
    alloc: Global,
    desk: &mut Desk,
    program: &Program,
    memo: &mut Memo,
    request: &Request,
    answer: &mut Answer,
)
    ensures led { Led desk.old desk.new }
    ensures goes { Runs answer.old answer.new desk.old desk.new memo.old.seen.items memo.new.seen.items
        (λ stop branch. Backward program.now.excepts memo.old.seen.items memo.new.seen.items desk.old
        (thread_of desk.old request.now) stop branch desk.new) }
    ensures denied { IsDone answer.old.outcome → IsRefusal answer.new.outcome → IsDenied desk.old request.now }
{
    match thread_in(request, desk.machine(), answer) {
        Some(branch) => back_in(alloc, desk, program, memo, branch, answer),
        None => {}
    }
}

/// Answers `pause`. It is read only once a run has ended, so nothing moves: it tells that the thread stands.
fn pause(alloc: Global, desk: &Desk, request: &Request, answer: &mut Answer)
    ensures goes { (seen : List Choice) → Runs answer.old answer.new desk.now desk.now seen seen
        (λ stop branch. Stays seen seen desk.now (thread_of desk.now request.now) stop branch desk.now) }
    ensures denied { IsDone answer.old.outcome → IsRefusal answer.new.outcome → IsDenied desk.now request.now }
{
    match thread_in(request, desk.machine(), answer) {
        Some(branch) => stop(alloc, answer, Stop::Pause, branch, ""),
        None => {}
    }
}
