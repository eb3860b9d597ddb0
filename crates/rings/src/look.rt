// The walk through a tree to the ends of channels in it.
ghost use Rattle.std.specs.Prelude.{◌≡◌, ◌<◌, ℕ, List, Option, length, map, IfOk};
ghost use Rattle.address.specs.declared.Entry.TheVariants as entry;
ghost use Rattle.value.specs.Word.{Word};
ghost use Rattle.process_tree.specs.Code as model_code;
ghost use Rattle.process_tree.specs.Proc as proc;
ghost use Rattle.process_tree.specs.View.{await_view, begun_of, decide_view, once_view, opened_of, phase_view, proc_view, procs_of, repeat_view, row_view, sender_view, turn_of};
ghost use Rattle.process_tree.specs.internal.Parts.{gate_view, tested_view, turns_view};
ghost use Rattle.rings.specs.internal.Ends as model;

use crate::ends::{Summary, beside, none_here, one_here};
use crate::fresh::{look_again, look_arms, look_fresh, look_tests, look_unmade, look_waiting};
use crate::line::{Line, after, in_line, with_first};
use crate::sought::Sought;
use crate::way::{branch, ordered};
use local_actions::body_of_turn;
use process_tree::{Await, Decide, Gate, Once, Phase, Proc, Repeat, Row, Sender, Tested, Turns};
use std::alloc::{AllocError, Global};

/// The ends in the process on the channels that are wanted.
#[cycle(look)]
pub(crate) fn look(alloc: Global, process: &Proc, wanted: &[bool]) -> Result<Summary, AllocError>
    ensures { IfOk result (λ found. model.sum_of found ≡ model.proc_sum wanted.now (proc_view process.now)) }
{
    match process {
        Proc::Idle => Ok(Summary::Over),
        Proc::Stopped => Ok(none_here(alloc, true)),
        Proc::Once(once, made) => look_once(alloc, once.get(), *made, wanted),
        Proc::Sender(sender, phase) => look_sender(alloc, sender.get(), *phase, wanted),
        Proc::Loop(repeat, turns) => look_loop(alloc, turns, repeat.get(), wanted),
        Proc::Test(decide, tested) => look_tested(alloc, tested, decide.get(), wanted),
        Proc::Arms(waiting, gate) => look_gate(alloc, gate, waiting.get(), wanted),
        Proc::Sequence(row, begun) => look_sequence(alloc, begun.as_slice(), row.get(), wanted),
        Proc::Parallel(procs) => look_parallel(alloc, procs.as_slice(), wanted),
        Proc::Drained(channel, _) => {
            one_here(alloc, wanted, *channel, Sought::Receiver(*channel))
        }
    }
}

/// The ends in what moves once, and has or has not.
fn look_once(alloc: Global, once: &Once, made: bool, wanted: &[bool]) -> Result<Summary, AllocError>
    ensures { IfOk result (λ found.
        model.sum_of found ≡ model.proc_sum wanted.now (proc.once (once_view once.now) made)) }
{
    if made {
        Ok(Summary::Over)
    } else {
        look_unmade(alloc, once, wanted)
    }
}

/// The ends that a send or sync is that is so far.
fn look_sender(
    alloc: Global,
    sender: &Sender,
    phase: Phase,
    wanted: &[bool],
) -> Result<Summary, AllocError>
    ensures { IfOk result (λ found.
        model.sum_of found
        ≡ model.proc_sum wanted.now (proc.sender (sender_view sender.now) (phase_view phase))) }
{
    match phase {
        Phase::Waiting => look_waiting(alloc, sender, wanted),
        Phase::Holding => Ok(none_here(alloc, false)),
        Phase::Past => Ok(Summary::Over),
    }
}

/// The ends in a loop.
#[cycle(look)]
fn look_loop(
    alloc: Global,
    turns: &Turns,
    repeat: &Repeat,
    wanted: &[bool],
) -> Result<Summary, AllocError>
    ensures { IfOk result (λ found.
        model.sum_of found
        ≡ model.proc_sum wanted.now
        (turns_view turns.now (repeat_view repeat.now).0 (repeat_view repeat.now).1)) }
{
    match turns {
        Turns::Fresh => look_again(alloc, repeat, wanted),
        Turns::EndedAtOnce => Ok(Summary::Over),
        Turns::Turn(turn, over, body) => look_turn(alloc, body, *turn, *over, repeat, wanted),
    }
}

/// The ends in a loop in this turn or behind it.
#[cycle(look)]
fn look_turn(
    alloc: Global,
    body: &Proc,
    turn: u64,
    over: bool,
    repeat: &Repeat,
    wanted: &[bool],
) -> Result<Summary, AllocError>
    ensures { IfOk result (λ found.
        model.sum_of found
        ≡ model.proc_sum wanted.now
        (turn_of over (repeat_view repeat.now).0 (repeat_view repeat.now).1 turn (proc_view body.now))) }
{
    if over {
        return Ok(Summary::Over);
    }
    let again = look_again(alloc, repeat, wanted)?;
    look_child(alloc, body, body_of_turn(turn)?, wanted, again)
}

/// The ends in an `if` or `case`.
#[cycle(look)]
fn look_tested(
    alloc: Global,
    tested: &Tested,
    decide: &Decide,
    wanted: &[bool],
) -> Result<Summary, AllocError>
    ensures { IfOk result (λ found.
        model.sum_of found
        ≡ model.proc_sum wanted.now
        (tested_view tested.now (decide_view decide.now).0 (decide_view decide.now).1)) }
{
    match tested {
        Tested::Untested => look_tests(alloc, decide.arms.as_slice(), wanted),
        Tested::Skipped => Ok(Summary::Over),
        Tested::Took(_, body) => look_child(alloc, body, 1, wanted, Summary::Over),
    }
}

/// The ends at arms that wait, or in the one that opened.
#[cycle(look)]
fn look_gate(
    alloc: Global,
    gate: &Gate,
    waiting: &Await,
    wanted: &[bool],
) -> Result<Summary, AllocError>
    ensures { IfOk result (λ found.
        model.sum_of found
        ≡ model.proc_sum wanted.now
        (gate_view gate.now (await_view waiting.now).0 (await_view waiting.now).1)) }
{
    match gate {
        Gate::Unopened => look_arms(alloc, waiting, wanted),
        Gate::Opened(channel, _, over, body) => look_opened(alloc, body, *channel, *over, wanted),
    }
}

/// The ends in an arm that opened on this channel.
#[cycle(look)]
fn look_opened(
    alloc: Global,
    body: &Proc,
    channel: u32,
    over: bool,
    wanted: &[bool],
) -> Result<Summary, AllocError>
    ensures { (ds : List ℕ) (cs : model_code.Codes) (v : Option Word) →
        IfOk result (λ found.
        model.sum_of found
        ≡ model.proc_sum wanted.now (opened_of over ds cs channel v (proc_view body.now))) }
{
    if over {
        return Ok(Summary::Over);
    }
    let close = one_here(alloc, wanted, channel, Sought::Close(channel))?;
    look_child(alloc, body, 1, wanted, close)
}

/// The ends in the child of this number, or in what comes behind it.
#[cycle(look)]
fn look_child(
    alloc: Global,
    child: &Proc,
    number: u64,
    wanted: &[bool],
    rest: Summary,
) -> Result<Summary, AllocError>
    ensures { IfOk result (λ found.
        model.sum_of found
        ≡ model.after (entry.Ordered number) (model.proc_sum wanted.now (proc_view child.now))
        (model.sum_of rest)) }
{
    let entry = ordered(number)?;
    let found = look(alloc, child, wanted)?;
    after(alloc, entry, found, rest)
}

/// The ends in a sequence.
#[cycle(look)]
fn look_sequence(
    alloc: Global,
    begun: &[Proc],
    row: &Row,
    wanted: &[bool],
) -> Result<Summary, AllocError>
    ensures { IfOk result (λ found.
        model.sum_of found
        ≡ model.proc_sum wanted.now (proc.sequence (begun_of (map proc_view begun.now) (row_view row.now)))) }
{
    let mut line = Line::Over;
    let mut number = row.codes.len();
    'children: while number > 0 {
        number -= 1;
        let entry = ordered(number as u64)?;
        let child = look_number(alloc, begun, row, number, wanted)?;
        line = with_first(alloc, entry, child, line)?;
    }
    in_line(alloc, line)
}

/// The ends in the child of this number of a sequence.
#[cycle(look)]
fn look_number(
    alloc: Global,
    begun: &[Proc],
    row: &Row,
    number: usize,
    wanted: &[bool],
) -> Result<Summary, AllocError>
    requires { number < length row.now.codes }
    ensures { IfOk result (λ found.
        model.SumAt wanted.now (begun_of (map proc_view begun.now) (row_view row.now)) number
        (model.sum_of found)) }
{
    if number < begun.len() {
        return look(alloc, &begun[number], wanted);
    }
    look_fresh(alloc, &row.codes.as_slice()[number], wanted)
}

/// The ends in branches.
#[cycle(look)]
fn look_parallel(alloc: Global, procs: &[Proc], wanted: &[bool]) -> Result<Summary, AllocError>
    ensures { IfOk result (λ found.
        model.sum_of found
        ≡ model.proc_sum wanted.now (proc.parallel (procs_of (map proc_view procs.now)))) }
{
    let mut found = Summary::Over;
    let mut number = procs.len();
    'children: while number > 0 {
        number -= 1;
        let entry = branch(number as u64)?;
        let child = look(alloc, &procs[number], wanted)?;
        found = beside(alloc, entry, child, found)?;
    }
    Ok(found)
}
