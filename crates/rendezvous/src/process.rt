// What the processes of a tree still have to do, as the slow replay holds it.
ghost use Rattle.std.specs.Prelude.{◌≡◌, ◌≤◌, ◌++◌, ◌∷◌, length, map, take, IfOk};
ghost use Rattle.system.specs.Residual as model;
ghost use Rattle.calculus.specs.ResidualTree.{residual_of_tree};
ghost use Rattle.process_tree.specs.Remaining.{remaining, remaining_parallel, remaining_sequence, puts, residual, with_value};
ghost use Rattle.process_tree.specs.Proc as model_proc;
ghost use Rattle.process_tree.specs.View.{await_view, begun_of, code_view, decide_view, phase_view, proc_view, procs_of, repeat_view, row_view, sender_view};
ghost use Rattle.process_tree.specs.internal.Parts.{gate_view, tested_view, turns_view};

use crate::code::{
    left_of_await, left_of_code, left_of_decide, left_of_once, left_of_repeat, left_of_sender,
};
use calculus::{ResidualTree, in_parallel, in_sequence, with_received, within};
use local_actions::body_of_turn;
use process_tree::{Await, Code, Decide, Gate, Phase, Proc, Repeat, Row, Sender, Tested, Turns};
use std::alloc::{AllocError, Global};
use syntax::{Items, Shared};
use value::Value;

/// What the process still has to do, in arms that received these values, the innermost first, each with its channel.
#[cycle(tree_of)]
pub(crate) fn tree_of(
    alloc: Global,
    proc: &Proc,
    received: &[(u32, Value)],
) -> Result<Shared<ResidualTree>, AllocError>
    ensures { IfOk result (λ made. residual_of_tree made ≡ remaining received.now (proc_view proc.now)) }
{
    match proc {
        Proc::Idle => ResidualTree::done(alloc),
        Proc::Stopped => Shared::new(alloc, ResidualTree::Halted),
        Proc::Once(_, true) => ResidualTree::done(alloc),
        Proc::Once(once, false) => {
            let left = left_of_once(alloc, once.get())?;
            put_all(alloc, left, received)
        }
        Proc::Sender(sender, phase) => left_of_sent(alloc, sender.get(), *phase, received),
        Proc::Loop(repeat, turns) => left_of_loop(alloc, turns, repeat.get(), received),
        Proc::Test(decide, tested) => left_of_test(alloc, tested, decide.get(), received),
        Proc::Arms(waiting, gate) => left_of_arms(alloc, gate, waiting.get(), received),
        Proc::Sequence(row, begun) => left_of_sequence(
            alloc,
            begun.as_slice(),
            row.get(),
            received,
        ),
        Proc::Parallel(procs) => left_of_parallel(alloc, procs.as_slice(), received),
        Proc::Drained(channel, count) => Shared::new(alloc, ResidualTree::Drain(*channel, *count)),
    }
}

/// A send or sync that is this far.
fn left_of_sent(
    alloc: Global,
    sender: &Sender,
    phase: Phase,
    received: &[(u32, Value)],
) -> Result<Shared<ResidualTree>, AllocError>
    ensures { IfOk result (λ made.
        residual_of_tree made
        ≡ remaining received.now (model_proc.sender (sender_view sender.now) (phase_view phase))) }
{
    match phase {
        Phase::Waiting => {
            let left = left_of_sender(alloc, sender)?;
            put_all(alloc, left, received)
        }
        Phase::Holding => match sender {
            Sender::Send(channel, _, _) | Sender::Sync(channel) => {
                Shared::new(alloc, ResidualTree::Held(*channel))
            }
        },
        Phase::Past => ResidualTree::done(alloc),
    }
}

/// A loop that is this far.
#[cycle(tree_of)]
fn left_of_loop(
    alloc: Global,
    turns: &Turns,
    repeat: &Repeat,
    received: &[(u32, Value)],
) -> Result<Shared<ResidualTree>, AllocError>
    ensures { IfOk result (λ made.
        residual_of_tree made
        ≡ remaining received.now (turns_view turns.now (repeat_view repeat.now).0 (repeat_view repeat.now).1)) }
{
    match turns {
        Turns::Fresh => {
            let left = left_of_repeat(alloc, repeat, 0)?;
            put_all(alloc, left, received)
        }
        Turns::EndedAtOnce => ResidualTree::done(alloc),
        Turns::Turn(_, true, _) => ResidualTree::done(alloc),
        Turns::Turn(turn, false, body) => {
            let number = body_of_turn(*turn)?;
            let child = tree_of(alloc, body, received)?;
            let left = left_of_repeat(alloc, repeat, *turn + 1)?;
            let next = put_all(alloc, left, received)?;
            within(alloc, number, child, next)
        }
    }
}

/// An `if` or `case` that is this far.
#[cycle(tree_of)]
fn left_of_test(
    alloc: Global,
    tested: &Tested,
    decide: &Decide,
    received: &[(u32, Value)],
) -> Result<Shared<ResidualTree>, AllocError>
    ensures { IfOk result (λ made.
        residual_of_tree made
        ≡ remaining received.now (tested_view tested.now (decide_view decide.now).0 (decide_view decide.now).1)) }
{
    match tested {
        Tested::Untested => {
            let left = left_of_decide(alloc, decide)?;
            put_all(alloc, left, received)
        }
        Tested::Skipped => ResidualTree::done(alloc),
        Tested::Took(_, body) => {
            let child = tree_of(alloc, body, received)?;
            let next = ResidualTree::done(alloc)?;
            within(alloc, 1, child, next)
        }
    }
}

/// Arms that are this far.
#[cycle(tree_of)]
fn left_of_arms(
    alloc: Global,
    gate: &Gate,
    waiting: &Await,
    received: &[(u32, Value)],
) -> Result<Shared<ResidualTree>, AllocError>
    ensures { IfOk result (λ made.
        residual_of_tree made
        ≡ remaining received.now (gate_view gate.now (await_view waiting.now).0 (await_view waiting.now).1)) }
{
    match gate {
        Gate::Unopened => {
            let left = left_of_await(alloc, waiting)?;
            put_all(alloc, left, received)
        }
        Gate::Opened(_, _, true, _) => ResidualTree::done(alloc),
        Gate::Opened(channel, value, false, body) => {
            let inner = with_one(alloc, *channel, *value, received)?;
            let child = tree_of(alloc, body, inner.as_slice())?;
            let next = Shared::new(alloc, ResidualTree::Closing(*channel))?;
            within(alloc, 1, child, next)
        }
    }
}

/// Children one after another.
#[cycle(tree_of)]
fn left_of_sequence(
    alloc: Global,
    begun: &[Proc],
    row: &Row,
    received: &[(u32, Value)],
) -> Result<Shared<ResidualTree>, AllocError>
    ensures { IfOk result (λ made.
        residual_of_tree made
        ≡ remaining_sequence received.now 0 (begun_of (map proc_view begun.now) (row_view row.now))) }
{
    let codes = row.codes.as_slice();
    let end = begun.len().min(codes.len());
    let mut children = trees_of(alloc, begun, end, received)?;
    add_others(alloc, &codes[end..], received, &mut children)?;
    in_sequence(alloc, children)
}

/// Children side by side.
#[cycle(tree_of)]
fn left_of_parallel(
    alloc: Global,
    procs: &[Proc],
    received: &[(u32, Value)],
) -> Result<Shared<ResidualTree>, AllocError>
    ensures { IfOk result (λ made.
        residual_of_tree made ≡ remaining_parallel received.now 0 (procs_of (map proc_view procs.now))) }
{
    let children = trees_of(alloc, procs, procs.len(), received)?;
    in_parallel(alloc, children)
}

/// What so many of the first processes still have to do.
#[cycle(tree_of)]
fn trees_of(
    alloc: Global,
    procs: &[Proc],
    end: usize,
    received: &[(u32, Value)],
) -> Result<Items<Shared<ResidualTree>>, AllocError>
    requires { end ≤ length procs.now }
    ensures { IfOk result (λ made.
        map residual_of_tree made ≡ map (λ p. remaining received.now (proc_view p)) (take end procs.now)) }
{
    let mut lefts = Items::with_capacity(alloc, end)?;
    let mut number = 0;
    'children: while number < end {
        lefts.push(tree_of(alloc, &procs[number], received)?)?;
        number += 1;
    }
    Ok(lefts)
}

/// Adds what the commands are to do, with the received values put.
fn add_others(
    alloc: Global,
    codes: &[Code],
    received: &[(u32, Value)],
    lefts: &mut Items<Shared<ResidualTree>>,
) -> Result<(), AllocError>
    ensures { IfOk result (λ _.
        map residual_of_tree lefts.new
        ≡ map residual_of_tree lefts.old ++ map (λ c. puts received.now (residual (code_view c))) codes.now) }
{
    for code in codes {
        let left = left_of_code(alloc, code)?;
        lefts.push(put_all(alloc, left, received)?)?;
    }
    Ok(())
}

/// The received values with what the arm on this channel received, if anything, as the innermost.
fn with_one(
    alloc: Global,
    channel: u32,
    value: Option<Value>,
    received: &[(u32, Value)],
) -> Result<Vec<(u32, Value)>, AllocError>
    ensures { IfOk result (λ inner. inner.items ≡ with_value channel value received.now) }
{
    let mut inner = Vec::with_capacity(alloc, received.len())?;
    if let Some(value) = value {
        inner.push((channel, value))?;
    }
    inner.extend_from_slice(received)?;
    Ok(inner)
}

/// The same with the received values put for their names, that of an outer arm before that of an inner one.
fn put_all(
    alloc: Global,
    left: Shared<ResidualTree>,
    received: &[(u32, Value)],
) -> Result<Shared<ResidualTree>, AllocError>
    ensures { IfOk result (λ made. residual_of_tree made ≡ puts received.now (residual_of_tree left)) }
{
    let mut left = left;
    let mut count = received.len();
    'arms: while count > 0 {
        count -= 1;
        let (channel, value) = received[count];
        left = with_received(alloc, left.get(), channel, value)?;
    }
    Ok(left)
}
