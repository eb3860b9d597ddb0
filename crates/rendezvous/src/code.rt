// What the commands of a tree are to do, as the slow replay holds it.
ghost use Rattle.std.specs.Prelude.{◌≡◌, map, IfOk, None};
ghost use Rattle.system.specs.Residual as model;
ghost use Rattle.system.specs.Translation.{arms_of};
ghost use Rattle.calculus.specs.ResidualTree.{residual_of_tree};
ghost use Rattle.process_tree.specs.Remaining.{again, residual, residual_arms, residual_once, residual_parallel, residual_sender, residual_sequence};
ghost use Rattle.process_tree.specs.View.{await_view, code_view, decide_view, once_view, repeat_view, row_view, sender_view};

use calculus::{ResidualTree, in_parallel, in_sequence};
use process_tree::{Await, Code, Decide, Once, Repeat, Row, Sender};
use std::alloc::{AllocError, Global};
use syntax::{Items, Shared};

/// What the command is to do.
#[cycle(left_of_code)]
pub(crate) fn left_of_code(alloc: Global, code: &Code) -> Result<Shared<ResidualTree>, AllocError>
    ensures { IfOk result (λ made. residual_of_tree made ≡ residual (code_view code.now)) }
{
    match code {
        Code::Continue => ResidualTree::done(alloc),
        Code::Halt => Shared::new(alloc, ResidualTree::Halted),
        Code::Once(once) => left_of_once(alloc, once.get()),
        Code::Sender(sender) => left_of_sender(alloc, sender.get()),
        Code::Repeat(repeat) => left_of_repeat(alloc, repeat.get(), 0),
        Code::Decide(decide) => left_of_decide(alloc, decide.get()),
        Code::Await(waiting) => left_of_await(alloc, waiting.get()),
        Code::InTurn(row) => left_in_turn(alloc, row.get()),
        Code::SideBySide(row) => left_side_by_side(alloc, row.get()),
        Code::Drain(channel) => Shared::new(alloc, ResidualTree::Drain(*channel, 0)),
    }
}

/// An assignment or a receive.
pub(crate) fn left_of_once(alloc: Global, once: &Once) -> Result<Shared<ResidualTree>, AllocError>
    ensures { IfOk result (λ made. residual_of_tree made ≡ residual_once (once_view once.now)) }
{
    match once {
        Once::Assign(variable, width, value) => {
            let value = value.copy(alloc)?;
            Shared::new(alloc, ResidualTree::Assign(*variable, *width, value))
        }
        Once::Receive(channel, variable) => Shared::new(
            alloc,
            ResidualTree::Receive(*channel, *variable),
        ),
    }
}

/// A send or sync.
pub(crate) fn left_of_sender(
    alloc: Global,
    sender: &Sender,
) -> Result<Shared<ResidualTree>, AllocError>
    ensures { IfOk result (λ made. residual_of_tree made ≡ residual_sender (sender_view sender.now)) }
{
    match sender {
        Sender::Send(channel, width, value) => {
            let value = value.copy(alloc)?;
            Shared::new(alloc, ResidualTree::Send(*channel, *width, value))
        }
        Sender::Sync(channel) => Shared::new(alloc, ResidualTree::Sync(*channel)),
    }
}

/// A loop before this turn.
#[cycle(left_of_code)]
pub(crate) fn left_of_repeat(
    alloc: Global,
    repeat: &Repeat,
    turn: u64,
) -> Result<Shared<ResidualTree>, AllocError>
    ensures { IfOk result (λ made.
        residual_of_tree made ≡ again turn (repeat_view repeat.now).0 (residual (repeat_view repeat.now).1)) }
{
    let body = left_of_code(alloc, &repeat.body)?;
    match &repeat.guard {
        Some(guard) => {
            let guard = guard.copy(alloc)?;
            Shared::new(alloc, ResidualTree::While(turn, guard, body))
        }
        None => Shared::new(alloc, ResidualTree::Loop(turn, body)),
    }
}

/// An `if` or `case` before its test.
#[cycle(left_of_code)]
pub(crate) fn left_of_decide(
    alloc: Global,
    decide: &Decide,
) -> Result<Shared<ResidualTree>, AllocError>
    ensures { IfOk result (λ made.
        residual_of_tree made ≡ model.test (decide_view decide.now).0 (residual_arms (decide_view decide.now).1)) }
{
    let decision = decide.decision.copy(alloc)?;
    let arms = lefts_of_codes(alloc, decide.arms.as_slice())?;
    ResidualTree::test(alloc, decision, arms)
}

/// Arms that wait on their channels.
#[cycle(left_of_code)]
pub(crate) fn left_of_await(
    alloc: Global,
    waiting: &Await,
) -> Result<Shared<ResidualTree>, AllocError>
    ensures { IfOk result (λ made.
        residual_of_tree made ≡ model.choose (await_view waiting.now).0 (residual_arms (await_view waiting.now).1)) }
{
    let arms = lefts_of_codes(alloc, waiting.arms.as_slice())?;
    choose(alloc, waiting.channels.as_slice(), arms)
}

/// Arms that wait on these channels.
fn choose(
    alloc: Global,
    channels: &[u32],
    arms: Items<Shared<ResidualTree>>,
) -> Result<Shared<ResidualTree>, AllocError>
    ensures { IfOk result (λ made.
        residual_of_tree made ≡ model.choose channels.now (arms_of (map residual_of_tree arms) None)) }
{
    let arms = Shared::new(alloc, arms)?;
    let channels = Vec::from_slice(alloc, channels)?;
    Shared::new(alloc, ResidualTree::Choose(Items::from_vec(channels), arms))
}

/// Children one after another.
#[cycle(left_of_code)]
fn left_in_turn(alloc: Global, row: &Row) -> Result<Shared<ResidualTree>, AllocError>
    ensures { IfOk result (λ made. residual_of_tree made ≡ residual_sequence 0 (row_view row.now)) }
{
    let children = lefts_of_codes(alloc, row.codes.as_slice())?;
    in_sequence(alloc, children)
}

/// Children side by side.
#[cycle(left_of_code)]
fn left_side_by_side(alloc: Global, row: &Row) -> Result<Shared<ResidualTree>, AllocError>
    ensures { IfOk result (λ made. residual_of_tree made ≡ residual_parallel 0 (row_view row.now)) }
{
    let children = lefts_of_codes(alloc, row.codes.as_slice())?;
    in_parallel(alloc, children)
}

/// What each of the commands is to do.
#[cycle(left_of_code)]
fn lefts_of_codes(alloc: Global, codes: &[Code]) -> Result<Items<Shared<ResidualTree>>, AllocError>
    ensures { IfOk result (λ made. map residual_of_tree made ≡ map (λ c. residual (code_view c)) codes.now) }
{
    let mut lefts = Items::with_capacity(alloc, codes.len())?;
    for code in codes {
        lefts.push(left_of_code(alloc, code)?)?;
    }
    Ok(lefts)
}
