// Local moves in memory: the move that is asked for at a place, and what is left after it.
ghost use Rattle.std.specs.Prelude.{◌≡◌, IfOk, IsFalse};
ghost use Rattle.runs.specs.internal.After as model;
ghost use Rattle.calculus.specs.ResidualTree.{residual_of_tree};
ghost use Rattle.calculus.specs.internal.Meanings.{answer_of};
ghost use Rattle.calculus.specs.internal.Passed.{is_passed};

use crate::answers;
use crate::moves::Moved;
use crate::place::{below_branch, below_child};
use crate::residual_tree::ResidualTree;
use address::Entry;
use runs::Ask;
use std::alloc::{AllocError, Global};
use syntax::Items;

/// The move that is asked of the tree at the place, and what is left after it. `None` where there is no such move. It
/// goes along branches by a loop, so that many take no stack.
#[cycle(after)]
#[tactic(auto)]
pub(crate) fn after(
    alloc: Global,
    ask: Ask,
    left: &ResidualTree,
    place: &[Entry],
) -> Result<Option<Moved>, AllocError>
    ensures { IfOk result (λ r. answer_of r ≡ model.after ask (residual_of_tree left.now) place.now) }
{
    let mut passed = Items::new(alloc);
    let mut left = left;
    'passing: loop {
        match left {
            ResidualTree::Beside(number, child, rest) => {
                if below_branch(place, *number).is_some() {
                    break 'passing;
                }
                passed.push((*number, child.clone()?))?;
                left = rest.get();
            }
            _ => break 'passing,
        }
    }
    let answer = last_after(alloc, ask, left, place)?;
    answers::beside(alloc, passed, answer)
}

/// The same, but not beside a branch in which the place is not.
#[cycle(after)]
fn last_after(
    alloc: Global,
    ask: Ask,
    left: &ResidualTree,
    place: &[Entry],
) -> Result<Option<Moved>, AllocError>
    requires { IsFalse (is_passed place.now (residual_of_tree left.now)) }
    ensures { IfOk result (λ r. answer_of r ≡ model.after ask (residual_of_tree left.now) place.now) }
{
    match left {
        ResidualTree::Done | ResidualTree::Halted => Ok(None),
        ResidualTree::Inside(number, child, next) => match below_child(place, *number) {
            Some(below) => {
                let answer = after(alloc, ask, child.get(), below)?;
                answers::inside(alloc, *number, answer, next)
            }
            None => Ok(None),
        },
        ResidualTree::Beside(number, child, rest) => match below_branch(place, *number) {
            Some(below) => {
                let answer = after(alloc, ask, child.get(), below)?;
                answers::in_branch(alloc, *number, answer, rest)
            }
            None => unreachable!(),
        },
        ResidualTree::Assign(variable, width, value) => {
            answers::assign(alloc, ask, place, *variable, *width, value)
        }
        ResidualTree::Send(channel, width, value) => {
            answers::send(alloc, ask, place, *channel, *width, value)
        }
        ResidualTree::Receive(channel, variable) => {
            answers::receive(alloc, ask, place, *channel, *variable)
        }
        ResidualTree::Sync(channel) => answers::sync(alloc, ask, place, *channel),
        ResidualTree::Held(channel) => answers::held(alloc, ask, place, *channel),
        ResidualTree::Loop(turn, body) => answers::repeat(alloc, ask, place, *turn, body),
        ResidualTree::While(turn, guard, body) => {
            answers::repeat_while(alloc, ask, place, *turn, guard, body)
        }
        ResidualTree::Test(decision, arms) => {
            answers::test(alloc, ask, place, decision, arms.get())
        }
        ResidualTree::Choose(channels, arms) => {
            answers::choose(alloc, ask, place, channels.as_slice(), arms.get())
        }
        ResidualTree::Closing(channel) => answers::close(alloc, ask, place, *channel),
        ResidualTree::Drain(channel, act) => answers::drain(alloc, ask, place, *channel, *act),
    }
}
