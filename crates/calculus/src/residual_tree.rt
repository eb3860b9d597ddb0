ghost use Rattle.std.specs.Prelude.{◌≡◌, map, IfOk, IsFalse};
ghost use Rattle.system.specs.Residual as model;
ghost use Rattle.system.specs.Expression.{put_value, put_decision};
ghost use Rattle.system.specs.Translation.{expression_of, arms_of, decision_of};
ghost use Rattle.calculus.specs.ResidualTree.{residual_of_tree};
ghost use Rattle.runs.specs.internal.After.{is_done};
ghost use Rattle.calculus.specs.internal.Passed.{along_all, before, behind, goes_on};

use std::alloc::{AllocError, Global};
use syntax::{Items, Shared};
use system::{Decision, Expression};
use value::{Value, Width};

/// What is still to do at a place: a tree without its finished parts, with a copy of every expression in it. Trees
/// share their parts.
pub enum ResidualTree {
    Done,
    Halted,
    /// a child in order, and what comes after it
    Inside(u64, Shared<ResidualTree>, Shared<ResidualTree>),
    /// a child in a branch, and the other branches
    Beside(u64, Shared<ResidualTree>, Shared<ResidualTree>),
    Assign(u32, Width, Expression),
    Send(u32, Width, Expression),
    /// on the channel, into the variable
    Receive(u32, u32),
    Sync(u32),
    /// a send or sync whose partner has opened and not yet closed
    Held(u32),
    /// a loop before the turn of this number
    Loop(u64, Shared<ResidualTree>),
    /// a while loop before the test of this number
    While(u64, Expression, Shared<ResidualTree>),
    Test(Decision, Shared<Items<Shared<ResidualTree>>>),
    /// the channel of each arm, and the arms
    Choose(Items<u32>, Shared<Items<Shared<ResidualTree>>>),
    /// the close of an opened arm, on its channel
    Closing(u32),
    /// receives on an output port, before the act of this number
    Drain(u32, u64),
}

// A loop along a sequence or branches, so that many take no stack.
impl Drop for ResidualTree {
    fn drop(mut self) {
        loop {
            match self {
                ResidualTree::Inside(_, _child, next) => match next.into_inner() {
                    Some(next) => self = next,
                    None => return,
                },
                ResidualTree::Beside(_, _child, rest) => match rest.into_inner() {
                    Some(rest) => self = rest,
                    None => return,
                },
                ResidualTree::Done | ResidualTree::Halted => return,
                ResidualTree::Assign(_, _, _) | ResidualTree::Send(_, _, _) => return,
                ResidualTree::Receive(_, _) | ResidualTree::Sync(_) | ResidualTree::Held(_) =>
                    return,
                ResidualTree::Loop(_, _) | ResidualTree::While(_, _, _) => return,
                ResidualTree::Test(_, _) | ResidualTree::Choose(_, _) => return,
                ResidualTree::Closing(_) | ResidualTree::Drain(_, _) => return,
            }
        }
    }
}

impl ResidualTree {
    /// Nothing.
    pub fn done(alloc: Global) -> Result<Shared<ResidualTree>, AllocError>
        ensures { IfOk result (λ made. residual_of_tree made ≡ model.done) }
    {
        Shared::new(alloc, ResidualTree::Done)
    }

    /// A test with these arms.
    pub fn test(
        alloc: Global,
        decision: Decision,
        arms: Items<Shared<ResidualTree>>,
    ) -> Result<Shared<ResidualTree>, AllocError>
        ensures { IfOk result (λ made.
            residual_of_tree made ≡ model.test (decision_of decision) (arms_of (map residual_of_tree arms) None)) }
    {
        let arms = Shared::new(alloc, arms)?;
        Shared::new(alloc, ResidualTree::Test(decision, arms))
    }

    /// Whether nothing is left.
    pub(crate) fn is_done(&self) -> bool
        ensures { result ≡ is_done (residual_of_tree self.now) }
    {
        match self {
            ResidualTree::Done => true,
            ResidualTree::Halted
            | ResidualTree::Inside(_, _, _)
            | ResidualTree::Beside(_, _, _)
            | ResidualTree::Assign(_, _, _)
            | ResidualTree::Send(_, _, _)
            | ResidualTree::Receive(_, _)
            | ResidualTree::Sync(_)
            | ResidualTree::Held(_)
            | ResidualTree::Loop(_, _)
            | ResidualTree::While(_, _, _)
            | ResidualTree::Test(_, _)
            | ResidualTree::Choose(_, _)
            | ResidualTree::Closing(_)
            | ResidualTree::Drain(_, _) => false,
        }
    }
}

/// A child that was passed on the way along a sequence or along branches.
#[derive(Drop)]
pub(crate) enum Passed {
    /// a child in order
    InOrder(u64, Shared<ResidualTree>),
    /// a child in a branch
    InBranch(u64, Shared<ResidualTree>),
}

/// The tree in which the value, cut or widened to the channel's width, stands for each name of the channel. It goes
/// along a sequence or branches by a loop, so that many take no stack.
#[cycle(received)]
#[tactic(auto, using(crate::proofs::Passing::passes_inside, crate::proofs::Passing::passes_beside))]
pub fn with_received(
    alloc: Global,
    left: &ResidualTree,
    channel: u32,
    value: Value,
) -> Result<Shared<ResidualTree>, AllocError>
    ensures { IfOk result (λ made.
        residual_of_tree made ≡ model.put_residual channel value (residual_of_tree left.now)) }
{
    let mut passed = Items::new(alloc);
    let mut left = left;
    'passing: loop {
        match left {
            ResidualTree::Inside(number, child, next) => {
                let child = with_received(alloc, child.get(), channel, value)?;
                passed.push(Passed::InOrder(*number, child))?;
                left = next.get();
            }
            ResidualTree::Beside(number, child, rest) => {
                let child = with_received(alloc, child.get(), channel, value)?;
                passed.push(Passed::InBranch(*number, child))?;
                left = rest.get();
            }
            _ => break 'passing,
        }
    }
    let last = last_with_received(alloc, left, channel, value)?;
    behind(alloc, passed, last)
}

/// The same of what has nothing behind it.
#[cycle(received)]
fn last_with_received(
    alloc: Global,
    left: &ResidualTree,
    channel: u32,
    value: Value,
) -> Result<Shared<ResidualTree>, AllocError>
    requires { IsFalse (goes_on (residual_of_tree left.now)) }
    ensures { IfOk result (λ made.
        residual_of_tree made ≡ model.put_residual channel value (residual_of_tree left.now)) }
{
    match left {
        ResidualTree::Inside(_, _, _) => unreachable!(),
        ResidualTree::Beside(_, _, _) => unreachable!(),
        ResidualTree::Assign(variable, width, written) => {
            assign_received(alloc, *variable, *width, written, channel, value)
        }
        ResidualTree::Send(on, width, sent) => send_received(
            alloc, *on, *width, sent, channel, value,
        ),
        ResidualTree::Loop(turn, body) => {
            let body = with_received(alloc, body.get(), channel, value)?;
            Shared::new(alloc, ResidualTree::Loop(*turn, body))
        }
        ResidualTree::While(turn, guard, body) => {
            let body = with_received(alloc, body.get(), channel, value)?;
            while_received(alloc, *turn, guard, body, channel, value)
        }
        ResidualTree::Test(decision, arms) => {
            let arms = all_with_received(alloc, arms.get().as_slice(), channel, value)?;
            test_received(alloc, decision, arms, channel, value)
        }
        ResidualTree::Choose(channels, arms) => {
            let arms = all_with_received(alloc, arms.get().as_slice(), channel, value)?;
            choose_again(alloc, channels.as_slice(), arms)
        }
        ResidualTree::Done => Shared::new(alloc, ResidualTree::Done),
        ResidualTree::Halted => Shared::new(alloc, ResidualTree::Halted),
        ResidualTree::Receive(on, variable) => Shared::new(
            alloc,
            ResidualTree::Receive(*on, *variable),
        ),
        ResidualTree::Sync(on) => Shared::new(alloc, ResidualTree::Sync(*on)),
        ResidualTree::Held(on) => Shared::new(alloc, ResidualTree::Held(*on)),
        ResidualTree::Closing(on) => Shared::new(alloc, ResidualTree::Closing(*on)),
        ResidualTree::Drain(on, act) => Shared::new(alloc, ResidualTree::Drain(*on, *act)),
    }
}

/// An assignment in which the value stands for each name of the channel.
fn assign_received(
    alloc: Global,
    variable: u32,
    width: Width,
    written: &Expression,
    channel: u32,
    value: Value,
) -> Result<Shared<ResidualTree>, AllocError>
    ensures { IfOk result (λ made.
        residual_of_tree made ≡ model.assign variable width (put_value channel value (expression_of written.now))) }
{
    let written = written.with_received(alloc, channel, value)?;
    Shared::new(alloc, ResidualTree::Assign(variable, width, written))
}

/// A send in which the value stands for each name of the channel.
fn send_received(
    alloc: Global,
    on: u32,
    width: Width,
    sent: &Expression,
    channel: u32,
    value: Value,
) -> Result<Shared<ResidualTree>, AllocError>
    ensures { IfOk result (λ made.
        residual_of_tree made ≡ model.send on width (put_value channel value (expression_of sent.now))) }
{
    let sent = sent.with_received(alloc, channel, value)?;
    Shared::new(alloc, ResidualTree::Send(on, width, sent))
}

/// A while loop with this body, in whose guard the value stands for each name of the channel.
fn while_received(
    alloc: Global,
    turn: u64,
    guard: &Expression,
    body: Shared<ResidualTree>,
    channel: u32,
    value: Value,
) -> Result<Shared<ResidualTree>, AllocError>
    ensures { IfOk result (λ made.
        residual_of_tree made
        ≡ model.while turn (put_value channel value (expression_of guard.now)) (residual_of_tree body)) }
{
    let guard = guard.with_received(alloc, channel, value)?;
    Shared::new(alloc, ResidualTree::While(turn, guard, body))
}

/// A test with these arms, in whose decision the value stands for each name of the channel.
fn test_received(
    alloc: Global,
    decision: &Decision,
    arms: Shared<Items<Shared<ResidualTree>>>,
    channel: u32,
    value: Value,
) -> Result<Shared<ResidualTree>, AllocError>
    ensures { IfOk result (λ made.
        residual_of_tree made
        ≡ model.test (put_decision channel value (decision_of decision.now))
        (arms_of (map residual_of_tree arms) None)) }
{
    let decision = decision.with_received(alloc, channel, value)?;
    Shared::new(alloc, ResidualTree::Test(decision, arms))
}

/// Arms that wait on the same channels.
fn choose_again(
    alloc: Global,
    channels: &[u32],
    arms: Shared<Items<Shared<ResidualTree>>>,
) -> Result<Shared<ResidualTree>, AllocError>
    ensures { IfOk result (λ made.
        residual_of_tree made ≡ model.choose channels.now (arms_of (map residual_of_tree arms) None)) }
{
    let channels = Vec::from_slice(alloc, channels)?;
    Shared::new(alloc, ResidualTree::Choose(Items::from_vec(channels), arms))
}

/// Arms in which the value stands for each name of the channel.
#[cycle(received)]
fn all_with_received(
    alloc: Global,
    arms: &[Shared<ResidualTree>],
    channel: u32,
    value: Value,
) -> Result<Shared<Items<Shared<ResidualTree>>>, AllocError>
    ensures { IfOk result (λ made.
        arms_of (map residual_of_tree made) None
        ≡ model.put_arms channel value (arms_of (map residual_of_tree arms.now) None)) }
{
    let mut copies = Items::with_capacity(alloc, arms.len())?;
    for arm in arms {
        copies.push(with_received(alloc, arm.get(), channel, value)?)?;
    }
    Shared::new(alloc, copies)
}

/// What is behind those that were passed, and they before it.
#[tactic(auto, using(crate::proofs::Passing::behind_last))]
fn behind(
    alloc: Global,
    passed: Items<Passed>,
    last: Shared<ResidualTree>,
) -> Result<Shared<ResidualTree>, AllocError>
    ensures { IfOk result (λ made. residual_of_tree made ≡ behind passed (residual_of_tree last)) }
{
    let mut left = last;
    let mut passed = passed;
    while let Some(child) = passed.pop() {
        left = before(alloc, child, left)?;
    }
    Ok(left)
}

/// The child that was passed, and the rest behind it.
fn before(
    alloc: Global,
    child: Passed,
    rest: Shared<ResidualTree>,
) -> Result<Shared<ResidualTree>, AllocError>
    ensures { IfOk result (λ made. residual_of_tree made ≡ before child (residual_of_tree rest)) }
{
    match child {
        Passed::InOrder(number, child) => Shared::new(
            alloc,
            ResidualTree::Inside(number, child, rest),
        ),
        Passed::InBranch(number, child) => Shared::new(
            alloc,
            ResidualTree::Beside(number, child, rest),
        ),
    }
}

/// The child at a place in order and then what comes next; a finished child is erased.
#[tactic(auto, using(crate::proofs::Arms::within_is))]
pub fn within(
    alloc: Global,
    number: u64,
    child: Shared<ResidualTree>,
    next: Shared<ResidualTree>,
) -> Result<Shared<ResidualTree>, AllocError>
    ensures { IfOk result (λ made.
        residual_of_tree made ≡ model.within number (residual_of_tree child) (residual_of_tree next)) }
{
    if child.get().is_done() {
        Ok(next)
    } else {
        Shared::new(alloc, ResidualTree::Inside(number, child, next))
    }
}

/// The child in a branch beside the other branches; a finished child is erased.
#[tactic(auto, using(crate::proofs::Arms::along_is))]
pub fn along(
    alloc: Global,
    number: u64,
    child: Shared<ResidualTree>,
    rest: Shared<ResidualTree>,
) -> Result<Shared<ResidualTree>, AllocError>
    ensures { IfOk result (λ made.
        residual_of_tree made ≡ model.along number (residual_of_tree child) (residual_of_tree rest)) }
{
    if child.get().is_done() {
        Ok(rest)
    } else {
        Shared::new(alloc, ResidualTree::Beside(number, child, rest))
    }
}

/// The branches that were passed, and the rest beside them; a finished branch is erased.
#[tactic(auto, using(crate::proofs::Passing::along_last))]
pub(crate) fn along_all(
    alloc: Global,
    passed: Items<(u64, Shared<ResidualTree>)>,
    last: Shared<ResidualTree>,
) -> Result<Shared<ResidualTree>, AllocError>
    ensures { IfOk result (λ made. residual_of_tree made ≡ along_all passed (residual_of_tree last)) }
{
    let mut left = last;
    let mut passed = passed;
    while let Some((number, child)) = passed.pop() {
        left = along(alloc, number, child, left)?;
    }
    Ok(left)
}
