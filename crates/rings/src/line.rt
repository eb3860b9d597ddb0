// Children one after another: the first that is at work, and what is sought in those behind it.
ghost use Rattle.std.specs.Prelude.{◌≡◌, ◌++◌, IfOk, OnOk};
ghost use Rattle.rings.specs.internal.Ends as model;

use crate::ends::{Found, Summary, add_soughts, add_under, at_entry, behind_entry, within};
use crate::sought::Sought;
use address::Entry;
use std::alloc::{AllocError, Global};
use std::collections::BTreeSet;

/// What stands behind a child at work. All that is sought there comes behind that child, so its places do not count.
#[derive(Drop)]
pub(crate) enum Tail {
    /// nothing is left to do there
    Over,
    /// something is: whether it never ends, and what is sought there
    AtWork(bool, Vec<Sought>),
}

/// Children one after another.
#[derive(Drop)]
pub(crate) enum Line {
    /// nothing is left to do there
    Over,
    /// the first that is at work: its entry, whether it never ends, the ends in it, and what stands behind it
    AtWork(Entry, bool, Vec<Found>, Tail),
}

/// The children with one more, at this entry, before them.
pub(crate) fn with_first(
    alloc: Global,
    entry: Entry,
    child: Summary,
    line: Line,
) -> Result<Line, AllocError>
    ensures sum { IfOk result (λ made.
        model.line_sum made
        ≡ model.in_row entry (model.sum_of child) (model.line_sum line) (model.line_tail line)) }
    ensures behind { IfOk result (λ made.
        model.line_tail made ≡ model.tail_before (model.sum_of child) (model.line_tail line)) }
{
    match child {
        Summary::Over => Ok(line),
        Summary::AtWork(endless, ends) => {
            let tail = into_tail(alloc, line)?;
            Ok(Line::AtWork(entry, endless, ends, tail))
        }
        Summary::InTurns(endless, soughts) => {
            let ends = within(alloc, soughts.as_slice())?;
            let tail = into_tail(alloc, line)?;
            Ok(Line::AtWork(entry, endless, ends, tail))
        }
    }
}

/// The ends in the children.
pub(crate) fn in_line(alloc: Global, line: Line) -> Result<Summary, AllocError>
    ensures { IfOk result (λ made. model.sum_of made ≡ model.line_sum line) }
{
    match line {
        Line::Over => Ok(Summary::Over),
        Line::AtWork(entry, endless, ends, tail) => {
            behind_work(alloc, entry, endless, ends, &tail)
        }
    }
}

/// In the child at this entry, or in what comes behind it.
pub(crate) fn after(
    alloc: Global,
    entry: Entry,
    child: Summary,
    rest: Summary,
) -> Result<Summary, AllocError>
    ensures { IfOk result (λ made.
        model.sum_of made ≡ model.after entry (model.sum_of child) (model.sum_of rest)) }
{
    match child {
        Summary::Over => Ok(rest),
        Summary::AtWork(endless, ends) => {
            let tail = tail_of(alloc, rest)?;
            behind_work(alloc, entry, endless, ends, &tail)
        }
        Summary::InTurns(endless, soughts) => {
            let ends = within(alloc, soughts.as_slice())?;
            let tail = tail_of(alloc, rest)?;
            behind_work(alloc, entry, endless, ends, &tail)
        }
    }
}

/// The children as they stand behind another one.
fn into_tail(alloc: Global, line: Line) -> Result<Tail, AllocError>
    ensures { IfOk result (λ tail. model.tail_as tail ≡ model.line_tail line) }
{
    match line {
        Line::Over => Ok(Tail::Over),
        Line::AtWork(_, endless, ends, tail) => longer(alloc, endless, ends.as_slice(), tail),
    }
}

/// A part at work with these ends, and what stands behind it.
fn longer(alloc: Global, endless: bool, ends: &[Found], tail: Tail) -> Result<Tail, AllocError>
    ensures { IfOk result (λ made. model.tail_as made ≡ model.longer endless ends.now (model.tail_as tail)) }
{
    if endless {
        return alone(alloc, true, ends);
    }
    match tail {
        Tail::Over => alone(alloc, false, ends),
        Tail::AtWork(endless, mut soughts) => {
            add_soughts(ends, &mut soughts)?;
            Ok(Tail::AtWork(endless, soughts))
        }
    }
}

/// A part as it stands behind a child.
#[tactic(auto, using(crate::proofs::Turns::soughts_within))]
fn tail_of(alloc: Global, part: Summary) -> Result<Tail, AllocError>
    ensures { IfOk result (λ tail. model.tail_as tail ≡ model.tail_of (model.sum_of part)) }
{
    match part {
        Summary::Over => Ok(Tail::Over),
        Summary::AtWork(endless, ends) => alone(alloc, endless, ends.as_slice()),
        Summary::InTurns(endless, soughts) => Ok(Tail::AtWork(endless, soughts)),
    }
}

/// A part at work with these ends, and nothing behind it.
fn alone(alloc: Global, endless: bool, ends: &[Found]) -> Result<Tail, AllocError>
    ensures { IfOk result (λ tail. model.tail_as tail ≡ model.tail endless (model.soughts ends.now)) }
{
    let mut soughts = Vec::with_capacity(alloc, ends.len())?;
    add_soughts(ends, &mut soughts)?;
    Ok(Tail::AtWork(endless, soughts))
}

/// In the child at this entry, where these ends are and something is left to do, or in what comes behind it.
fn behind_work(
    alloc: Global,
    entry: Entry,
    endless: bool,
    ends: Vec<Found>,
    tail: &Tail,
) -> Result<Summary, AllocError>
    ensures { IfOk result (λ made.
        model.sum_of made ≡ model.behind_work entry endless ends.items (model.tail_as tail.now)) }
{
    if endless {
        return at_entry(alloc, entry, true, ends);
    }
    match tail {
        Tail::Over => at_entry(alloc, entry, false, ends),
        Tail::AtWork(endless, soughts) => {
            both_in_turn(alloc, entry, ends, *endless, soughts.as_slice())
        }
    }
}

/// In the child at this entry, and behind it what is not in it.
fn both_in_turn(
    alloc: Global,
    entry: Entry,
    ends: Vec<Found>,
    endless: bool,
    soughts: &[Sought],
) -> Result<Summary, AllocError>
    ensures { IfOk result (λ made.
        model.sum_of made
        ≡ model.working endless (model.later entry ends.items soughts.now ++ model.under entry ends.items)) }
{
    let passed = numbers_of(alloc, ends.as_slice())?;
    let mut all = Vec::with_capacity(alloc, ends.len())?;
    add_later(alloc, entry, &passed, soughts, &mut all)?;
    add_under(entry, ends, &mut all)?;
    Ok(Summary::AtWork(endless, all))
}

/// The numbers of what is sought at these ends.
fn numbers_of(alloc: Global, ends: &[Found]) -> Result<BTreeSet<u64>, AllocError>
    ensures { IfOk result (λ numbers. model.HasNumbers numbers ends.now) }
{
    let mut numbers = BTreeSet::new(alloc);
    for end in ends {
        numbers.insert(end.sought.number())?;
    }
    Ok(numbers)
}

/// Adds what comes behind the child at this entry, but for what has these numbers.
fn add_later(
    alloc: Global,
    entry: Entry,
    passed: &BTreeSet<u64>,
    soughts: &[Sought],
    ends: &mut Vec<Found>,
) -> Result<(), AllocError>
    ensures { OnOk result (ends.new.items
        ≡ ends.old.items ++ model.later_but (model.is_in passed.now) entry soughts.now) }
{
    for sought in soughts {
        if !passed.contains(&sought.number()) {
            ends.push(behind_entry(alloc, entry, *sought)?)?;
        }
    }
    Ok(())
}
