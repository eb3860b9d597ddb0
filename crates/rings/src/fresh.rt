// The walk through commands that have made no move.
ghost use Rattle.std.specs.Prelude.{◌≡◌, ◌++◌, map, IfOk, OnOk};
ghost use Rattle.process_tree.specs.Translation.{row_of};
ghost use Rattle.process_tree.specs.View.{await_view, code_view, once_view, repeat_view, sender_view};
ghost use Rattle.rings.specs.internal.Ends as model;

use crate::ends::{
    Found, Kind, Summary, add_both, add_here, beside, in_turns, none_here, one_here,
};
use crate::line::{Line, in_line, with_first};
use crate::sought::Sought;
use crate::way::{branch, ordered};
use process_tree::{Await, Code, Once, Repeat, Sender};
use std::alloc::{AllocError, Global};

/// The ends in the command on the channels that are wanted.
#[cycle(look_fresh)]
pub(crate) fn look_fresh(alloc: Global, code: &Code, wanted: &[bool]) -> Result<Summary, AllocError>
    ensures { IfOk result (λ found. model.sum_of found ≡ model.code_sum wanted.now (code_view code.now)) }
{
    match code {
        Code::Continue => Ok(Summary::Over),
        Code::Halt => Ok(none_here(alloc, true)),
        Code::Once(once) => look_unmade(alloc, once.get(), wanted),
        Code::Sender(sender) => look_waiting(alloc, sender.get(), wanted),
        Code::Repeat(repeat) => look_again(alloc, repeat.get(), wanted),
        Code::Decide(decide) => look_tests(alloc, decide.get().arms.as_slice(), wanted),
        Code::Await(waiting) => look_arms(alloc, waiting.get(), wanted),
        Code::InTurn(row) => look_in_turn(alloc, row.get().codes.as_slice(), wanted),
        Code::SideBySide(row) => look_abreast(alloc, row.get().codes.as_slice(), wanted),
        Code::Drain(channel) => { one_here(alloc, wanted, *channel, Sought::Receiver(*channel)) }
    }
}

/// The ends in what moves once, and has not.
pub(crate) fn look_unmade(
    alloc: Global,
    once: &Once,
    wanted: &[bool],
) -> Result<Summary, AllocError>
    ensures { IfOk result (λ found. model.sum_of found ≡ model.once_sum wanted.now (once_view once.now)) }
{
    match once {
        Once::Receive(channel, _) => {
            one_here(alloc, wanted, *channel, Sought::Receiver(*channel))
        }
        Once::Assign(_, _, _) => Ok(none_here(alloc, false)),
    }
}

/// The ends that a send or sync is.
pub(crate) fn look_waiting(
    alloc: Global,
    sender: &Sender,
    wanted: &[bool],
) -> Result<Summary, AllocError>
    ensures { IfOk result (λ found. model.sum_of found ≡ model.sender_sum wanted.now (sender_view sender.now)) }
{
    match sender {
        Sender::Send(channel, _, _) => {
            one_here(alloc, wanted, *channel, Sought::Sender(*channel))
        }
        Sender::Sync(channel) => look_sync(alloc, *channel, wanted),
    }
}

/// The ends that a sync is.
fn look_sync(alloc: Global, channel: u32, wanted: &[bool]) -> Result<Summary, AllocError>
    ensures { IfOk result (λ found. model.sum_of found ≡ model.sync_sum wanted.now channel) }
{
    let mut ends = Vec::new(alloc);
    add_both(
        alloc,
        wanted,
        channel,
        Sought::Sender(channel),
        Sought::Partner(channel),
        &mut ends,
    )?;
    Ok(Summary::AtWork(false, ends))
}

/// The ends in the turns of a loop that are still to come.
#[cycle(look_fresh)]
pub(crate) fn look_again(
    alloc: Global,
    repeat: &Repeat,
    wanted: &[bool],
) -> Result<Summary, AllocError>
    ensures { IfOk result (λ found.
        model.sum_of found
        ≡ model.again_sum wanted.now (repeat_view repeat.now).0 (repeat_view repeat.now).1) }
{
    let body = look_fresh(alloc, &repeat.body, wanted)?;
    in_turns(alloc, repeat.guard.is_none(), body)
}

/// The ends in the arms of a test.
#[cycle(look_fresh)]
pub(crate) fn look_tests(
    alloc: Global,
    arms: &[Code],
    wanted: &[bool],
) -> Result<Summary, AllocError>
    ensures { IfOk result (λ found.
        model.sum_of found ≡ model.tested (model.codes_sum wanted.now (row_of (map code_view arms.now)))) }
{
    let mut ends = Vec::new(alloc);
    gather(alloc, arms, Kind::Within, wanted, &mut ends)?;
    Ok(Summary::AtWork(false, ends))
}

/// The ends at arms that wait, and in them.
#[cycle(look_fresh)]
pub(crate) fn look_arms(
    alloc: Global,
    waiting: &Await,
    wanted: &[bool],
) -> Result<Summary, AllocError>
    ensures { IfOk result (λ found.
        model.sum_of found
        ≡ model.armed wanted.now (await_view waiting.now).0
        (model.codes_sum wanted.now (await_view waiting.now).1)) }
{
    let mut ends = Vec::new(alloc);
    gather(
        alloc,
        waiting.arms.as_slice(),
        Kind::Later,
        wanted,
        &mut ends,
    )?;
    add_arms(alloc, waiting.channels.as_slice(), wanted, &mut ends)?;
    Ok(Summary::AtWork(false, ends))
}

/// Adds the ends that arms on these channels are.
fn add_arms(
    alloc: Global,
    channels: &[u32],
    wanted: &[bool],
    ends: &mut Vec<Found>,
) -> Result<(), AllocError>
    ensures { OnOk result (ends.new.items ≡ ends.old.items ++ model.arm_ends wanted.now channels.now) }
{
    for channel in channels {
        add_both(
            alloc,
            wanted,
            *channel,
            Sought::Receiver(*channel),
            Sought::Partner(*channel),
            ends,
        )?;
    }
    Ok(())
}

/// Adds the ends in the commands as those that come from somewhere here.
#[cycle(look_fresh)]
fn gather(
    alloc: Global,
    codes: &[Code],
    kind: Kind,
    wanted: &[bool],
    ends: &mut Vec<Found>,
) -> Result<(), AllocError>
    ensures { OnOk result (ends.new.items
        ≡ ends.old.items ++ model.gathered kind (model.codes_sum wanted.now (row_of (map code_view codes.now)))) }
{
    for code in codes {
        let part = look_fresh(alloc, code, wanted)?;
        add_here(alloc, kind, &part, ends)?;
    }
    Ok(())
}

/// The ends in commands one after another.
#[cycle(look_fresh)]
fn look_in_turn(alloc: Global, codes: &[Code], wanted: &[bool]) -> Result<Summary, AllocError>
    ensures { IfOk result (λ found.
        model.sum_of found
        ≡ model.sum_in_turn 0 (model.codes_sum wanted.now (row_of (map code_view codes.now)))) }
{
    let mut line = Line::Over;
    let mut number = codes.len();
    'children: while number > 0 {
        number -= 1;
        let entry = ordered(number as u64)?;
        let child = look_fresh(alloc, &codes[number], wanted)?;
        line = with_first(alloc, entry, child, line)?;
    }
    in_line(alloc, line)
}

/// The ends in commands side by side.
#[cycle(look_fresh)]
fn look_abreast(alloc: Global, codes: &[Code], wanted: &[bool]) -> Result<Summary, AllocError>
    ensures { IfOk result (λ found.
        model.sum_of found
        ≡ model.sum_abreast 0 (model.codes_sum wanted.now (row_of (map code_view codes.now)))) }
{
    let mut found = Summary::Over;
    let mut number = codes.len();
    'children: while number > 0 {
        number -= 1;
        let entry = branch(number as u64)?;
        let child = look_fresh(alloc, &codes[number], wanted)?;
        found = beside(alloc, entry, child, found)?;
    }
    Ok(found)
}
