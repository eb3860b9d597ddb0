// The offers of commands that have made no move.
ghost use Rattle.std.specs.Prelude.{◌≡◌, map, IfOk, OnOk};
ghost use Rattle.process_tree.specs.Proc.{started, all_started};
ghost use Rattle.process_tree.specs.Translation.{row_of};
ghost use Rattle.process_tree.specs.View.{code_view};
ghost use Rattle.process_tree.specs.internal.Listed.{listed, listed_sequence, listed_parallel, added, lists, lists_at};

use crate::code::Code;
use crate::finder::Finder;
use crate::leaf_offers::{list_again, list_arms, list_drain, list_once, list_sender, list_test};
use address::Entry;
use std::alloc::{AllocError, Global};

/// Lists what the command offers before its first move. Whether it has nothing to do; then nothing is listed.
#[cycle(list_fresh)]
fn list_fresh(alloc: Global, code: &Code, finder: &mut Finder) -> Result<bool, AllocError>
    ensures offers { OnOk result (finder.new ≡ lists (started (code_view code.now)) finder.old) }
    ensures over { IfOk result (λ over. over ≡ (listed (started (code_view code.now))).over) }
{
    match code {
        Code::Continue => return Ok(true),
        Code::Halt => {}
        Code::Once(once) => list_once(alloc, once.get(), finder)?,
        Code::Sender(sender) => list_sender(alloc, sender.get(), finder)?,
        Code::Repeat(repeat) => list_again(alloc, &repeat.get().guard, 0, finder)?,
        Code::Decide(_) => list_test(alloc, finder)?,
        Code::Await(waiting) => list_arms(alloc, waiting.get().channels.as_slice(), finder)?,
        Code::InTurn(row) => {
            return list_fresh_from(alloc, row.get().codes.as_slice(), 0, finder);
        }
        Code::SideBySide(row) => {
            return list_fresh_all(alloc, row.get().codes.as_slice(), finder);
        }
        Code::Drain(channel) => list_drain(alloc, *channel, 0, finder)?,
    }
    Ok(false)
}

/// Lists what the commands offer one after another, from the one of this number on. Whether none of them has anything
/// to do.
#[cycle(list_fresh)]
pub(crate) fn list_fresh_from(
    alloc: Global,
    codes: &[Code],
    from: usize,
    finder: &mut Finder,
) -> Result<bool, AllocError>
    ensures offers { OnOk result (finder.new
        ≡ added (listed_sequence from 0 (all_started (row_of (map code_view codes.now)))).offers finder.old) }
    ensures over { IfOk result (λ over.
        over ≡ (listed_sequence from 0 (all_started (row_of (map code_view codes.now)))).over) }
{
    let mut number = from;
    'children: while number < codes.len() {
        if !list_fresh_child(alloc, &codes[number], number as u64, finder)? {
            return Ok(false);
        }
        number += 1;
    }
    Ok(true)
}

/// Lists what the command of this number in a sequence offers.
#[cycle(list_fresh)]
#[tactic(auto, using(crate::proofs::Finding::through))]
fn list_fresh_child(
    alloc: Global,
    code: &Code,
    number: u64,
    finder: &mut Finder,
) -> Result<bool, AllocError>
    ensures offers { OnOk result (finder.new
        ≡ lists_at (Entry.Ordered number) (started (code_view code.now)) finder.old) }
    ensures over { IfOk result (λ over. over ≡ (listed (started (code_view code.now))).over) }
{
    finder.enter_child(number)?;
    let over = list_fresh(alloc, code, finder)?;
    finder.leave();
    Ok(over)
}

/// Lists what the commands offer side by side. Whether none of them has anything to do.
#[cycle(list_fresh)]
fn list_fresh_all(alloc: Global, codes: &[Code], finder: &mut Finder) -> Result<bool, AllocError>
    ensures offers { OnOk result (finder.new
        ≡ added (listed_parallel 0 (all_started (row_of (map code_view codes.now)))).offers finder.old) }
    ensures over { IfOk result (λ over.
        over ≡ (listed_parallel 0 (all_started (row_of (map code_view codes.now)))).over) }
{
    let mut over = true;
    for (number, code) in codes.iter().enumerate() {
        if !list_fresh_branch(alloc, code, number as u64, finder)? {
            over = false;
        }
    }
    Ok(over)
}

/// Lists what the command in this branch of a parallel offers.
#[cycle(list_fresh)]
#[tactic(auto, using(crate::proofs::Finding::through))]
fn list_fresh_branch(
    alloc: Global,
    code: &Code,
    number: u64,
    finder: &mut Finder,
) -> Result<bool, AllocError>
    ensures offers { OnOk result (finder.new
        ≡ lists_at (Entry.Branch number) (started (code_view code.now)) finder.old) }
    ensures over { IfOk result (λ over. over ≡ (listed (started (code_view code.now))).over) }
{
    finder.enter_branch(number)?;
    let over = list_fresh(alloc, code, finder)?;
    finder.leave();
    Ok(over)
}
