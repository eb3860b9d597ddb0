// Which child uses a channel next.
ghost use Rattle.std.specs.Prelude.{◌≡◌, ℕ, ◌≤◌, ◌<◌, ◌+◌, MatchOption, IfOk, IfSome, length};
ghost use Rattle.process_tree.specs.Code.{Codes};
ghost use Rattle.dependence.specs.LastEvents.{Uses, FirstUse};
ghost use Rattle.channel_uses.specs.Uses.{HoldsExactly, all_used};
ghost use Rattle.channel_uses.specs.internal.Parts.{parts as parts_of, end as end_of, ends_before, AreParts, EndAt, InTable, UnusedFrom, UnusedBetween, UsedIn};

use crate::part::Part;
use dependence::UseTable;
use std::alloc::{AllocError, Global};

/// The uses of the channels in this list, by their numbers.
pub(crate) fn table_of(alloc: Global, channels: &[u32]) -> Result<UseTable, AllocError>
    ensures { IfOk result (λ table. HoldsExactly table channels.now) }
{
    let mut table = UseTable::new(alloc);
    for (number, channel) in channels.iter().enumerate() {
        table.put(*channel, number as u64)?;
    }
    Ok(table)
}

/// The number of the first use of the channel, from one number on and less than another.
fn first_use(table: &UseTable, channel: u32, from: usize, below: usize) -> Option<u64>
    ensures { MatchOption result ((u : ℕ) → Uses table.now channel u → from ≤ u → u < below →
        ⊥) (FirstUse table.now channel from below) }
{
    if from > below {
        return None;
    }
    table.first(channel, from as u64, below as u64)
}

/// How many of the parts end at the use or before it, where they are in order.
fn ended_before(parts: &[Part], found: u64) -> usize
    ensures within { result ≤ length parts.now }
    ensures counted { (cs : Codes) (n : ℕ) → AreParts cs n parts.now → EndAt parts.now found result }
{
    parts.partition_point(
        |part: &Part| -> bool
            ensures { result ≡ ends_before found part.now }
        { part.end as u64 <= found },
    )
}

/// The number of the next child, from this one on, that uses the channel. It is found by two searches, by halves.
pub(crate) fn next_child(table: &UseTable, channel: u32, part: &Part, child: usize) -> Option<usize>
    ensures later { IfSome result (λ k. child ≤ k) }
    ensures unused { (cs : Codes) (n : ℕ) → InTable table.now n (all_used cs) → AreParts cs n (parts_of part.now) →
        end_of part.now ≡ n + length (all_used cs) →
        MatchOption result (UnusedFrom channel cs child) (λ k. UnusedBetween channel cs child k) }
    ensures used { (cs : Codes) (n : ℕ) → AreParts cs n (parts_of part.now) →
        end_of part.now ≡ n + length (all_used cs) →
        IfSome result (λ k. UsedIn table.now channel (parts_of part.now) k) }
{
    let from = part.parts.get(child)?.first;
    let found = first_use(table, channel, from, part.end)?;
    let next = ended_before(part.parts.as_slice(), found);
    if next < child {
        return Some(child);
    }
    Some(next)
}
