// The parts of children, and which child uses a channel next, where the part is known.
ghost use Rattle.std.specs.Prelude.{◌≡◌, ℕ, ◌≤◌, ◌<◌, true, Some, length, slice_get, MatchOption, IfSome};
ghost use Rattle.process_tree.specs.Code.{Codes, code_at};
ghost use Rattle.dependence.specs.declared.uses.UseTable.{UseTable};
ghost use Rattle.channel_uses.specs.internal.Located.{LocatedCode, LocatedRow, NoneBetween};
ghost use Rattle.channel_uses.specs.internal.Parts.{UnusedBetween};

use crate::part::Part;
use crate::search::next_child;
use dependence::UseTable;

/// The part of the child of this number, where it is known.
pub(crate) fn part_at(part: Option<&Part>, child: usize) -> Option<&Part>
    ensures { (table : UseTable) (cs : Codes) → LocatedRow table part.entry cs →
        LocatedCode table result (code_at cs child) }
{
    match part {
        None => None,
        Some(part) => part.parts.get(child),
    }
}

/// The number of the next of so many children, from this one on, that uses the channel, or may use it where the part is
/// not known.
pub(crate) fn next_user(
    table: &UseTable,
    channel: u32,
    part: Option<&Part>,
    child: usize,
    count: usize,
) -> Option<usize>
    ensures within { IfSome result (λ k. (child ≤ k) × (k < count)) }
    ensures unused { (cs : Codes) → LocatedRow table.now part.entry cs →
        MatchOption result (UnusedBetween channel cs child count) (λ k. UnusedBetween channel cs child k) }
{
    let next = match part {
        None => child,
        Some(part) => next_child(table, channel, part, child)?,
    };
    if next < count { Some(next) } else { None }
}

/// Whether the part tells that none of so many children, from this one on, uses the channel.
pub(crate) fn none_later(
    table: &UseTable,
    channel: u32,
    part: Option<&Part>,
    child: usize,
    count: usize,
) -> bool
    ensures { (cs : Codes) → LocatedRow table.now part.entry cs → result ≡ true → UnusedBetween channel cs child count }
{
    match next_user(table, channel, part, child, count) {
        Some(_) => false,
        None => true,
    }
}

/// The part of the child of this number, if it is the only one and the part is known.
pub(crate) fn part_of_only(part: Option<&Part>, only: Option<usize>) -> Option<&Part>
    ensures { (table : UseTable) (cs : Codes) (j : ℕ) → LocatedRow table part.entry cs → IfSome only (λ k. j ≡ k) →
        LocatedCode table result (code_at cs j) }
{
    match only {
        Some(child) => part_at(part, child),
        None => None,
    }
}

/// The number of the arm that waits on the channel, if one alone does.
pub(crate) fn only_arm(channels: &[u32], channel: u32) -> Option<usize>
    ensures { IfSome result (λ k. (j : ℕ) → slice_get channels.now j ≡ Some channel → j ≡ k) }
{
    let first = arm_from(channels, 0, channel)?;
    match arm_from(channels, first + 1, channel) {
        Some(_) => None,
        None => Some(first),
    }
}

/// The number of the first arm, from this one on, that waits on the channel.
fn arm_from(channels: &[u32], from: usize, channel: u32) -> Option<usize>
    ensures within { IfSome result (λ k. k < length channels.now) }
    ensures first { MatchOption result (NoneBetween channel channels.now from (length channels.now)) (λ k.
        NoneBetween channel channels.now from k) }
{
    let mut arm = from;
    'arms: while arm < channels.len() {
        if channels[arm] == channel {
            return Some(arm);
        }
        arm += 1;
    }
    None
}
