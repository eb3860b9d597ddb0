// Tickets that ascend. A new one is behind all others nearly always, so the last ones are looked at first.
ghost use Rattle.std.specs.Prelude.{◌≡◌, ◌<◌, ◌≤◌, ◌⊎◌, ◌↔◌, ℕ, length, true, false, IsTrue, OnOk, OnErr, MatchOption, nat_lt};
ghost use Rattle.syntax.specs.Lists.{In};
ghost use Rattle.dependence.specs.internal.Tickets.{Ascends, AllBelow, LastNotBelow, Parts, LastBelow, FirstFrom};

use crate::inserts::insert_at;
use std::alloc::AllocError;

/// How many of the tickets are less than `bound`. The last two are looked at first.
#[inline(always)]
fn count_below(tickets: &[u64], bound: u64) -> usize
    requires { Ascends tickets.now }
    ensures { Parts tickets.now bound result }
{
    let count = tickets.len();
    if is_behind(tickets, count, bound) {
        return count;
    }
    let fewer = count - 1;
    if is_behind(tickets, fewer, bound) {
        return fewer;
    }
    count_by_halves(tickets, bound)
}

/// Whether the first so many of the tickets are less than `bound`. Else there is a last of them, and it is not.
#[inline(always)]
fn is_behind(tickets: &[u64], count: usize, bound: u64) -> bool
    requires ascends { Ascends tickets.now }
    requires within { count ≤ length tickets.now }
    ensures all { result ≡ true → AllBelow tickets.now count bound }
    ensures none { result ≡ false → LastNotBelow tickets.now count bound }
{
    if count == 0 {
        return true;
    }
    let last = tickets[count - 1];
    if last < bound {
        return true;
    }
    false
}

fn count_by_halves(tickets: &[u64], bound: u64) -> usize
    requires { Ascends tickets.now }
    ensures { Parts tickets.now bound result }
{
    tickets.partition_point(
        |ticket: &u64| -> bool
            ensures { result ≡ nat_lt ticket.now bound }
        { *ticket < bound },
    )
}

/// Whether the ticket is among these, of which `count` are less.
#[inline(always)]
fn is_among(tickets: &[u64], ticket: u64, count: usize) -> bool
    requires ascends { Ascends tickets.now }
    requires parts { Parts tickets.now ticket count }
    ensures { IsTrue result ↔ In ticket tickets.now }
{
    match tickets.get(count) {
        Some(found) => *found == ticket,
        None => false,
    }
}

/// Puts the ticket among these. Without memory for it they stay.
pub(crate) fn put_ticket(tickets: &mut Vec<u64>, ticket: u64) -> Result<(), AllocError>
    requires { Ascends tickets.old.items }
    ensures ascends { Ascends tickets.new.items }
    ensures put { OnOk result ((t : ℕ) → In t tickets.new.items ↔ (In t tickets.old.items ⊎ (t ≡ ticket))) }
    ensures refused { OnErr result (tickets.new.items ≡ tickets.old.items) }
{
    let count = count_below(tickets.as_slice(), ticket);
    if is_among(tickets.as_slice(), ticket, count) {
        return Ok(());
    }
    insert_at(tickets, count, ticket)?;
    Ok(())
}

/// Takes the ticket out of these.
pub(crate) fn remove_ticket(tickets: &mut Vec<u64>, ticket: u64)
    requires { Ascends tickets.old.items }
    ensures ascends { Ascends tickets.new.items }
    ensures removed { (t : ℕ) → In t tickets.new.items ↔ (In t tickets.old.items × (t ≡ ticket → ⊥)) }
{
    let count = count_below(tickets.as_slice(), ticket);
    if is_among(tickets.as_slice(), ticket, count) {
        tickets.remove(count);
    }
}

/// The greatest that is less than `below`.
pub(crate) fn last_below(tickets: &[u64], below: u64) -> Option<u64>
    requires { Ascends tickets.now }
    ensures { MatchOption result ((t : ℕ) → In t tickets.now → t < below → ⊥) (LastBelow tickets.now below) }
{
    let count = count_below(tickets, below);
    if count == 0 {
        return None;
    }
    Some(tickets[count - 1])
}

/// The least, from `from` on, that is less than `below`.
pub(crate) fn first_from(tickets: &[u64], from: u64, below: u64) -> Option<u64>
    requires { Ascends tickets.now }
    ensures { MatchOption result ((t : ℕ) → In t tickets.now → from ≤ t → t < below →
        ⊥) (FirstFrom tickets.now from below) }
{
    let count = count_below(tickets, from);
    match tickets.get(count) {
        Some(ticket) => { if *ticket < below { Some(*ticket) } else { None } }
        None => None,
    }
}

/// Those from `from` on that are less than `below`.
pub(crate) fn within(tickets: &[u64], from: u64, below: u64) -> &[u64]
    requires { Ascends tickets.now }
    ensures { (t : ℕ) → In t result.now ↔ (In t tickets.now × (from ≤ t) × (t < below)) }
{
    let (_, later) = tickets.split_at(count_below(tickets, from));
    let (within, _) = later.split_at(count_below(later, below));
    within
}
