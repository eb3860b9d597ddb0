// Runs back: the newest steps go, one by one, until something stops them.
ghost use Rattle.std.specs.Prelude.{◌≡◌, ◌+◌, ◌<◌, [], MatchOption, None, Some};
ghost use Rattle.runs.specs.Live.{IsLive};
ghost use Rattle.dap_moves.specs.Led.{Led};
ghost use Rattle.dap_moves.specs.Moves.{NewestTicket};
ghost use Rattle.dap_moves.specs.TakingBack.{GoesBack, IsLast};
ghost use Rattle.dap_moves.specs.internal.Rolling.{GoesOut, IsNewestAt, NoneFrom, RollsAll, RollsOne, StopsBehind, TakesOneBack};

use crate::QUIET;
use crate::back::undo;
use crate::run::line_among;
use crate::seen::{is_watched, keep};
use dap_views::{Watched, newest_below};
use locked_execution::{Command, Desk, Machine, Reply};
use runs::{Choice, Event};
use std::alloc::Global;
use system_places::branch_at;

/// Why a run back ended. No step that it takes back is ever refused.
#[derive(Clone, Copy, PartialEq, Eq)]
pub enum Rewound {
    /// no step is left that it could take back
    AtBeginning,
    /// the step that was taken back last has an action in this branch on this line, which has a breakpoint
    AtLine(u32, u64),
    /// the step that was taken back last, of this ticket, which is watched, acted in this branch
    Watched(u32, u64),
}

/// What stops a run back.
#[derive(Clone, Copy)]
pub struct Marks<'a> {
    /// lines with a breakpoint
    pub lines: &'a [u64],
    pub watched: &'a [Watched],
}

/// Takes the live step of the greatest ticket back, again and again. Where a line stops it, `kept` has the choice of
/// the step that was taken back last, if there was memory for it; else it has none.
pub fn rewind(alloc: Global, desk: &mut Desk, marks: &Marks<'_>, kept: &mut Vec<Choice>) -> Rewound
    ensures led { Led desk.old desk.new }
    ensures system { desk.new.machine.checked ≡ desk.old.machine.checked }
    ensures back { GoesBack None marks.now.lines.now marks.now.watched.now desk.old desk.new result kept.new.items }
{
    kept.clear();
    loop {
        if let Some(ended) = undo_last(alloc, desk, marks, kept) {
            return ended;
        }
    }
}

/// Takes the live step of the greatest ticket back; why the run ends there, if it does.
fn undo_last(
    alloc: Global,
    desk: &mut Desk,
    marks: &Marks<'_>,
    kept: &mut Vec<Choice>,
) -> Option<Rewound>
    requires { kept.old.items ≡ [] }
    ensures led { Led desk.old desk.new }
    ensures system { desk.new.machine.checked ≡ desk.old.machine.checked }
    ensures takes { TakesOneBack None marks.now.lines.now marks.now.watched.now desk.old desk.new result
        kept.new.items }
{
    // Tickets rise: no step depends on the last.
    desk.is_sound();
    let Some(ticket) = last_ticket(desk) else {
        return Some(Rewound::AtBeginning);
    };
    match undo(desk, ticket) {
        Reply::Undone(ticket, event) => stop_at(alloc, desk.machine(), marks, kept, ticket, &event),
        _ => Some(Rewound::AtBeginning),
    }
}

/// The greatest ticket of a live step.
fn last_ticket(desk: &Desk) -> Option<u64>
    ensures { MatchOption result (desk.now.machine.live ≡ []) (λ ticket. IsLast desk.now ticket) }
{
    let live = desk.machine().live_events();
    let last = index_of_last(live.len())?;
    match live.pair_at(last as u64) {
        Some((ticket, _)) => Some(ticket),
        None => None,
    }
}

/// The index of the last of so many.
fn index_of_last(count: usize) -> Option<usize>
    ensures { MatchOption result (count ≡ 0) (λ last. last + 1 ≡ count) }
{
    count.checked_sub(1)
}

/// Takes the newest live step back in which the branch took part, with all that depend on it, again and again;
/// otherwise as `rewind`.
pub fn rewind_branch(
    alloc: Global,
    desk: &mut Desk,
    branch: u32,
    marks: &Marks<'_>,
    kept: &mut Vec<Choice>,
) -> Rewound
    ensures led { Led desk.old desk.new }
    ensures system { desk.new.machine.checked ≡ desk.old.machine.checked }
    ensures back { GoesBack (Some branch) marks.now.lines.now marks.now.watched.now desk.old desk.new result
        kept.new.items }
{
    kept.clear();
    let mut below = desk.machine().live_events().len();
    loop {
        match roll_newest(alloc, desk, branch, below, marks, kept) {
            Rolled::On(index) => below = index,
            Rolled::Ended(ended) => return ended,
        }
    }
}

/// What came of a rollback.
#[derive(Clone, Copy, PartialEq, Eq)]
enum Rolled {
    /// the branch took part in no live step from this index on
    On(usize),
    Ended(Rewound),
}

/// Takes the newest live step back in which the branch took part, with all that depend on it. It took part in none
/// from index `below` on.
fn roll_newest(
    alloc: Global,
    desk: &mut Desk,
    branch: u32,
    below: usize,
    marks: &Marks<'_>,
    kept: &mut Vec<Choice>,
) -> Rolled
    requires empty { kept.old.items ≡ [] }
    requires none { NoneFrom desk.old branch below }
    ensures led { Led desk.old desk.new }
    ensures system { desk.new.machine.checked ≡ desk.old.machine.checked }
    ensures takes { RollsOne branch below marks.now.lines.now marks.now.watched.now desk.old desk.new result
        kept.new.items }
{
    // Tickets rise: what depends on a step stands behind it.
    desk.is_sound();
    let Some((index, ticket, event)) = newest_at(desk, branch, below) else {
        return Rolled::Ended(Rewound::AtBeginning);
    };
    let stop = stop_at(alloc, desk.machine(), marks, kept, ticket, event);
    undo_or_roll(desk, ticket);
    match stop {
        Some(ended) => Rolled::Ended(ended),
        None => Rolled::On(index),
    }
}

/// Takes the live step of this ticket back, with all that depend on it. Where none depends on it, that is an undo,
/// which is quicker.
fn undo_or_roll(desk: &mut Desk, ticket: u64)
    requires { IsLive desk.old.machine.live ticket }
    ensures led { Led desk.old desk.new }
    ensures system { desk.new.machine.checked ≡ desk.old.machine.checked }
    ensures out { GoesOut desk.old ticket desk.new }
{
    match undo(desk, ticket) {
        Reply::Refused(_) => roll(desk, ticket),
        _ => {}
    }
}

/// Takes the live step of this ticket back, with all that depend on it.
fn roll(desk: &mut Desk, ticket: u64)
    requires { IsLive desk.old.machine.live ticket }
    ensures led { Led desk.old desk.new }
    ensures system { desk.new.machine.checked ≡ desk.old.machine.checked }
    ensures rolled { RollsAll desk.old ticket desk.new }
{
    let _answered = desk.perform(QUIET, &Command::Roll(ticket));
}

/// The newest live step in which the branch took part: its index, its ticket and its event. The branch took part in
/// none from index `below` on.
fn newest_at(desk: &Desk, branch: u32, below: usize) -> Option<(usize, u64, &Event)>
    requires { NoneFrom desk.now branch below }
    ensures { MatchOption result (NewestTicket desk.now branch None) (λ found.
        (found.0 < below) × IsNewestAt desk.now branch found.0 found.1 found.2.now) }
{
    let live = desk.machine().live_events();
    let system = desk.machine().checked().system();
    let index = newest_below(system, live, branch, below)?;
    match live.pair_at(index as u64) {
        Some((ticket, event)) => Some((index, ticket, event)),
        None => None,
    }
}

/// Why a run back ends behind this step, if it does.
fn stop_at(
    alloc: Global,
    machine: &Machine,
    marks: &Marks<'_>,
    kept: &mut Vec<Choice>,
    ticket: u64,
    event: &Event,
) -> Option<Rewound>
    requires { kept.old.items ≡ [] }
    ensures { StopsBehind machine.now marks.now.lines.now marks.now.watched.now ticket event.now result kept.new.items }
{
    if is_watched(marks.watched, event) {
        let branch = branch_at(machine.checked().system(), event.acting_place());
        return Some(Rewound::Watched(branch.unwrap_or(0), ticket));
    }
    match line_among(machine, marks.lines, event) {
        Some((at, line)) => {
            let _kept = keep(alloc, kept, event);
            Some(Rewound::AtLine(at, line))
        }
        None => None,
    }
}
