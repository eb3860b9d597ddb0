//! Going back to the cause of a wrong value: which event wrote it, what depends on an event, and taking just that back.
#![tactic(auto)]

ghost use Rattle.std.specs.Prelude.{◌≡◌, ◌≢◌, ◌⊎◌, ℕ, [], Ok, Err, IfOk, IfErr, MatchResult};
ghost use Rattle.runs.specs.Commands.{Command, Reply};
ghost use Rattle.runs.specs.Does.{Does, Answers};
ghost use Rattle.runs.specs.Live.{IsLive, NoneAt, NoDependent, LastWriter, NoWriter};
ghost use Rattle.machine.specs.AtMachine.{object};
ghost use Rattle.machine.specs.Marks.{marks_behind};
ghost use Rattle.machine.specs.Results.{roll_reply, blame_reply, consequences_reply};
ghost use Rattle.rollback.specs.Rollbacks.{TakesBack, ValueFromBefore, AreDependents};
ghost use Rattle.rollback.specs.internal.Undoing.{Undone};

use machine::{Machine, Ticket, Var};
pub use runs::Refusal;
use std::alloc::AllocError;

/// Takes the event of this ticket back, and all live events that depend on it, and no others; how many they were. It
/// takes no memory. No event is marked behind it.
///
/// # Errors
///
/// `NoSuchEvent` where no live event has the ticket. Nothing has changed then.
pub fn roll(machine: &mut Machine, ticket: Ticket) -> Result<u64, Refusal>
    ensures taken { IfOk result (λ count. TakesBack (object machine.old) ticket count (object machine.new)) }
    ensures refused { IfErr result (λ why. (why ≡ Refusal.NoSuchEvent) × NoneAt machine.old.live ticket) }
    ensures same { IfErr result (λ _. machine.new ≡ machine.old) }
    ensures answers { Answers (object machine.old) (Command.Roll ticket) (roll_reply result) (object machine.new) }
    ensures never_memory { IfErr result (λ why. why ≢ Refusal.Memory) }
    ensures system { machine.new.checked ≡ machine.old.checked }
    ensures marked { machine.new.marked ≡ marks_behind (roll_reply result) machine.old.marked }
{
    machine.is_sound();
    match machine.live_events().index_of(ticket) {
        Some(_) => Ok(roll_live(machine, ticket)),
        None => Err(Refusal::NoSuchEvent),
    }
}

/// Takes the live event of this ticket back, and all live events that depend on it; how many they were. They are marked,
/// and then undone one after another, the greatest ticket first, on which no other depends then.
fn roll_live(machine: &mut Machine, ticket: Ticket) -> u64
    requires { IsLive machine.old.live ticket }
    ensures rolled { Does (object machine.old) (Command.Roll ticket) (Reply.Rolled result) (object machine.new) }
    ensures system { machine.new.checked ≡ machine.old.checked }
    ensures marked { machine.new.marked ≡ [] }
{
    let count = machine.mark_consequences(ticket);
    while let Some(last) = machine.last_marked() {
        machine.is_sound();
        undo_alone(machine, last);
    }
    count
}

/// Undoes the live event of this ticket, on which no other live event depends.
fn undo_alone(machine: &mut Machine, ticket: Ticket)
    requires live { IsLive machine.old.live ticket }
    requires alone { NoDependent machine.old.live ticket }
    ensures { Undone machine.old ticket machine.new }
{
    let _undone = machine.undo(ticket);
}

/// The ticket of the last live event that wrote the variable. It takes no memory.
///
/// # Errors
///
/// `NeverWritten` where no live event wrote the variable, or there is no such variable.
pub fn blame(machine: &Machine, variable: Var) -> Result<Ticket, Refusal>
    ensures blamed { IfOk result (λ ticket. LastWriter machine.now.live variable ticket) }
    ensures refused { IfErr result (λ why. (why ≡ Refusal.NeverWritten) × NoWriter machine.now.live variable) }
    ensures answers { Answers (object machine.now) (Command.Blame variable) (blame_reply result) (object machine.now) }
    ensures never_memory { IfErr result (λ why. why ≢ Refusal.Memory) }
{
    match machine.live_events().last_writer(variable) {
        Some(ticket) => Ok(ticket),
        None => Err(Refusal::NeverWritten),
    }
}

/// Takes the last live event that wrote the variable back, and all live events that depend on it, and no others; how
/// many they were. The variable then has the value from just before that event. It takes no memory. No event is marked
/// behind it.
///
/// # Errors
///
/// `NeverWritten` where no live event wrote the variable, or there is no such variable. Nothing has changed then.
pub fn roll_value(machine: &mut Machine, variable: Var) -> Result<u64, Refusal>
    ensures taken { IfOk result (λ count. (ticket : ℕ) × LastWriter machine.old.live variable ticket
        × TakesBack (object machine.old) ticket count (object machine.new)) }
    ensures value { IfOk result (λ _. ValueFromBefore (object machine.old) variable (object machine.new)) }
    ensures refused { IfErr result (λ why. (why ≡ Refusal.NeverWritten) × NoWriter machine.old.live variable) }
    ensures same { IfErr result (λ _. machine.new ≡ machine.old) }
    ensures answers { Answers (object machine.old) (Command.RollValue variable) (roll_reply result)
        (object machine.new) }
    ensures never_memory { IfErr result (λ why. why ≢ Refusal.Memory) }
    ensures system { machine.new.checked ≡ machine.old.checked }
    ensures marked { machine.new.marked ≡ marks_behind (roll_reply result) machine.old.marked }
{
    machine.is_sound();
    match blame(machine, variable) {
        Ok(ticket) => Ok(roll_live(machine, ticket)),
        Err(why) => Err(why),
    }
}

/// The tickets of the event of this ticket and of all live events that depend on it, ascending: what a rollback of it
/// would take.
///
/// # Errors
///
/// `NoSuchEvent` where no live event has the ticket. `Memory` without memory, but never in its place.
pub fn consequences(machine: &Machine, ticket: Ticket) -> Result<Vec<Ticket>, Refusal>
    ensures told { IfOk result (λ tickets. AreDependents (object machine.now) ticket tickets.items) }
    ensures refused { IfErr result (λ why. ((why ≡ Refusal.NoSuchEvent) × NoneAt machine.now.live ticket)
        ⊎ ((why ≡ Refusal.Memory) × IsLive machine.now.live ticket)) }
    ensures answers { Answers (object machine.now) (Command.Consequences ticket) (consequences_reply result)
        (object machine.now) }
{
    machine.is_sound();
    let live = machine.live_events();
    match live.index_of(ticket) {
        Some(_) => or_no_memory(live.consequences(ticket)),
        None => Err(Refusal::NoSuchEvent),
    }
}

/// What was told, or that there was no memory for it.
fn or_no_memory(told: Result<Vec<Ticket>, AllocError>) -> Result<Vec<Ticket>, Refusal>
    ensures { MatchResult told (λ tickets. result ≡ Ok tickets) (λ _. result ≡ Err Refusal.Memory) }
{
    match told {
        Ok(tickets) => Ok(tickets),
        Err(_) => Err(Refusal::Memory),
    }
}
