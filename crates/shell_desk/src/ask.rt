// One command, and what it changes beside the desk.
ghost use Rattle.std.specs.Prelude.{◌≡◌, ◌<◌, IfOk, MatchOption, OnErr, Some, None, true, map, slice_get};
ghost use Rattle.locked_execution.specs.Performs.{Answers};
ghost use Rattle.shell_desk.specs.Does.{Asked, AsksIfAny, branch_behind, is_outside, numbered_as, step_of, stepped_at};
ghost use Rattle.shell_desk.specs.Does.{stopped_behind, turn_behind};
ghost use Rattle.shell_desk.specs.internal.Numbering.{IsTold, given_or, is_list, made_of, numbers_of};

use crate::{Bench, Done, Watch};
use address::{Address, Entry};
use locked_execution::{Choice, Command, Desk, Event, Refusal, Reply};
use std::alloc::{AllocError, Global};
use system::System;
use system_places::branch_at;

impl Bench {
    /// Asks the command of the session, which `watch` sees once it was answered. What it numbers and which branch it
    /// steps is kept in mind.
    pub fn ask<W: Watch>(&mut self, command: &Command, watch: &mut W) -> Reply
        ensures asked { Asked self.old command.now result self.new }
        ensures system { self.new.desk.machine.checked ≡ self.old.desk.machine.checked }
    {
        let alloc = *self.numbered.allocator();
        let (reply, numbers) = answered(alloc, &mut self.desk, self.session, command, watch);
        self.note(&reply, numbers);
        reply
    }

    /// Keeps in mind what a reply says, and what bare numbers mean from now on, where that is another than before.
    fn note(&mut self, reply: &Reply, numbers: Option<Vec<Command>>)
        ensures desk { self.new.desk ≡ self.old.desk }
        ensures session { self.new.session ≡ self.old.session }
        ensures numbered { self.new.numbered ≡ given_or (made_of numbers) self.old.numbered }
        ensures turn { self.new.turn ≡ turn_behind self.old.desk.machine.checked reply.now self.old.turn }
        ensures branch { self.new.branch ≡ branch_behind self.old.desk.machine.checked reply.now self.old.branch }
        ensures stopped { self.new.stopped ≡ stopped_behind reply.now self.old.stopped }
    {
        renumber(&mut self.numbered, numbers);
        self.turn = turn_behind(self.desk.machine().checked().system(), reply, self.turn);
        self.branch = branch_behind(self.desk.machine().checked().system(), reply, self.branch);
        self.stopped = stopped_behind(reply, self.stopped);
    }

    /// The command that takes the step with this number, if there is one. It is an error if there is no memory.
    pub fn numbered(&self, alloc: Global, step: u64) -> Result<Option<Command>, AllocError>
        ensures { IfOk result (λ found. found ≡ numbered_as self.now.numbered step) }
    {
        if step == 0 {
            return Ok(None);
        }
        match command_at(self.numbered.as_slice(), step - 1) {
            Some(command) => some_copied(alloc, command),
            None => Ok(None),
        }
    }

    /// Takes the step that has this number, if there is one.
    pub(crate) fn take<W: Watch>(&mut self, step: u64, watch: &mut W) -> Done
        ensures { AsksIfAny self.old (numbered_as self.old.numbered step) result self.new }
    {
        if step == 0 {
            return Done::Unknown;
        }
        let Some(command) = command_at(self.numbered.as_slice(), step - 1) else {
            return Done::Unknown;
        };
        let alloc = *self.numbered.allocator();
        let (reply, numbers) = answered(alloc, &mut self.desk, self.session, command, watch);
        self.note(&reply, numbers);
        Done::Told(reply)
    }
}

/// An equal command in memory of its own.
fn some_copied(alloc: Global, command: &Command) -> Result<Option<Command>, AllocError>
    ensures { IfOk result (λ made. made ≡ Some command.now) }
{
    Ok(Some(copied(alloc, command)?))
}

/// The same.
fn copied(alloc: Global, command: &Command) -> Result<Command, AllocError>
    ensures { IfOk result (λ made. made ≡ command.now) }
{
    match command {
        Command::Step(choice) => {
            let place = choice.place.copy(alloc)?;
            Ok(Command::Step(Choice {
                place,
                arm: choice.arm,
            }))
        }
        Command::Undo(ticket) => Ok(Command::Undo(*ticket)),
        Command::Roll(ticket) => Ok(Command::Roll(*ticket)),
        Command::RollValue(variable) => Ok(Command::RollValue(*variable)),
        Command::Blame(variable) => Ok(Command::Blame(*variable)),
        Command::Ready => Ok(Command::Ready),
        Command::Consequences(ticket) => Ok(Command::Consequences(*ticket)),
        Command::Live => Ok(Command::Live),
        Command::Value(variable) => Ok(Command::Value(*variable)),
        Command::Branch(branch) => Ok(Command::Branch(*branch)),
        Command::Break(line) => Ok(Command::Break(*line)),
        Command::Clear(line) => Ok(Command::Clear(*line)),
    }
}

/// The command at this index.
fn command_at(commands: &[Command], index: u64) -> Option<&Command>
    ensures { MatchOption result (slice_get commands.now index ≡ None) (λ command.
        slice_get commands.now index ≡ Some command.now) }
{
    commands.get(index as usize)
}

/// The answer to the command of the session at the desk, which `watch` sees, and the commands that bare numbers mean
/// from then on, where it lists the events that are ready. Where there is no memory for these, that is the answer.
fn answered<W: Watch>(
    alloc: Global,
    desk: &mut Desk,
    session: u32,
    command: &Command,
    watch: &mut W,
) -> (Reply, Option<Vec<Command>>)
    requires { session < 16 }
    ensures answers { Answers desk.old session command.now result.0 desk.new }
    ensures numbers { made_of result.1 ≡ numbers_of result.0 }
    ensures system { desk.new.machine.checked ≡ desk.old.machine.checked }
{
    let mut reply = desk.perform(session, command);
    let numbers = numbers_told(alloc, &mut reply);
    watch.see(desk, session, command, &reply);
    (reply, numbers)
}

/// The commands of the events that the reply lists as ready, if it is such a list. Where there is no memory for these,
/// that becomes the reply.
fn numbers_told(alloc: Global, reply: &mut Reply) -> Option<Vec<Command>>
    ensures told { IsTold reply.old reply.new }
    ensures numbers { made_of result ≡ numbers_of reply.new }
{
    match numbers_in(alloc, reply) {
        Ok(numbers) => numbers,
        Err(_) => {
            *reply = Reply::Refused(Refusal::Memory);
            None
        }
    }
}

/// The commands of the events that the reply lists as ready, if it is such a list. It is an error if there is no memory.
fn numbers_in(alloc: Global, reply: &Reply) -> Result<Option<Vec<Command>>, AllocError>
    ensures numbers { IfOk result (λ made. made_of made ≡ numbers_of reply.now) }
    ensures list { OnErr result (is_list reply.now ≡ true) }
{
    match reply {
        Reply::Ready(events) => some_steps(alloc, events.as_slice()),
        _ => Ok(None),
    }
}

/// The commands that take these events, in their order.
fn some_steps(alloc: Global, events: &[Event]) -> Result<Option<Vec<Command>>, AllocError>
    ensures { IfOk result (λ made. made_of made ≡ Some (map step_of events.now)) }
{
    Ok(Some(steps_of(alloc, events)?))
}

/// The same.
fn steps_of(alloc: Global, events: &[Event]) -> Result<Vec<Command>, AllocError>
    ensures { IfOk result (λ steps. steps.items ≡ map step_of events.now) }
{
    let mut steps = Vec::new(alloc);
    for event in events {
        let choice = event.choice(alloc)?;
        steps.push(Command::Step(choice))?;
    }
    Ok(steps)
}

/// Puts these in place of the commands that bare numbers mean, if they are given.
fn renumber(numbered: &mut Vec<Command>, numbers: Option<Vec<Command>>)
    ensures { numbered.new.items ≡ given_or (made_of numbers) numbered.old.items }
{
    if let Some(numbers) = numbers {
        *numbered = numbers;
    }
}

/// The branch that acted last behind a reply.
fn turn_behind(system: &System, reply: &Reply, before: Option<u32>) -> Option<u32>
    ensures { result ≡ turn_behind system.now reply.now before }
{
    match reply {
        Reply::Stepped(_, event) => match branch_at(system, event.acting_place()) {
            Some(branch) => Some(branch),
            None => before,
        },
        _ => before,
    }
}

/// The branch that was stepped last behind a reply.
fn branch_behind(system: &System, reply: &Reply, before: Option<u32>) -> Option<u32>
    ensures { result ≡ branch_behind system.now reply.now before }
{
    match reply {
        Reply::Stepped(_, event) => match branch_at(system, stepped_at(event)) {
            Some(branch) => Some(branch),
            None => before,
        },
        _ => before,
    }
}

/// The place at which the event is said to be stepped: the acting one, and of what the environment takes the sender's.
fn stepped_at(event: &Event) -> &Address
    ensures { result.now ≡ stepped_at event.now }
{
    let acting = event.acting_place();
    if is_outside(acting) {
        &event.first
    } else {
        acting
    }
}

/// Whether the place lies in the environment.
fn is_outside(place: &Address) -> bool
    ensures { result ≡ is_outside place.now }
{
    match place.entries() {
        [Entry::Branch(number), ..] => *number != 0,
        _ => false,
    }
}

/// The line of the breakpoint at which a run ended, behind a reply: none where it tells of steps.
fn stopped_behind(reply: &Reply, before: Option<u64>) -> Option<u64>
    ensures { result ≡ stopped_behind reply.now before }
{
    match reply {
        Reply::Stepped(_, _) | Reply::Undone(_, _) | Reply::Rolled(_) => None,
        _ => before,
    }
}
