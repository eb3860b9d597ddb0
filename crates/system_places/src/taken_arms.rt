// The command of a place, where it is known which arms were taken.
//
// The walk goes down the tree along the entries of the address. It asks for the arm that was taken only where it comes
// to a choice, and takes no memory.
ghost use Rattle.std.specs.Prelude.{◌≡◌, ◌≤◌, ℕ, List, Option, [], ◌∷◌, length, take, drop, option_map, option_and_then};
ghost use Rattle.std.specs.Option.{option_copied};
ghost use Rattle.address.specs.declared.Entry.{Entry};
ghost use Rattle.system_places.specs.TakenArms as model;

use crate::command_places::Form;
use address::{Address, Entry};
use syntax::Items;
use system::{Action, Arm, Command, Guarded, Labelled, System};

/// What tells which arms were taken.
pub trait TakenArms {
    ghost taken: { Self → List Entry → Option ℕ };

    /// The arm, from 0, that was taken by the `if`, the `case`, the `select` or the `arbitrate` at this place. None
    /// where none was, or none is taken now.
    fn arm(&self, place: &[Entry]) -> Option<u32>
        ensures { result ≡ taken self.now place.now };
}

/// Whether the way is to a place of the command itself.
fn is_place(command: &Command, way: &[Entry]) -> bool
    ensures { result ≡ model.is_place (model.doing command.now) way.now }
{
    match command.action.get() {
        Action::Assign(_, _, _) | Action::Receive(_, _) => way.is_empty(),
        Action::Send(_, _, _) | Action::Sync(_) => Form::Held.is_own(way),
        Action::Loop(_) | Action::While(_, _) => Form::Turns.is_own(way),
        Action::If(_, _) | Action::Case(_, _, _) => Form::Test.is_own(way),
        Action::Input(_, _) | Action::Select(_) | Action::Arbitrate(_) => Form::Choice.is_own(way),
        Action::Continue | Action::Halt | Action::Sequence(_) | Action::Parallel(_) => false,
    }
}

/// The `else`, which counts as the arm behind the others.
fn else_at(arms: usize, last: &Option<Command>, arm: u32) -> Option<&Command>
    ensures { option_copied result ≡ model.else_at arms last.now arm }
{
    if arm as usize == arms {
        last.as_ref()
    } else {
        None
    }
}

/// The arm of this number of an `if`.
fn guarded_at<'a>(
    arms: &'a Items<Guarded>,
    last: &'a Option<Command>,
    arm: Option<u32>,
) -> Option<&'a Command>
    ensures { option_copied result ≡ option_and_then (model.guarded_at arms.now last.now) arm }
{
    let arm = arm?;
    match arms.get(arm as usize) {
        Some(guarded) => Some(&guarded.body),
        None => else_at(arms.len(), last, arm),
    }
}

/// The arm of this number of a `case`.
fn labelled_at<'a>(
    arms: &'a Items<Labelled>,
    last: &'a Option<Command>,
    arm: Option<u32>,
) -> Option<&'a Command>
    ensures { option_copied result ≡ option_and_then (model.labelled_at arms.now last.now) arm }
{
    let arm = arm?;
    match arms.get(arm as usize) {
        Some(labelled) => Some(&labelled.body),
        None => else_at(arms.len(), last, arm),
    }
}

/// The arm of this number of a `select` or an `arbitrate`.
fn arm_at(arms: &Items<Arm>, arm: Option<u32>) -> Option<&Command>
    ensures { option_copied result ≡ option_and_then (model.channel_arm_at arms.now) arm }
{
    match arms.get(arm? as usize) {
        Some(opened) => Some(&opened.body),
        None => None,
    }
}

/// The part that stands at `.number` behind the place of the command.
fn part_at<'a, T: TakenArms>(
    taken: &T,
    before: &[Entry],
    command: &'a Command,
    number: u32,
) -> Option<&'a Command>
    ensures { option_copied result ≡ model.part_at (T.taken taken.now before.now) (model.doing command.now) number }
{
    match command.action.get() {
        Action::Loop(body) | Action::While(_, body) if Form::Turns.is_body_number(number) => {
            Some(body)
        }
        Action::If(arms, last) if Form::Test.is_body_number(number) => {
            guarded_at(arms, last, taken.arm(before))
        }
        Action::Case(_, arms, last) if Form::Test.is_body_number(number) => {
            labelled_at(arms, last, taken.arm(before))
        }
        Action::Input(_, body) if Form::Choice.is_body_number(number) => Some(body),
        Action::Select(arms) | Action::Arbitrate(arms) if Form::Choice.is_body_number(number) => {
            arm_at(arms, taken.arm(before))
        }
        Action::Sequence(children) => children.get(number as usize),
        _ => None,
    }
}

/// The part that stands at `/number` behind the place of the command.
fn branch_at(command: &Command, number: u32) -> Option<&Command>
    ensures { option_copied result ≡ model.child_at (model.doing command.now) number }
{
    match command.action.get() {
        Action::Parallel(children) => children.get(number as usize),
        _ => None,
    }
}

/// The part that stands at the entry behind the place of the command.
fn part<'a, T: TakenArms>(
    taken: &T,
    before: &[Entry],
    command: &'a Command,
    entry: Entry,
) -> Option<&'a Command>
    ensures { option_copied result ≡ model.part (T.taken taken.now before.now) (model.doing command.now) entry }
{
    match entry {
        Entry::Ordered(number) => part_at(taken, before, command, number),
        Entry::Branch(number) => branch_at(command, number),
    }
}

/// The command, at or within the one at the first `depth` entries of the place, that has the place.
fn acting_in<'a, T: TakenArms>(
    taken: &T,
    place: &[Entry],
    depth: usize,
    command: &'a Command,
) -> Option<&'a Command>
    requires { depth ≤ length place.now }
    ensures { option_copied result
        ≡ model.acting_in (T.taken taken.now) (take depth place.now) command.now (drop depth place.now) }
{
    let (before, way) = place.split_at(depth);
    if is_place(command, way) {
        return Some(command);
    }
    let entry = way.first()?;
    let inner = part(taken, before, command, *entry)?;
    acting_in(taken, place, depth + 1, inner)
}

/// The command of a system, whose body stands at `/0`, that has the place.
fn acting_command<'a, T: TakenArms>(
    system: &'a System,
    taken: &T,
    place: &[Entry],
) -> Option<&'a Command>
    ensures { option_copied result ≡ model.acting_command (T.taken taken.now) system.now place.now }
{
    match place {
        [Entry::Branch(0), ..] => acting_in(taken, place, 1, &system.main),
        _ => None,
    }
}

/// Whether the command is a `select`.
fn is_select(command: &Command) -> bool
    ensures { result ≡ model.is_select (model.doing command.now) }
{
    match command.action.get() {
        Action::Select(_) => true,
        _ => false,
    }
}

/// The line, from 1, of the command that has this place, where of the arms of each choice the one that was taken stands
/// and no other. None for a place of the environment, and for an address that is no place of a command.
pub fn line_under<T: TakenArms>(system: &System, taken: &T, place: &Address) -> Option<u64>
    ensures { result ≡ model.line_under (T.taken taken.now) system.now place.now }
{
    match acting_command(system, taken, place.entries()) {
        Some(command) => Some(command.line),
        None => None,
    }
}

/// Whether the place is one at which a `select` opens, where of the arms of each choice the one that was taken stands
/// and no other.
pub fn is_open_under<T: TakenArms>(system: &System, taken: &T, place: &Address) -> bool
    ensures { result ≡ model.is_open_under (T.taken taken.now) system.now place.now }
{
    let entries = place.entries();
    match acting_command(system, taken, entries) {
        Some(command) => is_select(command) && matches!(entries.last(), Some(Entry::Ordered(0))),
        None => false,
    }
}
