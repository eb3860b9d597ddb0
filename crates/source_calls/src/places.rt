// The call to which a place belongs: the way to it is gone in the bodies as they are written.
ghost use Rattle.std.specs.Prelude.{◌≡◌, ◌≤◌, length, take, drop, option_map, option_and_then};
ghost use Rattle.std.specs.Option.{option_copied};
ghost use Rattle.dependence.specs.EventPlaces.{taken_by};
ghost use Rattle.runs.specs.Live.{events};
ghost use Rattle.source_calls.specs.SpotView.{spot_view};
ghost use Rattle.source_calls.specs.Stands as model;
ghost use Rattle.source_calls.specs.internal.Parts as parts;

use crate::calls::{Call, Calls};
use crate::parts::{calls_in, calls_in_all, calls_in_arms, calls_in_guarded, calls_in_labelled};
use address::{Address, Entry};
use dependence::Live;
use std::alloc::{AllocError, Global};
use syntax::Items;
use types::{Action, Arm, Command, Guarded, Labelled};

/// A command in a call.
#[derive(Clone, Copy)]
pub(crate) struct Spot<'a> {
    /// the index of the call
    call: usize,
    /// how many calls stand before the command in the body of the call
    passed: usize,
    command: &'a Command,
}

impl Calls {
    /// The index of the call in whose body the command with this place stands, after the live events. None for a place
    /// of the environment, and for an address that is no place of a command in any arm that was taken.
    pub fn at(&self, live: &Live, place: &Address) -> Option<usize>
        ensures { result ≡ model.call_at self.now (taken_by (events live.now.live)) place.now }
    {
        match place.entries() {
            [Entry::Branch(0), ..] => {
                let root = self.root()?;
                self.found_in(live, place.entries(), 1, root)
            }
            _ => None,
        }
    }

    /// The call of the command, at or within the one at the first `depth` entries of the place, that has the place.
    fn found_in(&self, live: &Live, place: &[Entry], depth: usize, spot: Spot<'_>) -> Option<usize>
        requires { depth ≤ length place.now }
        ensures { result
            ≡ model.call_in self.now (taken_by (events live.now.live)) (take depth place.now) (spot_view spot.entry)
            (drop depth place.now) }
    {
        let (before, way) = place.split_at(depth);
        if is_place(spot.command, way) {
            return Some(spot.call);
        }
        let entry = way.first()?;
        let inner = self.part_in(arm_taken(live, before), spot, *entry)?;
        self.found_in(live, place, depth + 1, inner)
    }

    /// The index of the call in which each branch of the body begins: each child of it where it is a parallel, else the
    /// body as one.
    pub fn branches(&self, alloc: Global) -> Result<Vec<usize>, AllocError> {
        let mut found = Vec::new(alloc);
        if let Some(root) = self.root() {
            self.add_branches(root, &mut found)?;
        }
        Ok(found)
    }

    /// Adds the calls in which the branches of the command begin.
    fn add_branches(&self, body: Spot<'_>, found: &mut Vec<usize>) -> Result<(), AllocError> {
        match body.command.action.get() {
            Action::Parallel(children) => {
                let mut passed = body.passed;
                for command in children.as_slice() {
                    let child = self.standing(Spot {
                        call: body.call,
                        passed,
                        command,
                    });
                    found.push(child.call)?;
                    passed = passed.saturating_add(calls_in(command));
                }
            }
            _ => found.push(body.call)?,
        }
        Ok(())
    }

    /// The body of the root.
    fn root(&self) -> Option<Spot<'_>>
        ensures { option_map (λ s. spot_view s) result ≡ model.root_body self.now }
    {
        Some(self.standing(self.body_of(0)?))
    }

    /// The body of the call of this index.
    fn body_of(&self, call: usize) -> Option<Spot<'_>>
        ensures { option_map (λ s. spot_view s) result ≡ model.body_of self.now call }
    {
        let procedure = self.procedure(call)?;
        Some(Spot {
            call,
            passed: 0,
            command: &procedure.body,
        })
    }

    /// The part at this entry, in its call.
    fn part_in<'a>(&'a self, arm: Option<u32>, spot: Spot<'a>, entry: Entry) -> Option<Spot<'a>>
        ensures { option_map (λ s. spot_view s) result ≡ model.part_in self.now arm (spot_view spot.entry) entry }
    {
        let command = part(spot.command, arm, entry)?;
        let passed = spot
            .passed
            .saturating_add(calls_before(spot.command, arm, entry));
        Some(self.standing(Spot {
            call: spot.call,
            passed,
            command,
        }))
    }

    /// What stands for the command: where it is a call, the body of that.
    fn standing<'a>(&'a self, spot: Spot<'a>) -> Spot<'a>
        ensures { spot_view result ≡ model.standing self.now (spot_view spot.entry) }
    {
        let mut spot = spot;
        let mut left = self.as_slice().len();
        'inward: while left > 0 {
            let Some(inner) = self.inner(spot) else {
                break;
            };
            spot = inner;
            left -= 1;
        }
        spot
    }

    /// The body of the call that the command is, if it is one.
    fn inner(&self, spot: Spot<'_>) -> Option<Spot<'_>>
        ensures { option_map (λ s. spot_view s) result ≡ model.inner self.now (spot_view spot.entry) }
    {
        if is_call(spot.command) {
            self.body_of(self.called(spot.call, spot.passed)?)
        } else {
            None
        }
    }

    /// The index of the call that has this number among those that a call makes, from 0.
    fn called(&self, call: usize, number: usize) -> Option<usize>
        ensures { result ≡ model.called self.now call number }
    {
        self.as_slice().get(call)?.calls.get(number).copied()
    }
}

/// Whether the command is a call.
fn is_call(command: &Command) -> bool
    ensures { result ≡ model.is_call (model.doing command.now) }
{
    match command.action.get() {
        Action::Call(_, _) => true,
        _ => false,
    }
}

/// The arm that the choice at this place took.
fn arm_taken(live: &Live, choice: &[Entry]) -> Option<u32>
    ensures { result ≡ taken_by (events live.now.live) choice.now }
{
    match live.acting_at_first_child(choice) {
        Some(event) => event.arm,
        None => None,
    }
}

/// Whether the way is one number, which is 0 or 1.
fn is_held(way: &[Entry]) -> bool
    ensures { result ≡ model.is_one model.is_held way.now }
{
    match way {
        [Entry::Ordered(number)] => *number < 2,
        _ => false,
    }
}

/// Whether the way is one number, which is even.
fn is_turn(way: &[Entry]) -> bool
    ensures { result ≡ model.is_one model.is_turn way.now }
{
    match way {
        [Entry::Ordered(number)] => *number % 2 == 0,
        _ => false,
    }
}

/// Whether the way is the number 0.
fn is_test(way: &[Entry]) -> bool
    ensures { result ≡ model.is_one model.is_test way.now }
{
    match way {
        [Entry::Ordered(number)] => *number == 0,
        _ => false,
    }
}

/// Whether the way is one number, which is 0 or 2.
fn is_end(way: &[Entry]) -> bool
    ensures { result ≡ model.is_one model.is_end way.now }
{
    match way {
        [Entry::Ordered(number)] => *number == 0 || *number == 2,
        _ => false,
    }
}

/// Whether the way is to a place of the command itself.
fn is_place(command: &Command, way: &[Entry]) -> bool
    ensures { result ≡ model.is_place (model.doing command.now) way.now }
{
    match command.action.get() {
        Action::Assign(_, _, _) | Action::Receive(_, _) => way.is_empty(),
        Action::Send(_, _, _) | Action::Sync(_) => is_held(way),
        Action::Loop(_) | Action::While(_, _) => is_turn(way),
        Action::If(_, _) | Action::Case(_, _, _) => is_test(way),
        Action::Input(_, _) | Action::Select(_) | Action::Arbitrate(_) => is_end(way),
        Action::Continue
        | Action::Halt
        | Action::Sequence(_)
        | Action::Parallel(_)
        | Action::Call(_, _) => false,
    }
}

/// The `else`, which counts as the arm behind the others.
fn else_at(arms: usize, last: &Option<Command>, arm: u32) -> Option<&Command>
    ensures { option_copied result ≡ model.else_at arms last.now arm }
{
    if arm as usize == arms {
        last.as_ref()
    } else {
        None
    }
}

/// The arm of this number of an `if`.
fn guarded_at<'a>(
    arms: &'a Items<Guarded>,
    last: &'a Option<Command>,
    arm: Option<u32>,
) -> Option<&'a Command>
    ensures { option_copied result ≡ option_and_then (model.guarded_at arms.now last.now) arm }
{
    let arm = arm?;
    match arms.get(arm as usize) {
        Some(guarded) => Some(&guarded.body),
        None => else_at(arms.len(), last, arm),
    }
}

/// The arm of this number of a `case`.
fn labelled_at<'a>(
    arms: &'a Items<Labelled>,
    last: &'a Option<Command>,
    arm: Option<u32>,
) -> Option<&'a Command>
    ensures { option_copied result ≡ option_and_then (model.labelled_at arms.now last.now) arm }
{
    let arm = arm?;
    match arms.get(arm as usize) {
        Some(labelled) => Some(&labelled.body),
        None => else_at(arms.len(), last, arm),
    }
}

/// The arm of this number of a `select` or an `arbitrate`.
fn arm_at(arms: &Items<Arm>, arm: Option<u32>) -> Option<&Command>
    ensures { option_copied result ≡ option_and_then (model.channel_arm_at arms.now) arm }
{
    match arms.get(arm? as usize) {
        Some(opened) => Some(&opened.body),
        None => None,
    }
}

/// The part that stands at `.number` behind the place of the command.
fn part_at(command: &Command, arm: Option<u32>, number: u32) -> Option<&Command>
    ensures { option_copied result ≡ model.part_at arm (model.doing command.now) number }
{
    match command.action.get() {
        Action::Loop(body) | Action::While(_, body) if number % 2 != 0 => Some(body),
        Action::If(arms, last) if number == 1 => guarded_at(arms, last, arm),
        Action::Case(_, arms, last) if number == 1 => labelled_at(arms, last, arm),
        Action::Input(_, body) if number == 1 => Some(body),
        Action::Select(arms) | Action::Arbitrate(arms) if number == 1 => arm_at(arms, arm),
        Action::Sequence(children) => children.get(number as usize),
        _ => None,
    }
}

/// The part that stands at `/number` behind the place of the command.
fn child_at(command: &Command, number: u32) -> Option<&Command>
    ensures { option_copied result ≡ model.child_at (model.doing command.now) number }
{
    match command.action.get() {
        Action::Parallel(children) => children.get(number as usize),
        _ => None,
    }
}

/// The part that stands at the entry behind the place of the command.
fn part(command: &Command, arm: Option<u32>, entry: Entry) -> Option<&Command>
    ensures { option_copied result ≡ model.part arm (model.doing command.now) entry }
{
    match entry {
        Entry::Ordered(number) => part_at(command, arm, number),
        Entry::Branch(number) => child_at(command, number),
    }
}

/// The number of the entry.
fn number_of(entry: Entry) -> u32
    ensures { result ≡ model.number_of entry }
{
    match entry {
        Entry::Ordered(number) | Entry::Branch(number) => number,
    }
}

/// How many calls stand in the command before the part at the entry.
fn calls_before(command: &Command, arm: Option<u32>, entry: Entry) -> usize
    ensures { result ≡ model.calls_before arm (model.doing command.now) entry }
{
    match command.action.get() {
        Action::If(arms, _) => before_guarded(arms.as_slice(), arm),
        Action::Case(_, arms, _) => before_labelled(arms.as_slice(), arm),
        Action::Select(arms) | Action::Arbitrate(arms) => before_arm(arms.as_slice(), arm),
        Action::Sequence(children) | Action::Parallel(children) => {
            calls_in_all(front(children.as_slice(), number_of(entry)))
        }
        _ => 0,
    }
}

/// How many calls stand before an arm of an `if`.
fn before_guarded(arms: &[Guarded], arm: Option<u32>) -> usize
    ensures { result ≡ model.before_arm parts.calls_in_guarded arms.now arm }
{
    match arm {
        Some(number) => calls_in_guarded(front(arms, number)),
        None => 0,
    }
}

/// How many calls stand before an arm of a `case`.
fn before_labelled(arms: &[Labelled], arm: Option<u32>) -> usize
    ensures { result ≡ model.before_arm parts.calls_in_labelled arms.now arm }
{
    match arm {
        Some(number) => calls_in_labelled(front(arms, number)),
        None => 0,
    }
}

/// How many calls stand before an arm of a `select` or an `arbitrate`.
fn before_arm(arms: &[Arm], arm: Option<u32>) -> usize
    ensures { result ≡ model.before_arm parts.calls_in_arm arms.now arm }
{
    match arm {
        Some(number) => calls_in_arms(front(arms, number)),
        None => 0,
    }
}

/// The first so many items, all of them where there are no more.
fn front<T>(items: &[T], count: u32) -> &[T]
    ensures { result.now ≡ take count items.now }
{
    match items.split_at_checked(count as usize) {
        Some((front, _)) => front,
        None => items,
    }
}
