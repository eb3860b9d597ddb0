// The commands whose places an address may be, and their lines.
//
// One walk serves two questions. It goes down the tree along the entries of the address, and where the arms of a choice
// have the same places it takes the first arm in which it finds something.
ghost use Rattle.std.specs.Prelude.{◌≡◌, None, map};
ghost use Rattle.std.specs.Option.{option_map, option_copied, option_or};
ghost use Rattle.system_places.specs.CommandPlaces as model;
ghost use Rattle.system_places.specs.internal.Parts as parts;

use address::{Address, Entry};
use syntax::Items;
use system::{Action, Arm, Command, Guarded, Labelled, System};

/// How the places of a command, and those at which its bodies stand, are numbered.
#[derive(Clone, Copy)]
pub(crate) enum Form {
    /// 0 and 1, without a body
    Held,
    /// each even number, with a body at each odd one
    Turns,
    /// 0, with a body at 1
    Test,
    /// 0 and 2, with a body at 1
    Choice,
}

impl Form {
    /// Whether a command has the place of this number.
    fn is_own_number(self, number: u32) -> bool
        ensures { result ≡ model.is_own_number self number }
    {
        match self {
            Form::Held => number < 2,
            Form::Turns => number % 2 == 0,
            Form::Test => number == 0,
            Form::Choice => number == 0 || number == 2,
        }
    }

    /// Whether a body stands at this number.
    pub(crate) fn is_body_number(self, number: u32) -> bool
        ensures { result ≡ model.is_body_number self number }
    {
        match self {
            Form::Held => false,
            Form::Turns => number % 2 != 0,
            Form::Test | Form::Choice => number == 1,
        }
    }

    /// Whether the way is to a place of a command.
    pub(crate) fn is_own(self, way: &[Entry]) -> bool
        ensures { result ≡ model.is_own self way.now }
    {
        match way {
            [Entry::Ordered(number)] => self.is_own_number(*number),
            _ => false,
        }
    }

    /// The way from the body, where it leads into one.
    fn below(self, way: &[Entry]) -> Option<&[Entry]>
        ensures { option_copied result ≡ model.below self way.now }
    {
        match way {
            [Entry::Ordered(number), rest @ ..] if self.is_body_number(*number) => Some(rest),
            _ => None,
        }
    }
}

/// The line, where it counts, and the way ends here.
fn here(counts: bool, line: u64, way: &[Entry]) -> Option<u64>
    ensures { result ≡ model.here counts line way.now }
{
    if counts && way.is_empty() {
        Some(line)
    } else {
        None
    }
}

/// The line, where it counts, and the way is to a place of the command itself.
fn own(counts: bool, form: Form, line: u64, way: &[Entry]) -> Option<u64>
    ensures { result ≡ model.own counts form line way.now }
{
    if counts && form.is_own(way) {
        Some(line)
    } else {
        None
    }
}

/// The places of a `select` that count.
fn select_form(all: bool) -> Form
    ensures { result ≡ model.select_form all }
{
    if all { Form::Choice } else { Form::Test }
}

/// The line of the command, at or within this one, that has the place to which the way leads; where not `all` of them
/// count, of a `select` that opens there.
#[cycle(places)]
fn found_in(all: bool, command: &Command, way: &[Entry]) -> Option<u64>
    ensures { result ≡ model.found_in all command.now way.now }
{
    let line = command.line;
    match command.action.get() {
        Action::Continue | Action::Halt => None,
        Action::Assign(_, _, _) | Action::Receive(_, _) => here(all, line, way),
        Action::Send(_, _, _) | Action::Sync(_) => own(all, Form::Held, line, way),
        Action::Loop(body) | Action::While(_, body) => {
            own(all, Form::Turns, line, way).or(in_body(all, Form::Turns, body, way))
        }
        Action::If(arms, last) => own(all, Form::Test, line, way)
            .or(in_guarded(all, arms.as_slice(), way))
            .or(in_last(all, last, way)),
        Action::Case(_, arms, last) => own(all, Form::Test, line, way)
            .or(in_labelled(all, arms.as_slice(), way))
            .or(in_last(all, last, way)),
        Action::Input(_, body) => {
            own(all, Form::Choice, line, way).or(in_body(all, Form::Choice, body, way))
        }
        Action::Select(arms) => {
            let form = select_form(all);
            own(true, form, line, way).or(in_arms(all, form, arms.as_slice(), way))
        }
        Action::Arbitrate(arms) => {
            own(all, Form::Choice, line, way).or(in_arms(all, Form::Choice, arms.as_slice(), way))
        }
        Action::Sequence(children) => in_sequence(all, children, way),
        Action::Parallel(children) => in_parallel(all, children, way),
    }
}

/// What is found before, else what is found in the command.
#[cycle(places)]
fn found_or_in(found: Option<u64>, all: bool, command: &Command, way: &[Entry]) -> Option<u64>
    ensures { result ≡ option_or found (model.found_in all command.now way.now) }
{
    match found {
        Some(line) => Some(line),
        None => found_in(all, command, way),
    }
}

/// What is found in the body, where the way leads into it.
#[cycle(places)]
fn in_body(all: bool, form: Form, body: &Command, way: &[Entry]) -> Option<u64>
    ensures { result ≡ model.found_below (model.found_in all body.now) (model.below form way.now) }
{
    let rest = form.below(way)?;
    found_in(all, body, rest)
}

/// What is found in the arms of an `if`, where the way leads into them.
#[cycle(places)]
fn in_guarded(all: bool, arms: &[Guarded], way: &[Entry]) -> Option<u64>
    ensures { result
        ≡ model.found_below (model.first_onto None (map (parts.found_in_guarded all) arms.now))
        (model.below Form.Test way.now) }
{
    let rest = Form::Test.below(way)?;
    first_guarded(all, arms, rest)
}

/// What is found in the arms of a `case`, where the way leads into them.
#[cycle(places)]
fn in_labelled(all: bool, arms: &[Labelled], way: &[Entry]) -> Option<u64>
    ensures { result
        ≡ model.found_below (model.first_onto None (map (parts.found_in_labelled all) arms.now))
        (model.below Form.Test way.now) }
{
    let rest = Form::Test.below(way)?;
    first_labelled(all, arms, rest)
}

/// What is found in the arms of a `select` or an `arbitrate`, where the way leads into them.
#[cycle(places)]
fn in_arms(all: bool, form: Form, arms: &[Arm], way: &[Entry]) -> Option<u64>
    ensures { result
        ≡ model.found_below (model.first_onto None (map (parts.found_in_arm all) arms.now)) (model.below form way.now) }
{
    let rest = form.below(way)?;
    first_arm(all, arms, rest)
}

/// The first that is found in an arm of an `if`.
#[cycle(places)]
fn first_guarded(all: bool, arms: &[Guarded], way: &[Entry]) -> Option<u64>
    ensures { result ≡ model.first_onto None (map (parts.found_in_guarded all) arms.now) way.now }
{
    let mut found = None;
    for arm in arms {
        found = found_or_in(found, all, &arm.body, way);
    }
    found
}

/// The first that is found in an arm of a `case`.
#[cycle(places)]
fn first_labelled(all: bool, arms: &[Labelled], way: &[Entry]) -> Option<u64>
    ensures { result ≡ model.first_onto None (map (parts.found_in_labelled all) arms.now) way.now }
{
    let mut found = None;
    for arm in arms {
        found = found_or_in(found, all, &arm.body, way);
    }
    found
}

/// The first that is found in an arm of a `select` or an `arbitrate`.
#[cycle(places)]
fn first_arm(all: bool, arms: &[Arm], way: &[Entry]) -> Option<u64>
    ensures { result ≡ model.first_onto None (map (parts.found_in_arm all) arms.now) way.now }
{
    let mut found = None;
    for arm in arms {
        found = found_or_in(found, all, &arm.body, way);
    }
    found
}

/// What is found behind an `else`, where the way leads there.
#[cycle(places)]
fn in_last(all: bool, last: &Option<Command>, way: &[Entry]) -> Option<u64>
    ensures { result
        ≡ model.found_below (model.found_in_last (option_map (model.found_in all) last.now))
        (model.below Form.Test way.now) }
{
    let rest = Form::Test.below(way)?;
    match last {
        Some(body) => found_in(all, body, rest),
        None => None,
    }
}

/// What is found in the child of this number.
#[cycle(places)]
fn in_child(all: bool, children: &Items<Command>, number: u32, way: &[Entry]) -> Option<u64>
    ensures { result ≡ model.found_in_child (map (model.found_in all) children.now) number way.now }
{
    match children.get(number as usize) {
        Some(child) => found_in(all, child, way),
        None => None,
    }
}

/// What is found in a child of a sequence.
#[cycle(places)]
fn in_sequence(all: bool, children: &Items<Command>, way: &[Entry]) -> Option<u64>
    ensures { result ≡ model.found_in_sequence (map (model.found_in all) children.now) way.now }
{
    match way {
        [Entry::Ordered(number), rest @ ..] => in_child(all, children, *number, rest),
        _ => None,
    }
}

/// What is found in a child of a parallel.
#[cycle(places)]
fn in_parallel(all: bool, children: &Items<Command>, way: &[Entry]) -> Option<u64>
    ensures { result ≡ model.found_in_parallel (map (model.found_in all) children.now) way.now }
{
    match way {
        [Entry::Branch(number), rest @ ..] => in_child(all, children, *number, rest),
        _ => None,
    }
}

/// What is found in a system, whose body stands at `/0`.
fn found_at(all: bool, system: &System, place: &[Entry]) -> Option<u64>
    ensures { result ≡ model.found_at all system.now place.now }
{
    match place {
        [Entry::Branch(0), way @ ..] => found_in(all, &system.main, way),
        _ => None,
    }
}

/// The line of the command of this place, from 1, whichever arms were taken. None for a place of the environment, and
/// for an address that is no place of a command. The arms of a choice have the same places: there it is the line in the
/// first arm that has one, in order, what stands behind `else` as the last. `line_under` knows which arm stands there.
pub fn line_at(system: &System, place: &Address) -> Option<u64>
    ensures { result ≡ model.line_at system.now place.now }
{
    found_at(true, system, place.entries())
}

/// Whether the place is one at which a `select` opens, whichever arms were taken. The arms of a choice have the same
/// places: there it is that of some arm. `is_open_under` knows which arm stands there.
pub fn is_open_of_select(system: &System, place: &Address) -> bool
    ensures { result ≡ model.is_open_of_select system.now place.now }
{
    found_at(false, system, place.entries()).is_some()
}
