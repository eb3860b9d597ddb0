ghost use Rattle.std.specs.Prelude.{◌≡◌, ◌≢◌, ◌⊎◌, [], Ok, Err, Some, MatchOption, IfOk, IfErr};
ghost use Rattle.line_text.specs.Operands.{MayBeChoice};
ghost use Rattle.debug_session.specs.Lines.{IsSession, AsksBy, AsksNothing, MayBeStep, Says, SaysSession};
ghost use Rattle.debug_session.specs.internal.NotAsked.{IsNoSession, AsksNothingBy};
ghost use Rattle.line_text.specs.declared.keyword.Keyword.TheVariants as keywords;
ghost use Rattle.debug_session.specs.declared.fault.Fault.TheVariants.{Memory, BadCommand};

use crate::{Fault, Line};
use line_text::{Keyword, cut_at_space, read_branch, read_choice, read_ticket, read_variable};
use locked_execution::Command;
use sharing_check::Checked;
use std::alloc::Global;
use system::System;

/// What the line, without byte 10, says. `number` counts lines from 1 and is what a fault names.
///
/// A line of no form, a number that is too large and the name of no variable are `BadCommand`. It is `Memory` if
/// there is no memory for the place of a step; no other line takes any.
pub fn read_command(
    alloc: Global,
    checked: &Checked,
    line: &[u8],
    number: u64,
) -> Result<Line, Fault>
    ensures line { IfOk result (λ said. Says checked.now line.now said) }
    ensures session { IfOk result SaysSession }
    ensures fault { IfErr result (λ fault. ((fault ≡ Memory) × MayBeStep line.now)
        ⊎ ((fault ≡ BadCommand number) × (line.now ≢ []) × AsksNothing checked.now line.now)) }
{
    if line.is_empty() {
        return Ok(Line::Empty);
    }
    let (text, rest) = cut_at_space(line);
    let Some(keyword) = Keyword::read(text) else {
        return Err(Fault::BadCommand(number));
    };
    read_behind(alloc, checked.system(), keyword, rest, number)
}

/// What the keyword asks for with `rest` behind it, in the line of this number. A step is made where it is read, since
/// most lines ask for one.
fn read_behind(
    alloc: Global,
    system: &System,
    keyword: Keyword,
    rest: &[u8],
    number: u64,
) -> Result<Line, Fault>
    ensures line { IfOk result (λ said. AsksBy system.now keyword rest.now said) }
    ensures fault { IfErr result (λ fault. ((fault ≡ Memory) × (keyword ≡ keywords.Step) × MayBeChoice rest.now)
        ⊎ ((fault ≡ BadCommand number) × AsksNothingBy system.now keyword rest.now)) }
{
    match keyword {
        Keyword::Step => match read_choice(alloc, rest)? {
            Some(choice) => Ok(Line::Asked(Command::Step(choice))),
            None => Err(Fault::BadCommand(number)),
        },
        other => or_fault(read_simple(system, other, rest), number),
    }
}

/// What the line of this number asks for, where it asks for something.
fn or_fault(found: Option<Line>, number: u64) -> Result<Line, Fault>
    ensures { MatchOption found (result ≡ Err (BadCommand number)) (λ said. result ≡ Ok said) }
{
    match found {
        Some(said) => Ok(said),
        None => Err(Fault::BadCommand(number)),
    }
}

/// What a keyword other than `step` asks for with `rest` behind it.
fn read_simple(system: &System, keyword: Keyword, rest: &[u8]) -> Option<Line>
    requires { keyword ≢ keywords.Step }
    ensures { MatchOption result
        (AsksNothingBy system.now keyword rest.now) (λ said. AsksBy system.now keyword rest.now said) }
{
    match keyword {
        Keyword::Step => None,
        Keyword::Undo => asked(Command::Undo(read_ticket(rest)?)),
        Keyword::Roll => asked(Command::Roll(read_ticket(rest)?)),
        Keyword::Consequences => asked(Command::Consequences(read_ticket(rest)?)),
        Keyword::RollValue => asked(Command::RollValue(read_variable(system, rest)?)),
        Keyword::Blame => asked(Command::Blame(read_variable(system, rest)?)),
        Keyword::Value => asked(Command::Value(read_variable(system, rest)?)),
        Keyword::Ready => bare(rest, Line::Asked(Command::Ready)),
        Keyword::Live => bare(rest, Line::Asked(Command::Live)),
        Keyword::Branch => asked(Command::Branch(read_branch(rest)?)),
        Keyword::Break => asked(Command::Break(read_ticket(rest)?)),
        Keyword::Clear => asked(Command::Clear(read_ticket(rest)?)),
        Keyword::Session => Some(Line::Session(read_session(rest)?)),
        Keyword::View => bare(rest, Line::View),
        Keyword::Trace => bare(rest, Line::Trace),
    }
}

/// The number of a session.
fn read_session(rest: &[u8]) -> Option<u32>
    ensures { MatchOption result (IsNoSession rest.now) (λ session. IsSession session rest.now) }
{
    let number = read_ticket(rest)?;
    if number < 16 {
        Some(number as u32)
    } else {
        None
    }
}

/// The line that asks for the command.
fn asked(command: Command) -> Option<Line>
    ensures { result ≡ Some (Line.Asked command) }
{
    Some(Line::Asked(command))
}

/// The line, where nothing is left.
fn bare(rest: &[u8], line: Line) -> Option<Line>
    ensures { MatchOption result (rest.now ≢ []) (λ given. (rest.now ≡ []) × (given ≡ line)) }
{
    if rest.is_empty() { Some(line) } else { None }
}
