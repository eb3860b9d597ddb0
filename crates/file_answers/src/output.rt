//! Lines with numbers: what a crew did, and the one line by which a run that ends early says why.
//!
//! They are written piece by piece and without memory, which may be what is wanting.

ghost use Rattle.std.specs.Prelude.{◌++◌, decimal};
ghost use Rattle.debug_session.specs.ReplyText.{ending};
ghost use Rattle.file_answers.specs.FaultLine.{fault_line, refused_text};
ghost use Rattle.file_answers.specs.Used.{Tells, used};
ghost use Rattle.file_answers.specs.Working.{work_text};

use debug_session::{Counted, Fault, write_out};
use itoa::Buffer;
use locked_execution::Tally;
use std::io::Write;

/// Writes one text and then another.
fn write_both<W: Write>(out: &mut Counted<W>, first: &[u8], second: &[u8]) -> Result<(), Fault>
    ensures { Tells (first.now ++ second.now) (used W.contents out.old out.new) result }
{
    write_out(out, first)?;
    write_out(out, second)
}

/// Writes a number in decimal and then a text.
fn write_number<W: Write>(out: &mut Counted<W>, number: u64, behind: &[u8]) -> Result<(), Fault>
    ensures { Tells (decimal number ++ behind.now) (used W.contents out.old out.new) result }
{
    let mut buffer = Buffer::new();
    let digits = buffer.format(number);
    write_both(out, digits.as_bytes(), behind)
}

/// Writes a text, a number in decimal, and another text.
fn write_around<W: Write>(
    out: &mut Counted<W>,
    before: &[u8],
    number: u64,
    behind: &[u8],
) -> Result<(), Fault>
    ensures { Tells (before.now ++ (decimal number ++ behind.now)) (used W.contents out.old out.new) result }
{
    write_out(out, before)?;
    write_number(out, number, behind)
}

/// Tells how many turns were steps and how many events are live, a line each.
pub fn tell_tally<O: Write>(done: Tally, out: &mut Counted<O>) -> Result<(), Fault>
    ensures { Tells (work_text done.stepped done.live) (used O.contents out.old out.new) result }
{
    write_around(out, b"stepped ", done.stepped, b"\n")?;
    write_around(out, b"live ", done.live, b"\n")
}

/// Writes the number of a refusal, and what stands behind it, as a line.
fn write_refused<W: Write>(
    out: &mut Counted<W>,
    number: u64,
    field: Option<u64>,
) -> Result<(), Fault>
    ensures { Tells (refused_text number field ++ ending) (used W.contents out.old out.new) result }
{
    let Some(field) = field else {
        return write_around(out, b"balsadbg: refused ", number, b"\n");
    };
    write_around(out, b"balsadbg: refused ", number, b" ")?;
    write_number(out, field, b"\n")
}

/// Writes the line that tells the fault.
pub fn write_fault<W: Write>(fault: Fault, out: &mut Counted<W>) -> Result<(), Fault>
    ensures { Tells (fault_line fault) (used W.contents out.old out.new) result }
{
    write_refused(out, u64::from(fault.number()), fault.field())
}

/// Writes the line that tells the fault, and words behind it.
pub fn write_refusal<W: Write>(
    fault: Fault,
    words: &[u8],
    out: &mut Counted<W>,
) -> Result<(), Fault>
    ensures { Tells (fault_line fault ++ words.now) (used W.contents out.old out.new) result }
{
    write_fault(fault, out)?;
    write_out(out, words)
}
