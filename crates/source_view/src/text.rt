// The bytes of a view. Each function adds its text behind what is there; without memory a part of it may be there.
ghost use Rattle.std.specs.Prelude.{◌≡◌, ◌≤◌, ◌++◌, length, replicate, IfOk, OnOk};
ghost use Rattle.std.specs.Fmt.{decimal};
ghost use Rattle.syntax.specs.Texts.{lines};
ghost use Rattle.source_view.specs.View.{lines_text, line_text, right_aligned, mark};
ghost use Rattle.source_view.specs.internal.Marking.{marks_at};

use crate::lines::first_line;
use crate::marks::Marks;
use itoa::Buffer;
use std::alloc::{AllocError, Global};

/// The lines of the source with their numbers and their marks, which are given line by line.
pub(crate) fn write_lines(
    alloc: Global,
    marks: &[Marks],
    source: &[u8],
) -> Result<Vec<u8>, AllocError>
    requires { length (lines source.now) ≤ length marks.now }
    ensures { IfOk result (λ bytes. bytes.items ≡ lines_text (marks_at marks.now) 1 (lines source.now)) }
{
    let mut out = Vec::new(alloc);
    let mut rest = source;
    for (index, marks) in marks.iter().enumerate() {
        if rest.is_empty() {
            break;
        }
        let (line, after) = first_line(rest);
        add_line(&mut out, index as u64 + 1, *marks, line)?;
        rest = after;
    }
    Ok(out)
}

/// Adds a line with its number and its marks.
fn add_line(out: &mut Vec<u8>, number: u64, marks: Marks, line: &[u8]) -> Result<(), AllocError>
    ensures { OnOk result (out.new.items ≡ out.old.items ++ line_text number marks line.now) }
{
    add_number(out, number)?;
    out.extend_from_slice(b" ")?;
    out.extend_from_slice(mark(marks.is_ready, b">"))?;
    out.extend_from_slice(mark(marks.has_break, b"*"))?;
    out.extend_from_slice(mark(marks.in_conflict, b"!"))?;
    out.extend_from_slice(b" ")?;
    out.extend_from_slice(line)?;
    out.extend_from_slice(b"\n")
}

/// The mark where it is to be seen, else a space.
fn mark(is_seen: bool, text: &[u8]) -> &[u8]
    ensures { result.now ≡ mark is_seen text.now }
{
    if is_seen { text } else { b" " }
}

/// Adds a number in decimal, right in 5 places.
fn add_number(out: &mut Vec<u8>, number: u64) -> Result<(), AllocError>
    ensures { OnOk result (out.new.items ≡ out.old.items ++ right_aligned (decimal number)) }
{
    let mut buffer = Buffer::new();
    let digits = buffer.format(number).as_bytes();
    out.extend_from_slice(spaces(5_usize.saturating_sub(digits.len())))?;
    out.extend_from_slice(digits)
}

/// So many spaces.
fn spaces(count: usize) -> &'static [u8]
    requires { count ≤ 5 }
    ensures { result.now ≡ replicate count 32 }
{
    &b"     "[..count]
}
