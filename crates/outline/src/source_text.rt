// The text of what only the source tells: calls and enumerations.
ghost use Rattle.std.specs.Prelude.{◌≡◌, ◌++◌, OnOk};
ghost use Rattle.std.specs.List.{flat_map};
ghost use Rattle.outline.specs.OutlineText as model;

use crate::piece::write_count;
use described::{CallEntry, Described, Enumeration};
use std::alloc::AllocError;
use syntax::Name;
use text_parts::{Piece, add_pieces};

/// Adds the calls and the enumerations.
pub(crate) fn write_source(described: &Described, out: &mut Vec<u8>) -> Result<(), AllocError>
    ensures { OnOk result (out.new.items ≡ out.old.items ++ model.source_text described.now) }
{
    write_calls(described, out)?;
    write_enumerations(described, out)
}

/// Adds the calls.
fn write_calls(described: &Described, out: &mut Vec<u8>) -> Result<(), AllocError>
    ensures { OnOk result (out.new.items ≡ out.old.items ++ model.calls_text described.now) }
{
    let calls = described.calls.as_slice();
    write_count(b"calls", calls.len(), out)?;
    write_each_call(calls, out)?;
    write_deeper(described.deeper, out)
}

/// Adds each of the calls.
fn write_each_call(calls: &[CallEntry], out: &mut Vec<u8>) -> Result<(), AllocError>
    ensures { OnOk result (out.new.items ≡ out.old.items ++ flat_map model.call_line calls.now) }
{
    for call in calls {
        write_call(call, out)?;
    }
    Ok(())
}

/// Adds a call.
fn write_call(call: &CallEntry, out: &mut Vec<u8>) -> Result<(), AllocError>
    ensures { OnOk result (out.new.items ≡ out.old.items ++ model.call_line call.now) }
{
    let name = Piece::Name(&call.name);
    let place = Piece::Place(&call.place);
    add_pieces(out, &[Piece::Words(b"  "), name, Piece::Words(b" "), place])?;
    add_pieces(
        out,
        &[
            Piece::Words(b" line "),
            Piece::Number(call.line),
            Piece::Words(b"\n"),
        ],
    )
}

/// Adds how many calls are left out, if there are some.
fn write_deeper(count: u64, out: &mut Vec<u8>) -> Result<(), AllocError>
    ensures { OnOk result (out.new.items ≡ out.old.items ++ model.deeper_line count) }
{
    if count == 0 {
        Ok(())
    } else {
        write_left_out(count, out)
    }
}

/// Adds how many calls are left out.
fn write_left_out(count: u64, out: &mut Vec<u8>) -> Result<(), AllocError>
    ensures { OnOk result (out.new.items ≡ out.old.items ++ model.left_out_line count) }
{
    add_pieces(
        out,
        &[
            Piece::Words(b"  and "),
            Piece::Number(count),
            Piece::Words(b" more, each in 64 others or more\n"),
        ],
    )
}

/// Adds the enumerations.
fn write_enumerations(described: &Described, out: &mut Vec<u8>) -> Result<(), AllocError>
    ensures { OnOk result (out.new.items ≡ out.old.items ++ model.enumerations_text described.now) }
{
    let enumerations = described.enumerations.as_slice();
    write_count(b"enumerations", enumerations.len(), out)?;
    write_each(enumerations, out)
}

/// Adds each of the enumerations.
fn write_each(enumerations: &[Enumeration], out: &mut Vec<u8>) -> Result<(), AllocError>
    ensures { OnOk result (out.new.items ≡ out.old.items ++ flat_map model.enumeration_lines enumerations.now) }
{
    for enumeration in enumerations {
        write_enumeration(enumeration, out)?;
    }
    Ok(())
}

/// Adds an enumeration with its elements.
fn write_enumeration(enumeration: &Enumeration, out: &mut Vec<u8>) -> Result<(), AllocError>
    ensures { OnOk result (out.new.items ≡ out.old.items ++ model.enumeration_lines enumeration.now) }
{
    add_pieces(
        out,
        &[
            Piece::Words(b"  "),
            Piece::Words(enumeration.name.text()),
            Piece::Words(b" line "),
            Piece::Number(enumeration.line),
            Piece::Words(b"\n"),
        ],
    )?;
    write_elements(enumeration.elements.as_slice(), out)
}

/// Adds the elements with their numbers.
fn write_elements(elements: &[Name], out: &mut Vec<u8>) -> Result<(), AllocError>
    ensures { OnOk result (out.new.items ≡ out.old.items ++ model.element_lines 0 elements.now) }
{
    for (number, element) in elements.iter().enumerate() {
        write_element(element, number as u64, out)?;
    }
    Ok(())
}

/// Adds an element with its number.
fn write_element(element: &Name, number: u64, out: &mut Vec<u8>) -> Result<(), AllocError>
    ensures { OnOk result (out.new.items ≡ out.old.items ++ model.element_line number element.now) }
{
    add_pieces(
        out,
        &[
            Piece::Words(b"    "),
            Piece::Words(element.text()),
            Piece::Words(b" "),
            Piece::Number(number),
            Piece::Words(b"\n"),
        ],
    )
}
