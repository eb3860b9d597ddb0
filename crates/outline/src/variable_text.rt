// The text of variables.
ghost use Rattle.std.specs.Prelude.{◌≡◌, ◌++◌, OnOk};
ghost use Rattle.std.specs.List.{flat_map};
ghost use Rattle.outline.specs.OutlineText as model;

use crate::names::VariableEntry;
use crate::outline::Outline;
use crate::piece::{end_with_line, line_at, write_count};
use described::Described;
use std::alloc::AllocError;
use text_parts::{Piece, add_pieces, add_words};

/// Adds the variables.
pub(crate) fn write_variables(
    outline: &Outline,
    described: &Described,
    out: &mut Vec<u8>,
) -> Result<(), AllocError>
    ensures { OnOk result (out.new.items ≡ out.old.items ++ model.variables_text outline.now described.now) }
{
    let variables = outline.variables.as_slice();
    write_count(b"variables", variables.len(), out)?;
    write_each(described.variable_lines.as_slice(), variables, out)
}

/// Adds each of the variables.
fn write_each(
    lines: &[u64],
    variables: &[VariableEntry],
    out: &mut Vec<u8>,
) -> Result<(), AllocError>
    ensures { OnOk result (out.new.items ≡ out.old.items ++ flat_map (model.variable_line lines.now) variables.now) }
{
    for variable in variables {
        write_variable(lines, variable, out)?;
    }
    Ok(())
}

/// Adds a variable.
fn write_variable(
    lines: &[u64],
    variable: &VariableEntry,
    out: &mut Vec<u8>,
) -> Result<(), AllocError>
    ensures { OnOk result (out.new.items ≡ out.old.items ++ model.variable_line lines.now variable.now) }
{
    let bits = Piece::Number(u64::from(variable.width.bits()));
    let name = Piece::Name(&variable.name);
    add_pieces(
        out,
        &[
            Piece::Words(b"  "),
            name,
            Piece::Words(b" "),
            bits,
            Piece::Words(b" bits"),
        ],
    )?;
    write_shared(variable.shared, out)?;
    end_with_line(line_at(lines, variable.number), out)
}

/// Adds that branches may share a variable, if they may.
fn write_shared(shared: bool, out: &mut Vec<u8>) -> Result<(), AllocError>
    ensures { OnOk result (out.new.items ≡ out.old.items ++ model.shared_text shared) }
{
    if shared {
        add_words(out, b" shared")
    } else {
        Ok(())
    }
}
