//! The fields of an answer, each behind a space.
ghost use Rattle.std.specs.Prelude.{◌≡◌, ◌++◌, OnOk};
ghost use Rattle.std.specs.Option.{option_copied};
ghost use Rattle.address.specs.Text.{text_of};
ghost use Rattle.line_text.specs.EventText.{field, name_text, variable_text, channel_text};
ghost use Rattle.line_text.specs.EventText.{value_text, arm_text, place_text};
ghost use Rattle.line_text.specs.FieldText.{shown, spaced};

use crate::text::{add_byte, add_decimal, add_entries, add_marked, add_word};
use address::Address;
use std::alloc::AllocError;
use system::{QualifiedName, System};
use value::Value;

/// What stands behind a space.
#[derive(Clone, Copy)]
pub enum Field<'a> {
    /// these bytes
    Word(&'a [u8]),
    /// a number in decimal
    Number(u64),
    /// the name of a variable or a channel
    Name(&'a QualifiedName),
    /// a place
    Place(&'a Address),
}

/// The name of the variable of this number, `?` where there is none.
pub fn variable_field(system: &System, number: Option<u32>) -> Field<'_>
    ensures { shown result ≡ variable_text system.now number }
{
    match number {
        Some(number) => name_field(system.variable_name(number)),
        None => Field::Word(b"?"),
    }
}

/// A name, `?` where there is none.
fn name_field(name: Option<&QualifiedName>) -> Field<'_>
    ensures { shown result ≡ name_text (option_copied name.entry) }
{
    match name {
        Some(name) => Field::Name(name),
        None => Field::Word(b"?"),
    }
}

/// Adds what stands in the field.
fn add_shown(out: &mut Vec<u8>, field: Field<'_>) -> Result<(), AllocError>
    ensures { OnOk result (out.new.items ≡ out.old.items ++ shown field.entry) }
{
    match field {
        Field::Word(word) => add_word(out, word),
        Field::Number(number) => add_decimal(out, number),
        Field::Name(name) => name.write_to(out),
        Field::Place(place) => add_entries(out, place),
    }
}

/// Adds a field.
pub(crate) fn add_field(out: &mut Vec<u8>, field: Field<'_>) -> Result<(), AllocError>
    ensures { OnOk result (out.new.items ≡ out.old.items ++ spaced field.entry) }
{
    add_byte(out, b' ')?;
    add_shown(out, field)
}

/// Adds the name of the variable of this number, `?` where there is none.
pub(crate) fn add_variable(
    out: &mut Vec<u8>,
    system: &System,
    number: Option<u32>,
) -> Result<(), AllocError>
    ensures { OnOk result (out.new.items ≡ out.old.items ++ field (variable_text system.now number)) }
{
    match number {
        Some(number) => add_name(out, system.variable_name(number)),
        None => add_word(out, b" ?"),
    }
}

/// Adds the name of the channel of this number, `?` where there is none.
pub(crate) fn add_channel(
    out: &mut Vec<u8>,
    system: &System,
    number: Option<u32>,
) -> Result<(), AllocError>
    ensures { OnOk result (out.new.items ≡ out.old.items ++ field (channel_text system.now number)) }
{
    match number {
        Some(number) => add_name(out, system.channel_name(number)),
        None => add_word(out, b" ?"),
    }
}

/// Adds a name, `?` where there is none.
fn add_name(out: &mut Vec<u8>, name: Option<&QualifiedName>) -> Result<(), AllocError>
    ensures { OnOk result (out.new.items ≡ out.old.items ++ field (name_text (option_copied name.entry))) }
{
    match name {
        Some(name) => {
            add_byte(out, b' ')?;
            name.write_to(out)
        }
        None => add_word(out, b" ?"),
    }
}

/// Adds a value, `-` where none passes.
pub(crate) fn add_value(out: &mut Vec<u8>, value: Option<Value>) -> Result<(), AllocError>
    ensures { OnOk result (out.new.items ≡ out.old.items ++ field (value_text value)) }
{
    match value {
        Some(value) => add_marked(out, b' ', value.bits()),
        None => add_word(out, b" -"),
    }
}

/// Adds an arm, `none` where none is taken.
pub(crate) fn add_arm(out: &mut Vec<u8>, arm: Option<u32>) -> Result<(), AllocError>
    ensures { OnOk result (out.new.items ≡ out.old.items ++ field (arm_text arm)) }
{
    match arm {
        Some(arm) => add_marked(out, b' ', u64::from(arm)),
        None => add_word(out, b" none"),
    }
}

/// Adds a place.
pub(crate) fn add_place(out: &mut Vec<u8>, place: &Address) -> Result<(), AllocError>
    ensures { OnOk result (out.new.items ≡ out.old.items ++ field (text_of place.now)) }
{
    add_byte(out, b' ')?;
    add_entries(out, place)
}

/// Adds the place of the other side, `?` where there is none.
pub(crate) fn add_second(out: &mut Vec<u8>, place: &Option<Address>) -> Result<(), AllocError>
    ensures { OnOk result (out.new.items ≡ out.old.items ++ field (place_text place.now)) }
{
    match place {
        Some(place) => add_place(out, place),
        None => add_word(out, b" ?"),
    }
}
