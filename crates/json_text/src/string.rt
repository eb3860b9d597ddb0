// Strings of JSON.
ghost use Rattle.std.specs.Prelude.{◌≡◌, ◌++◌, ◌<◌, OnOk, true};
ghost use Rattle.bstr.specs.Utf8.{lossy_chars};
ghost use Rattle.json_text.specs.Json.{BytesReadBack, NumbersAreIntegers, TextsHaveOneValue};
ghost use Rattle.json_text.specs.Reading.{StringsReadBack};
ghost use Rattle.json_text.specs.Strings.{StringsArePlain, character_text, escaped, hex_digit, is_literal, json_string, pair, unit};

use bstr::ByteSlice;
use std::alloc::AllocError;

/// Adds the string of JSON that stands for the text. A byte sequence that is no UTF-8 stands for U+FFFD, a piece each.
/// Without memory a part of it may be there.
pub fn add_string(out: &mut Vec<u8>, text: &[u8]) -> Result<(), AllocError>
    ensures { OnOk result (out.new.items ≡ out.old.items ++ json_string (lossy_chars text.now)) }
{
    out.push(b'"')?;
    add_characters(out, text)?;
    out.push(b'"')?;
    Ok(())
}

/// Adds the characters of the text, each as JSON has it.
fn add_characters(out: &mut Vec<u8>, text: &[u8]) -> Result<(), AllocError>
    ensures { OnOk result (out.new.items ≡ out.old.items ++ escaped (lossy_chars text.now)) }
{
    let mut characters = text.chars();
    'characters: while let Some(character) = characters.next() {
        add_character(out, u32::from(character))?;
    }
    Ok(())
}

/// Adds a character: itself, or its units.
fn add_character(out: &mut Vec<u8>, code: u32) -> Result<(), AllocError>
    ensures { OnOk result (out.new.items ≡ out.old.items ++ character_text code) }
{
    if is_literal(code) {
        out.push(code as u8)?;
        return Ok(());
    }
    if code < 0x1_0000 {
        return add_unit(out, code);
    }
    add_pair(out, code - 0x1_0000)
}

/// Adds the two units of a character whose code, less 2^16, is this.
fn add_pair(out: &mut Vec<u8>, above: u32) -> Result<(), AllocError>
    ensures { OnOk result (out.new.items ≡ out.old.items ++ pair above) }
{
    add_unit(out, 0xd800 + above / 0x400)?;
    add_unit(out, 0xdc00 + above % 0x400)
}

/// Whether the character stands for itself.
fn is_literal(code: u32) -> bool
    ensures test { result ≡ is_literal code }
    ensures small { result ≡ true → code < 127 }
{
    code >= 32 && code < 127 && code != 34 && code != 60 && code != 92
}

/// Adds a unit of 16 bits: the last 16 of the number.
fn add_unit(out: &mut Vec<u8>, code: u32) -> Result<(), AllocError>
    ensures { OnOk result (out.new.items ≡ out.old.items ++ unit code) }
{
    let digits = [
        b'\\',
        b'u',
        hex_digit(code / 4096 % 16),
        hex_digit(code / 256 % 16),
        hex_digit(code / 16 % 16),
        hex_digit(code % 16),
    ];
    out.extend_from_slice(&digits)
}

/// The digit of a number below 16.
fn hex_digit(number: u32) -> u8
    requires { number < 16 }
    ensures { result ≡ hex_digit number }
{
    if number < 10 {
        48 + number as u8
    } else {
        87 + number as u8
    }
}

/// Each byte of a string is printable ASCII, and none is `<`. Nothing is done, the contract says it.
pub fn strings_are_plain()
    ensures { StringsArePlain }
{}

/// A string is read as its characters. Nothing is done, the contract says it.
pub fn strings_read_back()
    ensures { StringsReadBack }
{}

/// The string of any bytes is a text of their characters. Nothing is done, the contract says it.
pub fn bytes_read_back()
    ensures { BytesReadBack }
{}

/// A number as it is written has no zero in front of other digits. Nothing is done, the contract says it.
pub fn numbers_are_integers()
    ensures { NumbersAreIntegers }
{}

/// A text has one value. Nothing is done, the contract says it.
pub fn texts_have_one_value()
    ensures { TextsHaveOneValue }
{}
