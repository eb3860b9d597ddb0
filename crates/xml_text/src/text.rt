// Text of XML.
ghost use Rattle.std.specs.Prelude.{◌≡◌, ◌++◌, ◌<◌, OnOk, true};
ghost use Rattle.bstr.specs.Utf8.{lossy_chars};
ghost use Rattle.xml_text.specs.Text.{TextsAreQuiet, TextsReadBack, character_text, escaped, is_allowed, is_literal, readable, reference};

use bstr::ByteSlice;
use itoa::Buffer;
use std::alloc::AllocError;

/// Adds the text of XML that stands for these bytes, between two tags or in an attribute. A byte sequence that is no
/// UTF-8 stands for U+FFFD, a piece each. Without memory a part of it may be there.
pub fn add_text(out: &mut Vec<u8>, text: &[u8]) -> Result<(), AllocError>
    ensures { OnOk result (out.new.items ≡ out.old.items ++ escaped (lossy_chars text.now)) }
{
    let mut characters = text.chars();
    'characters: while let Some(character) = characters.next() {
        add_character(out, u32::from(character))?;
    }
    Ok(())
}

/// Adds a character: itself, or a reference to it.
fn add_character(out: &mut Vec<u8>, code: u32) -> Result<(), AllocError>
    ensures { OnOk result (out.new.items ≡ out.old.items ++ character_text code) }
{
    if is_literal(code) {
        out.push(code as u8)?;
        return Ok(());
    }
    add_reference(out, readable(code))
}

/// Adds a reference to a character.
fn add_reference(out: &mut Vec<u8>, code: u32) -> Result<(), AllocError>
    ensures { OnOk result (out.new.items ≡ out.old.items ++ reference code) }
{
    let mut buffer = Buffer::new();
    let digits = buffer.format(code);
    out.push(b'&')?;
    out.push(b'#')?;
    out.extend_from_slice(digits.as_bytes())?;
    out.push(b';')?;
    Ok(())
}

/// The character, or U+FFFD where XML cannot have it.
fn readable(code: u32) -> u32
    ensures { result ≡ readable code }
{
    if is_allowed(code) { code } else { 0xfffd }
}

/// Whether XML can have the character.
fn is_allowed(code: u32) -> bool
    ensures { result ≡ is_allowed code }
{
    if code < 0x20 {
        return code == 9 || code == 10 || code == 13;
    }
    if code < 0x1_0000 {
        return code < 0xfffe && (code < 0xd800 || code > 0xdfff);
    }
    code < 0x11_0000
}

/// Whether the character stands for itself.
fn is_literal(code: u32) -> bool
    ensures test { result ≡ is_literal code }
    ensures small { result ≡ true → code < 127 }
{
    code >= 32 && code < 127 && code != 34 && code != 38 && code != 39 && code != 60 && code != 62
}

/// No byte of a text ends what it stands in. Nothing is done, the contract says it.
pub fn texts_are_quiet()
    ensures { TextsAreQuiet }
{}

/// A text reads back to its characters. Nothing is done, the contract says it.
pub fn texts_read_back()
    ensures { TextsReadBack }
{}
