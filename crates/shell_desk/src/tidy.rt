ghost use Rattle.std.specs.Prelude.{◌≡◌, ◌++◌, IfOk, OnOk, MatchResult};
ghost use Rattle.shell_desk.specs.Tidied.{is_blank, small_letter, shown_in, behind_byte, behind_blank, tidied, tidy_from};
ghost use Rattle.shell_desk.specs.declared.tidy.Part.TheVariants.{Start};
ghost use Rattle.shell_desk.specs.Tidied.{behind_field, first_field, name_behind, names_file, no_blanks_before, no_blanks_behind};

use std::alloc::{AllocError, Global};

/// Which part of a line goes on.
#[derive(Clone, Copy)]
pub enum Part {
    /// nothing but blanks came yet
    Start,
    /// the first field
    Word,
    /// blanks behind a field
    Gap,
    /// a field behind the first
    Field,
}

/// The line with one space between its fields, no blanks before and behind, and small letters in the first field. The
/// name of a file keeps its blanks. It is an error if there is no memory.
pub fn tidied(alloc: Global, line: &[u8]) -> Result<Vec<u8>, AllocError>
    ensures { IfOk result (λ text. text.items ≡ tidied line.now) }
{
    let mut out = Vec::new(alloc);
    let rest = add_field(&mut out, skip_blanks(line))?;
    if names_file(out.as_slice()) {
        add_name(&mut out, cut_blanks(skip_blanks(rest)))?;
        return Ok(out);
    }
    spaced(alloc, line)
}

/// The line with one space between its fields, no blanks before and behind, and small letters in the first field.
fn spaced(alloc: Global, line: &[u8]) -> Result<Vec<u8>, AllocError>
    ensures { IfOk result (λ text. text.items ≡ tidy_from Start line.now) }
{
    let mut out = Vec::new(alloc);
    let mut part = Part::Start;
    for byte in line {
        if is_blank(*byte) {
            part = part.behind_blank();
        } else {
            part.show(&mut out, *byte)?;
            part = part.behind_byte();
        }
    }
    Ok(out)
}

/// The text without blanks before.
fn skip_blanks(text: &[u8]) -> &[u8]
    ensures { result.now ≡ no_blanks_before text.now }
{
    let mut rest = text;
    while let [byte, others @ ..] = rest {
        if !is_blank(*byte) {
            return rest;
        }
        rest = others;
    }
    rest
}

/// The text without blanks behind.
fn cut_blanks(text: &[u8]) -> &[u8]
    ensures { result.now ≡ no_blanks_behind text.now }
{
    let mut rest = text;
    while let [others @ .., byte] = rest {
        if !is_blank(*byte) {
            return rest;
        }
        rest = others;
    }
    rest
}

/// Adds the field with which the text begins in small letters, and tells what stands behind it.
fn add_field<'a>(out: &mut Vec<u8>, text: &'a [u8]) -> Result<&'a [u8], AllocError>
    ensures { IfOk result (λ rest. (out.new.items ≡ out.old.items ++ first_field text.now)
        × (rest.now ≡ behind_field text.now)) }
{
    let mut rest = text;
    while let [byte, others @ ..] = rest {
        if is_blank(*byte) {
            return Ok(rest);
        }
        out.push(small_letter(*byte))?;
        rest = others;
    }
    Ok(rest)
}

/// Whether the name of a file stands behind the word.
fn names_file(word: &[u8]) -> bool
    ensures { result ≡ names_file word.now }
{
    word == b"save".as_slice()
        || word == b"save!".as_slice()
        || word == b"load".as_slice()
        || word == b"script".as_slice()
        || word == b"script!".as_slice()
}

/// Adds a name behind a word, where there is one.
fn add_name(out: &mut Vec<u8>, name: &[u8]) -> Result<(), AllocError>
    ensures { OnOk result (out.new.items ≡ out.old.items ++ name_behind name.now) }
{
    if name.is_empty() {
        return Ok(());
    }
    out.push(b' ')?;
    out.extend_from_slice(name)
}

/// Whether the byte is a space, a tab, or what a line end from elsewhere leaves.
fn is_blank(byte: u8) -> bool
    ensures { result ≡ is_blank byte }
{
    byte == b' ' || byte == b'\t' || byte == b'\r'
}

/// The small letter for a large one.
fn small_letter(byte: u8) -> u8
    ensures { result ≡ small_letter byte }
{
    if 65 <= byte && byte <= 90 {
        byte + 32
    } else {
        byte
    }
}

impl Part {
    /// Adds what stands in the place of a byte that is no blank.
    fn show(self, out: &mut Vec<u8>, byte: u8) -> Result<(), AllocError>
        ensures { OnOk result (out.new.items ≡ out.old.items ++ shown_in self byte) }
    {
        match self {
            Part::Start | Part::Word => out.extend_from_slice(&[small_letter(byte)]),
            Part::Gap => out.extend_from_slice(&[b' ', byte]),
            Part::Field => out.extend_from_slice(&[byte]),
        }
    }

    /// The part behind a byte that is no blank.
    fn behind_byte(self) -> Part
        ensures { result ≡ behind_byte self }
    {
        match self {
            Part::Start | Part::Word => Part::Word,
            Part::Gap | Part::Field => Part::Field,
        }
    }

    /// The part behind a blank.
    fn behind_blank(self) -> Part
        ensures { result ≡ behind_blank self }
    {
        match self {
            Part::Start => Part::Start,
            Part::Word | Part::Gap | Part::Field => Part::Gap,
        }
    }
}
