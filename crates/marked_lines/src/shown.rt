// Characters as they are shown.
ghost use Rattle.std.specs.Prelude.{◌≡◌, ◌++◌, ◌≤◌, IfOk, replicate, string_bytes};
ghost use Rattle.marked_lines.specs.Marks as marks;

use std::alloc::AllocError;
use unicode_width::UnicodeWidthChar;

/// The character as it is shown: what a terminal would act on has a sign in its place. A tab is itself.
pub fn shown(character: char) -> char
    ensures { result ≡ marks.shown character }
{
    let code = u32::from(character);
    if code == 9 {
        return character;
    }
    if code < 32 {
        return char::from_u32(0x2400 + code).unwrap_or('\u{FFFD}');
    }
    if code == 127 {
        return '\u{2421}';
    }
    if acts(code) { '\u{FFFD}' } else { character }
}

/// Whether a terminal might act on the character: the other control characters, what turns the direction of writing,
/// the ends of lines and paragraphs, and what is not seen at all.
fn acts(code: u32) -> bool
    ensures { result ≡ marks.acts code }
{
    matches!(code, 0x80..=0x9F | 0x61C | 0x200B..=0x200F | 0x2028..=0x202E | 0x2060..=0x2069 | 0xFEFF)
}

/// How many columns it takes. A tab counts as none.
pub fn columns(character: char) -> usize
    ensures value { result ≡ marks.columns character }
    ensures bound { result ≤ 3 }
{
    if character == '\t' {
        return 0;
    }
    shown(character).width().unwrap_or(0)
}

/// Adds so many of a sign.
pub fn add_signs(out: &mut String, sign: char, times: usize) -> Result<(), AllocError>
    ensures { IfOk result (λ _. string_bytes out.new ≡ string_bytes out.old ++ marks.signs times sign) }
{
    for count in 0..times {
        out.push(sign)?;
    }
    Ok(())
}

/// Adds so many blanks.
pub fn add_blanks(out: &mut String, times: usize) -> Result<(), AllocError>
    ensures { IfOk result (λ _. string_bytes out.new ≡ string_bytes out.old ++ replicate times marks.blank) }
{
    for count in 0..times {
        out.push(' ')?;
    }
    Ok(())
}
