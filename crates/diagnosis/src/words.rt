// Refusals 2 to 4: bytes, comments and numbers.
use bstr::decode_utf8 as decode;
use findings::{Finding, text_between};
use std::alloc::AllocError;

/// What was found about a fault of the lexer at the finding's place.
pub fn find(source: &[u8], number: u32, finding: &mut Finding) -> Result<(), AllocError> {
    match number {
        2 => find_byte(source, finding),
        3 => find_comment(source, finding),
        _ => find_number(source, finding),
    }
}

/// The bytes from an offset on.
fn bytes_from(source: &[u8], offset: u64) -> &[u8] {
    source.get(offset as usize..).unwrap_or(b"")
}

/// A byte that begins nothing.
fn find_byte(source: &[u8], finding: &mut Finding) -> Result<(), AllocError> {
    let rest = bytes_from(source, finding.start);
    let (character, size) = decode(rest);
    finding.stop = finding.start.saturating_add(size as u64);
    match character {
        None => {
            finding.say(&["this byte is no text, and begins no word, number or sign"])?;
            finding.advise(&[
                "save the file as UTF-8; letters outside ASCII may stand in comments alone",
            ])
        }
        Some('\u{FEFF}') => {
            finding.say(&["a byte order mark begins the file"])?;
            finding.advise(&["save the file without it"])
        }
        Some(other) if u32::from(other) < 32 || u32::from(other) == 127 => {
            finding.say(&["this control character begins no word, number or sign"])?;
            finding.advise(&["take it out, or save the file as UTF-8: is it a text?"])
        }
        Some(other) => {
            let text = text_between(source, finding.start, finding.stop);
            finding.say(&["`", text, "` begins no word, number or sign"])?;
            let behind = rest.get(size).copied().unwrap_or(b' ');
            finding.advise(&[help_for(other, behind)])
        }
    }
}

/// What helps against a character that begins nothing, with the byte behind it.
fn help_for(character: char, behind: u8) -> &'static str {
    match (character, behind) {
        ('/', b'/') => "a comment begins with `--`",
        ('/' | '*', b'*' | b'/') =>
            "a comment goes from `(--` to `--)`, or from `--` to the end of its line",
        ('!', b'=') => "not equal is `/=`",
        ('&', b'&') => "and is `and`",
        ('_', b'0'..=b'9') => "a number has digits alone, and a name begins with a letter",
        ('\'', _) => "there are no texts in quotes, and numbers are decimal: `8'd5` is written 5",
        _ => help_for_alone(character),
    }
}

/// What helps against a character that begins nothing, whatever stands behind it.
fn help_for_alone(character: char) -> &'static str {
    match character {
        '_' => "a name begins with a letter",
        '/' => "`/=` is not equal; there is no division",
        '*' => "there is no multiplication",
        '%' => "there is no division, and no remainder; a comment begins with `--`",
        '.' =>
            "no dot stands in a description: an `import` is left out, and what it brought is declared",
        '"' => "there are no texts in quotes",
        '!' => "not equal is `/=`, and not is `not`; a value is sent on a channel by `c <- e`",
        '?' => "a value is received from a channel by `c -> x`",
        '~' => "not is `not`",
        '^' => "exclusive or is `xor`",
        '&' => "and is `and`; branches side by side stand around `||`",
        '{' | '}' => "commands are put together by `[` and `]`, and blocks end with `end`",
        '#' | '\\' => "a comment begins with `--`",
        '@' | '$' | '`' => "outside comments only names, numbers, signs and blanks may stand",
        _ =>
            "a name has the letters a to z and A to Z, digits and `_`; other letters may stand in comments alone",
    }
}

/// A comment that is not closed.
fn find_comment(source: &[u8], finding: &mut Finding) -> Result<(), AllocError> {
    finding.stop = finding.start.saturating_add(3);
    finding.say(&["this `(--` is closed by no `--)`"])?;
    let behind = bytes_from(source, finding.stop);
    if behind.first() == Some(&b')') {
        return finding.advise(&["`(--)` opens a comment and does not close it: write `(-- --)`"]);
    }
    finding.advise(&["comments nest: each `(--` in it needs a `--)` of its own"])
}

/// How many digits some bytes begin with.
fn digits_of(bytes: &[u8]) -> usize {
    let mut count = 0_usize;
    for byte in bytes {
        if !byte.is_ascii_digit() {
            return count;
        }
        count = count.saturating_add(1);
    }
    count
}

/// A number that is too large.
fn find_number(source: &[u8], finding: &mut Finding) -> Result<(), AllocError> {
    let digits = digits_of(bytes_from(source, finding.start));
    finding.stop = finding.start.saturating_add(digits as u64);
    finding.say(&["this number is above 18446744073709551615"])?;
    finding.advise(&["a value has 64 bits at most, so 18446744073709551615 is the greatest"])
}
