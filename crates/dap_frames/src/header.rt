// The header of a frame: where it ends, and how many bytes it tells.
ghost use Rattle.std.specs.Prelude.{◌≡◌, ◌≤◌, ◌<◌, length, drop, Some, None, MatchOption, IfSome, true, false};
ghost use Rattle.std.specs.Option.{option_copied};
ghost use Rattle.dap_frames.specs.Header as model;

use decimal::read_number;

/// How many bytes stand before the body: those up to the first empty line, and that line.
pub(crate) fn header_length(bytes: &[u8]) -> Option<usize>
    ensures found { result ≡ model.header_length bytes.now }
    ensures within { IfSome result (λ n. n ≤ length bytes.now) }
{
    for i in 0..bytes.len() {
        if ends_here(&bytes[i..]) {
            return Some(i + 4);
        }
    }
    None
}

/// Whether a line ends here, and behind it an empty line.
fn ends_here(bytes: &[u8]) -> bool
    ensures value { result ≡ model.ends_here bytes.now }
    ensures length { result ≡ true → 4 ≤ length bytes.now }
{
    bytes.starts_with(b"\r\n\r\n")
}

/// Whether a line ends by a byte 10 with no byte 13 before it.
pub(crate) fn ends_bare(bytes: &[u8]) -> bool
    ensures { result ≡ model.ends_bare false bytes.now }
{
    let mut returned = false;
    for i in 0..bytes.len() {
        if bytes[i] == b'\n' && !returned {
            return true;
        }
        returned = bytes[i] == b'\r';
    }
    false
}

/// How many bytes the body has, as the header tells: the decimal number behind `Content-Length:`, in small letters or
/// large ones, and spaces, up to the end of its line. `None` where no line begins so, or no number below 2^64 stands
/// there.
pub(crate) fn body_length(header: &[u8]) -> Option<u64>
    ensures { MatchOption result (model.TellsNone header.now) (λ n. model.Tells header.now n) }
{
    read_number(number_text(value_text(header)?))
}

/// What stands behind the key of the first line that has it.
fn value_text(header: &[u8]) -> Option<&[u8]>
    ensures { option_copied result ≡ model.value_text true header.now }
{
    let mut begins = true;
    for i in 0..header.len() {
        if begins && has_key(&header[i..]) {
            return Some(&header[i + 15..]);
        }
        begins = header[i] == b'\n';
    }
    None
}

/// Whether the key stands at the beginning.
fn has_key(text: &[u8]) -> bool
    ensures value { result ≡ model.has_key text.now }
    ensures length { result ≡ true → 15 ≤ length text.now }
{
    begins_with(b"Content-Length:", text)
}

/// Whether this key stands at the beginning, in small letters or large ones.
fn begins_with(key: &[u8], text: &[u8]) -> bool
    ensures value { result ≡ model.begins_with key.now text.now }
    ensures length { result ≡ true → length key.now ≤ length text.now }
{
    for i in 0..key.len() {
        if i >= text.len() {
            return false;
        }
        if !key[i].eq_ignore_ascii_case(&text[i]) {
            return false;
        }
    }
    true
}

/// The text between the spaces at the beginning and the end of the line.
fn number_text(text: &[u8]) -> &[u8]
    ensures { result.now ≡ model.number_text text.now }
{
    up_to_return(behind_spaces(text))
}

/// What stands behind the spaces at the beginning.
fn behind_spaces(text: &[u8]) -> &[u8]
    ensures { result.now ≡ model.behind_spaces text.now }
{
    for i in 0..text.len() {
        if text[i] != b' ' {
            return &text[i..];
        }
    }
    &[]
}

/// What stands before the first byte 13.
fn up_to_return(text: &[u8]) -> &[u8]
    ensures { result.now ≡ model.up_to_return text.now }
{
    for i in 0..text.len() {
        if text[i] == b'\r' {
            return &text[..i];
        }
    }
    text
}
