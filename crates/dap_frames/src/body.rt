ghost use Rattle.std.specs.Prelude.{◌≡◌, ◌≤◌, length};
ghost use Rattle.dap_frames.specs.Unframing.{Unframes, BodyAt, WithoutHeader};

use crate::header::{body_length, ends_bare, header_length};

/// The most bytes that a body may have, 4 MB.
pub const MOST_BODY: u64 = 4_194_304;

/// The most bytes that a header may have, with its empty line.
pub const MOST_HEADER: usize = 4_096;

/// What stands at the beginning of some bytes. Indexes count from 0.
#[derive(Clone, Copy, Debug, PartialEq, Eq)]
pub enum Unframed {
    /// a frame, whose body begins at the first index and ends before the second
    Whole(usize, usize),
    /// the beginning of a frame
    Begun,
    /// a header that tells so many bytes from this index on, more than a body may have
    Large(usize, u64),
    /// no header, or one that does not tell how many bytes come
    Broken,
}

/// What stands at the beginning of the bytes.
pub fn unframe(bytes: &[u8]) -> Unframed
    ensures { Unframes bytes.now result }
{
    match header_length(bytes) {
        Some(start) if start <= MOST_HEADER => body_at(bytes, start),
        Some(_) => Unframed::Broken,
        None => without_header(bytes),
    }
}

/// What stands at the beginning of bytes in which no header ends. One whose lines end in a byte 10 alone would never
/// end.
fn without_header(bytes: &[u8]) -> Unframed
    ensures { WithoutHeader bytes.now result }
{
    if ends_bare(bytes) {
        Unframed::Broken
    } else if bytes.len() < MOST_HEADER {
        Unframed::Begun
    } else {
        Unframed::Broken
    }
}

/// What stands behind a header of so many bytes.
fn body_at(bytes: &[u8], start: usize) -> Unframed
    requires { start ≤ length bytes.now }
    ensures { BodyAt bytes.now start result }
{
    match body_length(&bytes[..start]) {
        None => Unframed::Broken,
        Some(length) if length > MOST_BODY => Unframed::Large(start, length),
        Some(length) if ((bytes.len() - start) as u64) < length => Unframed::Begun,
        Some(length) => Unframed::Whole(start, start + length as usize),
    }
}
