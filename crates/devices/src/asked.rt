//! What a device is asked, and how often that failed.
//!
//! The standard library's traits do not say when a device fails, so no clause can say it. Types do: a failure is counted
//! for a `Failure`, which this module alone makes, where it has asked a device of that type, and which has no copy.

ghost use Rattle.std.specs.Prelude.{◌≡◌, ◌≢◌, ◌++◌, ◌+◌, ◌≤◌, [], length, take, vec_len, IfOk, IfErr, OnOk, IfSome, MatchOption, MatchResult};
ghost use Rattle.std.specs.IoError.{error_kind};
ghost use Rattle.std.specs.declared.io.ErrorKind.{ErrorKind};
ghost use Rattle.std.specs.Io.{StopsAt, appended_bytes};
ghost use Rattle.std.specs.Io.KnownBytes.{Appends, Consumes, IsAtEnd, Keeps};
ghost use Rattle.std.specs.Io.BufRead.{take_through, DropsThrough};

use std::io::{BufRead, Error, Read, Write};
use std::marker::{Model, PhantomData};

/// That a device of this type was asked and failed. A function over any device can have it of its own one alone.
pub(crate) struct Failure<D> {
    of: PhantomData<D>,
}

impl<D> Drop for Failure<D> {
    fn drop(self) {
        let Failure { of: _ } = self;
    }
}

/// How many failures of a device of this type were counted, modulo 2^64.
#[derive(Drop)]
pub(crate) struct Failures<D> {
    number: u64,
    of: PhantomData<D>,
}

impl<D> Model for Failures<D> {
    ghost use Rattle.std.specs.Prelude.{ℕ};

    ghost Value = { ℕ };

    ghost view = { λ failures. failures.number };
}

impl<D> Failures<D> {
    ghost use Rattle.devices.specs.Counting.{one_more};

    /// None.
    pub(crate) fn none() -> Failures<D>
        ensures { result ≡ 0 }
    {
        Failures {
            number: 0,
            of: PhantomData,
        }
    }

    /// Counts this failure.
    pub(crate) fn count(&mut self, _failed: Failure<D>)
        ensures { self.new ≡ one_more self.old }
    {
        self.number = self.number.wrapping_add(1);
    }
}

/// Reads all that is left behind what is in `bytes`.
pub(crate) fn read_to_end<R: Read>(
    reader: &mut R,
    bytes: &mut Vec<u8>,
) -> Result<(), (Error, Failure<R>)>
    ensures end { OnOk result (IsAtEnd (R.remaining reader.new)) }
    ensures none_lost { Consumes (R.remaining reader.old) (R.remaining reader.new)
        (appended_bytes bytes.old.items bytes.new.items) }
{
    match reader.read_to_end(bytes) {
        Ok(_) => Ok(()),
        Err(error) => Err((error, Failure { of: PhantomData })),
    }
}

/// Reads behind the next byte 10, or to the end, and answers how many bytes it added to the line.
pub(crate) fn read_through<R: BufRead>(
    reader: &mut R,
    line: &mut Vec<u8>,
) -> Result<usize, (Error, Failure<R>)>
    ensures count { IfOk result (λ n. vec_len line.new ≡ vec_len line.old + n) }
    ensures stops { StopsAt (appended_bytes line.old.items line.new.items) 10 }
    ensures bytes { OnOk result
        (IfSome (R.remaining reader.old) (λ xs. line.new.items ≡ line.old.items ++ take_through 10 xs)) }
    ensures rest { OnOk result (DropsThrough (R.remaining reader.old) (R.remaining reader.new) 10) }
    ensures retried { IfErr result (λ refused. error_kind refused.0 ≢ ErrorKind.Interrupted) }
    ensures none_lost { Consumes (R.remaining reader.old) (R.remaining reader.new)
        (appended_bytes line.old.items line.new.items) }
{
    match reader.read_until(b'\n', line) {
        Ok(count) => Ok(count),
        Err(error) => Err((error, Failure { of: PhantomData })),
    }
}

/// Writes some of the bytes, and answers how many, and that it failed where it took none of some.
pub(crate) fn write<W: Write>(
    writer: &mut W,
    bytes: &[u8],
) -> Result<(usize, Option<Failure<W>>), (Error, Failure<W>)>
    ensures bytes { MatchResult result
        (λ took. (took.0 ≤ length bytes.now)
        × Appends (W.contents writer.old) (W.contents writer.new) (take took.0 bytes.now))
        (λ _. Keeps (W.contents writer.old) (W.contents writer.new)) }
    ensures none { IfOk result (λ took. MatchOption took.1
        ((took.0 ≡ 0) × (bytes.now ≢ []) → ⊥)
        (λ _. (took.0 ≡ 0) × (bytes.now ≢ []))) }
{
    match writer.write(bytes) {
        Ok(0) if !bytes.is_empty() => Ok((0, Some(Failure { of: PhantomData }))),
        Ok(count) => Ok((count, None)),
        Err(error) => Err((error, Failure { of: PhantomData })),
    }
}

/// Sends on what was written.
pub(crate) fn flush<W: Write>(writer: &mut W) -> Result<(), (Error, Failure<W>)>
    ensures bytes { Keeps (W.contents writer.old) (W.contents writer.new) }
{
    match writer.flush() {
        Ok(()) => Ok(()),
        Err(error) => Err((error, Failure { of: PhantomData })),
    }
}
