//! Devices that count how often they failed.

ghost use Rattle.std.specs.Prelude.{◌≡◌, ◌≢◌, ◌⊎◌, ◌++◌, ◌<◌, ◌+◌, ◌-◌, ◌^◌, ◌∷◌, min, vec_len, IfOk, IfErr, OnOk, IfSome, MatchResult, MatchBool, [], true, false};
ghost use Rattle.std.specs.IoError.{error_kind};
ghost use Rattle.std.specs.Io.{WritesAtMost, StopsAt, appended_bytes};
ghost use Rattle.std.specs.Io.KnownBytes.{Consumes, Keeps, WriteAppends};
ghost use Rattle.std.specs.Io.BufRead.{take_through, ends_with_byte, DropsThrough};
ghost use Rattle.std.specs.Io.Buffered.{reader_buffer, reader_inner, reader_remaining};
ghost use Rattle.devices.specs.Counting.{device, failures, patience, unsent, wanted, one_more, CountsIf};
ghost use Rattle.devices.specs.declared.failure.ReadFault.TheVariants.{Memory, Failed};

use crate::asked::{Failure, Failures};
use crate::{CountedLines, CountedRead, CountedWrite, ReadFault, WriteFailed, asked};
use memchr::memchr;
use std::alloc::AllocError;
use std::io;
use std::io::{BufRead, BufReader, Error, ErrorKind, Read, Write};

/// A reader or a writer, and how often it failed.
///
/// Nothing else changes the count, so that who says that it failed can be held to it. An interrupted read or write is
/// no failure, but for the writes behind 2^64 - 1 such; a flush is made once. A read that finds no memory is none
/// either.
#[derive(Drop)]
pub struct Counted<D> {
    device: D,
    /// for each of them the device was asked
    failures: Failures<D>,
    /// how many more interruptions are borne
    patience: u64,
    /// how many of the bytes that it took last are not sent on yet, 2^64 - 1 at most
    unsent: usize,
    /// how many bytes it was last asked to take
    wanted: usize,
}

impl<D> Counted<D> {
    /// The device with no failure counted yet, and with patience for 2^64 - 1 interruptions.
    pub fn new(inner: D) -> Counted<D>
        ensures whole { device result ≡ inner }
        ensures none { failures result ≡ 0 }
        ensures patience { patience result ≡ 2 ^ 64 - 1 }
        ensures unsent { unsent result ≡ 0 }
    {
        Counted {
            device: inner,
            failures: Failures::none(),
            patience: u64::MAX,
            unsent: 0,
            wanted: 0,
        }
    }

    /// Counts a failed write, where it was not interrupted or interruptions are borne no more, and gives the error on.
    fn seen(&mut self, error: Error, failed: Failure<D>) -> Error
        ensures device { device self.new ≡ device self.old }
        ensures counted { ((error_kind result ≡ ErrorKind.Interrupted) × (error_kind error ≡ ErrorKind.Interrupted)
            × (failures self.new ≡ failures self.old) × (patience self.new < patience self.old))
            ⊎ ((error_kind result ≢ ErrorKind.Interrupted) × (failures self.new ≡ one_more (failures self.old))
            × ((error_kind error ≢ ErrorKind.Interrupted) ⊎ (patience self.old ≡ 0))) }
        ensures unsent { unsent self.new ≡ unsent self.old }
        ensures wanted { wanted self.new ≡ wanted self.old }
    {
        if error.kind() != ErrorKind::Interrupted {
            self.failures.count(failed);
            return error;
        }
        if self.patience == 0 {
            self.failures.count(failed);
            return ErrorKind::TimedOut.into();
        }
        self.patience -= 1;
        error
    }
}

impl<R: Read> CountedRead for Counted<R> {
    ghost remaining = { λ counted. R.remaining (device counted) };

    ghost failed = { failures };

    fn fill(&mut self, bytes: &mut Vec<u8>) -> Result<(), ReadFault> {
        match asked::read_to_end(&mut self.device, bytes) {
            Ok(()) => Ok(()),
            Err((error, failed)) => {
                let fault = fault_of(&error);
                if fault == ReadFault::Failed {
                    self.failures.count(failed);
                }
                Err(fault)
            }
        }
    }
}

impl<R: BufRead> Counted<R> {
    /// Reads behind the next byte 10, or to the end, and answers how many bytes it added to the line, which whoever
    /// asks empties first. It counts whether that failed; a failure behind a line that is there whole is none.
    fn read_through(&mut self, line: &mut Vec<u8>) -> io::Result<usize>
        ensures count { IfOk result (λ n. vec_len line.new ≡ vec_len line.old + n) }
        ensures stops { StopsAt (appended_bytes line.old.items line.new.items) 10 }
        ensures bytes { OnOk result
            (IfSome (R.remaining (device self.old)) (λ xs. line.new.items ≡ line.old.items ++ take_through 10 xs)) }
        ensures rest { OnOk result (DropsThrough (R.remaining (device self.old)) (R.remaining (device self.new)) 10) }
        ensures retried { IfErr result (λ error. error_kind error ≢ ErrorKind.Interrupted) }
        ensures none_lost { Consumes (R.remaining (device self.old)) (R.remaining (device self.new))
            (appended_bytes line.old.items line.new.items) }
        ensures counted { MatchResult result (λ _. failures self.new ≡ failures self.old)
            (λ error. CountsIf ((error_kind error ≢ ErrorKind.OutOfMemory) × (ends_with_byte 10 line.new.items ≡ false))
            (failures self.old) (failures self.new)) }
        ensures patience { patience self.new ≡ patience self.old }
    {
        match asked::read_through(&mut self.device, line) {
            Ok(count) => Ok(count),
            Err((error, failed)) => {
                if error.kind() != ErrorKind::OutOfMemory && !ends_line(line.as_slice()) {
                    self.failures.count(failed);
                }
                Err(error)
            }
        }
    }
}

impl<R: Read> CountedLines for Counted<BufReader<R>> {
    ghost remaining = { λ counted. reader_remaining R.remaining (device counted) };

    ghost failed = { failures };

    ghost buffered = { λ counted. reader_buffer (device counted) };

    ghost Asked = { R };

    ghost asked = { λ counted. reader_inner (device counted) };

    fn look_at_line(&self, line: &mut Vec<u8>) -> Result<bool, AllocError> {
        let Some(end) = memchr(b'\n', self.device.buffer()) else {
            return Ok(false);
        };
        line.clear();
        line.extend_from_slice(&self.device.buffer()[..end])?;
        Ok(true)
    }

    fn pass_line(&mut self, line: &[u8]) {
        self.device.consume(line.len() + 1);
    }

    fn read_line(&mut self, line: &mut Vec<u8>) -> Result<bool, ReadFault> {
        line.clear();
        let read = self.read_through(line);
        if strip_end(line) {
            return Ok(true);
        }
        match read {
            Ok(_) => Ok(false),
            Err(error) => Err(fault_of(&error)),
        }
    }
}

impl<W: Write> Write for Counted<W> {
    ghost contents = { λ counted. W.contents (device counted) };

    fn write(&mut self, buf: &[u8]) -> io::Result<usize>
        ensures bound { WritesAtMost result buf.now }
        ensures bytes { WriteAppends (W.contents (device self.old)) (W.contents (device self.new)) result buf.now }
        ensures counted { MatchResult result
            (λ count. CountsIf ((count ≡ 0) × (buf.now ≢ [])) (failures self.old) (failures self.new))
            (λ error. CountsIf (error_kind error ≢ ErrorKind.Interrupted) (failures self.old) (failures self.new)) }
        ensures borne { MatchResult result (λ _. patience self.new ≡ patience self.old)
            (λ error. error_kind error ≡ ErrorKind.Interrupted → patience self.new < patience self.old) }
        ensures unsent { MatchResult result (λ count. unsent self.new ≡ min (unsent self.old + count) (2 ^ 64 - 1))
            (λ _. unsent self.new ≡ unsent self.old) }
        ensures wanted { wanted self.new ≡ wanted self.old }
    {
        match asked::write(&mut self.device, buf) {
            Ok((count, took_none)) => {
                if let Some(failed) = took_none {
                    self.failures.count(failed);
                }
                self.unsent = self.unsent.saturating_add(count);
                Ok(count)
            }
            Err((error, failed)) => Err(self.seen(error, failed)),
        }
    }

    fn flush(&mut self) -> io::Result<()>
        ensures bytes { Keeps (W.contents (device self.old)) (W.contents (device self.new)) }
        ensures counted { MatchResult result (λ _. failures self.new ≡ failures self.old)
            (λ _. failures self.new ≡ one_more (failures self.old)) }
        ensures sent { MatchResult result (λ _. unsent self.new ≡ 0) (λ _. unsent self.new ≡ unsent self.old) }
        ensures wanted { wanted self.new ≡ wanted self.old }
    {
        match asked::flush(&mut self.device) {
            Ok(()) => {
                self.unsent = 0;
                Ok(())
            }
            Err((error, failed)) => {
                self.failures.count(failed);
                Err(error)
            }
        }
    }
}

impl<W: Write> CountedWrite for Counted<W> {
    ghost contents = { λ counted. W.contents (device counted) };

    ghost failed = { failures };

    ghost tries = { patience };

    ghost unsent = { unsent };

    ghost wanted = { wanted };

    fn write_some(&mut self, bytes: &[u8]) -> Result<usize, WriteFailed> {
        self.wanted = bytes.len();
        match self.write(bytes) {
            Ok(count) => taken(count),
            Err(error) => failed(&error),
        }
    }

    fn flush_out(&mut self) -> Result<(), WriteFailed> {
        self.wanted = 0;
        match self.flush() {
            Ok(()) => Ok(()),
            Err(_) => Err(WriteFailed),
        }
    }
}

/// What becomes of a write that took so many of some bytes: where it took none it would never end.
fn taken(count: usize) -> Result<usize, WriteFailed>
    ensures { MatchResult result (λ taken. (taken ≡ count) × (0 < count)) (λ _. count ≡ 0) }
{
    if count == 0 {
        Err(WriteFailed)
    } else {
        Ok(count)
    }
}

/// What becomes of a write that failed: where it was interrupted it took none, and is made again.
fn failed(error: &Error) -> Result<usize, WriteFailed>
    ensures { MatchResult result
        (λ taken. (taken ≡ 0) × (error_kind error.now ≡ ErrorKind.Interrupted))
        (λ _. error_kind error.now ≢ ErrorKind.Interrupted) }
{
    if error.kind() == ErrorKind::Interrupted {
        Ok(0)
    } else {
        Err(WriteFailed)
    }
}

/// What a failure to read all bytes is.
fn fault_of(error: &Error) -> ReadFault
    ensures { ((result ≡ Memory) × (error_kind error.now ≡ ErrorKind.OutOfMemory))
        ⊎ ((result ≡ Failed) × (error_kind error.now ≢ ErrorKind.OutOfMemory)) }
{
    if error.kind() == ErrorKind::OutOfMemory {
        ReadFault::Memory
    } else {
        ReadFault::Failed
    }
}

/// Takes byte 10 off the end, and tells whether it was there.
fn strip_end(line: &mut Vec<u8>) -> bool
    ensures { MatchBool result
        ((line.old.items ≡ line.new.items ++ 10 ∷ []) × (ends_with_byte 10 line.old.items ≡ true))
        ((line.new.items ≡ line.old.items) × (ends_with_byte 10 line.old.items ≡ false)) }
{
    if !ends_line(line.as_slice()) {
        return false;
    }
    let _end = line.pop();
    true
}

/// Whether the last byte is 10, which ends a line.
fn ends_line(line: &[u8]) -> bool
    ensures { result ≡ ends_with_byte 10 line.now }
{
    !line.is_empty() && line[line.len() - 1] == b'\n'
}
