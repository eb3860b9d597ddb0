// What is written to the client.
ghost use Rattle.std.specs.Prelude.{◌≡◌, IfErr, OnOk};
ghost use Rattle.std.specs.Io.KnownBytes.{Appends, Keeps};
ghost use Rattle.dap_server.specs.Sent.{HasSent, IsBegun};
ghost use Rattle.dap_server.specs.declared.fault.Fault.{Fault as Failed};

use crate::batch::Batch;
use crate::fault::Fault;
use std::io::{ErrorKind, Write};

/// Writes frames, and counts them.
pub(crate) fn send<W: Write>(writer: &mut W, batch: &Batch, next: &mut u64) -> Result<(), Fault>
    ensures sends { OnOk result (HasSent batch.now (W.contents writer.old) (W.contents writer.new) next.old next.new) }
    ensures begins { IfErr result (λ why.
        IsBegun why batch.now.bytes.items (W.contents writer.old) (W.contents writer.new)) }
{
    match next.checked_add(batch.count) {
        Some(after) => {
            *next = after;
            put(writer, batch.bytes.as_slice())
        }
        // No session has so many messages.
        None => Err(Fault::Memory),
    }
}

/// Writes all the bytes, and flushes.
fn put<W: Write>(writer: &mut W, bytes: &[u8]) -> Result<(), Fault>
    ensures sends { OnOk result (Appends (W.contents writer.old) (W.contents writer.new) bytes.now) }
    ensures begins { IfErr result (λ why. IsBegun why bytes.now (W.contents writer.old) (W.contents writer.new)) }
{
    match put_all(writer, bytes) {
        Ok(()) => flush(writer),
        Err(fault) => Err(fault),
    }
}

/// Writes all the bytes; where the writer fails, a beginning of them is written.
fn put_all<W: Write>(writer: &mut W, bytes: &[u8]) -> Result<(), Fault>
    ensures sends { OnOk result (Appends (W.contents writer.old) (W.contents writer.new) bytes.now) }
    ensures begins { IfErr result (λ why. IsBegun why bytes.now (W.contents writer.old) (W.contents writer.new)) }
{
    let mut done = 0;
    for _ in 0..u64::MAX {
        if done >= bytes.len() {
            return Ok(());
        }
        match writer.write(&bytes[done..]) {
            Ok(0) => return Err(Fault::WriteFailed),
            Ok(count) => done += count,
            Err(error) if error.kind() == ErrorKind::Interrupted => {}
            Err(_) => return Err(Fault::WriteFailed),
        }
    }
    Err(Fault::WriteFailed)
}

/// Flushes the writer.
fn flush<W: Write>(writer: &mut W) -> Result<(), Fault>
    ensures keeps { Keeps (W.contents writer.old) (W.contents writer.new) }
    ensures fails { IfErr result (λ why. why ≡ Failed.WriteFailed) }
{
    match writer.flush() {
        Ok(()) => Ok(()),
        Err(_) => Err(Fault::WriteFailed),
    }
}
