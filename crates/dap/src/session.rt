// A session over a reader and a writer.
ghost use Rattle.std.specs.Prelude.{ℕ, ◌≡◌, ◌⊎◌, IfErr, OnOk, true};
ghost use Rattle.std.specs.Io.KnownBytes.{IsAtEnd};
ghost use Rattle.dap_server.specs.Session.{Serves, ServesUpTo};
ghost use Rattle.dap.specs.Goes.{Comes, IsFresh, is_over};
ghost use Rattle.dap.specs.declared.face.Face.{Face as Facing};

use crate::{Face, Sources};
use dap_messages::{Answer, Request};
use dap_server::{Adapter, Fault};
use std::alloc::Global;
use std::io::{Read, Write};

impl<F: Sources> Adapter<F> for Face {
    ghost answers = { λ files. Comes (F.reads files) };

    ghost over = { is_over };

    fn answer(&mut self, files: &F, request: &Request) -> Answer {
        self.respond(files, request)
    }

    fn is_over(&self) -> bool {
        self.over
    }
}

/// Answers the requests of the reader on the writer, until the client disconnects or the reader is at its end. Files
/// are read where a request names some.
///
/// Each message is out and flushed before the reader is asked for more. A message that is no request is passed over,
/// which is told by an `output`. Where there is no memory for an answer, a short one says so, and the session goes on.
///
/// # Errors
///
/// All that is sent for the messages before is out then. Of the answer to one message more a beginning may be out, where
/// the writer failed; else nothing of it is.
///
/// - `NoHeader` where what is read is no header of a message;
/// - `ReadFailed` where the reader fails, or ends inside a message;
/// - `WriteFailed` where the writer fails;
/// - `Memory` where there is no memory to read a message.
pub fn serve<R: Read, W: Write, F: Sources>(
    alloc: Global,
    reader: &mut R,
    writer: &mut W,
    files: &F,
) -> Result<(), Fault>
    ensures serves { OnOk result ((first : Facing) × (last : Facing) × (after : ℕ) × IsFresh first
        × Serves (Comes (F.reads files.now)) is_over first 1 last after (R.remaining reader.old)
        (R.remaining reader.new) (W.contents writer.old) (W.contents writer.new)
        × ((last.over ≡ true) ⊎ IsAtEnd (R.remaining reader.new))) }
    ensures fails { IfErr result (λ why. (first : Facing) × (last : Facing) × IsFresh first
        × ServesUpTo (Comes (F.reads files.now)) is_over first 1 last why (R.remaining reader.old)
        (R.remaining reader.new) (W.contents writer.old) (W.contents writer.new)) }
{
    let mut face = Face::new(alloc);
    dap_server::serve(alloc, reader, writer, files, &mut face)
}
