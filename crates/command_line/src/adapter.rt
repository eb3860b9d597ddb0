//! The debug adapter, over standard input and what a run writes on.

ghost use Rattle.std.specs.Prelude.{IfErr};
ghost use Rattle.command_line.specs.Adapter.{IsOfStreams};

use debug_session::{Counted, Fault};
use diagnosis::Unread;
use editor_session::{Ended, serve};
use file_answers::{Files, Source};
use std::alloc::{AllocError, Global};
use std::io::Write;

/// The files, as an editor names them: as a request does.
#[derive(Clone, Copy)]
struct Named<'a, F> {
    files: &'a F,
}

impl<F: Files> editor_session::Files for Named<'_, F> {
    fn read(&self, alloc: Global, name: &str) -> Result<Option<Vec<u8>>, AllocError> {
        // An editor is told that it cannot be read, and not why.
        let mut why = Unread::Failed;
        match self.files.read(alloc, name, &mut why) {
            Ok(bytes) => Ok(Some(bytes)),
            Err(Fault::Memory) => Err(AllocError),
            Err(_) => Ok(None),
        }
    }
}

/// How the end of a session is told.
fn fault_of(ended: Ended) -> Fault
    ensures { IsOfStreams result }
{
    match ended {
        Ended::Memory => Fault::Memory,
        Ended::ReadFailed => Fault::ReadFailed,
        Ended::WriteFailed => Fault::WriteFailed,
    }
}

/// Answers an editor, until it disconnects or standard input is at its end.
pub fn serve_editor<R: Input, F: Files, O: Write>(
    rt: &R,
    from: &Source<'_, F>,
    out: &mut Counted<O>,
) -> Result<(), Fault>
    ensures { IfErr result IsOfStreams }
{
    let mut reader = rt.reader();
    let files = Named { files: from.files };
    match serve(from.alloc, &mut reader, out, &files) {
        Ok(()) => Ok(()),
        Err(ended) => Err(fault_of(ended)),
    }
}
