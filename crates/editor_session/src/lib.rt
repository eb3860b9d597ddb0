//! A session of an editor over a reader and a writer: what a program needs of the debug adapter, apart from the
//! contracts of `dap`, so that who serves other commands too need not load them.
#![tactic(auto)]

use dap::{Fault, Sources};
use std::alloc::{AllocError, Global};
use std::io::{Read, Write};

/// How a session ended that did not end well.
#[derive(Clone, Copy)]
pub enum Ended {
    /// there was no memory to read a message
    Memory,
    /// the reader failed, ended inside a message, or gave what is no header of one
    ReadFailed,
    WriteFailed,
}

/// What reads a whole file by its name.
pub trait Files {
    /// The bytes of the file; `None` where it is missing or cannot be read. It is an error if there is no memory.
    fn read(&self, alloc: Global, name: &str) -> Result<Option<Vec<u8>>, AllocError>;
}

/// The files, as the adapter asks for them.
#[derive(Clone, Copy)]
struct Asked<'a, F> {
    files: &'a F,
}

impl<F: Files> Sources for Asked<'_, F> {
    // No contract says what the files of a program hold.
    ghost reads = { λ _ _ _. Unit {0} };

    fn read(&self, alloc: Global, name: &str) -> Result<Option<Vec<u8>>, AllocError> {
        match self.files.read(alloc, name) {
            Ok(found) => Ok(found),
            Err(AllocError) => Err(AllocError),
        }
    }
}

/// Answers the requests of the reader on the writer, until the editor disconnects or the reader is at its end.
///
/// # Errors
///
/// One of `Ended`. All answers of the requests before are out then, but where writing failed: there those of the last
/// one may be out in part.
pub fn serve<R: Read, W: Write, F: Files>(
    alloc: Global,
    reader: &mut R,
    writer: &mut W,
    files: &F,
) -> Result<(), Ended> {
    dap::serve(alloc, reader, writer, &Asked { files }).map_err(ended_by)
}

/// How the session ended, by the fault of the adapter.
fn ended_by(fault: Fault) -> Ended {
    match fault {
        Fault::Memory => Ended::Memory,
        Fault::ReadFailed | Fault::NoHeader => Ended::ReadFailed,
        Fault::WriteFailed => Ended::WriteFailed,
    }
}
