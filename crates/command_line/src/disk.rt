//! The files of the system.

ghost use Rattle.std.specs.Prelude.{⊤};

use debug_session::Fault;
use diagnosis::Unread;
use file_answers::Files;
use std::alloc::Global;
use std::fs;
use std::io::{self, ErrorKind};

/// The files of the system.
#[derive(Clone, Copy)]
pub struct Disk<'a, R> {
    rt: &'a R,
}

impl<'a, R> Disk<'a, R> {
    /// The files that this runtime reaches.
    pub fn new(rt: &'a R) -> Disk<'a, R> {
        Disk { rt }
    }
}

/// Why a file could not be read, as far as the system tells.
fn why_unread(kind: ErrorKind) -> Unread {
    match kind {
        ErrorKind::NotFound => Unread::Missing,
        ErrorKind::IsADirectory => Unread::IsFolder,
        ErrorKind::NotADirectory => Unread::InNoFolder,
        ErrorKind::PermissionDenied => Unread::Forbidden,
        _ => Unread::Failed,
    }
}

/// The bytes of the file `name`.
fn read_whole<R: fs::Files>(rt: &R, alloc: Global, name: &str) -> io::Result<Vec<u8>> {
    let mut file = fs::File::open(rt, name)?;
    let mut bytes = Vec::new(alloc);
    io::copy(&mut file, &mut bytes)?;
    Ok(bytes)
}

impl<R: fs::Files + AllocGlobal> Files for Disk<'_, R> {
    // No contract says what the system's files hold.
    ghost holds = { λ _ _ _. ⊤ };

    fn read(&self, alloc: Global, name: &str, why: &mut Unread) -> Result<Vec<u8>, Fault> {
        match read_whole(self.rt, alloc, name) {
            Ok(bytes) => Ok(bytes),
            Err(error) if error.kind() == ErrorKind::OutOfMemory => Err(Fault::Memory),
            Err(error) => {
                *why = why_unread(error.kind());
                Err(Fault::ReadFailed)
            }
        }
    }
}
