//! What a session reaches beside its lines: files that it saves to and loads from, a clock, and who waits for a long
//! line.

ghost use Rattle.std.specs.Prelude.{◌≡◌, IfOk, OnErr, OnOk, false, ⊤};
ghost use Rattle.shell_files.specs.Files.{Files};

use std::alloc::Global;
use std::fs::{File, Permissions};
use std::io::{Eprint, Error, ErrorKind, Write};
use std::os::unix::fs::MetadataExt;
use std::time::{Clock, Duration};
use std::{fs, io};

/// Why a file was not read or written. Nothing was changed then.
#[derive(Clone, Copy, Debug, PartialEq, Eq)]
pub enum FileFault {
    /// there was no memory
    Memory,
    /// there is no such file or folder
    Missing,
    /// it is there already, and was not to be written over
    Exists,
    /// the file beside it, with `.part` behind its name, is there already
    PartExists,
    /// it is a link, and beside the file to which it leads there is one with `.part` behind its name
    LinkPartExists,
    /// it is a folder or a device, or a link to one
    NoFile,
    /// it is a link that leads to no file
    LeadsNowhere,
    /// it is the description or the stimulus that the session is about
    AtHand,
    /// it may not be read or written
    Forbidden,
    /// the disk or a quota is full
    Full,
    /// the system said something else
    Other,
}

/// What reads and writes whole files by their names, and tells a person how far a long line is.
pub trait Host {
    /// What is known of files, at some moment of a session.
    ghost files: { Self → Files };

    /// The bytes of the file.
    fn read(&self, alloc: Global, name: &str) -> Result<Vec<u8>, FileFault>
        ensures { IfOk result (λ bytes. (files self.now).holds name.now bytes.items) };

    /// Writes the bytes as the file, `over` one that is there or only as a new one: then nothing that has the name is
    /// replaced, a link neither. Over a link the file is written to which it leads, and the link stays. It is written
    /// beside and then named, so that a file is there whole or as it was.
    fn write(&self, alloc: Global, name: &str, bytes: &[u8], over: bool) -> Result<(), FileFault>
        ensures written { OnOk result ((files self.now).holds name.now bytes.now) }
        ensures free { over ≡ false → OnOk result ((files self.now).free name.now) };

    /// The time since some beginning; `None` where nobody waits, or there is no clock.
    fn clock(&self) -> Option<Duration>;

    /// Shows in a line of its own that so many steps were taken or taken back so far.
    fn show_steps(&self, count: u64);

    /// Takes that line away.
    fn clear_line(&self);
}

/// The system on which the program runs.
#[derive(Clone, Copy)]
pub struct Local<'a, R> {
    rt: &'a R,
    shows_progress: bool,
    at_hand: [&'a str; 2],
}

impl<'a, R> Local<'a, R> {
    /// What this runtime reaches. Standard error shows how far a long line is, or does not. The files at hand, the
    /// description and the stimulus, are never written over.
    pub fn new(rt: &'a R, shows_progress: bool, at_hand: [&'a str; 2]) -> Local<'a, R> {
        Local {
            rt,
            shows_progress,
            at_hand,
        }
    }
}

impl<R: fs::Files + AllocGlobal + Clock + Eprint> Host for Local<'_, R> {
    // No contract says what the system's files hold.
    ghost files = { λ _. record { holds = λ _ _. ⊤; free = λ _. ⊤ } };

    fn read(&self, _alloc: Global, name: &str) -> Result<Vec<u8>, FileFault> {
        may_read(self.rt, name)?;
        match fs::read(self.rt, name) {
            Ok(bytes) => Ok(bytes),
            Err(error) => Err(fault_of(&error)),
        }
    }

    fn write(&self, alloc: Global, name: &str, bytes: &[u8], over: bool) -> Result<(), FileFault> {
        if is_at_hand(self.rt, &self.at_hand, name) {
            return Err(FileFault::AtHand);
        }
        match (standing_at(self.rt, name)?, over) {
            (Standing::Nothing, _) => write_beside(self.rt, alloc, name, bytes, over, None),
            (Standing::File, true) => write_over(self.rt, alloc, name, bytes),
            (Standing::Link, true) => write_behind(self.rt, alloc, name, bytes),
            (_, false) => Err(FileFault::Exists),
        }
    }

    fn clock(&self) -> Option<Duration> {
        if self.shows_progress {
            self.rt.monotonic().ok()
        } else {
            None
        }
    }

    // Where it cannot be shown nothing is lost.
    fn show_steps(&self, count: u64) {
        let _ = eprint!(self.rt; "\r  {count} steps so far");
    }

    fn clear_line(&self) {
        let _ = eprint!(self.rt; "\r                                   \r");
    }
}

/// Refuses a name that is no file: a device may never end.
fn may_read<R: fs::Files>(rt: &R, name: &str) -> Result<(), FileFault> {
    match rt.metadata(name) {
        Ok(found) if !found.is_file() => Err(FileFault::NoFile),
        _ => Ok(()),
    }
}

/// Whether one of these names has the same file, by a link too.
fn is_at_hand<R: fs::Files>(rt: &R, names: &[&str], name: &str) -> bool {
    for other in names {
        if is_same_file(rt, other, name) {
            return true;
        }
    }
    false
}

/// Whether both names have one file.
fn is_same_file<R: fs::Files>(rt: &R, one: &str, other: &str) -> bool {
    match (rt.metadata(one), rt.metadata(other)) {
        (Ok(one), Ok(other)) => one.ino() == other.ino() && one.dev() == other.dev(),
        _ => false,
    }
}

/// What has a name.
#[derive(Clone, Copy, Debug, PartialEq, Eq)]
enum Standing {
    Nothing,
    File,
    /// a link that leads to a file
    Link,
}

/// What has the name itself. Refused is what is no file: a folder or a device, and a link that leads to none.
fn standing_at<R: fs::Files>(rt: &R, name: &str) -> Result<Standing, FileFault> {
    match rt.symlink_metadata(name) {
        Ok(found) if found.is_symlink() => standing_behind(rt, name),
        Ok(found) if found.is_file() => Ok(Standing::File),
        Ok(_) => Err(FileFault::NoFile),
        Err(error) if error.kind() == ErrorKind::NotFound => Ok(Standing::Nothing),
        Err(error) => Err(fault_of(&error)),
    }
}

/// The same of a link.
fn standing_behind<R: fs::Files>(rt: &R, link: &str) -> Result<Standing, FileFault> {
    match rt.metadata(link) {
        Ok(found) if found.is_file() => Ok(Standing::Link),
        Ok(_) => Err(FileFault::NoFile),
        Err(error) if error.kind() == ErrorKind::PermissionDenied => Err(FileFault::Forbidden),
        Err(_) => Err(FileFault::LeadsNowhere),
    }
}

/// Writes the bytes over the file to which a link leads.
fn write_behind<R: fs::Files + AllocGlobal>(
    rt: &R,
    alloc: Global,
    link: &str,
    bytes: &[u8],
) -> Result<(), FileFault> {
    match fs::canonicalize(rt, link) {
        Ok(file) => match write_over(rt, alloc, file.as_str(), bytes) {
            Err(FileFault::PartExists) => Err(FileFault::LinkPartExists),
            done => done,
        },
        Err(error) => Err(fault_of(&error)),
    }
}

/// Writes the bytes over a file. Who may read and write it stays as it was.
fn write_over<R: fs::Files>(
    rt: &R,
    alloc: Global,
    name: &str,
    bytes: &[u8],
) -> Result<(), FileFault> {
    match rt.metadata(name) {
        Ok(found) => write_beside(rt, alloc, name, bytes, true, Some(found.permissions())),
        Err(error) => Err(fault_of(&error)),
    }
}

/// Writes the bytes to a file beside, which has these permissions if there are some, and gives it the name, over a file
/// that has it or where none has it.
fn write_beside<R: fs::Files>(
    rt: &R,
    alloc: Global,
    name: &str,
    bytes: &[u8],
    over: bool,
    permissions: Option<Permissions>,
) -> Result<(), FileFault> {
    let Ok(beside) = format!(in alloc; "{name}.part") else {
        return Err(FileFault::Memory);
    };
    match File::create_new(rt, beside.as_str()) {
        Ok(file) => {
            let written = match protect(rt, beside.as_str(), permissions) {
                Ok(()) => write_whole(file, bytes),
                Err(error) => Err(error),
            };
            finish(rt, name, beside.as_str(), over, written)
        }
        Err(error) if error.kind() == ErrorKind::AlreadyExists => Err(FileFault::PartExists),
        Err(error) => Err(fault_of(&error)),
    }
}

/// Gives the file these permissions, if there are some.
fn protect<R: fs::Files>(rt: &R, name: &str, permissions: Option<Permissions>) -> io::Result<()> {
    match permissions {
        Some(permissions) => rt.set_permissions(name, permissions),
        None => Ok(()),
    }
}

/// Writes all the bytes.
fn write_whole<W: Write + Drop>(mut file: W, bytes: &[u8]) -> io::Result<()> {
    file.write_all(bytes)?;
    file.flush()
}

/// Names the file beside, which was written so; where that fails it is removed. What was not written whole is never
/// told as done.
fn finish<R: fs::Files>(
    rt: &R,
    name: &str,
    beside: &str,
    over: bool,
    written: io::Result<()>,
) -> Result<(), FileFault>
    ensures { OnOk result (OnErr written ⊥) }
{
    let named = match written {
        Ok(()) if over => rt.rename(beside, name),
        Ok(()) => name_new(rt, beside, name),
        Err(error) => Err(error),
    };
    match named {
        Ok(()) => Ok(()),
        Err(error) => {
            let _ = rt.remove_file(beside);
            Err(fault_of(&error))
        }
    }
}

/// Gives the file beside a name that nothing has. Whatever has it by now stays, and that is told.
fn name_new<R: fs::Files>(rt: &R, beside: &str, name: &str) -> io::Result<()> {
    match rt.hard_link(beside, name) {
        Ok(()) => {
            // The file has its name, whether the first one goes or not.
            let _ = rt.remove_file(beside);
            Ok(())
        }
        Err(error) if error.kind() == ErrorKind::AlreadyExists => Err(error),
        // Some file systems give a file one name alone.
        Err(_) => name_over_new(rt, beside, name),
    }
}

/// The same by way of an empty file of that name, which is new or is refused.
fn name_over_new<R: fs::Files>(rt: &R, beside: &str, name: &str) -> io::Result<()> {
    let _empty = File::create_new(rt, name)?;
    match rt.rename(beside, name) {
        Ok(()) => Ok(()),
        Err(error) => {
            let _ = rt.remove_file(name);
            Err(error)
        }
    }
}

/// What the error of the system means here.
fn fault_of(error: &Error) -> FileFault {
    match error.kind() {
        ErrorKind::OutOfMemory => FileFault::Memory,
        ErrorKind::NotFound | ErrorKind::NotADirectory => FileFault::Missing,
        ErrorKind::AlreadyExists => FileFault::Exists,
        ErrorKind::IsADirectory => FileFault::NoFile,
        ErrorKind::PermissionDenied | ErrorKind::ReadOnlyFilesystem => FileFault::Forbidden,
        ErrorKind::StorageFull | ErrorKind::QuotaExceeded | ErrorKind::FileTooLarge => {
            FileFault::Full
        }
        _ => FileFault::Other,
    }
}
