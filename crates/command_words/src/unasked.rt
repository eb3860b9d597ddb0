ghost use Rattle.std.specs.Prelude.{◌≢◌, [], IfOk};
ghost use Rattle.clap.specs.Words.{kind_of};
ghost use Rattle.clap.specs.declared.error.kind.ErrorKind.TheVariants.{OutOfMemory};
ghost use Rattle.command_words.specs.internal.Building.{TellsError};

use crate::hint::{Subject, hint_for};
use clap::Error;
use clap::error::ErrorKind;
use std::alloc::{AllocError, Global};

/// Why words ask for nothing that can be done. No text is empty.
#[derive(Drop)]
pub enum Unasked {
    /// There was no memory to read them.
    Memory,
    /// Help or the version is asked for, and this is its text.
    Help(String),
    /// The words are mistaken, and this text says how.
    Mistake(String),
}

/// The text of an error that is no want of memory, which is not empty, with what helps behind it.
fn text_of(alloc: Global, error: &Error, hint: &str) -> Result<String, AllocError>
    ensures { IfOk result (λ text. (text.bytes.items ≢ []) × (kind_of error.now ≢ OutOfMemory)) }
{
    if error.kind() == ErrorKind::OutOfMemory {
        return Err(AllocError);
    }
    let mut text = error.to_string(alloc)?;
    text.push_str(hint)?;
    if text.is_empty() {
        text.push('\n')?;
    }
    Ok(text)
}

/// Why there is nothing to do, of this error in words about a subject.
pub fn why_unasked(alloc: Global, error: &Error, subject: Subject) -> Unasked
    ensures { TellsError (kind_of error.now) result }
{
    let Ok(text) = text_of(alloc, error, hint_for(error, subject)) else {
        return Unasked::Memory;
    };
    if error.use_stderr() {
        Unasked::Mistake(text)
    } else {
        Unasked::Help(text)
    }
}
