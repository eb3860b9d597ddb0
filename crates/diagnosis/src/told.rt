// Faults that have no place in a text.
use findings::{Input, plain_text};
use std::alloc::{AllocError, Global};

/// Why a file could not be read, as far as the system tells it.
#[derive(Clone, Copy, PartialEq, Eq)]
pub enum Unread {
    /// There is no such file.
    Missing,
    /// It is a folder.
    IsFolder,
    /// What stands before a `/` of its name is no folder.
    InNoFolder,
    /// It may not be read.
    Forbidden,
    /// Reading it failed.
    Failed,
}

/// A file that could not be read.
#[derive(Clone, Copy)]
pub struct UnreadFile<'a> {
    pub name: &'a str,
    pub why: Unread,
}

/// What a run was given, as far as it was read. `unread` is the file that could not be read, for refusal 41; none where
/// standard input could not.
#[derive(Clone, Copy)]
pub struct Inputs<'a> {
    pub source: Input<'a>,
    pub stimulus: Option<Input<'a>>,
    pub trace: Option<Input<'a>>,
    pub script: Option<Input<'a>>,
    pub unread: Option<UnreadFile<'a>>,
}

/// What is told of a fault that has no place in a text.
pub fn explain_plain(
    alloc: Global,
    number: u32,
    inputs: &Inputs<'_>,
) -> Result<String, AllocError> {
    match number {
        1 => plain_text(
            alloc,
            &["the system gave no more memory"],
            "a smaller description or a shorter run helps",
        ),
        14 => plain_text(
            alloc,
            &["the system has over 16384 nodes, or a command inside over 1024 others"],
            "a call counts as the whole body of its procedure: look at procedures that call others twice, at a stimulus \
             with thousands of values, and at long generated texts",
        ),
        41 => explain_unread(alloc, inputs.unread),
        42 => plain_text(
            alloc,
            &["standard output took no more"],
            "is the disk full, or was the pipe closed on its other side?",
        ),
        _ => format!(in alloc;
            "  help: `balsadbg explain {number}` tells what this refusal means\n"
        ),
    }
}

/// What is told where reading failed.
fn explain_unread(alloc: Global, unread: Option<UnreadFile<'_>>) -> Result<String, AllocError> {
    match unread {
        Some(file) => {
            let why = reason(file.why);
            let what = format!(in alloc; "{}: {why}", file.name)?;
            plain_text(alloc, &[what.as_str()], help_for(file.why, file.name))
        }
        None => plain_text(
            alloc,
            &["standard input could not be read to its end"],
            "a script comes on standard input, as by `< FILE`: is that a file, and no folder?",
        ),
    }
}

/// Why a file could not be read, in words.
fn reason(why: Unread) -> &'static str {
    match why {
        Unread::Missing => "there is no such file",
        Unread::IsFolder => "this is a folder, and no file",
        Unread::InNoFolder => "a part of this path is a file, and no folder",
        Unread::Forbidden => "this file may not be read",
        Unread::Failed => "this file could not be read to its end",
    }
}

/// What helps where a file could not be read.
fn help_for(why: Unread, name: &str) -> &'static str {
    match why {
        Unread::Missing if name.starts_with('/') => "is the path written as it is on the disk?",
        Unread::Missing => "a path is meant from the folder in which the command is run",
        Unread::IsFolder => "name a file that is in it",
        Unread::InNoFolder => "take out what stands behind the name of the file",
        Unread::Forbidden => "is it yours to read? `ls -l` tells who may",
        Unread::Failed => "is the disk or the network that it is on still there?",
    }
}
