use diagnosis::Unread;
use std::alloc::Global;

/// The names of the files of a request. A name that it has not is empty.
#[derive(Clone, Copy)]
pub struct Names<'a> {
    pub file: &'a str,
    pub stimulus: &'a str,
    pub trace: &'a str,
}

/// A text that a run reads.
#[derive(Clone, Copy)]
pub enum Part {
    Source,
    Stimulus,
    Trace,
    Script,
}

/// What a run has read, for who explains its refusal. A text that was not read yet is empty.
#[derive(Drop)]
pub struct Texts {
    pub source: Vec<u8>,
    pub values: Vec<u8>,
    pub trace: Vec<u8>,
    /// The last line of a script, or the words that tell of a refusal.
    pub said: Vec<u8>,
    /// The text that was read last, or could not be.
    pub last: Part,
    /// Why it could not be read, where it is a file that could not.
    pub why: Unread,
}

impl Texts {
    /// Nothing was read yet.
    pub fn new(alloc: Global) -> Texts {
        Texts {
            source: Vec::new(alloc),
            values: Vec::new(alloc),
            trace: Vec::new(alloc),
            said: Vec::new(alloc),
            last: Part::Source,
            why: Unread::Failed,
        }
    }
}
