//! Files that are read by their names.

ghost use Rattle.std.specs.Prelude.{ℕ, List, Option, Some, MatchResult};
ghost use Rattle.file_answers.specs.Answering.{NotHad};

use debug_session::Fault;
use diagnosis::Unread;
use std::alloc::Global;

/// What reads a whole file by its name.
pub trait Files {
    /// Whether a name may hold these bytes, or nothing that can be read.
    ghost holds: { Self → List ℕ → Option (List ℕ) → Type 0 };

    /// The bytes of the file `name`.
    ///
    /// Refused for want of memory, or because it is missing or cannot be read: then `why` tells more.
    fn read(&self, alloc: Global, name: &str, why: &mut Unread) -> Result<Vec<u8>, Fault>
        ensures { MatchResult result
            (λ bytes. holds self.now name.now (Some bytes.items))
            (λ fault. NotHad (holds self.now name.now) fault) };
}

/// The files that a request may name, and the memory that keeps what they hold.
#[derive(Clone, Copy)]
pub struct Source<'a, F> {
    pub alloc: Global,
    pub files: &'a F,
}
