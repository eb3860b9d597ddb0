ghost use Rattle.std.specs.Prelude.{ℕ, List, Option, IfOk};
ghost use Rattle.dap.specs.Files.{text_of};

use std::alloc::{AllocError, Global};

/// What reads a whole file by its name.
pub trait Sources {
    // Of the files, a name and what is read of that file: its bytes, or none.
    ghost reads: { Self → List ℕ → Option (List ℕ) → Type 0 };

    /// The bytes of the file; `None` where it is missing or cannot be read. It is an error if there is no memory.
    fn read(&self, alloc: Global, name: &str) -> Result<Option<Vec<u8>>, AllocError>
        ensures { IfOk result (λ found. reads self.now name.now (text_of found)) };
}
