//! What reads and writes, and counts how often it failed.

ghost use Rattle.std.specs.Prelude.{◌≡◌, ◌≢◌, ◌<◌, ◌≤◌, ◌+◌, ◌-◌, ◌++◌, ◌∷◌, List, ℕ, [], length, take, Option, IfOk, OnOk, MatchBool, MatchResult};
ghost use Rattle.std.specs.List.{All};
ghost use Rattle.std.specs.Io.{appended_bytes};
ghost use Rattle.std.specs.Io.KnownBytes.{Appends, Consumes, Keeps, IsAtEnd};
ghost use Rattle.devices.specs.Counting.{after_failing, after_filling, IsNoEnd};
ghost use Rattle.devices.specs.Taking.{StandsFirst, TakesLine, TakesPart};

use crate::{ReadFault, WriteFailed};
use std::alloc::AllocError;

/// A writer that counts how often it failed.
///
/// The count is its own: whoever writes on it can say that it failed only where it was asked and did.
pub trait CountedWrite {
    // The bytes that were written, where they are known.
    ghost contents: { Self → Option (List ℕ) };

    // How often it failed.
    ghost failed: { Self → ℕ };

    // How many more writes may take no byte.
    ghost tries: { Self → ℕ };

    // How many of the bytes that were written last may not be sent on yet.
    ghost unsent: { Self → ℕ };

    // How many bytes it was asked to take when it last failed: none where it was asked to send on what it had.
    ghost wanted: { Self → ℕ };

    /// Takes some of the bytes, of which there are some, and tells how many: none where it was interrupted.
    fn write_some(&mut self, bytes: &[u8]) -> Result<usize, WriteFailed>
        requires { bytes.now ≢ [] }
        ensures bytes { MatchResult result
            (λ count. (count ≤ length bytes.now)
            × Appends (contents self.old) (contents self.new) (take count bytes.now))
            (λ _. Keeps (contents self.old) (contents self.new)) }
        ensures counted { failed self.new ≡ after_failing result (failed self.old) }
        ensures less { IfOk result (λ count.
            tries self.new + (length bytes.now - count) < tries self.old + length bytes.now) }
        ensures unsent { MatchResult result (λ count. unsent self.new ≤ unsent self.old + count)
            (λ _. (unsent self.new ≤ unsent self.old) × (wanted self.new ≡ length bytes.now)) };

    /// Sends on what was written.
    fn flush_out(&mut self) -> Result<(), WriteFailed>
        ensures bytes { Keeps (contents self.old) (contents self.new) }
        ensures counted { failed self.new ≡ after_failing result (failed self.old) }
        ensures sent { MatchResult result (λ _. unsent self.new ≡ 0)
            (λ _. (unsent self.new ≤ unsent self.old) × (wanted self.new ≡ 0)) };
}

/// A reader that counts how often it failed, as `CountedWrite` does.
pub trait CountedRead {
    // The bytes that are left, where they are known.
    ghost remaining: { Self → Option (List ℕ) };

    // How often it failed.
    ghost failed: { Self → ℕ };

    /// Reads all that is left behind what is in `bytes`. Want of memory is no failure.
    fn fill(&mut self, bytes: &mut Vec<u8>) -> Result<(), ReadFault>
        ensures bytes { OnOk result
            (Consumes (remaining self.old) (remaining self.new) (appended_bytes bytes.old.items bytes.new.items)) }
        ensures end { OnOk result (IsAtEnd (remaining self.new)) }
        ensures counted { failed self.new ≡ after_filling result (failed self.old) };
}

/// A reader of lines with a buffer of its own, which counts how often it failed.
pub trait CountedLines {
    // The bytes that are left, those in the buffer first, where they are known.
    ghost remaining: { Self → Option (List ℕ) };

    // How often it failed.
    ghost failed: { Self → ℕ };

    // The bytes in the buffer.
    ghost buffered: { Self → List ℕ };

    // What it asks for more.
    ghost Asked: { Type 0 };

    // What it asks, as it stands: the same until it is asked.
    ghost asked: { Self → Asked };

    /// Copies the next line into `line`, in place of what was there, without byte 10 at its end, where the buffer has it
    /// whole, and tells whether it has. The reader is as it was: it has the line still.
    fn look_at_line(&self, line: &mut Vec<u8>) -> Result<bool, AllocError>
        ensures { IfOk result (λ is_whole. MatchBool is_whole
            (StandsFirst (buffered self.now) line.new.items) (All IsNoEnd (buffered self.now))) };

    /// Takes the line that stands first in the buffer out of it, with its end. Nothing is asked for more.
    fn pass_line(&mut self, line: &[u8])
        requires { StandsFirst (buffered self.old) line.now }
        ensures bytes { Consumes (remaining self.old) (remaining self.new) (line.now ++ 10 ∷ []) }
        ensures buffered { buffered self.old ≡ line.now ++ 10 ∷ buffered self.new }
        ensures asked { asked self.new ≡ asked self.old }
        ensures counted { failed self.new ≡ failed self.old };

    /// Takes the next line into `line`, in place of what was there, without byte 10 at its end, and tells whether that
    /// was there: the last line may lack it. A line that is there whole counts even where reading then failed.
    fn read_line(&mut self, line: &mut Vec<u8>) -> Result<bool, ReadFault>
        ensures line { MatchResult result
            (λ is_complete. TakesLine (remaining self.old) (remaining self.new) line.new.items is_complete)
            (λ _. TakesPart (remaining self.old) (remaining self.new) line.new.items) }
        ensures counted { failed self.new ≡ after_filling result (failed self.old) };
}
