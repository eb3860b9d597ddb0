ghost use Rattle.std.specs.Prelude.{◌≡◌, ◌≤◌, ◌+◌, List, ℕ, length, MatchResult};
ghost use Rattle.std.specs.Io.KnownBytes.{Appends};
ghost use Rattle.devices.specs.Counting.{after_failing, IsBeginning};

use crate::{CountedWrite, WriteFailed};

/// Writes all the bytes and flushes. Where the writer fails, or takes no byte, it has taken a beginning of them, and was
/// asked to take all the rest.
pub fn write_out<W: CountedWrite>(writer: &mut W, bytes: &[u8]) -> Result<(), WriteFailed>
    ensures bytes { (given : List ℕ) × Appends (W.contents writer.old) (W.contents writer.new) given
        × MatchResult result (λ _. given ≡ bytes.now) (λ _. IsBeginning bytes.now given)
        × MatchResult result (λ _. W.unsent writer.new ≡ 0)
        (λ _. (length given + W.wanted writer.new ≡ length bytes.now)
        × (W.unsent writer.new ≤ W.unsent writer.old + length given)) }
    ensures failures { W.failed writer.new ≡ after_failing result (W.failed writer.old) }
{
    let mut rest = bytes;
    while !rest.is_empty() {
        let count = writer.write_some(rest)?;
        let (_, left) = rest.split_at(count);
        rest = left;
    }
    writer.flush_out()
}
