ghost use Rattle.std.specs.Prelude.{◌≡◌, ◌≤◌, List, ℕ, MatchResult, OnOk};
ghost use Rattle.std.specs.Io.KnownBytes.{Appends};
ghost use Rattle.debug_session.specs.Counting.{after_writing, WritingStops, WritesShort};

use crate::Fault;
use devices::CountedWrite;

/// Writes all the bytes and flushes. Where the writer fails, or takes no byte, it has taken a beginning of them, and
/// was asked to take all the rest.
pub fn write_out<W: CountedWrite>(writer: &mut W, bytes: &[u8]) -> Result<(), Fault>
    ensures bytes { (given : List ℕ) × Appends (W.contents writer.old) (W.contents writer.new) given
        × MatchResult result (λ _. given ≡ bytes.now) (λ fault. WritingStops bytes.now given fault) }
    ensures sent { OnOk result (W.unsent writer.new ≡ 0) }
    ensures short { MatchResult result (λ _. W.unsent writer.new ≤ W.unsent writer.old)
        (λ _. WritesShort W.contents W.unsent W.wanted writer.old writer.new bytes.now) }
    ensures failures { W.failed writer.new ≡ after_writing result (W.failed writer.old) }
{
    match devices::write_out(writer, bytes) {
        Ok(()) => Ok(()),
        Err(_) => Err(Fault::WriteFailed),
    }
}
