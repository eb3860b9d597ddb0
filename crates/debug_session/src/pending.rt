//! Answers that are held back while further lines are at hand, so that many of them take one write.
ghost use Rattle.std.specs.Prelude.{◌≡◌, ◌≢◌, ◌≤◌, ◌++◌, [], List, ℕ, length, MatchBool, MatchResult, IfErr};
ghost use Rattle.std.specs.Io.KnownBytes.{Appends};
ghost use Rattle.debug_session.specs.Counting.{after_writing, WritingStops, WritesShort};
ghost use Rattle.debug_session.specs.Holding.{most_held};
ghost use Rattle.debug_session.specs.internal.Owing.{IsHeldAnew};
ghost use Rattle.debug_session.specs.declared.fault.Fault.TheVariants.{WriteFailed};

use crate::Fault;
use crate::output::write_out;
use devices::CountedWrite;

/// How many bytes of answers are held back at most.
const MOST_HELD: usize = 8_192;

/// Writes out what is pending, and flushes.
pub(crate) fn put_out<W: CountedWrite>(writer: &mut W, pending: &mut Vec<u8>) -> Result<(), Fault>
    ensures bytes { (given : List ℕ) × Appends (W.contents writer.old) (W.contents writer.new) given
        × MatchResult result
        (λ _. (given ≡ pending.old.items) × (pending.new.items ≡ []))
        (λ fault. WritingStops pending.old.items given fault) }
    ensures short { MatchResult result (λ _. W.unsent writer.new ≤ W.unsent writer.old)
        (λ _. WritesShort W.contents W.unsent W.wanted writer.old writer.new pending.old.items) }
    ensures some { IfErr result (λ _. pending.old.items ≢ []) }
    ensures failures { W.failed writer.new ≡ after_writing result (W.failed writer.old) }
{
    if pending.is_empty() {
        return Ok(());
    }
    let written = write_out(writer, pending.as_slice());
    pending.clear();
    written
}

/// Holds the answer where nothing is pending, or writes it out where it is long, or no memory is there for it.
pub(crate) fn hold<W: CountedWrite>(
    writer: &mut W,
    pending: &mut Vec<u8>,
    answer: &[u8],
) -> Result<(), Fault>
    requires { pending.old.items ≡ [] }
    ensures held { MatchResult result
        (λ _. IsHeldAnew W.contents W.unsent writer.old writer.new [] pending.new.items answer.now)
        (λ fault. (fault ≡ WriteFailed)
        × WritesShort W.contents W.unsent W.wanted writer.old writer.new answer.now) }
    ensures failures { W.failed writer.new ≡ after_writing result (W.failed writer.old) }
{
    if is_held(pending, answer) {
        return Ok(());
    }
    write_out(writer, answer)
}

/// Whether the answer is pending now: it is not long with what was pending before, and there was memory for it.
pub(crate) fn is_held(pending: &mut Vec<u8>, answer: &[u8]) -> bool
    ensures { MatchBool result
        ((pending.new.items ≡ pending.old.items ++ answer.now) × (length pending.new.items ≤ most_held))
        (pending.new.items ≡ pending.old.items) }
{
    pending.len() <= MOST_HELD
        && answer.len() <= MOST_HELD - pending.len()
        && pending.extend_from_slice(answer).is_ok()
}
