//! A line that stands whole in the reader's buffer: it is looked at, and taken once its answer is there.
ghost use Rattle.std.specs.Prelude.{◌≡◌, ◌⊎◌, [], MatchResult, true};
ghost use Rattle.devices.specs.Taking.{StandsFirst};
ghost use Rattle.debug_session.specs.Counting.{after_writing};
ghost use Rattle.debug_session.specs.internal.OneLine.{TakesLine};
ghost use Rattle.debug_session.specs.internal.Owing.{BreaksAnswering, BreaksUntaken, IsHeld, IsHeldAnew, WasAtHand, WritesAll};

use crate::Fault;
use crate::output::write_out;
use crate::pending::{is_held, put_out};
use devices::{CountedLines, CountedWrite};

/// Takes the line, and holds its answer behind what is pending, or writes both out where they are long together, or no
/// memory is there for it. Where what is pending cannot be written, the line is not taken.
pub(crate) fn take_answered<R: CountedLines, W: CountedWrite>(
    reader: &mut R,
    writer: &mut W,
    pending: &mut Vec<u8>,
    line: &[u8],
    answer: &[u8],
) -> Result<(), Fault>
    requires { StandsFirst (R.buffered reader.old) line.now }
    ensures taken { MatchResult result
        (λ _. TakesLine (R.remaining reader.old) (R.remaining reader.new) line.now true
        × ((WasAtHand R.buffered R.asked reader.old reader.new line.now
        × IsHeld writer.old writer.new pending.old.items pending.new.items answer.now)
        ⊎ IsHeldAnew W.contents W.unsent writer.old writer.new pending.old.items pending.new.items answer.now))
        (λ fault.
        BreaksUntaken W.contents W.unsent W.wanted reader.old reader.new writer.old writer.new pending.old.items fault
        ⊎ (TakesLine (R.remaining reader.old) (R.remaining reader.new) line.now true
        × BreaksAnswering W.contents W.unsent W.wanted writer.old writer.new pending.old.items answer.now fault)) }
    ensures read_failures { R.failed reader.new ≡ R.failed reader.old }
    ensures write_failures { W.failed writer.new ≡ after_writing result (W.failed writer.old) }
{
    if is_held(pending, answer) {
        reader.pass_line(line);
        return Ok(());
    }
    take_behind(reader, writer, pending, line)?;
    write_out(writer, answer)
}

/// Takes the line once what is pending is out. Where that cannot be written, the line is not taken.
pub(crate) fn take_behind<R: CountedLines, W: CountedWrite>(
    reader: &mut R,
    writer: &mut W,
    pending: &mut Vec<u8>,
    line: &[u8],
) -> Result<(), Fault>
    requires { StandsFirst (R.buffered reader.old) line.now }
    ensures taken { MatchResult result
        (λ _. (pending.new.items ≡ [])
        × WritesAll W.contents W.unsent writer.old writer.new pending.old.items
        × TakesLine (R.remaining reader.old) (R.remaining reader.new) line.now true)
        (λ fault. BreaksUntaken W.contents W.unsent W.wanted reader.old reader.new writer.old writer.new
        pending.old.items fault) }
    ensures read_failures { R.failed reader.new ≡ R.failed reader.old }
    ensures write_failures { W.failed writer.new ≡ after_writing result (W.failed writer.old) }
{
    put_out(writer, pending)?;
    reader.pass_line(line);
    Ok(())
}
