ghost use Rattle.std.specs.Prelude.{◌≡◌, ◌⊎◌, [], MatchResult};
ghost use Rattle.debug_session.specs.Counting.{after_reading, after_writing};
ghost use Rattle.debug_session.specs.internal.OneLine.{TakesLine, ReadingStops};
ghost use Rattle.debug_session.specs.internal.Owing.{BreaksUntaken, WritesAll};

use crate::Fault;
use crate::pending::put_out;
use devices::{CountedLines, CountedWrite, ReadFault};

/// Takes the next line into `line`, in place of what was there, without byte 10 at its end, and tells whether it was
/// there. The reader may ask its device for it: what is pending is written out before.
pub(crate) fn ask_line<R: CountedLines, W: CountedWrite>(
    reader: &mut R,
    writer: &mut W,
    pending: &mut Vec<u8>,
    line: &mut Vec<u8>,
) -> Result<bool, Fault>
    ensures line { MatchResult result
        (λ complete. (pending.new.items ≡ [])
        × WritesAll W.contents W.unsent writer.old writer.new pending.old.items
        × TakesLine (R.remaining reader.old) (R.remaining reader.new) line.new.items complete)
        (λ fault.
        BreaksUntaken W.contents W.unsent W.wanted reader.old reader.new writer.old writer.new pending.old.items fault
        ⊎ ((pending.new.items ≡ []) × WritesAll W.contents W.unsent writer.old writer.new pending.old.items
        × ReadingStops (R.remaining reader.old) (R.remaining reader.new) line.new.items fault)) }
    ensures read_failures { R.failed reader.new ≡ after_reading result (R.failed reader.old) }
    ensures write_failures { W.failed writer.new ≡ after_writing result (W.failed writer.old) }
{
    put_out(writer, pending)?;
    read_line(reader, line)
}

/// Takes the next line into `line`, in place of what was there, without byte 10 at its end, and tells whether it was
/// there. A line that is there whole counts even where the reader then failed.
pub fn read_line<R: CountedLines>(reader: &mut R, line: &mut Vec<u8>) -> Result<bool, Fault>
    ensures line { MatchResult result
        (λ complete. TakesLine (R.remaining reader.old) (R.remaining reader.new) line.new.items complete)
        (λ fault. ReadingStops (R.remaining reader.old) (R.remaining reader.new) line.new.items fault) }
    ensures failures { R.failed reader.new ≡ after_reading result (R.failed reader.old) }
{
    match reader.read_line(line) {
        Ok(is_complete) => Ok(is_complete),
        Err(ReadFault::Memory) => Err(Fault::Memory),
        Err(ReadFault::Failed) => Err(Fault::ReadFailed),
    }
}
