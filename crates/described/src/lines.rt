// The lines of offsets.
ghost use Rattle.std.specs.Prelude.{◌≡◌, List, ℕ, IfOk};
ghost use Rattle.described.specs.Lines.{line_at, lines_at};
ghost use Rattle.described.specs.internal.Starts as model;

use std::alloc::{AllocError, Global};
use syntax::Items;

/// The offsets at which lines begin, ascending.
pub(crate) fn line_starts(alloc: Global, source: &[u8]) -> Result<Items<u64>, AllocError>
    ensures { IfOk result (λ starts. starts ≡ model.line_starts source.now) }
{
    let mut starts = Items::new(alloc);
    starts.push(0)?;
    for index in 0..source.len() {
        if source[index] == b'\n' {
            starts.push(index as u64 + 1)?;
        }
    }
    Ok(starts)
}

/// The line of the offset, from 1, where lines begin at `starts`.
fn line_of(starts: &[u64], offset: u64) -> u64
    ensures { (source : List ℕ) → starts.now ≡ model.line_starts source → result ≡ line_at source offset }
{
    starts.partition_point(|start| *start <= offset) as u64
}

/// The line of each of the offsets, where lines begin at `starts`.
pub(crate) fn lines_of(
    alloc: Global,
    starts: &[u64],
    offsets: &[u64],
) -> Result<Vec<u64>, AllocError>
    ensures { IfOk result (λ lines.
        (source : List ℕ) → starts.now ≡ model.line_starts source → lines.items ≡ lines_at source offsets.now) }
{
    let mut lines = Vec::with_capacity(alloc, offsets.len())?;
    for offset in offsets {
        lines.push(line_of(starts, *offset))?;
    }
    Ok(lines)
}
