ghost use Rattle.std.specs.Prelude.{◌≡◌, IfOk};
ghost use Rattle.std.specs.Io.KnownBytes.{Consumes, IsAtEnd};
ghost use Rattle.devices.specs.Counting.{after_filling};

use crate::{CountedRead, ReadFault};
use std::alloc::Global;

/// All bytes that the reader has left. At a fault some of them were taken.
pub fn read_all<R: CountedRead>(alloc: Global, reader: &mut R) -> Result<Vec<u8>, ReadFault>
    ensures bytes { IfOk result (λ bytes. Consumes (R.remaining reader.old) (R.remaining reader.new) bytes.items) }
    ensures end { IfOk result (λ _. IsAtEnd (R.remaining reader.new)) }
    ensures failures { R.failed reader.new ≡ after_filling result (R.failed reader.old) }
{
    let mut bytes = Vec::new(alloc);
    match reader.fill(&mut bytes) {
        Ok(()) => Ok(bytes),
        Err(fault) => Err(fault),
    }
}
