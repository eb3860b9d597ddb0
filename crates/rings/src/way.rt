// Entries of places.
ghost use Rattle.std.specs.Prelude.{◌≡◌, IfOk};
ghost use Rattle.address.specs.declared.Entry.TheVariants as entry;
ghost use Rattle.runs.specs.Tests.{same_entry};

use address::Entry;
use std::alloc::AllocError;

/// Whether both entries are one.
pub(crate) fn is_same_entry(one: Entry, other: Entry) -> bool
    ensures { result ≡ same_entry one other }
{
    match (one, other) {
        (Entry::Ordered(one), Entry::Ordered(other)) => one == other,
        (Entry::Branch(one), Entry::Branch(other)) => one == other,
        _ => false,
    }
}

/// The entry of this child of a sequence. It is an error if the number has more than 32 bits, which no run reaches.
pub(crate) fn ordered(number: u64) -> Result<Entry, AllocError>
    ensures { IfOk result (λ made. made ≡ entry.Ordered number) }
{
    Ok(Entry::Ordered(small(number)?))
}

/// The entry of this branch. It is an error if the number has more than 32 bits, which no run reaches.
pub(crate) fn branch(number: u64) -> Result<Entry, AllocError>
    ensures { IfOk result (λ made. made ≡ entry.Branch number) }
{
    Ok(Entry::Branch(small(number)?))
}

/// The number in 32 bits.
pub(crate) fn small(number: u64) -> Result<u32, AllocError>
    ensures { IfOk result (λ small. small ≡ number) }
{
    match u32::try_from(number) {
        Ok(small) => Ok(small),
        Err(_) => Err(AllocError),
    }
}
