// Two uses that clash.
ghost use Rattle.std.specs.Prelude.{◌≡◌, ◌==◌, IfOk};
ghost use Rattle.sharing_rule.specs.Rule.{is_shared};
ghost use Rattle.clash_places.specs.Others.{TellsOther};
ghost use Rattle.clash_places.specs.internal.Pairs as model;

use crate::uses::{PlacedUse, add_uses};
use address::Entry;
use std::alloc::{AllocError, Global};
use system::System;

/// The other one of two uses that clash.
#[derive(Clone, Copy)]
pub struct OtherUse {
    /// Where its name stands in the source.
    pub offset: u64,
    pub writes: bool,
}

/// The first use that clashes with one whose name stands at the offset: of one variable that branches may not share, in
/// two branches of a parallel, and one of them writes. None: no use there clashes. It is an error if there is no
/// memory.
pub fn other_use(
    alloc: Global,
    system: &System,
    offset: u64,
) -> Result<Option<OtherUse>, AllocError>
    ensures { IfOk result (λ found. TellsOther system.now offset found) }
{
    let mut uses = Vec::new(alloc);
    add_uses(alloc, &system.main, &mut uses)?;
    Ok(first_clash(system, offset, uses.as_slice(), uses.as_slice()))
}

/// The first clash of one of the uses, which stands at the offset, with one of all.
fn first_clash(
    system: &System,
    offset: u64,
    all: &[PlacedUse],
    uses: &[PlacedUse],
) -> Option<OtherUse>
    ensures { result ≡ model.first_clash system.now offset all.now uses.now }
{
    for one in uses {
        let found = asked(system, offset, one, all);
        if found.is_some() {
            return found;
        }
    }
    None
}

/// The first clash of the use with one of all, if it stands at the offset.
fn asked(system: &System, offset: u64, one: &PlacedUse, all: &[PlacedUse]) -> Option<OtherUse>
    ensures { result ≡ model.asked (one.now.offset == offset) (model.against system.now one.now all.now) }
{
    if one.at == offset {
        against(system, one, all)
    } else {
        None
    }
}

/// The first of the uses that clashes with the one.
fn against(system: &System, one: &PlacedUse, uses: &[PlacedUse]) -> Option<OtherUse>
    ensures { result ≡ model.against system.now one.now uses.now }
{
    for other in uses {
        if is_clash(system, one, other) {
            return Some(OtherUse {
                offset: other.at,
                writes: other.is_write,
            });
        }
    }
    None
}

/// Whether two uses clash.
fn is_clash(system: &System, one: &PlacedUse, other: &PlacedUse) -> bool
    ensures { result ≡ model.is_clash system.now one.now other.now }
{
    one.number == other.number
        && (one.is_write || other.is_write)
        && !is_shared(system, one.number)
        && are_apart(one.way.as_slice(), other.way.as_slice())
}

/// Whether branches may share the variable.
fn is_shared(system: &System, variable: u32) -> bool
    ensures { result ≡ is_shared system.now variable }
{
    match system.variables.as_slice().get(variable as usize) {
        Some(one) => one.shared,
        None => false,
    }
}

/// Whether two ways part at branches.
fn are_apart(one: &[Entry], other: &[Entry]) -> bool
    ensures { result ≡ model.are_apart one.now other.now }
{
    let Some((first, rest)) = one.split_first() else {
        return false;
    };
    let Some((second, other_rest)) = other.split_first() else {
        return false;
    };
    are_branches(*first, *second) || (is_same(*first, *second) && are_apart(rest, other_rest))
}

/// Whether both entries are one.
fn is_same(one: Entry, other: Entry) -> bool
    ensures { result ≡ model.is_same one other }
{
    match (one, other) {
        (Entry::Ordered(one), Entry::Ordered(other)) => one == other,
        (Entry::Branch(one), Entry::Branch(other)) => one == other,
        _ => false,
    }
}

/// Whether the entries are those of two branches.
fn are_branches(one: Entry, other: Entry) -> bool
    ensures { result ≡ model.are_branches one other }
{
    match (one, other) {
        (Entry::Branch(one), Entry::Branch(other)) => one != other,
        _ => false,
    }
}
