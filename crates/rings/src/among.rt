// The partner of an action among the ends that a walk has found.
ghost use Rattle.std.specs.Prelude.{◌≡◌, ◌<◌, ℕ, Some, length, MatchOption, IfOk};
ghost use Rattle.runs.specs.Tests.{same_place};
ghost use Rattle.dependence.specs.LastEvents.{Uses, LastUse};
ghost use Rattle.rings.specs.internal.Ends as model;

use crate::ends::{End, Kind};
use crate::partner::Partner;
use crate::sought::Sought;
use crate::way::is_same_entry;
use address::{Address, Entry};
use dependence::UseTable;
use std::alloc::{AllocError, Global};

/// What has to go on before what is sought can come for the action at the place. Behind two ends that count nothing
/// more is looked at.
pub(crate) fn among(
    alloc: Global,
    ends: &[End],
    uses: &UseTable,
    sought: Sought,
    own: &[Entry],
) -> Result<Partner, AllocError>
    requires { model.HasEnds uses.now ends.now }
    ensures { IfOk result (λ partner. partner ≡ model.counted sought (Some own.now) ends.now) }
{
    let mut partner = Partner::Gone;
    let mut below = ends.len();
    'ends: while let Some(number) = uses.last(sought.channel(), below as u64) {
        below = number as usize;
        partner = or_end_if(alloc, &ends[below], sought, own, partner)?;
        if is_open(&partner) {
            return Ok(Partner::Open);
        }
    }
    Ok(partner)
}

/// Whether it may be there already, or come from more than one branch.
fn is_open(partner: &Partner) -> bool
    ensures { result ≡ model.is_open partner.now }
{
    matches!(partner, Partner::Open)
}

/// The end, if it is what is sought and counts, or another partner.
fn or_end_if(
    alloc: Global,
    end: &End,
    sought: Sought,
    own: &[Entry],
    partner: Partner,
) -> Result<Partner, AllocError>
    ensures { IfOk result (λ made. made ≡ model.with_end sought (Some own.now) end.now partner) }
{
    if !sought.is_same(end.sought) {
        return Ok(partner);
    }
    if !counts(end.kind, end.place.as_slice(), own) {
        return Ok(partner);
    }
    or_end(alloc, end.kind, end.place.as_slice(), partner)
}

/// Whether an end that counts so is a partner of the action at a place.
fn counts(kind: Kind, place: &[Entry], own: &[Entry]) -> bool
    ensures { result ≡ model.counts (Some own.now) kind place.now }
{
    match kind {
        Kind::There | Kind::Later => is_clear(place, own),
        Kind::Within => true,
    }
}

/// Whether the second place is neither the first nor below it.
fn is_clear(place: &[Entry], own: &[Entry]) -> bool
    ensures { result ≡ model.clear place.now own.now }
{
    let Some((first, rest)) = place.split_first() else {
        return false;
    };
    let Some((second, below)) = own.split_first() else {
        return true;
    };
    if is_same_entry(*second, *first) {
        is_clear(rest, below)
    } else {
        true
    }
}

/// The end, or another partner.
fn or_end(
    alloc: Global,
    kind: Kind,
    place: &[Entry],
    partner: Partner,
) -> Result<Partner, AllocError>
    ensures { IfOk result (λ made. made ≡ model.or_end kind place.now partner) }
{
    match kind {
        Kind::There => Ok(Partner::Open),
        Kind::Later | Kind::Within => behind_too(alloc, place, partner),
    }
}

/// A partner behind the place, or another one.
fn behind_too(alloc: Global, place: &[Entry], partner: Partner) -> Result<Partner, AllocError>
    ensures { IfOk result (λ made. made ≡ model.behind_too place.now partner) }
{
    match partner {
        Partner::Gone => Ok(Partner::Behind(Address::new(alloc, place)?)),
        Partner::Behind(first) => Ok(behind_both(place, first)),
        Partner::Open => Ok(Partner::Open),
    }
}

/// A partner behind both places.
fn behind_both(place: &[Entry], first: Address) -> Partner
    ensures { result ≡ model.behind_both place.now first }
{
    if is_same_way(place, first.entries()) {
        Partner::Behind(first)
    } else {
        Partner::Open
    }
}

/// Whether both ways are one.
fn is_same_way(one: &[Entry], other: &[Entry]) -> bool
    ensures { result ≡ same_place one.now other.now }
{
    match (one.split_first(), other.split_first()) {
        (Some((first, rest)), Some((second, below))) => {
            is_same_entry(*first, *second) && is_same_way(rest, below)
        }
        (None, None) => true,
        _ => false,
    }
}
