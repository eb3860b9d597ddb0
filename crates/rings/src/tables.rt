// Tables of who stands at which place, and who waits behind which.
ghost use Rattle.std.specs.Prelude.{◌≡◌, ◌⊎◌, ◌↔◌, ◌<◌, ℕ, Some, IfOk, OnOk, slice_get};
ghost use Rattle.std.specs.Option.{option_copied};
ghost use Rattle.runs.specs.Moves.{Place};
ghost use Rattle.dependence.specs.LastEvents.{Uses};
ghost use Rattle.rings.specs.internal.Standing.{HasAbove, HasActions, HasTables, HasUnder, HasWaiters, RowOver, Sound, StandsAt, group_of, row_at, row_of};
ghost use Rattle.rings.specs.declared.partner.Partner.TheVariants as any_partner;

use crate::partner::Partner;
use crate::place_uses::PlaceUses;
use crate::way::small;
use address::Entry;
use dependence::UseTable;
use local_actions::LocalAction;
use std::alloc::{AllocError, Global};

/// Who stands at which place, and who waits behind which. A row is kept for each place and none for each two actions of
/// which one waits for the other: thousands may wait behind one parallel of thousands.
#[derive(Drop)]
pub(crate) struct Tables {
    /// at each place the numbers of the actions there
    pub(crate) standing: PlaceUses,
    /// at each place the numbers of those whose partner comes behind it
    pub(crate) waiters: PlaceUses,
    /// for each action the rows of `waiters` of its own place and of those above it
    pub(crate) above: UseTable,
}

impl Tables {
    /// Those of these actions, which have these partners. It takes as many steps as their places have entries, each by
    /// halves.
    pub(crate) fn of(
        alloc: Global,
        actions: &[LocalAction],
        partners: &[Partner],
    ) -> Result<Tables, AllocError>
        ensures { IfOk result (λ tables. HasTables tables actions.now partners.now) }
    {
        let standing = standing_of(alloc, actions)?;
        let waiters = waiters_of(alloc, partners)?;
        let above = above_of(alloc, &waiters, actions)?;
        Ok(Tables {
            standing,
            waiters,
            above,
        })
    }

    /// For each row of `waiters` the numbers of the actions at its place and below it.
    pub(crate) fn under(
        &self,
        alloc: Global,
        actions: &[LocalAction],
    ) -> Result<UseTable, AllocError>
        requires groups { Sound self.now.waiters }
        requires above { HasAbove self.now.above self.now.waiters actions.now }
        ensures { IfOk result (λ under. HasUnder under self.now.waiters actions.now) }
    {
        turned(alloc, &self.above, self.waiters.count as u64, actions.len())
    }
}

/// The rows of so many numbers, turned round: in the row of each number less than `limit` those in whose rows it stands.
fn turned(alloc: Global, edges: &UseTable, limit: u64, count: usize) -> Result<UseTable, AllocError>
    ensures { IfOk result (λ nexts. (i j : ℕ) → Uses nexts i j ↔ ((j < count) × ((i < limit) × Uses edges.now j i))) }
{
    let mut nexts = UseTable::new(alloc);
    for number in 0..count {
        turn_row(edges, limit, number as u64, &mut nexts)?;
    }
    Ok(nexts)
}

/// Adds this number to the rows of those, less than `limit`, that stand in its own row.
fn turn_row(
    edges: &UseTable,
    limit: u64,
    number: u64,
    nexts: &mut UseTable,
) -> Result<(), AllocError>
    ensures { OnOk result ((i j : ℕ) → Uses nexts.new i j ↔
        (Uses nexts.old i j ⊎ ((j ≡ number) × ((i < limit) × Uses edges.now number i)))) }
{
    let row = small(number)?;
    let mut below = limit;
    'rows: while let Some(found) = edges.last(row, below) {
        nexts.put(small(found)?, number)?;
        below = found;
    }
    Ok(())
}

/// At each place the numbers of the partners that come behind it.
fn waiters_of(alloc: Global, partners: &[Partner]) -> Result<PlaceUses, AllocError>
    ensures sound { IfOk result (λ waiters. Sound waiters) }
    ensures waiters { IfOk result (λ waiters. HasWaiters waiters partners.now) }
{
    let mut waiters = PlaceUses::new(alloc);
    for (number, partner) in partners.iter().enumerate() {
        put_waiter(alloc, partner, number as u64, &mut waiters)?;
    }
    Ok(waiters)
}

/// Puts the number of a partner at the place behind which it comes, if there is one.
fn put_waiter(
    alloc: Global,
    partner: &Partner,
    number: u64,
    waiters: &mut PlaceUses,
) -> Result<(), AllocError>
    requires { Sound waiters.old }
    ensures sound { OnOk result (Sound waiters.new) }
    ensures put { OnOk result ((a : Place) (i : ℕ) → StandsAt waiters.new a i ↔
        (StandsAt waiters.old a i ⊎ ((partner.now ≡ any_partner.Behind a) × (i ≡ number)))) }
{
    match partner {
        Partner::Behind(place) => waiters.put(alloc, place.entries(), number),
        Partner::Gone | Partner::Open => Ok(()),
    }
}

/// At each place the numbers of the actions there.
fn standing_of(alloc: Global, actions: &[LocalAction]) -> Result<PlaceUses, AllocError>
    ensures sound { IfOk result (λ standing. Sound standing) }
    ensures standing { IfOk result (λ standing. HasActions standing actions.now) }
{
    let mut standing = PlaceUses::new(alloc);
    for (number, action) in actions.iter().enumerate() {
        standing.put(alloc, action.place.entries(), number as u64)?;
    }
    Ok(standing)
}

/// For each action the rows of its own place and of those above it.
fn above_of(
    alloc: Global,
    waiters: &PlaceUses,
    actions: &[LocalAction],
) -> Result<UseTable, AllocError>
    ensures { IfOk result (λ above. HasAbove above waiters.now actions.now) }
{
    let mut above = UseTable::new(alloc);
    for (number, action) in actions.iter().enumerate() {
        add_rows(waiters, action.place.entries(), number as u64, &mut above)?;
    }
    Ok(above)
}

/// Adds to the row of this number the rows of the place and of those above it.
fn add_rows(
    waiters: &PlaceUses,
    place: &[Entry],
    number: u64,
    above: &mut UseTable,
) -> Result<(), AllocError>
    ensures { OnOk result ((j g : ℕ) → Uses above.new j g ↔
        (Uses above.old j g ⊎ ((j ≡ number) × RowOver waiters.now place.now g))) }
{
    for length in 0..place.len() {
        add_row(waiters, &place[..length], number, above)?;
    }
    add_row(waiters, place, number, above)
}

/// Adds to the row of this number the row of the place, if it has one.
fn add_row(
    waiters: &PlaceUses,
    place: &[Entry],
    number: u64,
    above: &mut UseTable,
) -> Result<(), AllocError>
    ensures { OnOk result ((j g : ℕ) → Uses above.new j g ↔
        (Uses above.old j g ⊎ ((j ≡ number) × (row_at waiters.now place.now ≡ Some g)))) }
{
    let index = small(number)?;
    match waiters.row(place) {
        Some(row) => above.put(index, row as u64),
        None => Ok(()),
    }
}

/// The row of the place of the action of this number, if it has one.
pub(crate) fn row_of(standing: &PlaceUses, actions: &[LocalAction], number: usize) -> Option<u32>
    ensures { result ≡ row_of standing.now (slice_get actions.now number) }
{
    row_if(standing, actions.get(number))
}

/// The row of the place of an action, if it is there and its place has one.
fn row_if(standing: &PlaceUses, offered: Option<&LocalAction>) -> Option<u32>
    ensures { result ≡ row_of standing.now (option_copied offered.entry) }
{
    match offered {
        Some(offered) => standing.row(offered.place.entries()),
        None => None,
    }
}

/// The row of the place behind which the partner of this number comes, if it comes behind one.
pub(crate) fn group_of(waiters: &PlaceUses, partners: &[Partner], number: usize) -> Option<u32>
    ensures { result ≡ group_of waiters.now (slice_get partners.now number) }
{
    group_if(waiters, partners.get(number))
}

/// The row of the place behind which a partner comes, if it is there and comes behind one.
fn group_if(waiters: &PlaceUses, partner: Option<&Partner>) -> Option<u32>
    ensures { result ≡ group_of waiters.now (option_copied partner.entry) }
{
    match partner {
        Some(Partner::Behind(place)) => waiters.row(place.entries()),
        Some(Partner::Gone) | Some(Partner::Open) | None => None,
    }
}
