// A ring of actions of which each waits for the next.
ghost use Rattle.std.specs.Prelude.{◌≡◌, ◌<◌, ℕ, List, [], true, length, slice_get, slice_set, drop, Some, map, IfOk, MatchOption};
ghost use Rattle.syntax.specs.Lists.{In};
ghost use Rattle.system.specs.Residual.{Residual};
ghost use Rattle.rings.specs.FirstRing.{IsFirstRing};
ghost use Rattle.rings.specs.Partners.{partner_in};
ghost use Rattle.rings.specs.Rings.{Helped, TellsDeadlocked, TellsRing};
ghost use Rattle.local_actions.specs.declared.action.LocalAction as any;
ghost use Rattle.rings.specs.internal.FirstSearch as found;
ghost use Rattle.rings.specs.internal.Search as model;
ghost use Rattle.rings.specs.internal.Standing.{HasAbove, HasTables, HasWaiters, Sound, row_of};
ghost use Rattle.rings.specs.internal.Trails as trails;

use crate::partner::Partner;
use crate::place_uses::PlaceUses;
use crate::tables::{Tables, group_of, row_of};
use crate::waits::{is_at_one, is_marked, may_wait};
use dependence::UseTable;
use local_actions::LocalAction;
use std::alloc::{AllocError, Global};

/// How far the search has come at an action.
#[derive(Clone, Copy)]
pub(crate) enum Seen {
    New,
    OnWay,
    Done,
}

/// What a search for a ring has gone through.
#[derive(Drop)]
struct Trail {
    seen: Vec<Seen>,
    /// for each place behind which some wait the actions there and below, but for some at which the search is done: so
    /// nobody looks twice at one that is done
    left: UseTable,
    /// for each place at which some wait whether one of them is on the way
    held: Vec<bool>,
}

/// The indexes of actions whose places are a ring of deadlocked ones, each once, where these are the partners of the
/// actions, and `marks` says which are deadlocked, in their order: each action waits for the place of the next, and the
/// last for that of the first. None where there is no ring. Where there are several it is the one that a search from
/// the first action on comes to first, so it depends on what is given alone. It takes as many steps as their places
/// have entries, each by halves. It is an error if there is no memory.
pub fn ring_among(
    alloc: Global,
    actions: &[LocalAction],
    partners: &[Partner],
    marks: &[bool],
) -> Result<Vec<usize>, AllocError>
    requires { length partners.now ≡ length actions.now }
    ensures ring { (r : Residual) (help : Helped) → partners.now ≡ map (partner_in r) actions.now
        → TellsDeadlocked help r actions.now marks.now → IfOk result (λ ring. TellsRing help r actions.now ring.items) }
    ensures first { IfOk result (λ ring. IsFirstRing actions.now partners.now marks.now ring.items) }
{
    ring_of_indexes(alloc, actions, partners, marks)
}

/// The same by the indexes of the actions.
fn ring_of_indexes(
    alloc: Global,
    actions: &[LocalAction],
    partners: &[Partner],
    marks: &[bool],
) -> Result<Vec<usize>, AllocError>
    requires { length partners.now ≡ length actions.now }
    ensures ring { IfOk result (λ ring.
        model.Names (length actions.now) (model.waits actions.now partners.now marks.now) (model.same_at actions.now)
        ring.items) }
    ensures first { IfOk result (λ ring. IsFirstRing actions.now partners.now marks.now ring.items) }
{
    let tables = Tables::of(alloc, actions, partners)?;
    first_ring(alloc, actions, partners, &tables, marks)
}

/// The same, where these are the tables of the actions.
fn first_ring(
    alloc: Global,
    actions: &[LocalAction],
    partners: &[Partner],
    tables: &Tables,
    marks: &[bool],
) -> Result<Vec<usize>, AllocError>
    requires sizes { length partners.now ≡ length actions.now }
    requires tables { HasTables tables.now actions.now partners.now }
    ensures ring { IfOk result (λ ring.
        model.Names (length actions.now) (model.waits actions.now partners.now marks.now) (model.same_at actions.now)
        ring.items) }
    ensures first { IfOk result (λ ring. IsFirstRing actions.now partners.now marks.now ring.items) }
{
    let mut trail = trail_of(alloc, tables, actions)?;
    for start in 0..actions.len() {
        if !is_new(trail.seen.as_slice(), start) {
            continue;
        }
        let ring = ring_from(alloc, actions, partners, tables, marks, &mut trail, start)?;
        if !ring.is_empty() {
            return Ok(ring);
        }
    }
    Ok(Vec::new(alloc))
}

/// Where the search has been nowhere.
fn trail_of(alloc: Global, tables: &Tables, actions: &[LocalAction]) -> Result<Trail, AllocError>
    requires groups { Sound tables.now.waiters }
    requires above { HasAbove tables.now.above tables.now.waiters actions.now }
    ensures size { IfOk result (λ trail. length trail.seen.items ≡ length actions.now) }
    ensures done { IfOk result (λ trail. (i : ℕ) → slice_get trail.seen.items i ≡ Some Seen.Done → ⊥) }
    ensures on_way { IfOk result (λ trail. (i : ℕ) → slice_get trail.seen.items i ≡ Some Seen.OnWay → ⊥) }
    ensures left { IfOk result (λ trail. trails.Opens tables.now.waiters actions.now trail.left trail.seen.items) }
    ensures held { IfOk result (λ trail. length trail.held.items ≡ tables.now.standing.count) }
{
    let seen = all_new(alloc, actions.len())?;
    let left = tables.under(alloc, actions)?;
    let held = none_held(alloc, tables.standing.count as usize)?;
    Ok(Trail { seen, left, held })
}

/// A mark for so many places, at none of which one is on the way.
fn none_held(alloc: Global, count: usize) -> Result<Vec<bool>, AllocError>
    ensures { IfOk result (λ held. length held.items ≡ count) }
{
    Ok(vec![in alloc; false; count]?)
}

/// A mark for each action, at none of which the search has been.
fn all_new(alloc: Global, count: usize) -> Result<Vec<Seen>, AllocError>
    ensures size { IfOk result (λ seen. length seen.items ≡ count) }
    ensures done { IfOk result (λ seen. (i : ℕ) → slice_get seen.items i ≡ Some Seen.Done → ⊥) }
    ensures on_way { IfOk result (λ seen. (i : ℕ) → slice_get seen.items i ≡ Some Seen.OnWay → ⊥) }
{
    Ok(vec![in alloc; Seen::New; count]?)
}

/// The first ring that is found on the ways from this action on.
fn ring_from(
    alloc: Global,
    actions: &[LocalAction],
    partners: &[Partner],
    tables: &Tables,
    marks: &[bool],
    trail: &mut Trail,
    start: usize,
) -> Result<Vec<usize>, AllocError>
    requires sizes { length partners.now ≡ length actions.now }
    requires tables { HasTables tables.now actions.now partners.now }
    requires start { slice_get trail.old.seen.items start ≡ Some Seen.New }
    requires before { (i : ℕ) → i < start → slice_get trail.old.seen.items i ≡ Some Seen.New → ⊥ }
    requires so_far { model.Searching (length actions.now) (model.waits actions.now partners.now marks.now)
        (model.same_at actions.now) trail.old.seen.items [] }
    requires sound { trails.SoundTrail tables.now actions.now trail.old [] }
    ensures ring { IfOk result (λ ring.
        model.Searched (length actions.now) (model.waits actions.now partners.now marks.now) (model.same_at actions.now)
        trail.old.seen.items trail.new.seen.items start ring.items) }
    ensures first { (before : List ℕ) → found.DoneAt trail.old.seen.items before → IfOk result (λ ring.
        found.EndsWith actions.now partners.now marks.now before trail.new.seen.items ring.items) }
    ensures sound { IfOk result (λ ring. trails.SoundTrail tables.now actions.now trail.new []) }
{
    let mut way = Vec::new(alloc);
    way.push(start)?;
    enter(actions, tables, trail, start);
    'search: while let Some(top) = way.pop() {
        let Some(next) = next_open(partners, &tables.waiters, marks, trail, top) else {
            leave(actions, tables, trail, top);
            continue;
        };
        way.push(top)?;
        if let Some(index) = met_on(actions, tables, trail, way.as_slice(), next) {
            return part_from(alloc, way.as_slice(), index);
        }
        way.push(next)?;
        enter(actions, tables, trail, next);
    }
    Ok(Vec::new(alloc))
}

/// Goes on to an action.
fn enter(actions: &[LocalAction], tables: &Tables, trail: &mut Trail, index: usize)
    requires tables { Sound tables.now.standing }
    requires within { index < length trail.old.seen.items }
    requires held { length trail.old.held.items ≡ tables.now.standing.count }
    ensures { trails.Entered tables.now.standing actions.now index trail.old trail.new }
{
    note(&mut trail.seen, index, Seen::OnWay);
    let row = row_of(&tables.standing, actions, index);
    hold(&mut trail.held, row, true);
}

/// Goes back from an action.
fn leave(actions: &[LocalAction], tables: &Tables, trail: &mut Trail, index: usize)
    requires tables { Sound tables.now.standing }
    requires within { index < length trail.old.seen.items }
    requires held { length trail.old.held.items ≡ tables.now.standing.count }
    ensures { trails.Left tables.now.standing actions.now index trail.old trail.new }
{
    note(&mut trail.seen, index, Seen::Done);
    let row = row_of(&tables.standing, actions, index);
    hold(&mut trail.held, row, false);
}

/// Notes whether the search is at the place of this row, if there is one.
fn hold(held: &mut Vec<bool>, row: Option<u32>, state: bool)
    requires { (r : ℕ) → row ≡ Some r → r < length held.old.items }
    ensures { trails.SetAt row state held.old.items held.new.items }
{
    match row {
        Some(row) => held[row as usize] = state,
        None => {}
    }
}

/// Whether the search is at the place of the action.
fn is_held(standing: &PlaceUses, held: &[bool], actions: &[LocalAction], index: usize) -> bool
    ensures { result ≡ trails.holds held.now (row_of standing.now (slice_get actions.now index)) }
{
    match row_of(standing, actions, index) {
        Some(row) => is_marked(held, row as usize),
        None => false,
    }
}

/// Where an action on the way stands at the place of this one. The way is gone through only where there is one.
fn met_on(
    actions: &[LocalAction],
    tables: &Tables,
    trail: &Trail,
    way: &[usize],
    action: usize,
) -> Option<usize>
    requires { trails.HoldsWay tables.now.standing actions.now trail.now.held.items way.now }
    ensures { MatchOption result ((j : ℕ) → In j way.now → model.same_at actions.now j action ≡ true → ⊥)
        (λ index. (j : ℕ) × (slice_get way.now index ≡ Some j) × (model.same_at actions.now j action ≡ true)) }
{
    if !is_held(&tables.standing, trail.held.as_slice(), actions, action) {
        return None;
    }
    index_on(actions, way, action)
}

/// Whether the search has not been at this action.
fn is_new(seen: &[Seen], index: usize) -> bool
    ensures { result ≡ model.is_new (slice_get seen.now index) }
{
    match seen.get(index) {
        Some(state) => matches!(state, Seen::New),
        None => false,
    }
}

/// Whether the search is not done at this action.
fn is_open(seen: &[Seen], index: usize) -> bool
    ensures { result ≡ model.is_open (slice_get seen.now index) }
{
    match seen.get(index) {
        Some(state) => !matches!(state, Seen::Done),
        None => false,
    }
}

/// Notes how far the search has come at an action.
fn note(seen: &mut Vec<Seen>, index: usize, state: Seen)
    requires { index < length seen.old.items }
    ensures { seen.new.items ≡ slice_set seen.old.items index state }
{
    seen[index] = state;
}

/// The last action for which the action waits, and at which the search is not done.
fn next_open(
    partners: &[Partner],
    waiters: &PlaceUses,
    marks: &[bool],
    trail: &mut Trail,
    top: usize,
) -> Option<usize>
    ensures seen { trail.new.seen ≡ trail.old.seen }
    ensures held { trail.new.held ≡ trail.old.held }
    ensures next { (xs : List any.LocalAction) → Sound waiters.now → HasWaiters waiters.now partners.now
        → trails.Opens waiters.now xs trail.old.left trail.old.seen.items → length trail.old.seen.items ≡ length xs
        → model.NextOpen (length xs) (model.waits xs partners.now marks.now) trail.old.seen.items top result }
    ensures left { (xs : List any.LocalAction) → trails.Opens waiters.now xs trail.old.left trail.old.seen.items
        → trails.Opens waiters.now xs trail.new.left trail.new.seen.items }
{
    if !may_wait(partners, marks, top) {
        return None;
    }
    match group_of(waiters, partners, top) {
        Some(row) => next_in(trail.seen.as_slice(), &mut trail.left, row),
        None => None,
    }
}

/// The last action of the row at which the search is not done. Those behind it go.
fn next_in(seen: &[Seen], left: &mut UseTable, row: u32) -> Option<usize>
    ensures next { trails.NextIn seen.now left.old row result }
    ensures left { trails.Fewer seen.now left.old left.new }
{
    let mut below = seen.len();
    'nexts: while let Some(next) = left.last(row, below as u64) {
        below = next as usize;
        if is_open(seen, below) {
            return Some(below);
        }
        left.remove(row, next);
    }
    None
}

/// Where an action on the way stands at the place of this one.
fn index_on(actions: &[LocalAction], way: &[usize], action: usize) -> Option<usize>
    ensures { MatchOption result ((j : ℕ) → In j way.now → model.same_at actions.now j action ≡ true → ⊥)
        (λ index. (j : ℕ) × (slice_get way.now index ≡ Some j) × (model.same_at actions.now j action ≡ true)) }
{
    for (index, held) in way.iter().enumerate() {
        if is_at_one(actions, *held, action) {
            return Some(index);
        }
    }
    None
}

/// The way from this index on.
fn part_from(alloc: Global, way: &[usize], index: usize) -> Result<Vec<usize>, AllocError>
    requires { index < length way.now }
    ensures { IfOk result (λ part. part.items ≡ drop index way.now) }
{
    Vec::from_slice(alloc, &way[index..])
}
