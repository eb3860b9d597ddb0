// The place of a ticket.
ghost use Rattle.std.specs.Prelude.{◌≡◌, true, MatchOption};
ghost use Rattle.slots.specs.Places.{RiseFrom, NoneOf, IsOf};

use indexmap::IndexMap;

/// Items by ticket, `None` where one was taken out.
pub type Slots<T> = IndexMap<u64, Option<T>>;

/// The place of the item of this ticket. Where tickets follow one another, the distance to the last one tells the place.
#[inline(always)]
pub fn find<T>(slots: &Slots<T>, ticket: u64) -> Option<usize>
    requires { RiseFrom 0 slots.now.entries }
    ensures { MatchOption result (NoneOf slots.now.entries ticket) (λ place. IsOf slots.now.entries ticket place) }
{
    let place = guess(slots, ticket);
    if has_item(slots, ticket, place) {
        Some(place)
    } else {
        look_up(slots, ticket)
    }
}

/// The place of the ticket, if each ticket from it to the last has a place.
#[inline(always)]
fn guess<T>(slots: &Slots<T>, ticket: u64) -> usize {
    match slots.last() {
        Some((last, _)) => (slots.len() - 1).saturating_sub(last.saturating_sub(ticket) as usize),
        None => 0,
    }
}

/// Whether the item of this ticket is at this place.
#[inline(always)]
fn has_item<T>(slots: &Slots<T>, ticket: u64, place: usize) -> bool
    ensures { result ≡ true → IsOf slots.now.entries ticket place }
{
    match slots.get_index(place) {
        Some((found, Some(_))) => *found == ticket,
        _ => false,
    }
}

/// The place of the item of this ticket, by its hash.
#[inline(never)]
fn look_up<T>(slots: &Slots<T>, ticket: u64) -> Option<usize>
    requires { RiseFrom 0 slots.now.entries }
    ensures { MatchOption result (NoneOf slots.now.entries ticket) (λ place. IsOf slots.now.entries ticket place) }
{
    let (place, _, item) = slots.get_full(&ticket)?;
    if item.is_some() { Some(place) } else { None }
}
