// The place of a first child.
ghost use Rattle.std.specs.Prelude.{◌≡◌, ◌↔◌, [], ◌∷◌, IsTrue};
ghost use Rattle.address.specs.declared.Entry.TheVariants.{Ordered};
ghost use Rattle.dependence.specs.LastEvents.{first_child};

use address::Entry;

/// Whether this is the place of the first child of what stands at the other. It takes no memory.
pub(crate) fn is_first_child(place: &[Entry], parent: &[Entry]) -> bool
    ensures { IsTrue result ↔ (place.now ≡ first_child parent.now) }
{
    match place.strip_prefix(parent) {
        Some(way) => is_first(way),
        None => false,
    }
}

/// Whether these entries are the number 0 alone.
fn is_first(way: &[Entry]) -> bool
    ensures { IsTrue result ↔ (way.now ≡ Ordered 0 ∷ []) }
{
    match way {
        [Entry::Ordered(number)] => *number == 0,
        _ => false,
    }
}
