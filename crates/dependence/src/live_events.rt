// The live events, one after another.
ghost use Rattle.std.specs.Prelude.{◌≡◌, ◌<◌, ◌^◌, length};
ghost use Rattle.std.specs.Iterator.{item_count};
ghost use Rattle.slots.specs.Places.{filled};
ghost use Rattle.dependence.specs.Listing.{GivesFirst};
ghost use Rattle.dependence.specs.internal.Listed.{events_kept};

use crate::kept::Kept;
use indexmap::map::Slice;
use runs::Event;
use std::marker::Model;

/// The live events with their tickets, in order of tickets. It is seen as the list of those that are left.
#[derive(Drop)]
pub struct LiveEvents<'a> {
    places: Slice<'a, u64, Option<Kept>>,
}

impl<'a> Model for LiveEvents<'a> {
    ghost use Rattle.slots.specs.Places.{filled};
    ghost use Rattle.runs.specs.Live.{Live};
    ghost use Rattle.dependence.specs.internal.Listed.{events_kept};

    ghost Value = { Live };

    ghost view = { λ events. events_kept (filled events.places) };
}

impl<'a> LiveEvents<'a> {
    /// The events at these places.
    pub(crate) fn of(places: Slice<'a, u64, Option<Kept>>) -> LiveEvents<'a>
        requires { length places < 2 ^ 64 }
        ensures events { result ≡ events_kept (filled places.entry) }
        ensures fits { length result < 2 ^ 64 }
    {
        LiveEvents { places }
    }
}

impl<'a> Iterator for LiveEvents<'a> {
    type Item = (u64, &'a Event);

    ghost next_gives = { GivesFirst };

    ghost remaining = { item_count (λ rest. rest) };

    fn next(&mut self) -> Option<(u64, &'a Event)> {
        while let Some(((ticket, item), rest)) = self.places.split_first() {
            self.places = rest;
            if let Some(kept) = item {
                return Some((*ticket, kept.event.get()));
            }
        }
        None
    }
}
