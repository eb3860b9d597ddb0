// The live event that acts at the first child of a place.
ghost use Rattle.std.specs.Prelude.{MatchOption};
ghost use Rattle.dependence.specs.LastEvents.{first_child};
ghost use Rattle.dependence.specs.Acting.{ActsAlone, NoneActs};
ghost use Rattle.dependence.specs.internal.Tables.{IsRising};
ghost use Rattle.dependence.specs.internal.Tabled.{TablesOf};

use crate::children::is_first_child;
use crate::live_list::LiveList;
use crate::tables::Tables;
use address::Entry;
use runs::Event;

/// The live event that acts at the first child of the place. The event that stands there may act at the other of its
/// places.
pub(crate) fn acting_at_first_child<'a>(
    list: &'a LiveList,
    tables: &Tables,
    place: &[Entry],
) -> Option<&'a Event>
    requires rising { IsRising list.now.live }
    requires tables { TablesOf list.now.live tables.now }
    ensures { MatchOption result (NoneActs list.now.live (first_child place.now)) (λ e.
        ActsAlone list.now.live (first_child place.now) e.now) }
{
    let Some(ticket) = tables.places.at_first_child(place) else {
        return None;
    };
    let event = list.event_of(ticket);
    if is_first_child(event.acting_place().entries(), place) {
        Some(event)
    } else {
        None
    }
}
