// The line of a place after the live events, and whether a `select` opens there.
//
// At each choice on the way to the place the live event that acts there is looked for by its place. No memory is taken.
ghost use Rattle.std.specs.Prelude.{◌≡◌, List, Option};
ghost use Rattle.address.specs.declared.Entry.{Entry};
ghost use Rattle.runs.specs.Live.{events};
ghost use Rattle.dependence.specs.EventPlaces as model;

use crate::Live;
use address::{Address, Entry};
use sharing_check::Checked;
use system_places::{TakenArms, is_open_under, line_under};

/// Live events, as what tells which arms were taken.
#[derive(Clone, Copy)]
struct ArmsTaken<'a> {
    live: &'a Live,
}

impl TakenArms for ArmsTaken<'_> {
    ghost taken = { λ these. model.taken_by (events these.live.now.live) };

    fn arm(&self, place: &[Entry]) -> Option<u32> {
        arm_taken(self.live, place)
    }
}

/// The arm of the event that acts where the choice at this place takes one.
fn arm_taken(live: &Live, choice: &[Entry]) -> Option<u32>
    ensures { result ≡ model.taken_by (events live.now.live) choice.now }
{
    match live.acting_at_first_child(choice) {
        Some(event) => event.arm,
        None => None,
    }
}

/// The line, from 1, of the command that has this place after the live events: of the arms of a choice, which have the
/// same places, the one that a live event took. None for a place of the environment, and for an address that is no
/// place of a command in any arm that was taken. It takes as long as to look for a place at each choice on the way.
pub fn line_after(system: &Checked, live: &Live, place: &Address) -> Option<u64>
    ensures { result ≡ model.line_after (events live.now.live) system.now place.now }
{
    line_under(system.system(), &ArmsTaken { live }, place)
}

/// Whether the place is one at which a `select` opens, after the live events. It takes as long as `line_after`.
pub fn select_after(system: &Checked, live: &Live, place: &Address) -> bool
    ensures { result ≡ model.is_open_after (events live.now.live) system.now place.now }
{
    is_open_under(system.system(), &ArmsTaken { live }, place)
}
