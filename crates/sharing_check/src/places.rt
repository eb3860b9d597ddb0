// What a checked system tells of its places: what the system in it tells.
ghost use Rattle.std.specs.Prelude.{◌≡◌};
ghost use Rattle.system_places.specs.CommandPlaces.{line_at, is_open_of_select};
ghost use Rattle.system_places.specs.LinesBegun.{begins};
ghost use Rattle.system_places.specs.SystemBranches.{branch_count, branch_at};

use crate::Checked;
use address::Address;

impl Checked {
    /// How many branches the system has, 4294967295 where they are more: the children of its body where that is a
    /// parallel, else the body as one, and behind them the environment's side of each port.
    pub fn branches(&self) -> u32
        ensures { result ≡ branch_count self.now }
    {
        system_places::branch_count(self.system())
    }

    /// The branch in which the place lies, from 0: of a body that is a parallel, branch i lies at `/0/i`, and any other
    /// body is branch 0, at `/0`. The branch of the k-th port lies at `/k`, and comes behind those of the body and
    /// those of the ports before it. None for a place that lies in no branch, or in one whose number has not 32 bits.
    pub fn branch(&self, place: &Address) -> Option<u32>
        ensures { result ≡ branch_at self.now place.now }
    {
        system_places::branch_at(self.system(), place)
    }

    /// Whether a command of the system has this line, counted from 1.
    pub fn begins(&self, line: u64) -> bool
        ensures { result ≡ begins line self.now.main }
    {
        system_places::begins_on(self.system(), line)
    }

    /// The line of the command of this place, from 1, whichever arms were taken. None for a place of the environment,
    /// and for an address that is no place of a command. The arms of a choice have the same places: there it is the
    /// line in the first arm that has one, in order, what stands behind `else` as the last. The line at which an event
    /// acts depends on the arms that were taken, and is `line_after` of crate `dependence`.
    pub fn line(&self, place: &Address) -> Option<u64>
        ensures { result ≡ line_at self.now place.now }
    {
        system_places::line_at(self.system(), place)
    }

    /// Whether the place is one at which a `select` opens, whichever arms were taken. The arms of a choice have the
    /// same places: there it is that of some arm. After the arms that were taken it is `select_after` of crate
    /// `dependence`.
    pub fn select(&self, place: &Address) -> bool
        ensures { result ≡ is_open_of_select self.now place.now }
    {
        system_places::is_open_of_select(self.system(), place)
    }
}
