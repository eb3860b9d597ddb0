// The branches in which the other end of a channel is sought.
ghost use Rattle.std.specs.Prelude.{◌≡◌};
ghost use Rattle.std.specs.Option.{option_copied};
ghost use Rattle.waiting.specs.OtherLines as model;

use address::Address;
use rings::Partner;
use sharing_check::Checked;

/// Which branches have the other end.
#[derive(Clone, Copy)]
pub(crate) enum Side {
    /// the one of this number
    Within(Option<u32>),
    /// all but the one of this number
    Outside(Option<u32>),
}

impl Side {
    /// Those that have the partner of the action at this place.
    pub(crate) fn of(checked: &Checked, own: &Address, partner: Option<&Partner>) -> Side
        ensures { result ≡ model.side_of checked.now own.now (option_copied partner.entry) }
    {
        match partner {
            Some(Partner::Behind(first)) => Side::Within(checked.branch(first)),
            Some(Partner::Gone) => Side::Outside(checked.branch(own)),
            Some(Partner::Open) | None => Side::Within(None),
        }
    }

    /// Whether the branch is one of them.
    pub(crate) fn has(self, branch: u32) -> bool
        ensures { result ≡ model.is_on self branch }
    {
        match self {
            Side::Within(number) => is_branch(number, branch),
            Side::Outside(number) => !is_branch(number, branch),
        }
    }
}

/// Whether the branch is the one of this number.
fn is_branch(number: Option<u32>, branch: u32) -> bool
    ensures { result ≡ model.is_branch number branch }
{
    match number {
        Some(number) => number == branch,
        None => false,
    }
}
