// Looking for a ticket by halves.
ghost use Rattle.std.specs.Prelude.{◌≡◌, ◌<◌, Some, slice_get, MatchOption};
ghost use Rattle.syntax.specs.Lists.{In};
ghost use Rattle.runs.specs.InOrder.{InOrder};

/// Where the ticket stands among others that ascend.
pub(crate) fn index_in(tickets: &[u64], ticket: u64) -> Option<usize>
    requires { InOrder ◌<◌ tickets.now }
    ensures { MatchOption result (In ticket tickets.now → ⊥) (λ i. slice_get tickets.now i ≡ Some ticket) }
{
    match tickets.binary_search(&ticket) {
        Ok(index) => Some(index),
        Err(_) => None,
    }
}
