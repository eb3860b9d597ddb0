// What the steps of one call know: a ghost member, which the call picks.
use std::marker::Brand;

/// Names what the lent keeper is known to be.
pub(crate) trait Knowing<K> {
    ghost known: { K → Type 0 };
}

impl<K> Knowing<K> for Brand {
    ghost known = { λ _. Unit {0} };
}
