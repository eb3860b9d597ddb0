ghost use Rattle.std.specs.Prelude.{◌≡◌};
ghost use Rattle.sharing_check.specs.internal.Crossing as model;

/// The least offsets in bytes, in the source, at which a variable is read and written; none where it is not.
#[derive(Clone, Copy)]
pub struct Touched {
    pub read: Option<u64>,
    pub written: Option<u64>,
}

impl Touched {
    /// Neither read nor written.
    pub const NOWHERE: Touched = Touched {
        read: None,
        written: None,
    };

    /// Read at the offset, or written there.
    pub fn at(offset: u64, writes: bool) -> Touched
        ensures { result ≡ model.touched_here offset writes }
    {
        if writes {
            Touched {
                read: None,
                written: Some(offset),
            }
        } else {
            Touched {
                read: Some(offset),
                written: None,
            }
        }
    }

    /// This and another part together.
    pub fn with(self, other: Touched) -> Touched
        ensures { result ≡ model.together self other }
    {
        Touched {
            read: lesser(self.read, other.read),
            written: lesser(self.written, other.written),
        }
    }

    /// The least offset here that clashes with the other part, where the two are branches of a parallel.
    fn clashing(self, other: Touched) -> Option<u64>
        ensures { result ≡ model.clashing self other }
    {
        if other.written.is_some() {
            lesser(self.read, self.written)
        } else if other.read.is_some() {
            self.written
        } else {
            None
        }
    }

    /// The least offset, here or there, that clashes, where the two are branches of a parallel.
    pub fn clash(self, other: Touched) -> Option<u64>
        ensures { result ≡ model.clash self other }
    {
        lesser(self.clashing(other), other.clashing(self))
    }
}

/// The lesser of two offsets, where there are two.
pub fn lesser(one: Option<u64>, other: Option<u64>) -> Option<u64>
    ensures { result ≡ model.lesser one other }
{
    match (one, other) {
        (Some(one), Some(other)) => Some(one.min(other)),
        (Some(one), None) => Some(one),
        (None, other) => other,
    }
}
