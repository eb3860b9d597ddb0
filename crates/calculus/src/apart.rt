// Whether two places are apart.
ghost use Rattle.std.specs.Prelude.{◌≡◌};
ghost use Rattle.runs.specs.internal.Below.{apart};

use address::Entry;

/// Whether at the first place at which they differ both entries are branch numbers.
pub(crate) fn are_apart(a: &[Entry], b: &[Entry]) -> bool
    ensures { result ≡ apart a.now b.now }
{
    let Some((first, a_rest)) = a.split_first() else {
        return false;
    };
    let Some((second, b_rest)) = b.split_first() else {
        return false;
    };
    match first {
        Entry::Ordered(i) => match second {
            Entry::Ordered(j) => {
                if *i == *j {
                    are_apart(a_rest, b_rest)
                } else {
                    false
                }
            }
            Entry::Branch(_) => false,
        },
        Entry::Branch(i) => match second {
            Entry::Ordered(_) => false,
            Entry::Branch(j) => {
                if *i == *j {
                    are_apart(a_rest, b_rest)
                } else {
                    true
                }
            }
        },
    }
}
