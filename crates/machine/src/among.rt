// Whether a number is among some.
ghost use Rattle.std.specs.Prelude.{◌≡◌};
ghost use Rattle.system.specs.Expression.{is_in};

/// Whether the number is among these.
pub(crate) fn is_among(numbers: &[u64], number: u64) -> bool
    ensures { result ≡ is_in number numbers.now }
{
    for held in numbers {
        if number == *held {
            return true;
        }
    }
    false
}
