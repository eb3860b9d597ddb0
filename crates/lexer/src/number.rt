ghost use Rattle.std.specs.Prelude.{◌<◌, ◌^◌};
ghost use Rattle.std.specs.Option.{SomeIff};
ghost use Rattle.lexer.specs.Tokens.{value_of};

/// The value of decimal digits, if it is below 2^64.
pub fn value(digits: &[u8]) -> Option<u64>
    ensures { SomeIff result (value_of digits.now < 2 ^ 64) (value_of digits.now) }
{
    let mut value: u64 = 0;
    for digit in digits {
        let digit = u64::from(digit.saturating_sub(b'0'));
        value = value.checked_mul(10)?.checked_add(digit)?;
    }
    Some(value)
}
