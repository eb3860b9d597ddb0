//! Numbers by their decimal text: digits alone, without leading zeros.
#![tactic(auto)]

ghost use Rattle.std.specs.Prelude.{◌≡◌, ◌<◌, ◌↔◌, IsTrue, MatchOption, length, slice_index};
ghost use Rattle.std.specs.Str.Parse.{AllDigits};
ghost use Rattle.decimal.specs.Reading.{IsNoNumber, Reads};

/// The number below 2^64 with this decimal text, or `None` where no such number has it.
pub fn read_number(text: &[u8]) -> Option<u64>
    ensures { MatchOption result (IsNoNumber text.now) (λ n. Reads text.now n) }
{
    if !are_digits(text) {
        return None;
    }
    if text.is_empty() {
        return None;
    }
    if text[0] == b'0' && text.len() > 1 {
        return None;
    }
    value(text)
}

/// Whether each byte is a decimal digit.
fn are_digits(text: &[u8]) -> bool
    ensures { IsTrue result ↔ AllDigits 10 text.now }
{
    for byte in text {
        if !byte.is_ascii_digit() {
            return false;
        }
    }
    true
}

/// The value of digits without a leading zero, if it is below 2^64.
fn value(digits: &[u8]) -> Option<u64>
    requires all { AllDigits 10 digits.now }
    requires some { 0 < length digits.now }
    requires lead { slice_index digits.now 0 ≡ 48 → length digits.now ≡ 1 }
    ensures { MatchOption result (IsNoNumber digits.now) (λ n. Reads digits.now n) }
{
    let mut number: u64 = 0;
    for digit in digits {
        let worth = u64::from(*digit - b'0');
        number = number.checked_mul(10)?.checked_add(worth)?;
    }
    Some(number)
}
