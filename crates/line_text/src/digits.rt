//! Digits for which there is room: they ask nothing of the allocator, and none of them looks for its place.
ghost use Rattle.std.specs.Prelude.{◌≡◌, ◌<◌, ◌≤◌, ◌+◌, ◌/◌, ◌%◌, ◌∷◌, ◌++◌, [], length};
ghost use Rattle.std.specs.Fmt.{decimal};
ghost use Rattle.std.specs.Vec.{vec_len, vec_capacity};

/// The most digits of a number.
pub(crate) const MOST_DIGITS: usize = 20;

/// Puts a number in decimal. Most numbers of places have one digit.
#[inline(always)]
pub(crate) fn put_decimal(out: &mut Vec<u8>, number: u64)
    requires { vec_len out.old + length (decimal number) ≤ vec_capacity out.old }
    ensures { out.new.items ≡ out.old.items ++ decimal number }
{
    if number < 10 {
        put_digit(out, number);
    } else {
        put_digits(out, number);
    }
}

/// Puts the digits of a number. Few have more than six, and those that have not take no calls.
#[inline(never)]
fn put_digits(out: &mut Vec<u8>, number: u64)
    requires { vec_len out.old + length (decimal number) ≤ vec_capacity out.old }
    ensures { out.new.items ≡ out.old.items ++ decimal number }
{
    if number < 10_000 {
        put_four(out, number);
    } else if number < 1_000_000 {
        put_four(out, number / 100);
        put_pair(out, number % 100);
    } else {
        put_many(out, number);
    }
}

/// Puts the digits of a number, the last two behind those of its hundredth.
fn put_many(out: &mut Vec<u8>, number: u64)
    requires { vec_len out.old + length (decimal number) ≤ vec_capacity out.old }
    ensures items { out.new.items ≡ out.old.items ++ decimal number }
    ensures len { vec_len out.new ≡ vec_len out.old + length (decimal number) }
    ensures capacity { vec_capacity out.new ≡ vec_capacity out.old }
{
    if number < 100 {
        return put_few(out, number);
    }
    put_many(out, number / 100);
    put_pair(out, number % 100);
}

/// Puts four digits at most.
#[inline(always)]
fn put_four(out: &mut Vec<u8>, number: u64)
    requires four { number < 10000 }
    requires room { vec_len out.old + length (decimal number) ≤ vec_capacity out.old }
    ensures items { out.new.items ≡ out.old.items ++ decimal number }
    ensures len { vec_len out.new ≡ vec_len out.old + length (decimal number) }
    ensures capacity { vec_capacity out.new ≡ vec_capacity out.old }
{
    if number < 100 {
        return put_few(out, number);
    }
    put_few(out, number / 100);
    put_pair(out, number % 100);
}

/// Puts one digit or two.
#[inline(always)]
fn put_few(out: &mut Vec<u8>, number: u64)
    requires few { number < 100 }
    requires room { vec_len out.old + length (decimal number) ≤ vec_capacity out.old }
    ensures items { out.new.items ≡ out.old.items ++ decimal number }
    ensures len { vec_len out.new ≡ vec_len out.old + length (decimal number) }
    ensures capacity { vec_capacity out.new ≡ vec_capacity out.old }
{
    if number < 10 {
        put_digit(out, number);
    } else {
        put_pair(out, number);
    }
}

/// Puts two digits.
#[inline(always)]
fn put_pair(out: &mut Vec<u8>, number: u64)
    requires two { number < 100 }
    requires room { vec_len out.old + 2 ≤ vec_capacity out.old }
    ensures items { out.new.items ≡ out.old.items ++ (48 + number / 10) ∷ (48 + number % 10) ∷ [] }
    ensures len { vec_len out.new ≡ vec_len out.old + 2 }
    ensures capacity { vec_capacity out.new ≡ vec_capacity out.old }
{
    out.push_reserved(b'0' + (number / 10) as u8);
    out.push_reserved(b'0' + (number % 10) as u8);
}

/// Puts the digit of a number of one.
#[inline(always)]
#[tactic(auto, using(std::proofs::lemmas::Fmt::decimal_digit))]
fn put_digit(out: &mut Vec<u8>, number: u64)
    requires one { number < 10 }
    requires room { vec_len out.old < vec_capacity out.old }
    ensures items { out.new.items ≡ out.old.items ++ decimal number }
    ensures len { vec_len out.new ≡ vec_len out.old + 1 }
    ensures capacity { vec_capacity out.new ≡ vec_capacity out.old }
{
    out.push_reserved(b'0' + number as u8);
}
