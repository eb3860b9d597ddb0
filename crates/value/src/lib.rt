//! Unsigned numbers of 1 to 64 bits, each with its width, and the operations on them.
#![tactic(auto)]

ghost use Rattle.std.specs.Prelude.{◌≡◌, ℕ, ◌+◌, ◌-◌, ◌^◌, ◌<◌, ◌≤◌, ◌↔◌, IsSome, IfSome};
ghost use Rattle.value.specs.Word.{IsWord, common_width, sum_of, difference_of, and_of, or_of, xor_of, complement_of, comparison_of, resized, least_width_of};
ghost use Rattle.std.specs.Int.{bit_at};

mod width;

use std::fmt;
use std::marker::Model;
pub use width::Width;

/// How two numbers are compared: as unsigned numbers, whatever their widths.
#[derive(Clone, Copy, Debug, PartialEq, Eq)]
pub enum Comparison {
    /// `=`
    Equal,
    /// `/=`
    NotEqual,
    /// `<`
    Less,
    /// `>`
    Greater,
    /// `<=`
    LessOrEqual,
    /// `>=`
    GreaterOrEqual,
}

/// The most bits that a number has.
pub const MOST_BITS: u8 = 64;

/// An unsigned number below two to the power of its width, which is 1 to 64 bits: whoever writes one out proves that.
///
/// Two values are equal where both the numbers and the widths are.
#[derive(Clone, Copy, Debug, PartialEq, Eq)]
pub struct Value {
    /// the number
    pub bits: u64,
    /// 1 to 64, in bits
    pub width: u8,
}

impl Model for Value {
    ghost use Rattle.value.specs.Word.{Word, IsWord};

    ghost Value = { Word };

    ghost view = { λ v. record { bits = v.bits; width = v.width } };

    ghost invariant = { λ v. IsWord (record { bits = v.bits; width = v.width }) };

    ghost inverse = { λ w. record { bits = w.bits; width = w.width } };
}

/// The largest number of the width: all of its bits are ones.
fn ones(width: u8) -> u64
    requires positive { 1 ≤ width }
    requires within { width ≤ 64 }
    ensures { result + 1 ≡ 2 ^ width }
{
    u64::MAX >> (64 - width)
}

impl Value {
    /// The number with the width in bits, where that width is 1 to 64 and holds the number.
    pub fn new(bits: u64, width: u8) -> Option<Value>
        ensures word { IsSome result ↔ IsWord (record { bits = bits; width = width }) }
        ensures value { IfSome result (λ v. v ≡ record { bits = bits; width = width }) }
    {
        if 1 <= width && width <= MOST_BITS && bits <= ones(width) {
            Some(Value::make(bits, width))
        } else {
            None
        }
    }

    /// The number with a width in bits that holds it.
    pub fn make(bits: u64, width: u8) -> Value
        requires { IsWord (record { bits = bits; width = width }) }
        ensures { result ≡ record { bits = bits; width = width } }
    {
        Value { bits, width }
    }

    /// Zero, of a width of 1 to 64 bits.
    pub fn zero(width: u8) -> Value
        requires positive { 1 ≤ width }
        requires within { width ≤ 64 }
        ensures { result ≡ record { bits = 0; width = width } }
    {
        Value { bits: 0, width }
    }

    /// The number, without its width.
    pub fn bits(self) -> u64
        ensures value { result ≡ self.bits }
        ensures word { IsWord self }
    {
        self.bits
    }

    /// The width, in bits.
    pub fn width(self) -> u8
        ensures value { result ≡ self.width }
        ensures word { IsWord self }
    {
        self.width
    }
}

/// The number in decimal.
impl fmt::Display for Value {
    ghost use Rattle.std.specs.Prelude.{Some, decimal};

    ghost output = { λ v. Some (decimal v.bits) };

    fn fmt<W: fmt::Write>(&self, f: &mut fmt::Formatter<W>) -> fmt::Result {
        write!(f, "{}", self.bits)
    }
}

/// The sum, one bit wider than the wider operand, so that no carry is lost.
pub fn add(a: Value, b: Value) -> Value
    requires { common_width a b < 64 }
    ensures value { result ≡ sum_of a b }
    ensures exact { result.bits ≡ a.bits + b.bits }
{
    Value {
        bits: a.bits + b.bits,
        width: a.width.max(b.width) + 1,
    }
}

/// The difference, as wide as the wider operand. Below zero it wraps round.
pub fn sub(a: Value, b: Value) -> Value
    ensures value { result ≡ difference_of a b }
    ensures exact { b.bits ≤ a.bits → result.bits ≡ a.bits - b.bits }
    ensures wrapped { a.bits < b.bits → result.bits + b.bits ≡ a.bits + 2 ^ common_width a b }
{
    let width = a.width.max(b.width);
    Value {
        bits: a.bits.wrapping_sub(b.bits) & ones(width),
        width,
    }
}

/// The bits that both operands have, as wide as the wider operand.
pub fn bit_and(a: Value, b: Value) -> Value
    ensures { result ≡ and_of a b }
{
    Value {
        bits: a.bits & b.bits,
        width: a.width.max(b.width),
    }
}

/// The bits that one or both operands have, as wide as the wider operand.
pub fn bit_or(a: Value, b: Value) -> Value
    ensures { result ≡ or_of a b }
{
    Value {
        bits: a.bits | b.bits,
        width: a.width.max(b.width),
    }
}

/// The bits that just one operand has, as wide as the wider operand.
pub fn bit_xor(a: Value, b: Value) -> Value
    ensures { result ≡ xor_of a b }
{
    Value {
        bits: a.bits ^ b.bits,
        width: a.width.max(b.width),
    }
}

/// Each bit of the width flipped.
pub fn not(a: Value) -> Value
    ensures value { result ≡ complement_of a }
    ensures flipped { (i : ℕ) → i < a.width → bit_at result.bits i ≡ 1 - bit_at a.bits i }
{
    Value {
        bits: ones(a.width) - a.bits,
        width: a.width,
    }
}

/// One bit: 1 where the comparison is true of the two numbers, and else 0.
pub fn compare(op: Comparison, a: Value, b: Value) -> Value
    ensures { result ≡ comparison_of op a b }
{
    let holds = match op {
        Comparison::Equal => a.bits == b.bits,
        Comparison::NotEqual => a.bits != b.bits,
        Comparison::Less => a.bits < b.bits,
        Comparison::Greater => a.bits > b.bits,
        Comparison::LessOrEqual => a.bits <= b.bits,
        Comparison::GreaterOrEqual => a.bits >= b.bits,
    };
    Value {
        bits: holds as u64,
        width: 1,
    }
}

/// The low bits of the number where the new width, of 1 to 64 bits, is less than its own. Else the number as it is.
pub fn resize(v: Value, width: u8) -> Value
    requires positive { 1 ≤ width }
    requires within { width ≤ 64 }
    ensures value { result ≡ resized v width }
    ensures kept { v.bits < 2 ^ width → result.bits ≡ v.bits }
{
    Value {
        bits: v.bits & ones(width),
        width,
    }
}

/// The least width, of 1 to 64 bits, that holds the number.
pub fn least_width(n: u64) -> u8
    ensures value { result ≡ least_width_of n }
    ensures positive { 1 ≤ result }
    ensures within { result ≤ 64 }
    ensures fits { n < 2 ^ result }
    ensures least { (w : ℕ) → 1 ≤ w → n < 2 ^ w → result ≤ w }
{
    (u64::BITS - n.leading_zeros()).max(1) as u8
}
