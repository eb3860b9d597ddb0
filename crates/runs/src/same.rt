// Tests of equality of the parts of two events.
ghost use Rattle.std.specs.Prelude.{◌≡◌, ◌==◌};
ghost use Rattle.runs.specs.Tests.{same_kind, same_place, same_option, same_word, same_list};

use crate::Kind;
use address::Address;
use system::Variables;
use value::Value;

/// Whether two kinds are equal.
pub(crate) fn same_kind(a: Kind, b: Kind) -> bool
    ensures { result ≡ same_kind a b }
{
    a == b
}

/// Whether two places are equal.
pub(crate) fn same_place(a: &Address, b: &Address) -> bool
    ensures { result ≡ same_place a.now b.now }
{
    a.equals(b)
}

/// Whether two places are equal, or both are absent.
pub(crate) fn same_places(a: &Option<Address>, b: &Option<Address>) -> bool
    ensures { result ≡ same_option same_place a.now b.now }
{
    match a {
        None => match b {
            None => true,
            Some(_) => false,
        },
        Some(a) => match b {
            None => false,
            Some(b) => same_place(a, b),
        },
    }
}

/// Whether two numbers are equal, or both are absent.
pub(crate) fn same_numbers(a: Option<u32>, b: Option<u32>) -> bool
    ensures { result ≡ same_option ◌==◌ a b }
{
    match a {
        None => match b {
            None => true,
            Some(_) => false,
        },
        Some(a) => match b {
            None => false,
            Some(b) => a == b,
        },
    }
}

/// Whether two values are equal in bits and width, or both are absent.
pub fn same_values(a: Option<Value>, b: Option<Value>) -> bool
    ensures { result ≡ same_option same_word a b }
{
    match a {
        None => match b {
            None => true,
            Some(_) => false,
        },
        Some(a) => match b {
            None => false,
            Some(b) => same_value(a, b),
        },
    }
}

/// Whether two values are equal in bits and width.
fn same_value(a: Value, b: Value) -> bool
    ensures { result ≡ same_word a b }
{
    a.bits() == b.bits() && a.width() == b.width()
}

/// Whether the same variables stand in both.
pub(crate) fn same_variables(a: &Variables, b: &Variables) -> bool
    ensures { result ≡ same_list ◌==◌ a.now b.now }
{
    a == b
}
