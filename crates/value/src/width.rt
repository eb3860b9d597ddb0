ghost use Rattle.std.specs.Prelude.{◌≡◌, ◌≤◌, ◌↔◌, IsSome, IfSome};
ghost use Rattle.value.specs.Word.{IsWidth};

use crate::MOST_BITS;
use std::marker::Model;

/// How many bits a value has, from 1 to 64. Contracts see it as that number.
#[derive(Clone, Copy, Debug, PartialEq, Eq)]
pub struct Width {
    bits: u8,
}

impl Model for Width {
    ghost use Rattle.std.specs.Prelude.{ℕ};
    ghost use Rattle.value.specs.Word.{IsWidth};

    ghost Value = { ℕ };

    ghost view = { λ w. w.bits };

    ghost invariant = { λ w. IsWidth w.bits };

    ghost inverse = { λ n. record { bits = n } };
}

impl Width {
    /// The width of so many bits, where they are from 1 to 64.
    pub fn new(bits: u8) -> Option<Width>
        ensures width { IsSome result ↔ IsWidth bits }
        ensures value { IfSome result (λ w. w ≡ bits) }
    {
        if 1 <= bits && bits <= MOST_BITS {
            Some(Width { bits })
        } else {
            None
        }
    }

    /// So many bits, from 1 to 64.
    pub fn bits(self) -> u8
        ensures value { result ≡ self }
        ensures width { IsWidth result }
    {
        self.bits
    }
}
