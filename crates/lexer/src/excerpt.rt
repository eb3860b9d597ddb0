ghost use Rattle.std.specs.Prelude.{◌≡◌, ℕ, List};

use std::marker::Model;

/// Bytes of a source, where they stand in it. Contracts see the list of them.
#[derive(Debug, Drop)]
pub struct Excerpt<'a> {
    bytes: &'a [u8],
}

impl<'a> Model for Excerpt<'a> {
    ghost Value = { List ℕ };

    ghost view = { λ excerpt. excerpt.bytes.now };
}

impl<'a> Excerpt<'a> {
    /// All of `bytes`.
    pub fn new(bytes: &'a [u8]) -> Excerpt<'a>
        ensures { result ≡ bytes.now }
    {
        Excerpt { bytes }
    }

    /// Its bytes.
    pub fn text(&self) -> &'a [u8]
        ensures { result.now ≡ self.now }
    {
        self.bytes
    }
}
