ghost use Rattle.std.specs.Prelude.{◌≡◌};

/// A part of the source.
#[derive(Clone, Copy, Debug, PartialEq, Eq)]
pub struct Span {
    /// The offset in bytes of its first byte, from 0.
    pub start: u64,
    /// The offset behind its last byte.
    pub stop: u64,
    /// The line of its first byte, from 1.
    pub line: u64,
}

impl Span {
    /// From the beginning of this part to the end of `last`.
    pub fn through(self, last: Span) -> Span
        ensures start { result.start ≡ self.start }
        ensures stop { result.stop ≡ last.stop }
        ensures line { result.line ≡ self.line }
    {
        Span {
            start: self.start,
            stop: last.stop,
            line: self.line,
        }
    }
}
