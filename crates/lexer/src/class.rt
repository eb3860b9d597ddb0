ghost use Rattle.std.specs.Prelude.{◌≡◌};
ghost use Rattle.lexer.specs.Bytes as bytes;
ghost use Rattle.lexer.specs.Spelling.{may_hold};

/// What a piece of the source spells.
#[derive(Clone, Copy, Debug)]
pub enum Class {
    /// A run of blank bytes.
    Blank,
    /// `--` and what follows on its line.
    LineComment,
    /// From `(--` to the `--)` that closes it.
    NestedComment,
    /// `(--` and what follows, as long as no `--)` closes it.
    OpenComment,
    /// A name or a reserved word.
    Word,
    /// A run of digits.
    Number,
    Symbol,
}

/// Whether `byte` separates words and begins nothing.
#[inline(always)]
pub fn is_blank(byte: u8) -> bool
    ensures { result ≡ bytes.is_blank byte }
{
    byte == 9 || byte == 10 || byte == 13 || byte == 32
}

/// Whether `byte` may stand in a name behind its first letter.
#[inline(always)]
pub fn is_name_byte(byte: u8) -> bool
    ensures { result ≡ bytes.is_name_byte byte }
{
    byte.is_ascii_alphanumeric() || byte == b'_'
}

impl Class {
    /// Whether a run of this class may hold `byte`.
    #[inline(always)]
    pub fn may_hold(self, byte: u8) -> bool
        ensures { result ≡ may_hold self byte }
    {
        match self {
            Class::Blank => is_blank(byte),
            Class::LineComment => byte != b'\n',
            Class::Word => is_name_byte(byte),
            Class::Number => byte.is_ascii_digit(),
            Class::NestedComment | Class::OpenComment | Class::Symbol => false,
        }
    }
}
