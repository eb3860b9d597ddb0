ghost use Rattle.std.specs.Prelude.{◌≡◌, MatchOption};
ghost use Rattle.std.specs.Str.{bytes_eq};
ghost use Rattle.line_text.specs.Keywords.{spelling};
ghost use Rattle.line_text.specs.internal.Spelled as spec;

/// The word with which a line begins.
#[derive(Clone, Copy)]
pub enum Keyword {
    Step,
    Undo,
    Roll,
    RollValue,
    Blame,
    Ready,
    Consequences,
    Live,
    Value,
    Branch,
    Break,
    Clear,
    Session,
    View,
    Trace,
}

/// In the order in which they are looked for: what is asked most often comes first.
const ALL: [Keyword; 15] = [
    Keyword::Step,
    Keyword::Branch,
    Keyword::Undo,
    Keyword::Roll,
    Keyword::RollValue,
    Keyword::Blame,
    Keyword::Ready,
    Keyword::Consequences,
    Keyword::Live,
    Keyword::Value,
    Keyword::Break,
    Keyword::Clear,
    Keyword::Session,
    Keyword::View,
    Keyword::Trace,
];

impl Keyword {
    /// The keyword with this spelling, if there is one.
    pub fn read(text: &[u8]) -> Option<Keyword>
        ensures { MatchOption result (spec.SpellsNothing text.now) (λ keyword. spelling keyword ≡ text.now) }
    {
        match text {
            // What is asked most often is seen without a search.
            [b's', b't', b'e', b'p'] => Some(Keyword::Step),
            [b'u', b'n', b'd', b'o'] => Some(Keyword::Undo),
            [b'r', b'e', b'a', b'd', b'y'] => Some(Keyword::Ready),
            [b'b', b'r', b'a', b'n', b'c', b'h'] => Some(Keyword::Branch),
            _ => first_spelled(&ALL, text),
        }
    }

    fn spelling(self) -> &'static [u8]
        ensures { result.now ≡ spelling self }
    {
        match self {
            Keyword::Step => b"step",
            Keyword::Undo => b"undo",
            Keyword::Roll => b"roll",
            Keyword::RollValue => b"rollvalue",
            Keyword::Blame => b"blame",
            Keyword::Ready => b"ready",
            Keyword::Consequences => b"consequences",
            Keyword::Live => b"live",
            Keyword::Value => b"value",
            Keyword::Branch => b"branch",
            Keyword::Break => b"break",
            Keyword::Clear => b"clear",
            Keyword::Session => b"session",
            Keyword::View => b"view",
            Keyword::Trace => b"trace",
        }
    }
}

/// The first of the keywords that is spelled so.
fn first_spelled(keywords: &[Keyword], text: &[u8]) -> Option<Keyword>
    ensures { result ≡ spec.first_spelled keywords.now text.now }
{
    let mut rest = keywords;
    while let [keyword, others @ ..] = rest {
        if are_same(keyword.spelling(), text) {
            return Some(*keyword);
        }
        rest = others;
    }
    None
}

/// Whether these are the same bytes. Words are so short that a look at each byte takes least.
fn are_same(one: &[u8], other: &[u8]) -> bool
    ensures { result ≡ bytes_eq one.now other.now }
{
    let mut left = one;
    let mut against = other;
    while let [byte, left_behind @ ..] = left {
        let [expected, against_behind @ ..] = against else {
            return false;
        };
        if *byte != *expected {
            return false;
        }
        left = left_behind;
        against = against_behind;
    }
    against.is_empty()
}
