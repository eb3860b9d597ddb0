// Whether a line has its form, where nothing of it is kept.
ghost use Rattle.std.specs.Prelude.{◌≡◌, false, ◌∷◌, IsTrue};
ghost use Rattle.elaborate.specs.internal.LineParts.{IsEntry, IsNoEntry, IsGiven, IsNoGiven, IsNumbers, IsNoNumbers};

use crate::entry::{behind, length_before, read_next, read_syncs};

/// Whether the line gives a port something.
pub fn is_entry(line: &[u8]) -> bool
    ensures some { IsTrue result → IsEntry line.now }
    ensures none { result ≡ false → IsNoEntry line.now }
{
    let (name, rest) = line.split_at(length_before(b' ', line));
    if lexer::is_name(name) {
        is_given(rest)
    } else {
        false
    }
}

/// Whether the text is what is given, as it stands behind a name.
fn is_given(text: &[u8]) -> bool
    ensures some { IsTrue result → IsGiven text.now }
    ensures none { result ≡ false → IsNoGiven text.now }
{
    if let Some(rest) = behind(text, b" =") {
        return is_feed(rest);
    }
    match behind(text, b" * ") {
        Some(rest) => is_syncs(rest),
        None => false,
    }
}

/// Whether ` =` and this text are what is given.
fn is_feed(text: &[u8]) -> bool
    ensures some { IsTrue result → IsGiven (32 ∷ 61 ∷ text.now) }
    ensures none { result ≡ false → IsNoGiven (32 ∷ 61 ∷ text.now) }
{
    are_values(text)
}

/// Whether ` * ` and this text are what is given.
fn is_syncs(digits: &[u8]) -> bool
    ensures some { IsTrue result → IsGiven (32 ∷ 42 ∷ 32 ∷ digits.now) }
    ensures none { result ≡ false → IsNoGiven (32 ∷ 42 ∷ 32 ∷ digits.now) }
{
    read_syncs(digits).is_some()
}

/// Whether the text is numbers, each behind a space.
fn are_values(text: &[u8]) -> bool
    ensures some { IsTrue result → IsNumbers text.now }
    ensures none { result ≡ false → IsNoNumbers text.now }
{
    let mut rest = text;
    while !rest.is_empty() {
        let Some((_, after)) = read_next(rest) else {
            return false;
        };
        rest = after;
    }
    true
}
