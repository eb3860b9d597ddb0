ghost use Rattle.std.specs.Prelude.{◌≡◌, [], ◌∷◌, ℕ, List, map, nat_eq, if◌then◌else◌, Some, None};
ghost use Rattle.std.specs.Cmp.Lexicographic.{pointwise};
ghost use Rattle.lexer.specs.Table as spec;

use crate::Kind;

/// The reserved words by their first letter.
const WORDS_OF_A: [(&[u8], Kind); 3] = [
    (b"and", Kind::AndWord),
    (b"arbitrate", Kind::ArbitrateWord),
    (b"as", Kind::AsWord),
];

const WORDS_OF_B: [(&[u8], Kind); 2] = [(b"begin", Kind::BeginWord), (b"bits", Kind::BitsWord)];

const WORDS_OF_C: [(&[u8], Kind); 3] = [
    (b"case", Kind::CaseWord),
    (b"channel", Kind::ChannelWord),
    (b"continue", Kind::ContinueWord),
];

const WORDS_OF_E: [(&[u8], Kind); 3] = [
    (b"else", Kind::ElseWord),
    (b"end", Kind::EndWord),
    (b"enumeration", Kind::EnumerationWord),
];

const WORDS_OF_H: [(&[u8], Kind); 1] = [(b"halt", Kind::HaltWord)];

const WORDS_OF_I: [(&[u8], Kind); 3] = [
    (b"if", Kind::IfWord),
    (b"input", Kind::InputWord),
    (b"is", Kind::IsWord),
];

const WORDS_OF_L: [(&[u8], Kind); 1] = [(b"loop", Kind::LoopWord)];

const WORDS_OF_N: [(&[u8], Kind); 1] = [(b"not", Kind::NotWord)];

const WORDS_OF_O: [(&[u8], Kind); 3] = [
    (b"of", Kind::OfWord),
    (b"or", Kind::OrWord),
    (b"output", Kind::OutputWord),
];

const WORDS_OF_P: [(&[u8], Kind); 1] = [(b"procedure", Kind::ProcedureWord)];

const WORDS_OF_S: [(&[u8], Kind); 3] = [
    (b"select", Kind::SelectWord),
    (b"shared", Kind::SharedWord),
    (b"sync", Kind::SyncWord),
];

const WORDS_OF_T: [(&[u8], Kind); 2] = [(b"then", Kind::ThenWord), (b"type", Kind::TypeWord)];

const WORDS_OF_V: [(&[u8], Kind); 1] = [(b"variable", Kind::VariableWord)];

const WORDS_OF_W: [(&[u8], Kind); 1] = [(b"while", Kind::WhileWord)];

const WORDS_OF_X: [(&[u8], Kind); 1] = [(b"xor", Kind::XorWord)];

/// Among which of the reserved words a text that begins with `first` is to be looked up.
fn words_of(first: u8) -> &'static [(&'static [u8], Kind)]
    ensures { (rest : List ℕ) →
        spec.lookup (map (λ entry. (entry.0.now, entry.1)) result.now) (first ∷ rest)
        ≡ spec.reserved_word (first ∷ rest) }
{
    match first {
        b'a' => &WORDS_OF_A,
        b'b' => &WORDS_OF_B,
        b'c' => &WORDS_OF_C,
        b'e' => &WORDS_OF_E,
        b'h' => &WORDS_OF_H,
        b'i' => &WORDS_OF_I,
        b'l' => &WORDS_OF_L,
        b'n' => &WORDS_OF_N,
        b'o' => &WORDS_OF_O,
        b'p' => &WORDS_OF_P,
        b's' => &WORDS_OF_S,
        b't' => &WORDS_OF_T,
        b'v' => &WORDS_OF_V,
        b'w' => &WORDS_OF_W,
        b'x' => &WORDS_OF_X,
        _ => &[],
    }
}

/// Whether the two are one text.
fn is_text(entry: &[u8], text: &[u8]) -> bool
    ensures { result ≡ pointwise nat_eq entry.now text.now }
{
    // Most are told apart by their lengths.
    if entry.len() != text.len() {
        return false;
    }
    for place in 0..entry.len() {
        if entry[place] != text[place] {
            return false;
        }
    }
    true
}

/// The kind that stands beside `text` in `table`, if it stands there.
pub fn lookup(table: &[(&[u8], Kind)], text: &[u8]) -> Option<Kind>
    ensures { result ≡ spec.lookup (map (λ entry. (entry.0.now, entry.1)) table.now) text.now }
{
    let mut rest = table;
    while let [entry, others @ ..] = rest {
        if is_text(entry.0, text) {
            return Some(entry.1);
        }
        rest = others;
    }
    None
}

/// The symbol of this byte alone.
#[inline(always)]
fn one_byte_symbol(only: u8) -> Option<Kind>
    ensures { result ≡ spec.symbol (only ∷ []) }
{
    match only {
        b':' => Some(Kind::Colon),
        b'<' => Some(Kind::LessSign),
        b'-' => Some(Kind::MinusSign),
        b'|' => Some(Kind::Bar),
        b';' => Some(Kind::Semicolon),
        b',' => Some(Kind::Comma),
        b'(' => Some(Kind::LeftParenthesis),
        b')' => Some(Kind::RightParenthesis),
        b'[' => Some(Kind::LeftBracket),
        b']' => Some(Kind::RightBracket),
        b'+' => Some(Kind::PlusSign),
        b'=' => Some(Kind::EqualSign),
        b'>' => Some(Kind::GreaterSign),
        _ => None,
    }
}

/// `kind`, where `second` is the byte that is wanted.
#[inline(always)]
fn where_it_follows(second: u8, wanted: u8, kind: Kind) -> Option<Kind>
    ensures { result ≡ (if nat_eq wanted second then Some kind else None) }
{
    if second == wanted { Some(kind) } else { None }
}

/// The symbol of these two bytes.
#[inline(always)]
fn two_byte_symbol(first: u8, second: u8) -> Option<Kind>
    ensures { result ≡ spec.symbol (first ∷ second ∷ []) }
{
    match first {
        b':' => where_it_follows(second, b'=', Kind::AssignSign),
        b'<' => where_it_follows(second, b'-', Kind::SendSign).or(where_it_follows(
            second,
            b'=',
            Kind::LessOrEqualSign,
        )),
        b'-' => where_it_follows(second, b'>', Kind::ReceiveSign),
        b'|' => where_it_follows(second, b'|', Kind::DoubleBar),
        b'/' => where_it_follows(second, b'=', Kind::NotEqualSign),
        b'>' => where_it_follows(second, b'=', Kind::GreaterOrEqualSign),
        _ => None,
    }
}

/// The symbol that `text` is.
#[inline(always)]
pub fn symbol(text: &[u8]) -> Option<Kind>
    ensures { result ≡ spec.symbol text.now }
{
    match text {
        [only] => one_byte_symbol(*only),
        [first, second] => two_byte_symbol(*first, *second),
        _ => None,
    }
}

/// The reserved word that `text` is.
pub fn reserved_word(text: &[u8]) -> Option<Kind>
    ensures { result ≡ spec.reserved_word text.now }
{
    match text {
        [first, _rest @ ..] => lookup(words_of(*first), text),
        [] => None,
    }
}
