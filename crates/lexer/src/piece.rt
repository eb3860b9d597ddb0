ghost use Rattle.std.specs.Prelude.{◌≡◌, ◌∷◌, [], ◌+◌, ◌≤◌, length, take, drop, MatchOption, IsSome, IsTrue, is_some, nat_le, ◌&&◌};
ghost use Rattle.std.specs.List.{prefix_len};
ghost use Rattle.std.specs.Option.{IfSome};
ghost use Rattle.lexer.specs.Comment.{IsOpenComment, is_nested_comment, is_opening};
ghost use Rattle.lexer.specs.Spelling.{NothingSpelled, begins, may_hold};
ghost use Rattle.lexer.specs.Table.{symbol};
ghost use Rattle.lexer.specs.declared.class.Class.TheVariants.{Blank, LineComment};
ghost use Rattle.lexer.specs.internal.Fronts.{IsFront, NoSymbolBeyond, class_at};

use crate::class::{Class, is_blank};
use crate::table::symbol;
use memchr::memchr;

/// A class, and how many bytes at the front of a text spell it.
#[derive(Clone, Copy)]
pub struct Piece {
    pub class: Class,
    pub length: usize,
}

/// How many bytes at the front a run of the class may hold.
#[inline(always)]
fn run_length(class: Class, rest: &[u8]) -> usize
    ensures value { result ≡ prefix_len (may_hold class) rest.now }
    ensures within { result ≤ length rest.now }
{
    let mut length = 0;
    while length < rest.len() && class.may_hold(rest[length]) {
        length += 1;
    }
    length
}

/// How many bytes at the front stand on the first line.
fn line_length(rest: &[u8]) -> usize
    ensures value { result ≡ prefix_len (may_hold LineComment) rest.now }
    ensures within { result ≤ length rest.now }
{
    match memchr(b'\n', rest) {
        Some(end) => end,
        None => rest.len(),
    }
}

/// The length of the nested comment that begins at the front. None: it is open at the end.
fn nested_length(rest: &[u8]) -> Option<usize>
    requires { IsTrue (is_opening rest.now) }
    ensures { MatchOption result (IsOpenComment rest.now)
        (λ n. (n ≤ length rest.now) × IsTrue (is_nested_comment (take n rest.now))) }
{
    let mut depth: usize = 1;
    let mut length = 3;
    while length < rest.len() {
        // Most bytes begin no mark.
        if rest[length] != b'(' && rest[length] != b'-' {
            length += 1;
            continue;
        }
        let inside = &rest[length..];
        if inside.starts_with(b"(--") {
            depth += 1;
            length += 3;
        } else if inside.starts_with(b"--)") {
            depth -= 1;
            length += 3;
            if depth == 0 {
                return Some(length);
            }
        } else {
            length += 1;
        }
    }
    None
}

/// The nested comment at the front, or the open one, which has no end but the text's.
fn comment(rest: &[u8]) -> Piece
    requires { IsTrue (is_opening rest.now) }
    ensures { IsFront result.class result.length rest.now }
{
    match nested_length(rest) {
        Some(length) => Piece {
            class: Class::NestedComment,
            length,
        },
        None => Piece {
            class: Class::OpenComment,
            length: rest.len(),
        },
    }
}

/// Whether the first `count` bytes are there and are a symbol.
#[inline(always)]
fn has_symbol(rest: &[u8], count: usize) -> bool
    ensures { result ≡ (nat_le count (length rest.now) && is_some (symbol (take count rest.now))) }
{
    count <= rest.len() && symbol(&rest[..count]).is_some()
}

/// The length of the longest symbol at the front.
#[inline(always)]
fn symbol_length(rest: &[u8]) -> Option<usize>
    ensures { MatchOption result (NoSymbolBeyond 0 rest.now)
        (λ n. (n ≤ length rest.now) × IsSome (symbol (take n rest.now)) × NoSymbolBeyond n rest.now) }
{
    if has_symbol(rest, 2) {
        Some(2)
    } else if has_symbol(rest, 1) {
        Some(1)
    } else {
        None
    }
}

/// The class of the piece at the front, where both kinds of nested comments count as one.
#[inline(always)]
fn class_at(rest: &[u8]) -> Class
    ensures { result ≡ class_at rest.now }
{
    let first = rest.first().copied().unwrap_or(0);
    if is_blank(first) {
        Class::Blank
    } else if first.is_ascii_alphabetic() {
        Class::Word
    } else if first.is_ascii_digit() {
        Class::Number
    } else if rest.starts_with(b"--") {
        Class::LineComment
    } else if rest.starts_with(b"(--") {
        Class::NestedComment
    } else {
        Class::Symbol
    }
}

/// The piece that is a run of the class, which the front has to begin.
#[inline(always)]
fn run(class: Class, rest: &[u8]) -> Piece
    requires { IsTrue (begins class rest.now) }
    ensures class { result.class ≡ class }
    ensures front { IsFront result.class result.length rest.now }
{
    Piece {
        class,
        length: run_length(class, rest),
    }
}

/// Whether one space is at the front, and then no further blank.
#[inline(always)]
pub fn has_one_space(rest: &[u8]) -> bool
    ensures { IsTrue result → IsFront Blank 1 rest.now × (take 1 rest.now ≡ 32 ∷ []) }
{
    match rest {
        [first, next, ..] => *first == b' ' && !is_blank(*next),
        _ => false,
    }
}

/// How many blanks are at the front. None: it has no blank.
#[inline(always)]
pub fn blanks_length(rest: &[u8]) -> Option<usize>
    ensures { IfSome result (λ n. IsFront Blank n rest.now) }
{
    let first = rest.first().copied().unwrap_or(0);
    if is_blank(first) {
        Some(run(Class::Blank, rest).length)
    } else {
        None
    }
}

/// The comment of a line, which begins at the front.
fn line_comment(rest: &[u8]) -> Piece
    requires { IsTrue (begins LineComment rest.now) }
    ensures { IsFront result.class result.length rest.now }
{
    Piece {
        class: Class::LineComment,
        length: line_length(rest),
    }
}

/// The longest piece at the front. None: nothing is spelled there.
#[inline(always)]
pub fn longest_piece(rest: &[u8]) -> Option<Piece>
    ensures { MatchOption result (NothingSpelled rest.now) (λ piece. IsFront piece.class piece.length rest.now) }
{
    // Each class by its name, so that the loop of each is made for it alone.
    match class_at(rest) {
        Class::Blank => Some(run(Class::Blank, rest)),
        Class::LineComment => Some(line_comment(rest)),
        Class::Word => Some(run(Class::Word, rest)),
        Class::Number => Some(run(Class::Number, rest)),
        Class::NestedComment | Class::OpenComment => Some(comment(rest)),
        Class::Symbol => {
            let length = symbol_length(rest)?;
            Some(Piece {
                class: Class::Symbol,
                length,
            })
        }
    }
}
