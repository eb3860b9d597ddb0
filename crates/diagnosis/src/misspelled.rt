// A misspelled word with which a command begins.
use crate::hints::{help_for_statement, is_behind_first_name};
use findings::{Nearest, text_of};
use lexer::{Kind, Token};
use std::alloc::{AllocError, Global};

/// The words with which commands begin.
static WORDS: [&str; 8] = [
    "continue",
    "halt",
    "sync",
    "loop",
    "if",
    "case",
    "select",
    "arbitrate",
];

/// Whether one of the tokens is this name.
fn is_known(source: &[u8], tokens: &[Token], name: &str) -> bool {
    tokens.iter().any(|token| token.kind == Kind::Name && *text_of(source, token.span) == *name)
}

/// The word that is meant by the last of the tokens: a name with which a command begins, that no token before it is, and
/// which is near to a word with which commands begin. `viable` are the kinds that can stand behind it.
pub fn word_meant(
    alloc: Global,
    source: &[u8],
    tokens: &[Token],
    viable: &[Kind],
) -> Result<Option<&'static str>, AllocError> {
    let Some((last, before)) = tokens.split_last() else {
        return Ok(None);
    };
    let name = text_of(source, last.span);
    if !is_behind_first_name(viable)
        || is_known(source, before, name)
        || help_for_statement(name).is_some()
    {
        return Ok(None);
    }
    let mut nearest = Nearest::none();
    for word in &WORDS {
        nearest.offer(alloc, name, word)?;
    }
    if before
        .last()
        .is_some_and(|token| token.kind == Kind::LoopWord)
    {
        nearest.offer(alloc, name, "while")?;
    }
    Ok(nearest.name)
}
