// The enumerations of a source.
ghost use Rattle.std.specs.Prelude.{◌≡◌, ◌++◌, List, IfOk, OnOk};
ghost use Rattle.lexer.specs.Tokens.{AreTokens};
ghost use Rattle.lexer.specs.declared.token.Token as lexer_token;
ghost use Rattle.described.specs.Enumerations as model;

use lexer::{Kind, Token, lex};
use std::alloc::{AllocError, Global};
use syntax::{Items, Name};

/// An enumeration.
#[derive(Drop)]
pub struct Enumeration {
    pub name: Name,
    /// the line of its name, from 1
    pub line: u64,
    /// its elements; the number of each is its place, from 0
    pub elements: Items<Name>,
}

/// The enumerations of the source, which was accepted: so it has tokens, unless there is no memory for them.
pub(crate) fn enumerations_in(
    alloc: Global,
    source: &[u8],
) -> Result<Items<Enumeration>, AllocError>
    ensures { IfOk result (λ found.
        (tokens : List lexer_token.Token) → AreTokens source.now tokens → found ≡ model.enumerations_of tokens) }
{
    match lex(alloc, source) {
        Ok(tokens) => enumerations_of(alloc, tokens.as_slice()),
        Err(_) => Err(AllocError),
    }
}

/// Those of the tokens.
fn enumerations_of(alloc: Global, tokens: &[Token]) -> Result<Items<Enumeration>, AllocError>
    ensures { IfOk result (λ found. found ≡ model.enumerations_of tokens.now) }
{
    let mut found = Items::new(alloc);
    for index in 0..tokens.len() {
        add_first(alloc, &tokens[index..], &mut found)?;
    }
    Ok(found)
}

/// Adds the enumeration whose name is the first token, if it is one's.
fn add_first(
    alloc: Global,
    tokens: &[Token],
    found: &mut Items<Enumeration>,
) -> Result<(), AllocError>
    ensures { OnOk result (found.new ≡ found.old ++ model.first_in tokens.now) }
{
    let [name, _, word, rest @ ..] = tokens else {
        return Ok(());
    };
    add_named(alloc, name, word, rest, found)
}

/// Adds the enumeration of this name, if this is the word of one, with the elements behind it.
#[tactic(auto, unfolding(crate::specs::Enumerations::same_kind))]
fn add_named(
    alloc: Global,
    name: &Token,
    word: &Token,
    rest: &[Token],
    found: &mut Items<Enumeration>,
) -> Result<(), AllocError>
    ensures { OnOk result (found.new ≡ found.old ++ model.named name.now word.now rest.now) }
{
    if word.kind == Kind::EnumerationWord {
        return found.push(made_of(alloc, name, rest)?);
    }
    Ok(())
}

/// The enumeration of this name, with the elements at the front of these tokens.
fn made_of(alloc: Global, name: &Token, rest: &[Token]) -> Result<Enumeration, AllocError>
    ensures { IfOk result (λ made. made ≡ model.enumeration name.now rest.now) }
{
    let elements = names_to_end(alloc, rest)?;
    Ok(Enumeration {
        name: Name::new(alloc, name.text.text())?,
        line: name.span.line,
        elements,
    })
}

/// The names up to the next `end`.
#[tactic(auto, unfolding(crate::specs::Enumerations::same_kind))]
fn names_to_end(alloc: Global, tokens: &[Token]) -> Result<Items<Name>, AllocError>
    ensures { IfOk result (λ names. names ≡ model.names_to_end tokens.now) }
{
    let mut names = Items::new(alloc);
    for token in tokens {
        if token.kind == Kind::EndWord {
            return Ok(names);
        }
        if token.kind == Kind::Name {
            names.push(Name::new(alloc, token.text.text())?)?;
        }
    }
    Ok(names)
}
