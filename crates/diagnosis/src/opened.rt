// What is open at a place of a source.
use lexer::{Kind, Token};
use std::alloc::{AllocError, Global};
use syntax::Span;

/// A construct that is open: the word or the sign that opens it.
#[derive(Clone, Copy)]
pub struct Opened {
    pub kind: Kind,
    pub span: Span,
}

/// What a token does to the constructs that are open.
#[derive(Clone, Copy)]
enum Effect {
    Opens,
    Closes,
    Nothing,
}

/// What a token does, with the token behind it.
fn effect_of(kind: Kind, behind: Kind) -> Effect {
    match kind {
        Kind::BeginWord
        | Kind::LoopWord
        | Kind::IfWord
        | Kind::CaseWord
        | Kind::SelectWord
        | Kind::ArbitrateWord
        | Kind::EnumerationWord
        | Kind::LeftBracket
        | Kind::LeftParenthesis => Effect::Opens,
        Kind::ReceiveSign if behind == Kind::ThenWord => Effect::Opens,
        Kind::EndWord | Kind::RightBracket | Kind::RightParenthesis => Effect::Closes,
        _ => Effect::Nothing,
    }
}

/// The innermost construct that is open behind the first `place` tokens, of which a description can go on.
pub fn innermost(
    alloc: Global,
    tokens: &[Token],
    place: usize,
) -> Result<Option<Opened>, AllocError> {
    let mut open: Vec<Opened> = Vec::new(alloc);
    for (index, token) in tokens.iter().enumerate().take(place) {
        let behind = kind_at(tokens, index.saturating_add(1));
        match effect_of(token.kind, behind) {
            Effect::Opens => {
                let span = token.span;
                open.push(Opened {
                    kind: token.kind,
                    span,
                })?;
            }
            Effect::Closes => {
                open.pop();
            }
            Effect::Nothing => {}
        }
    }
    Ok(open.pop())
}

/// The kind of the token at a place; that of the end behind the last one.
pub fn kind_at(tokens: &[Token], place: usize) -> Kind {
    tokens.get(place).map_or(Kind::End, |token| token.kind)
}
