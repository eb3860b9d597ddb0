ghost use Rattle.std.specs.Prelude.{◌≡◌, ◌≤◌, ◌<◌, ◌+◌, ◌^◌, length, ◌++◌, ◌∷◌, [], ◌⊎◌, if◌then◌else◌, is_ok, IfOk, IfErr, OnOk};
ghost use Rattle.std.specs.Option.{option_to_list};
ghost use Rattle.lexer.specs.Tokens.{IsReadable, token_at, token_of};
ghost use Rattle.lexer.specs.internal.Fronts.{IsPieceFault};
ghost use Rattle.refusals.specs.declared.lexer.Fault.TheVariants.{Memory};

use crate::Fault;
use crate::class::Class;
use crate::excerpt::Excerpt;
use crate::number::value;
use crate::position::Position;
use crate::table::{reserved_word, symbol};
use std::alloc::AllocError;
use syntax::Span;

/// What a token is, without its text.
#[derive(Clone, Copy, Debug, PartialEq, Eq)]
pub enum Kind {
    Name,
    Number,
    /// `and`
    AndWord,
    /// `arbitrate`
    ArbitrateWord,
    /// `as`
    AsWord,
    /// `begin`
    BeginWord,
    /// `bits`
    BitsWord,
    /// `case`
    CaseWord,
    /// `channel`
    ChannelWord,
    /// `continue`
    ContinueWord,
    /// `else`
    ElseWord,
    /// `end`
    EndWord,
    /// `enumeration`
    EnumerationWord,
    /// `halt`
    HaltWord,
    /// `if`
    IfWord,
    /// `input`
    InputWord,
    /// `is`
    IsWord,
    /// `loop`
    LoopWord,
    /// `not`
    NotWord,
    /// `of`
    OfWord,
    /// `or`
    OrWord,
    /// `output`
    OutputWord,
    /// `procedure`
    ProcedureWord,
    /// `select`
    SelectWord,
    /// `shared`
    SharedWord,
    /// `sync`
    SyncWord,
    /// `then`
    ThenWord,
    /// `type`
    TypeWord,
    /// `variable`
    VariableWord,
    /// `while`
    WhileWord,
    /// `xor`
    XorWord,
    /// `:=`
    AssignSign,
    /// `<-`
    SendSign,
    /// `->`
    ReceiveSign,
    /// `||`
    DoubleBar,
    /// `|`
    Bar,
    /// `;`
    Semicolon,
    /// `:`
    Colon,
    /// `,`
    Comma,
    /// `(`
    LeftParenthesis,
    /// `)`
    RightParenthesis,
    /// `[`
    LeftBracket,
    /// `]`
    RightBracket,
    /// `+`
    PlusSign,
    /// `-`
    MinusSign,
    /// `=`
    EqualSign,
    /// `/=`
    NotEqualSign,
    /// `<`
    LessSign,
    /// `>`
    GreaterSign,
    /// `<=`
    LessOrEqualSign,
    /// `>=`
    GreaterOrEqualSign,
    /// What ends each list of tokens. Its text is empty.
    End,
}

/// A part of the source that is neither blank nor comment.
#[derive(Debug, Drop)]
pub struct Token<'a> {
    pub kind: Kind,
    /// Its bytes, as they stand in the source.
    pub text: Excerpt<'a>,
    /// The value of a `Kind::Number`, and 0 for every other kind.
    pub number: u64,
    pub span: Span,
}

impl<'a> Token<'a> {
    /// The token of this kind whose text begins at `position`.
    #[inline(always)]
    pub(crate) fn new(position: Position, kind: Kind, text: &'a [u8], number: u64) -> Token<'a>
        requires { position.offset + length text.now < 2 ^ 64 }
        ensures { result ≡ token_at position kind text.now number }
    {
        Token {
            kind,
            text: Excerpt::new(text),
            number,
            span: position.span(text.len()),
        }
    }
}

/// Adds the token, for which there is mostly room.
#[inline(always)]
pub(crate) fn add_token<'a>(tokens: &mut Vec<Token<'a>>, token: Token<'a>) -> Result<(), AllocError>
    ensures { tokens.new.items ≡ (if is_ok result then tokens.old.items ++ token.entry ∷ [] else tokens.old.items) }
{
    if tokens.len() >= tokens.capacity() {
        tokens.reserve(1)?;
    }
    tokens.push_reserved(token);
    Ok(())
}

/// The token of a piece that begins at `position`. None: it is blank or a comment.
#[inline(always)]
pub(crate) fn token_of<'a>(
    position: Position,
    class: Class,
    text: &'a [u8],
) -> Result<Option<Token<'a>>, Fault>
    requires { position.offset + length text.now < 2 ^ 64 }
    ensures ok { IfOk result (λ token. IsReadable class text.now × (token ≡ token_of position class text.now)) }
    ensures err { IfErr result (λ fault. IsPieceFault position.offset class text.now fault) }
{
    let (kind, number) = match class {
        Class::Blank | Class::LineComment | Class::NestedComment => return Ok(None),
        Class::OpenComment => return Err(Fault::OpenComment(position.offset)),
        Class::Word => (reserved_word(text).unwrap_or(Kind::Name), 0),
        Class::Number => {
            let number = value(text).ok_or(Fault::NumberTooLarge(position.offset))?;
            (Kind::Number, number)
        }
        Class::Symbol => match symbol(text) {
            Some(kind) => (kind, 0),
            None => return Ok(None),
        },
    };
    Ok(Some(Token::new(position, kind, text, number)))
}

/// Adds the token of a piece that begins at `position`, unless it is blank or a comment.
pub(crate) fn push_token<'a>(
    tokens: &mut Vec<Token<'a>>,
    position: Position,
    class: Class,
    text: &'a [u8],
) -> Result<(), Fault>
    requires { position.offset + length text.now < 2 ^ 64 }
    ensures readable { OnOk result (IsReadable class text.now) }
    ensures tokens { OnOk result (tokens.new.items
        ≡ tokens.old.items ++ option_to_list (token_of position class text.now)) }
    ensures err { IfErr result (λ fault. (fault ≡ Memory) ⊎ IsPieceFault position.offset class text.now fault) }
{
    if let Some(token) = token_of(position, class, text)? {
        add_token(tokens, token)?;
    }
    Ok(())
}

/// Refuses a piece that begins at `position` and is a fault in itself.
pub(crate) fn refuse_piece(position: Position, class: Class, text: &[u8]) -> Result<(), Fault>
    ensures ok { OnOk result (IsReadable class text.now) }
    ensures err { IfErr result (λ fault. IsPieceFault position.offset class text.now fault) }
{
    match class {
        Class::OpenComment => Err(Fault::OpenComment(position.offset)),
        Class::Number => match value(text) {
            Some(_) => Ok(()),
            None => Err(Fault::NumberTooLarge(position.offset)),
        },
        Class::Blank | Class::LineComment | Class::NestedComment | Class::Word | Class::Symbol =>
            Ok(()),
    }
}
