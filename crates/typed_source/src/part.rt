//! One part of a source.

ghost use Rattle.std.specs.Prelude.{◌≡◌, Bool, true, false, List, IfSome, IfOk, IfErr, IsTrue};
ghost use Rattle.lexer.specs.declared.lexing.Lexing.{Lexing};
ghost use Rattle.lexer.specs.declared.token.Token.{Token};
ghost use Rattle.parser.specs.Accepted.{Parses};
ghost use Rattle.lexer.specs.internal.Parts.{BeginsProcedure};
ghost use Rattle.typed_source.specs.internal.InParts.{IsNext, ReadsOn, ReadsPart, RefusesPart, RefusesNext, is_end};

use crate::Fault;
use lexer::{Kind, Lexing, Stop, Token};
use parser::{parse, refusal_within};
use std::alloc::{AllocError, Global};
use syntax::Description;

/// How many tokens of a part are made before the parser is asked whether a description goes on with them.
const FIRST_TOKENS: usize = 65_536;

/// A part of a source in good form.
#[derive(Drop)]
pub(crate) struct Part {
    pub(crate) description: Description,
    /// Whether the source ends with it.
    pub(crate) is_last: bool,
}

/// Whether the tokens begin with the word `procedure`.
fn begins_procedure(tokens: &[Token<'_>]) -> bool
    ensures { IsTrue result → BeginsProcedure tokens.now }
{
    match tokens.first() {
        Some(token) => matches!(token.kind, Kind::ProcedureWord),
        None => false,
    }
}

/// Refuses these tokens, behind which `lexing` stands, where no description goes on with them. A fault of words in what
/// is left goes before.
fn refuse(
    alloc: Global,
    lexing: Lexing<'_>,
    is_last: bool,
    tokens: &[Token<'_>],
) -> Result<(), Fault>
    ensures { (old : Lexing) → ReadsPart is_last old tokens.now lexing.entry →
        IfErr result (λ fault. RefusesPart old tokens.now fault) }
{
    let Some(fault) = refusal_within(alloc, tokens) else {
        return Ok(());
    };
    if !is_last {
        lexing.finish()?;
    }
    Err(Fault::from(fault))
}

/// Adds what is missing of a part that was cut short, and tells whether it is the last. Tokens with which no
/// description goes on are refused before.
fn read_on<'a>(
    alloc: Global,
    lexing: &mut Lexing<'a>,
    tokens: &mut Vec<Token<'a>>,
) -> Result<bool, Fault>
    ensures read { (old : Lexing) → ReadsPart false old tokens.old.items lexing.old
        → IfOk result (λ is_last. ReadsOn is_last old tokens.old.items tokens.new.items lexing.new) }
    ensures fault { (old : Lexing) → ReadsPart false old tokens.old.items lexing.old →
        IfErr result (λ fault. RefusesPart old tokens.old.items fault) }
{
    refuse(alloc, *lexing, false, tokens.as_slice())?;
    // A fault of words behind is found before the tokens are made.
    lexing.finish()?;
    let stop = lexing.add_part(tokens, usize::MAX)?;
    Ok(matches!(stop, Stop::EndOfSource))
}

/// Adds what is missing of the part that begins with these tokens, if reading stopped before its end, and tells whether
/// it is the last.
fn read_whole<'a>(
    alloc: Global,
    lexing: &mut Lexing<'a>,
    tokens: &mut Vec<Token<'a>>,
    stop: Stop,
) -> Result<bool, Fault>
    ensures read { (old : Lexing) → ReadsPart (is_end stop) old tokens.old.items lexing.old
        → IfOk result (λ is_last. ReadsOn is_last old tokens.old.items tokens.new.items lexing.new) }
    ensures fault { (old : Lexing) → ReadsPart (is_end stop) old tokens.old.items lexing.old →
        IfErr result (λ fault. RefusesPart old tokens.old.items fault) }
{
    match stop {
        Stop::Full => read_on(alloc, lexing, tokens),
        Stop::Procedure => Ok(false),
        Stop::EndOfSource => Ok(true),
    }
}

/// Refuses these tokens, behind which `lexing` stands, where no description goes on with them and the token that
/// follows: that a procedure lacks its last `end` shows only at the next one.
fn refuse_with_next<'a>(
    alloc: Global,
    mut lexing: Lexing<'a>,
    tokens: &mut Vec<Token<'a>>,
) -> Result<(), Fault>
    ensures { (old : Lexing) → ReadsPart false old tokens.old.items lexing.entry →
        IfErr result (λ fault. RefusesPart old tokens.old.items fault) }
{
    let mut next = Vec::new(alloc);
    let stop = lexing.add_part(&mut next, 1)?;
    tokens.append(&mut next)?;
    refuse(
        alloc,
        lexing,
        matches!(stop, Stop::EndOfSource),
        tokens.as_slice(),
    )
}

/// The most tokens whose room is kept for the next part.
const KEPT_TOKENS: usize = 2_048;

/// The most bytes of a source for which room is tried: a longer one has many procedures, or too many nodes.
const MOST_BYTES: usize = 4 * FIRST_TOKENS;

/// Asks for the room of the first tokens of a source of so many bytes, and gives it back. An allocator may take large
/// blocks from the system alone, and from its heap once one of that size came back, as that of glibc does. Then the
/// trees can have the room that tokens leave.
pub(crate) fn try_room(alloc: Global, bytes: usize) {
    if bytes <= MOST_BYTES {
        let most = bytes.min(FIRST_TOKENS);
        let _room: Result<Vec<Token<'_>>, AllocError> = Vec::with_capacity(alloc, most);
    }
}

/// Gives back the room of many tokens: what is made of their tree next takes as much.
fn give_back(alloc: Global, tokens: &mut Vec<Token<'_>>) {
    if tokens.capacity() > KEPT_TOKENS {
        *tokens = Vec::new(alloc);
    }
}

/// The part that these tokens are, behind which `lexing` stands. None: they and the token that follows do not tell.
fn tree_of<'a>(
    alloc: Global,
    lexing: Lexing<'a>,
    is_last: bool,
    tokens: &mut Vec<Token<'a>>,
) -> Result<Option<Part>, Fault>
    ensures read { IfOk result (λ read.
        IfSome read (λ part. (part.is_last ≡ is_last) × Parses tokens.old.items part.description)) }
    ensures fault { (old : Lexing) → ReadsPart is_last old tokens.old.items lexing.entry →
        IfErr result (λ fault. RefusesPart old tokens.old.items fault) }
{
    match parse(alloc, tokens.as_slice()) {
        Ok(description) => {
            give_back(alloc, tokens);
            Ok(Some(Part {
                description,
                is_last,
            }))
        }
        Err(parser::Fault::Memory) => Err(Fault::Memory),
        Err(fault) if is_last => Err(Fault::from(fault)),
        Err(_) => {
            refuse_with_next(alloc, lexing, tokens)?;
            Ok(None)
        }
    }
}

/// The next part of the source, up to where a further procedure begins, or to the end. But for the first it begins with
/// a procedure itself. Its tokens are made in `tokens`, whose room serves part after part.
///
/// None: this part and the token behind it do not tell.
pub(crate) fn next_part<'a>(
    alloc: Global,
    lexing: &mut Lexing<'a>,
    tokens: &mut Vec<Token<'a>>,
    is_first: bool,
) -> Result<Option<Part>, Fault>
    ensures read { IfOk result (λ read. IfSome read (λ part. IsNext is_first lexing.old part lexing.new)) }
    ensures fault { IfErr result (λ fault. RefusesNext is_first lexing.old fault) }
{
    tokens.clear();
    let stop = lexing.add_part(tokens, FIRST_TOKENS)?;
    if !is_first && !begins_procedure(tokens.as_slice()) {
        return Ok(None);
    }
    let is_last = read_whole(alloc, lexing, tokens, stop)?;
    tree_of(alloc, *lexing, is_last, tokens)
}
