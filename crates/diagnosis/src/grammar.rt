// Refusals 5 and 6: what cannot stand, and what could; levels.
use crate::hints::{Seen, has, help_for, help_for_begin, missing};
use crate::misspelled::word_meant;
use crate::opened::{Opened, innermost, kind_at};
use findings::{Finding, Nearest, text_between, text_of};
use lexer::{Fault, Kind, Token, lex};
use std::alloc::AllocError;
use syntax::Span;
use viable_tokens::{spelled, viable_kinds};

/// What was found about a fault of the parser at the finding's place.
pub fn find(source: &[u8], number: u32, finding: &mut Finding) -> Result<(), AllocError> {
    let mut tokens = match lex(finding.alloc, source) {
        Ok(tokens) => tokens,
        Err(Fault::Memory) => return Err(AllocError),
        Err(_) => return finding.say(&["no description goes on with this word"]),
    };
    let place = place_at(tokens.as_slice(), finding.start);
    let mut found = Kind::End;
    if let Some(token) = tokens.as_slice().get(place) {
        finding.stop = token.span.stop;
        found = token.kind;
    }
    if number == 6 {
        finding.say(&["this would open level 65, and there are 64 at most"])?;
        return finding.advise(&[
            "keep a part in a variable, or put a part of the text into a procedure of its own",
        ]);
    }
    find_unexpected(source, &mut tokens, place, found, finding)
}

/// What was found about a token of a kind that cannot stand at a place.
fn find_unexpected(
    source: &[u8],
    tokens: &mut Vec<Token<'_>>,
    place: usize,
    found: Kind,
    finding: &mut Finding,
) -> Result<(), AllocError> {
    let open = innermost(finding.alloc, tokens.as_slice(), place)?;
    let seen = seen_at(source, tokens.as_slice(), place, found, open);
    let before = place
        .checked_sub(1)
        .and_then(|last| tokens.as_slice().get(last))
        .map(|token| token.span);
    let viable = viable_kinds(finding.alloc, tokens, place)?;
    say_expected(source, found, viable.as_slice(), finding)?;
    if found == Kind::End
        && let Some(span) = before
    {
        finding.add_beside(span, "the last word")?;
    }
    add_open(seen, open, viable.as_slice(), finding)?;
    if advise_misspelled(source, tokens.as_slice(), viable.as_slice(), finding)? {
        return Ok(());
    }
    advise(source, seen, before, viable.as_slice(), finding)
}

/// What helps where the last of the tokens before the fault is a misspelled word. Whether it is one.
fn advise_misspelled(
    source: &[u8],
    tokens: &[Token],
    viable: &[Kind],
    finding: &mut Finding,
) -> Result<bool, AllocError> {
    let Some(last) = tokens.last() else {
        return Ok(false);
    };
    let Some(word) = word_meant(finding.alloc, source, tokens, viable)? else {
        return Ok(false);
    };
    finding.add_once(last.span, "misspelled?")?;
    finding.advise(&["did you mean `", word, "`?"])?;
    Ok(true)
}

/// What stands at a place and around it.
fn seen_at<'a>(
    source: &'a [u8],
    tokens: &[Token],
    place: usize,
    found: Kind,
    open: Option<Opened>,
) -> Seen<'a> {
    let before = place.checked_sub(1).and_then(|last| tokens.get(last));
    Seen {
        found,
        text: tokens
            .get(place)
            .map_or("", |token| text_of(source, token.span)),
        before: before.map(|token| token.kind),
        text_before: before.map_or("", |token| text_of(source, token.span)),
        next: kind_at(tokens, place.saturating_add(1)),
        touches: touches_number(tokens, place),
        is_first: place == 0,
        open: open.map(|one| one.kind),
    }
}

/// Marks the innermost construct that is open where an end of it is missing.
fn add_open(
    seen: Seen<'_>,
    open: Option<Opened>,
    viable: &[Kind],
    finding: &mut Finding,
) -> Result<(), AllocError> {
    let Some(open) = open else {
        return Ok(());
    };
    match open.kind {
        Kind::LeftBracket | Kind::LeftParenthesis => {
            if seen.found != Kind::End && is_left_open(seen, viable) {
                finding.add_once(open.span, "open since here")?;
            }
        }
        _ => {
            if matches!(seen.found, Kind::End | Kind::ProcedureWord) && has(viable, Kind::EndWord) {
                finding.add_once(open.span, "this has no `end`")?;
            }
        }
    }
    Ok(())
}

/// Whether what is missing is the end of a bracket or a parenthesis.
fn is_left_open(seen: Seen<'_>, viable: &[Kind]) -> bool {
    matches!(
        help_for(seen, viable),
        Some("a `]` is missing before this" | "a `)` is missing before this")
    )
}

/// Which of the tokens begins at the offset or behind it.
fn place_at(tokens: &[Token], offset: u64) -> usize {
    let mut place = 0_usize;
    for token in tokens {
        if token.span.start >= offset {
            return place;
        }
        place = place.saturating_add(1);
    }
    place
}

/// Whether the name at a place touches a number before it.
fn touches_number(tokens: &[Token], place: usize) -> bool {
    let Some(before) = place.checked_sub(1) else {
        return false;
    };
    match (tokens.get(before), tokens.get(place)) {
        (Some(one), Some(other)) => {
            one.kind == Kind::Number
                && other.kind == Kind::Name
                && one.span.stop == other.span.start
        }
        _ => false,
    }
}

/// Whether all of some kinds are among others.
fn has_all(viable: &[Kind], kinds: &[Kind]) -> bool {
    kinds.iter().all(|kind| has(viable, *kind))
}

static COMMAND: [Kind; 10] = [
    Kind::Name,
    Kind::ContinueWord,
    Kind::HaltWord,
    Kind::LeftBracket,
    Kind::SyncWord,
    Kind::LoopWord,
    Kind::IfWord,
    Kind::CaseWord,
    Kind::SelectWord,
    Kind::ArbitrateWord,
];

static EXPRESSION: [Kind; 4] = [
    Kind::Name,
    Kind::Number,
    Kind::LeftParenthesis,
    Kind::NotWord,
];

static OPERATOR: [Kind; 11] = [
    Kind::AndWord,
    Kind::OrWord,
    Kind::XorWord,
    Kind::PlusSign,
    Kind::MinusSign,
    Kind::EqualSign,
    Kind::NotEqualSign,
    Kind::LessSign,
    Kind::GreaterSign,
    Kind::LessOrEqualSign,
    Kind::GreaterOrEqualSign,
];

/// Whether a kind belongs to a group all of which can stand.
fn is_grouped(viable: &[Kind], kind: Kind) -> bool {
    (has_all(viable, &COMMAND) && has(&COMMAND, kind))
        || (has_all(viable, &EXPRESSION) && has(&EXPRESSION, kind))
        || (has(viable, Kind::PlusSign) && has(&OPERATOR, kind))
}

/// What could stand, in words: single words and signs, and behind them groups of them.
fn expected(viable: &[Kind], finding: &Finding) -> Result<Vec<&'static str>, AllocError> {
    let mut all = Vec::new(finding.alloc);
    for kind in viable {
        if !is_grouped(viable, *kind) {
            all.push(spelled(*kind))?;
        }
    }
    if has_all(viable, &COMMAND) {
        all.push("a command")?;
    }
    if has_all(viable, &EXPRESSION) {
        all.push("an expression")?;
    }
    if has(viable, Kind::PlusSign) {
        all.push("an operator")?;
    }
    Ok(all)
}

/// Adds words with commas between them and `or` before the last.
fn say_choice(words: &[&str], finding: &mut Finding) -> Result<(), AllocError> {
    let mut left = words.len();
    let count = words.len();
    for word in words {
        if left < count {
            finding.say(&[if left == 1 { " or " } else { ", " }])?;
        }
        finding.say(&[word])?;
        left = left.saturating_sub(1);
    }
    Ok(())
}

/// Says what stands there, and what could.
fn say_expected(
    source: &[u8],
    found: Kind,
    viable: &[Kind],
    finding: &mut Finding,
) -> Result<(), AllocError> {
    if found == Kind::End {
        finding.say(&["the source ends here: expected "])?;
    } else {
        let text = text_between(source, finding.start, finding.stop);
        finding.say(&["`", text, "` cannot stand here: expected "])?;
    }
    let words = expected(viable, finding)?;
    say_choice(words.as_slice(), finding)
}

/// Says what helps. `before` is where the token before the fault stands.
fn advise(
    source: &[u8],
    seen: Seen<'_>,
    before: Option<Span>,
    viable: &[Kind],
    finding: &mut Finding,
) -> Result<(), AllocError> {
    if seen.touches {
        return finding.advise(&[
            "numbers are decimal: `0xFF` is written 255, and `0b101` is written 5",
        ]);
    }
    if seen.found == Kind::End && source.contains(&b'\r') && !source.contains(&b'\n') {
        return finding.advise(&[
            "the lines end with byte 13 alone, so that a comment goes on to the end: save with Unix line ends",
        ]);
    }
    if seen.is_first {
        return advise_first(source, seen, viable, finding);
    }
    if seen.found == Kind::Name && has(viable, Kind::InputWord) {
        advise_word(source, viable, finding)?;
        if !finding.help.is_empty() {
            return Ok(());
        }
    }
    if let Some(help) = help_for(seen, viable) {
        return finding.advise(&[help]);
    }
    if let Some((note, help)) = missing(seen, viable)
        && let Some(span) = before
    {
        finding.add_beside(behind(span), note)?;
        return finding.advise(&[help]);
    }
    if seen.found == Kind::Name {
        return advise_name(source, viable, finding);
    }
    if is_name_wanted(seen, viable) {
        return finding.advise(&["this word is reserved and names nothing: take another name"]);
    }
    Ok(())
}

/// Says what helps where a description does not begin as one.
fn advise_first(
    source: &[u8],
    seen: Seen<'_>,
    viable: &[Kind],
    finding: &mut Finding,
) -> Result<(), AllocError> {
    if seen.found == Kind::Name {
        advise_word(source, viable, finding)?;
    }
    if finding.help.is_empty() {
        if let Some(help) = help_for_begin(seen.text) {
            return finding.advise(&[help]);
        }
        finding.advise(&[
            "a description begins with `type` or `procedure`: are FILE and STIMULUS exchanged, or is FILE empty?",
        ])?;
    }
    Ok(())
}

/// The place right behind a token.
fn behind(span: Span) -> Span {
    Span {
        start: span.stop,
        stop: span.stop,
        line: span.line,
    }
}

/// Whether a reserved word stands where a name has to.
fn is_name_wanted(seen: Seen<'_>, viable: &[Kind]) -> bool {
    is_word(seen.found)
        && has(viable, Kind::Name)
        && !has(viable, Kind::HaltWord)
        && !has(viable, Kind::NotWord)
}

/// Whether it is a reserved word.
fn is_word(kind: Kind) -> bool {
    spelled(kind)
        .as_bytes()
        .get(1)
        .is_some_and(|byte| byte.is_ascii_alphabetic())
        && !matches!(kind, Kind::Name | Kind::Number | Kind::End)
}

/// The word without its backquotes.
fn bare(kind: Kind) -> &'static str {
    let text = spelled(kind);
    text.get(1..text.len().saturating_sub(1)).unwrap_or("")
}

/// What helps against a name where none can stand: a word that is near, or how a type is written.
fn advise_name(source: &[u8], viable: &[Kind], finding: &mut Finding) -> Result<(), AllocError> {
    advise_word(source, viable, finding)?;
    if finding.help.is_empty() && has(viable, Kind::EnumerationWord) {
        return finding.advise(&["a type is a width, as `8 bits`, or `enumeration red, green end`"]);
    }
    Ok(())
}

/// What helps against a name where none can stand: a word that is near to it and could.
fn advise_word(source: &[u8], viable: &[Kind], finding: &mut Finding) -> Result<(), AllocError> {
    let alloc = finding.alloc;
    let text = text_between(source, finding.start, finding.stop);
    let mut nearest = Nearest::none();
    for kind in viable {
        if is_word(*kind) {
            nearest.offer(alloc, text, bare(*kind))?;
        }
    }
    match nearest.name {
        Some(word) if nearest.distance == 0 => {
            finding.advise(&["words are written in small letters: `", word, "`"])
        }
        Some(word) => finding.advise(&["did you mean `", word, "`?"]),
        None => Ok(()),
    }
}
