// Refusals 15 and 16: what branches share.
ghost use Rattle.std.specs.Prelude.{◌≡◌, OnOk};
ghost use Rattle.diagnosis.specs.Clashes.{AddsClash};

use crate::clash::clashing_use;
use branch_uses::{ChannelUses, Side, channel_uses};
use clash_places::OtherUse;
use findings::{Finding, text_between};
use lexer::Token;
use std::alloc::AllocError;
use syntax::{Description, Span};
use written_names::{Declared, Kind, find as declaration_of, procedure_at, types, visible};

/// What was found about a fault of the rule on sharing at the finding's place, in the description that the tokens are.
pub fn find(
    source: &[u8],
    tokens: &[Token],
    description: &Description,
    number: u32,
    finding: &mut Finding,
) -> Result<(), AllocError>
    ensures { number ≡ 15 → OnOk result (AddsClash source.now finding.old finding.new) }
{
    finding.stop = token_at(tokens, finding.start).stop;
    if number == 15 {
        return find_variable(source, tokens, finding);
    }
    find_channel(source, description, finding)
}

/// The span of the token that begins at the offset, or an empty one there.
fn token_at(tokens: &[Token], offset: u64) -> Span
    ensures { result.start ≡ offset }
{
    for token in tokens {
        if token.span.start == offset {
            return token.span;
        }
    }
    Span {
        start: offset,
        stop: offset,
        line: 0,
    }
}

/// A variable that is written in one branch and used in another.
fn find_variable(source: &[u8], tokens: &[Token], finding: &mut Finding) -> Result<(), AllocError>
    ensures { OnOk result (AddsClash source.now finding.old finding.new) }
{
    let name = text_between(source, finding.start, finding.stop);
    finding.say(&[
        "two branches that run side by side use `",
        name,
        "`, and one of them writes it",
    ])?;
    mark_clash(source, tokens, finding)?;
    finding.advise(&[
        "give each branch a variable of its own, send the value over a channel, or declare `shared variable ",
        name,
        "` if the branches may race",
    ])
}

/// Marks the use that clashes with the one at the finding's place.
fn mark_clash(source: &[u8], tokens: &[Token], finding: &mut Finding) -> Result<(), AllocError>
    ensures { OnOk result (AddsClash source.now finding.old finding.new) }
{
    match clashing_use(finding.alloc, source, finding.start)? {
        Some(other) => finding.add_beside(token_at(tokens, other.offset), clash_text(other)),
        None => Ok(()),
    }
}

/// How a use of a variable is told that clashes with another one.
fn clash_text(other: OtherUse) -> &'static str {
    if other.writes {
        "and written here"
    } else {
        "and read here"
    }
}

/// How a use of a side is told.
fn side_text(side: Side) -> &'static str {
    match side {
        Side::Sending => "sends",
        Side::Receiving => "receives",
        Side::Syncing => "syncs",
    }
}

/// How many uses there are of a side.
fn count_of(uses: &ChannelUses, side: Side) -> usize {
    uses.uses.iter().filter(|one| one.side == side).count()
}

/// The side that has too many uses: more than one that sends or receives, more than two that sync, the environment of a
/// root's port counted in.
fn crowded(uses: &ChannelUses, port: Option<Kind>) -> Side {
    let outside_sends = usize::from(port == Some(Kind::Input));
    if count_of(uses, Side::Sending).saturating_add(outside_sends) > 1 {
        return Side::Sending;
    }
    let outside_receives = usize::from(port == Some(Kind::Output));
    if count_of(uses, Side::Receiving).saturating_add(outside_receives) > 1 {
        return Side::Receiving;
    }
    Side::Syncing
}

/// What too many uses of a side are.
fn crowd_text(side: Side) -> &'static str {
    match side {
        Side::Sending => "two senders",
        Side::Receiving => "two receivers",
        Side::Syncing => "three syncs",
    }
}

/// A channel that is used by too many branches at one time.
fn find_channel(
    source: &[u8],
    description: &Description,
    finding: &mut Finding,
) -> Result<(), AllocError> {
    let alloc = finding.alloc;
    let name = text_between(source, finding.start, finding.stop);
    let owner = procedure_at(description, finding.start);
    let types = types(alloc, description)?;
    let visible = visible(alloc, source, types.as_slice(), description, owner)?;
    let kind = declaration_of(source, visible.as_slice(), name.as_bytes()).map(|one| one.kind);
    let is_sync = matches!(kind, Some(Kind::Sync | Kind::SyncPort));
    let uses = channel_uses(alloc, description, owner, name.as_bytes(), is_sync)?;
    let side = crowded(&uses, kind);
    finding.say(&["`", name, "` has "])?;
    finding.say(&[crowd_text(side), " at one time"])?;
    if is_outside(kind, side) {
        finding.say(&[", of which one is the environment of the port"])?;
    }
    add_users(&uses, side, finding)?;
    finding.advise(&[crowd_help(side, kind)])
}

/// Whether the environment of a port uses this side of it.
fn is_outside(kind: Option<Kind>, side: Side) -> bool {
    matches!(
        (kind, side),
        (Some(Kind::Input), Side::Sending)
            | (Some(Kind::Output), Side::Receiving)
            | (Some(Kind::SyncPort), Side::Syncing)
    )
}

/// How a call is told in which a side is used.
fn call_text(side: Side) -> &'static str {
    match side {
        Side::Sending => "this call sends",
        Side::Receiving => "this call receives",
        Side::Syncing => "this call syncs",
    }
}

/// So many calls by which a use comes are marked.
const CALLS: usize = 4;

/// Marks each use of a side, and the calls by which it comes.
fn add_users(uses: &ChannelUses, side: Side, finding: &mut Finding) -> Result<(), AllocError> {
    for one in &uses.uses {
        if one.side == side {
            add_calls(one.calls.as_slice(), side, finding)?;
            finding.add_once(one.span, side_text(side))?;
        }
    }
    Ok(())
}

/// Marks calls by which a use of a side comes.
fn add_calls(calls: &[Span], side: Side, finding: &mut Finding) -> Result<(), AllocError> {
    for call in calls.iter().take(CALLS) {
        finding.add_once(*call, call_text(side))?;
    }
    Ok(())
}

/// What helps against too many uses.
fn crowd_help(side: Side, kind: Option<Kind>) -> &'static str {
    if is_outside(kind, side) {
        return "the environment is the other end of a port: take a local for what stays inside";
    }
    match side {
        Side::Sending =>
            "give each sender a channel of its own, and join them by `arbitrate`; or let one send behind the other, with `;`",
        Side::Receiving =>
            "a value goes to one receiver: receive it once, and send it on to each on a channel of its own",
        Side::Syncing => "a sync is a handshake of two: take one sync for each pair",
    }
}
