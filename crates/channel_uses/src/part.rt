// The numbers of the uses of channels within each part of the code.
ghost use Rattle.std.specs.Prelude.{◌≡◌, [], ◌∷◌, map, IfOk};
ghost use Rattle.process_tree.specs.Translation.{row_of};
ghost use Rattle.process_tree.specs.View.{code_view, sender_view};
ghost use Rattle.process_tree.specs.Remaining as model;
ghost use Rattle.channel_uses.specs.internal.Parts.{first as first_of, end as end_of, parts as parts_of, AddedUses, Numbered, NumberedRow};

use process_tree::{Code, Sender};
use std::alloc::{AllocError, Global};
use syntax::Items;

/// Which uses are those of a command: from the number of the first to that behind the last. A loop has the part of its
/// body.
#[cycle(part)]
#[derive(Drop)]
pub struct Part {
    pub first: usize,
    pub end: usize,
    /// those of its children or arms
    pub parts: Items<Part>,
}

/// The part of the command, whose uses are added.
#[cycle(part_of)]
pub(crate) fn part_of(alloc: Global, code: &Code, uses: &mut Vec<u32>) -> Result<Part, AllocError>
    ensures { IfOk result (λ part. Numbered (code_view code.now) uses.old.items uses.new.items part) }
{
    let first = uses.len();
    match code {
        Code::Continue | Code::Halt | Code::Once(_) | Code::Drain(_) => {
            Ok(leaf(alloc, first, first))
        }
        Code::Sender(sender) => add(alloc, channel_of(sender.get()), uses),
        Code::Repeat(repeat) => part_of(alloc, &repeat.get().body, uses),
        Code::Decide(decide) => part_of_row(alloc, first, decide.get().arms.as_slice(), uses),
        Code::Await(waiting) => part_of_row(alloc, first, waiting.get().arms.as_slice(), uses),
        Code::InTurn(row) => part_of_row(alloc, first, row.get().codes.as_slice(), uses),
        Code::SideBySide(row) => part_of_row(alloc, first, row.get().codes.as_slice(), uses),
    }
}

/// The part of commands in a row, whose uses are added; it begins where it is said.
#[cycle(part_of)]
fn part_of_row(
    alloc: Global,
    first: usize,
    codes: &[Code],
    uses: &mut Vec<u32>,
) -> Result<Part, AllocError>
    ensures { IfOk result (λ part.
        NumberedRow (row_of (map code_view codes.now)) first uses.old.items uses.new.items part) }
{
    let mut parts = Items::with_capacity(alloc, codes.len())?;
    for code in codes {
        parts.push(part_of(alloc, code, uses)?)?;
    }
    Ok(with_parts(first, uses.len(), parts))
}

/// A part with these children.
fn with_parts(first: usize, end: usize, parts: Items<Part>) -> Part
    ensures begins { first_of result ≡ first }
    ensures ends { end_of result ≡ end }
    ensures has { parts_of result ≡ parts }
{
    Part { first, end, parts }
}

/// A part without children.
fn leaf(alloc: Global, first: usize, end: usize) -> Part
    ensures begins { first_of result ≡ first }
    ensures ends { end_of result ≡ end }
{
    with_parts(first, end, Items::new(alloc))
}

/// The part of what sends or syncs on the channel, and that use.
fn add(alloc: Global, channel: u32, uses: &mut Vec<u32>) -> Result<Part, AllocError>
    ensures { IfOk result (λ part. AddedUses (channel ∷ []) uses.old.items uses.new.items part) }
{
    let first = uses.len();
    uses.push(channel)?;
    Ok(leaf(alloc, first, uses.len()))
}

/// The channel of what may be held.
pub(crate) fn channel_of(sender: &Sender) -> u32
    ensures { result ≡ model.channel_of (sender_view sender.now) }
{
    match sender {
        Sender::Send(channel, _, _) | Sender::Sync(channel) => *channel,
    }
}
