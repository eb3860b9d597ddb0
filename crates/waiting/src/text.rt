// Who waits as text, in lines.
ghost use Rattle.std.specs.Prelude.{◌≡◌, ◌++◌, OnOk, codes, length, slice_get};
ghost use Rattle.std.specs.List.{flat_map};
ghost use Rattle.std.specs.Option.{option_copied};
ghost use Rattle.line_text.specs.AnswerText.{ending};
ghost use Rattle.outline.specs.EndTable.{HasEnds};
ghost use Rattle.waiting.specs.Input.{line_at};
ghost use Rattle.waiting.specs.WaitingText as model;

use crate::input::fed_channel;
use crate::other_lines::other_lines;
use crate::progress::Progress;
use crate::waiting::Waiting;
use address::Address;
use line_text::{add_entry, add_numbered};
use local_actions::{ActionKind, LocalAction};
use machine::Machine;
use outline::EndTable;
use rings::Partner;
use runs::Event;
use sharing_check::Checked;
use std::alloc::AllocError;
use system::System;
use text_parts::{Piece, add_pieces, add_words};

impl Waiting {
    /// Adds the text: how the run stands, and where it is stuck whether it lacks input, each step that can be taken,
    /// each action that waits, with the lines of the ends that it waits for, and a ring of them if there is one, each
    /// with its branch. The machine is the one that was asked. It walks once through the source. Without memory a part
    /// of it may be there.
    pub fn write_to(&self, machine: &Machine, out: &mut Vec<u8>) -> Result<(), AllocError>
        ensures { OnOk result (out.new.items ≡ out.old.items ++ model.waiting_text machine.now self.now) }
    {
        let actions = self.actions.as_slice();
        write_progress(self.progress, self.lacks_input(machine), out)?;
        write_ready(machine.checked(), self.ready.as_slice(), out)?;
        add_numbered(out, b"waiting", actions.len() as u64)?;
        let table = EndTable::of(*out.allocator(), machine.checked())?;
        write_actions(machine, &table, actions, self.partners.as_slice(), out)?;
        write_ring(machine.checked(), actions, self.ring.as_slice(), out)
    }
}

/// Adds how the run stands; of one that is stuck, whether it lacks input.
fn write_progress(
    progress: Progress,
    lacks_input: bool,
    out: &mut Vec<u8>,
) -> Result<(), AllocError>
    ensures { OnOk result (out.new.items ≡ out.old.items ++ model.progress_line progress lacks_input) }
{
    match progress {
        Progress::GoesOn => add_words(out, b"goes on\n"),
        Progress::Done => add_words(out, b"done\n"),
        Progress::Stuck => write_stuck(lacks_input, out),
    }
}

/// Adds that nothing can go on, and whether input would help.
fn write_stuck(lacks_input: bool, out: &mut Vec<u8>) -> Result<(), AllocError>
    ensures { OnOk result (out.new.items ≡ out.old.items ++ model.stuck_line lacks_input) }
{
    if lacks_input {
        add_words(out, b"out of input\n")
    } else {
        add_words(out, b"stuck\n")
    }
}

/// Adds the steps that can be taken, if there are any.
fn write_ready(checked: &Checked, ready: &[Event], out: &mut Vec<u8>) -> Result<(), AllocError>
    ensures { OnOk result (out.new.items ≡ out.old.items ++ model.ready_lines checked.now ready.now) }
{
    if ready.is_empty() {
        return Ok(());
    }
    add_numbered(out, b"ready", ready.len() as u64)?;
    write_events(checked, ready, out)
}

/// Adds a line for each of the steps.
fn write_events(checked: &Checked, events: &[Event], out: &mut Vec<u8>) -> Result<(), AllocError>
    ensures { OnOk result (out.new.items ≡ out.old.items ++ flat_map (model.ready_line checked.now) events.now) }
{
    for event in events {
        write_event(checked, event, out)?;
    }
    Ok(())
}

/// Adds a step, behind the number of its branch.
fn write_event(checked: &Checked, event: &Event, out: &mut Vec<u8>) -> Result<(), AllocError>
    ensures { OnOk result (out.new.items ≡ out.old.items ++ model.ready_line checked.now event.now) }
{
    let branch = branch_or_first(checked.branch(event.acting_place()));
    add_entry(out, b"  branch", checked.system(), u64::from(branch), event)
}

/// The number of the branch. Each event of a run lies in one.
fn branch_or_first(branch: Option<u32>) -> u32
    ensures { result ≡ model.branch_or_first branch }
{
    match branch {
        Some(number) => number,
        None => 0,
    }
}

/// Adds a line for each action that waits.
fn write_actions(
    machine: &Machine,
    table: &EndTable,
    actions: &[LocalAction],
    partners: &[Partner],
    out: &mut Vec<u8>,
) -> Result<(), AllocError>
    requires { HasEnds machine.now.checked table.now }
    ensures { OnOk result (out.new.items ≡ out.old.items ++ model.action_lines machine.now partners.now 0 actions.now) }
{
    for (index, action) in actions.iter().enumerate() {
        write_action_at(machine, table, action, partners, index, out)?;
    }
    Ok(())
}

/// Adds an action that waits, whose partner has this index.
fn write_action_at(
    machine: &Machine,
    table: &EndTable,
    offered: &LocalAction,
    partners: &[Partner],
    index: usize,
    out: &mut Vec<u8>,
) -> Result<(), AllocError>
    requires { HasEnds machine.now.checked table.now }
    ensures { OnOk result (out.new.items ≡ out.old.items ++ model.action_line machine.now.checked
        (line_at machine.now offered.now.place) offered.now (slice_get partners.now index)) }
{
    write_action(machine, table, offered, partner_at(partners, index), out)
}

/// The partner of this index, if there is one.
pub(crate) fn partner_at<'a>(partners: &'a [Partner], index: usize) -> Option<&'a Partner>
    ensures { option_copied result ≡ slice_get partners.now index }
{
    match partners.get(index) {
        Some(partner) => Some(partner),
        None => None,
    }
}

/// Adds an action that waits.
fn write_action(
    machine: &Machine,
    table: &EndTable,
    offered: &LocalAction,
    partner: Option<&Partner>,
    out: &mut Vec<u8>,
) -> Result<(), AllocError>
    requires { HasEnds machine.now.checked table.now }
    ensures { OnOk result (out.new.items ≡ out.old.items ++ model.action_line machine.now.checked
        (line_at machine.now offered.now.place) offered.now (option_copied partner.entry)) }
{
    let checked = machine.checked();
    let line = machine.line(&offered.place);
    let lines = other_lines(*out.allocator(), checked, table, line, offered, partner)?;
    add_words(out, b"  ")?;
    write_placed(checked, &offered.place, out)?;
    write_line(line, out)?;
    write_deed(checked.system(), &offered.action, out)?;
    end_action(
        checked,
        line,
        &offered.action,
        partner,
        lines.as_slice(),
        out,
    )
}

/// Adds what is known of the partner of an action that stands on this line, where the ends that it waits for stand on
/// these, and the end of the line of text.
fn end_action(
    checked: &Checked,
    line: Option<u64>,
    action: &ActionKind,
    partner: Option<&Partner>,
    lines: &[u64],
    out: &mut Vec<u8>,
) -> Result<(), AllocError>
    ensures { OnOk result (out.new.items ≡ out.old.items
        ++ (model.partner_text checked.now line action.now (option_copied partner.entry) lines.now ++ ending)) }
{
    write_partner(checked, line, action, partner, lines, out)?;
    add_words(out, b"\n")
}

/// Adds a place, behind the number of its branch.
fn write_placed(checked: &Checked, place: &Address, out: &mut Vec<u8>) -> Result<(), AllocError>
    ensures { OnOk result (out.new.items ≡ out.old.items ++ model.placed checked.now place.now) }
{
    write_in_branch(checked.branch(place), place, out)
}

/// Adds a place that lies in this branch.
fn write_in_branch(
    branch: Option<u32>,
    place: &Address,
    out: &mut Vec<u8>,
) -> Result<(), AllocError>
    ensures { OnOk result (out.new.items ≡ out.old.items ++ model.in_branch branch place.now) }
{
    match branch {
        Some(number) => {
            let number = Piece::Number(u64::from(number));
            add_pieces(
                out,
                &[
                    Piece::Words(b"branch "),
                    number,
                    Piece::Words(b" "),
                    Piece::Place(place),
                ],
            )
        }
        None => add_pieces(out, &[Piece::Place(place)]),
    }
}

/// Adds where it stands in the source.
fn write_line(line: Option<u64>, out: &mut Vec<u8>) -> Result<(), AllocError>
    ensures { OnOk result (out.new.items ≡ out.old.items ++ model.line_text line) }
{
    match line {
        Some(line) => add_pieces(
            out,
            &[
                Piece::Words(b" line "),
                Piece::Number(line),
                Piece::Words(b":"),
            ],
        ),
        None => add_words(out, b" environment:"),
    }
}

/// Adds what the action waits to do.
fn write_deed(system: &System, action: &ActionKind, out: &mut Vec<u8>) -> Result<(), AllocError>
    ensures { OnOk result (out.new.items ≡ out.old.items ++ model.deed_text system.now action.now) }
{
    match action {
        ActionKind::Sends(channel, value, _) => {
            add_pieces(
                out,
                &[Piece::Words(b" sends "), Piece::Number(value.bits())],
            )?;
            write_on(system, b" on ", *channel, out)
        }
        ActionKind::Receives(channel, Some(_)) => write_on(
            system,
            b" receives from ",
            *channel,
            out,
        ),
        ActionKind::Receives(channel, None) => write_on(system, b" takes from ", *channel, out),
        ActionKind::Syncs(channel) => write_on(system, b" syncs on ", *channel, out),
        ActionKind::Opens(channel, arm) => {
            let arm = Piece::Number(u64::from(*arm));
            add_pieces(out, &[Piece::Words(b" opens arm "), arm])?;
            write_on(system, b" on ", *channel, out)
        }
        ActionKind::Releases(channel) => write_on(system, b" is held on ", *channel, out),
        ActionKind::Closes(channel) => write_on(system, b" closes ", *channel, out),
        ActionKind::Assigns(_, _, _) => add_words(out, b" assigns"),
        ActionKind::Tests(_, _) => add_words(out, b" tests"),
        ActionKind::Turns => add_words(out, b" turns"),
    }
}

/// Adds words and the name of the channel.
fn write_on(
    system: &System,
    words: &[u8],
    channel: u32,
    out: &mut Vec<u8>,
) -> Result<(), AllocError>
    ensures { OnOk result (out.new.items ≡ out.old.items ++ model.on_channel system.now words.now channel) }
{
    match system.channel_name(channel) {
        Some(name) => add_pieces(out, &[Piece::Words(words), Piece::Name(name)]),
        None => add_pieces(out, &[Piece::Words(words), Piece::Words(b"?")]),
    }
}

/// Adds what is known of the partner of an action that stands on this line, where the ends that it waits for stand on
/// these.
fn write_partner(
    checked: &Checked,
    line: Option<u64>,
    action: &ActionKind,
    partner: Option<&Partner>,
    lines: &[u64],
    out: &mut Vec<u8>,
) -> Result<(), AllocError>
    ensures { OnOk result (out.new.items ≡ out.old.items
        ++ model.partner_text checked.now line action.now (option_copied partner.entry) lines.now) }
{
    match partner {
        Some(Partner::Behind(first)) => {
            add_words(out, b", behind ")?;
            write_placed(checked, first, out)?;
            write_for_lines(lines, out)
        }
        Some(Partner::Gone) => write_gone(checked.system(), line, action, lines, out),
        Some(Partner::Open) | None => Ok(()),
    }
}

/// Adds on which lines the ends stand that an action waits for, if it is known.
fn write_for_lines(lines: &[u64], out: &mut Vec<u8>) -> Result<(), AllocError>
    ensures { OnOk result (out.new.items ≡ out.old.items ++ model.for_lines lines.now) }
{
    match lines.split_first() {
        Some((line, more)) => {
            add_words(out, b", for line ")?;
            write_lines(*line, more, out)
        }
        None => Ok(()),
    }
}

/// Adds lines of the source.
fn write_lines(line: u64, more: &[u64], out: &mut Vec<u8>) -> Result<(), AllocError>
    ensures { OnOk result (out.new.items ≡ out.old.items ++ model.lines_text line more.now) }
{
    add_pieces(out, &[Piece::Number(line)])?;
    write_more(more, out)
}

/// Adds further lines.
fn write_more(more: &[u64], out: &mut Vec<u8>) -> Result<(), AllocError>
    ensures { OnOk result (out.new.items ≡ out.old.items ++ flat_map model.or_line more.now) }
{
    for line in more {
        add_pieces(out, &[Piece::Words(b" or "), Piece::Number(*line)])?;
    }
    Ok(())
}

/// Adds why no partner of the action can come any more, where such ends stand on these lines: the arm that holds it
/// never ends, what the environment had for it is used up, or no other branch comes to the channel.
fn write_gone(
    system: &System,
    line: Option<u64>,
    action: &ActionKind,
    lines: &[u64],
    out: &mut Vec<u8>,
) -> Result<(), AllocError>
    ensures { OnOk result (out.new.items ≡ out.old.items ++ model.gone_text system.now line action.now lines.now) }
{
    match action {
        ActionKind::Releases(_) => write_held(lines, out),
        _ => write_used_up(system, line, fed_channel(system, action), lines, out),
    }
}

/// Adds that the arm never ends that holds it, on these lines.
fn write_held(lines: &[u64], out: &mut Vec<u8>) -> Result<(), AllocError>
    ensures { OnOk result (out.new.items ≡ out.old.items ++ model.held_text lines.now) }
{
    match lines.split_first() {
        Some((line, more)) => {
            add_words(out, b", by an arm on line ")?;
            write_endless(*line, more, out)
        }
        None => add_words(out, b", by an arm that never ends"),
    }
}

/// Adds the lines of an arm, and that it never ends.
fn write_endless(line: u64, more: &[u64], out: &mut Vec<u8>) -> Result<(), AllocError>
    ensures { OnOk result (out.new.items
        ≡ out.old.items ++ (model.lines_text line more.now ++ codes " that never ends")) }
{
    write_lines(line, more, out)?;
    add_words(out, b" that never ends")
}

/// Adds that the stimulus of the channel is used up, or that no other branch comes to what an action on this line waits
/// on.
fn write_used_up(
    system: &System,
    line: Option<u64>,
    fed: Option<u32>,
    lines: &[u64],
    out: &mut Vec<u8>,
) -> Result<(), AllocError>
    ensures { OnOk result (out.new.items ≡ out.old.items ++ model.used_up_text system.now line fed lines.now) }
{
    match (line, fed) {
        (Some(_), Some(channel)) => {
            write_on(system, b", the stimulus of ", channel, out)?;
            add_words(out, b" is used up")
        }
        _ => write_left(lines, out),
    }
}

/// Adds that no other branch comes to the channel, where such ends stand on these lines.
fn write_left(lines: &[u64], out: &mut Vec<u8>) -> Result<(), AllocError>
    ensures { OnOk result (out.new.items ≡ out.old.items ++ model.left_text lines.now) }
{
    match lines.split_first() {
        Some((line, more)) => {
            add_words(out, b", no other branch comes to it on line ")?;
            write_lines(*line, more, out)?;
            add_words(out, b" any more")
        }
        None => add_words(out, b", no other branch uses it any more"),
    }
}

/// Adds the ring, if there is one.
fn write_ring(
    checked: &Checked,
    actions: &[LocalAction],
    ring: &[usize],
    out: &mut Vec<u8>,
) -> Result<(), AllocError>
    ensures { OnOk result (out.new.items ≡ out.old.items ++ model.ring_lines checked.now actions.now ring.now) }
{
    if ring.is_empty() {
        return Ok(());
    }
    add_numbered(out, b"ring", ring.len() as u64)?;
    write_round(checked, actions, ring, out)
}

/// Adds a line for each of the actions with these indexes.
fn write_round(
    checked: &Checked,
    actions: &[LocalAction],
    ring: &[usize],
    out: &mut Vec<u8>,
) -> Result<(), AllocError>
    ensures { OnOk result (out.new.items ≡ out.old.items
        ++ flat_map (λ j. model.ring_line checked.now (slice_get actions.now j)) ring.now) }
{
    for held in ring {
        write_ring_at(checked, actions, *held, out)?;
    }
    Ok(())
}

/// Adds the place of the action of this index.
fn write_ring_at(
    checked: &Checked,
    actions: &[LocalAction],
    index: usize,
    out: &mut Vec<u8>,
) -> Result<(), AllocError>
    ensures { OnOk result (out.new.items ≡ out.old.items
        ++ model.ring_line checked.now (slice_get actions.now index)) }
{
    write_ring_line(checked, action_at(actions, index), out)
}

/// The action of this index, if there is one.
fn action_at<'a>(actions: &'a [LocalAction], index: usize) -> Option<&'a LocalAction>
    ensures { option_copied result ≡ slice_get actions.now index }
{
    match actions.get(index) {
        Some(action) => Some(action),
        None => None,
    }
}

/// Adds the place of an action, if there is one.
fn write_ring_line(
    checked: &Checked,
    action: Option<&LocalAction>,
    out: &mut Vec<u8>,
) -> Result<(), AllocError>
    ensures { OnOk result (out.new.items ≡ out.old.items
        ++ model.ring_line checked.now (option_copied action.entry)) }
{
    match action {
        Some(action) => {
            add_words(out, b"  ")?;
            write_placed(checked, &action.place, out)?;
            add_words(out, b"\n")
        }
        None => Ok(()),
    }
}
