// The past of an event as text, a line for each event.
ghost use Rattle.std.specs.Prelude.{◌≡◌, ◌++◌, OnOk, slice_get, reverse};
ghost use Rattle.std.specs.List.{flat_map};
ghost use Rattle.std.specs.Option.{option_copied};
ghost use Rattle.past.specs.PastText as model;

use crate::held::{Held, note, zeros};
use crate::past::{Past, PastEvent};
use dependence::{Live, line_after};
use runs::{Event, Kind};
use sharing_check::Checked;
use std::alloc::{AllocError, Global};
use system::{QualifiedName, System};
use text_parts::{Piece, add_pieces, add_words};
use value::Value;

/// Adds a line for each of the events, which are live: its ticket, its line in the source, what it did, the variables
/// that it read, each with its value then and the step that wrote that, and the tickets of its nearest causes. Then a
/// line for those that are left out, if there are any. Without memory a part of it may be there.
pub fn write_past(
    alloc: Global,
    out: &mut Vec<u8>,
    checked: &Checked,
    live: &Live,
    past: &Past,
) -> Result<(), AllocError>
    ensures { OnOk result (out.new.items ≡ out.old.items
        ++ model.past_text checked.now live.now.live past.now) }
{
    write_events(alloc, out, checked, live, past.events.as_slice())?;
    write_left_out(out, past.left_out)
}

/// Adds a line for each of the events that are told.
fn write_events(
    alloc: Global,
    out: &mut Vec<u8>,
    checked: &Checked,
    live: &Live,
    told: &[PastEvent],
) -> Result<(), AllocError>
    ensures { OnOk result (out.new.items ≡ out.old.items
        ++ model.past_lines checked.now live.now.live told.now (model.zeros checked.now)) }
{
    let mut values = zeros(alloc, checked.system())?;
    let mut rest = told;
    'events: while let Some((one, behind)) = rest.split_first() {
        write_next(out, checked, live, one, values.as_mut_slice())?;
        rest = behind;
    }
    Ok(())
}

/// Adds the line of an event, and keeps what it wrote.
fn write_next(
    out: &mut Vec<u8>,
    checked: &Checked,
    live: &Live,
    told: &PastEvent,
    values: &mut [Held],
) -> Result<(), AllocError>
    ensures text { OnOk result (out.new.items ≡ out.old.items
        ++ model.line_at checked.now live.now.live (slice_get live.now.live told.now.index) told.now values.old) }
    ensures values { OnOk result (values.new ≡ model.noted_at (slice_get live.now.live told.now.index) values.old) }
{
    match live.pair_at(told.index as u64) {
        Some((ticket, event)) => {
            write_event(out, checked, live, event, told, values)?;
            note(values, ticket, event);
            Ok(())
        }
        None => Ok(()),
    }
}

/// Adds how many events are left out, and how to see them.
fn write_left_out(out: &mut Vec<u8>, count: usize) -> Result<(), AllocError>
    ensures { OnOk result (out.new.items ≡ out.old.items ++ model.left_out_line count) }
{
    if count == 0 {
        Ok(())
    } else if count == 1 {
        add_words(out, b"1 step without a value left out: --all\n")
    } else {
        write_more_left_out(out, count)
    }
}

/// Adds how many they are, where they are more than one.
fn write_more_left_out(out: &mut Vec<u8>, count: usize) -> Result<(), AllocError>
    ensures { OnOk result (out.new.items ≡ out.old.items ++ model.more_left_out count) }
{
    let number = Piece::Number(count as u64);
    let words = Piece::Words(b" steps without a value left out: --all\n");
    add_pieces(out, &[number, words])
}

/// Adds the line of an event.
fn write_event(
    out: &mut Vec<u8>,
    checked: &Checked,
    live: &Live,
    event: &Event,
    told: &PastEvent,
    values: &[Held],
) -> Result<(), AllocError>
    ensures { OnOk result (out.new.items ≡ out.old.items
        ++ model.event_line checked.now live.now.live event.now told.now values.now) }
{
    add_pieces(out, &[Piece::Words(b"  "), Piece::Number(told.ticket)])?;
    write_line(out, line_after(checked, live, event.acting_place()))?;
    write_deed(out, checked.system(), event)?;
    write_reads(out, checked.system(), event.read.as_slice(), values)?;
    write_causes(out, told.causes.as_slice())?;
    add_words(out, b"\n")
}

/// Adds where the event stands in the source.
fn write_line(out: &mut Vec<u8>, line: Option<u64>) -> Result<(), AllocError>
    ensures { OnOk result (out.new.items ≡ out.old.items ++ model.line_text line) }
{
    match line {
        Some(line) => add_pieces(
            out,
            &[
                Piece::Words(b" line "),
                Piece::Number(line),
                Piece::Words(b":"),
            ],
        ),
        None => add_words(out, b" environment:"),
    }
}

/// Adds what the event did.
fn write_deed(out: &mut Vec<u8>, system: &System, event: &Event) -> Result<(), AllocError>
    ensures { OnOk result (out.new.items ≡ out.old.items ++ model.deed_text system.now event.now) }
{
    match event.kind {
        Kind::Assign => {
            write_variable(out, system, event.written)?;
            add_words(out, b" :=")?;
            write_value(out, event.value)
        }
        Kind::Test => {
            add_words(out, b" test takes")?;
            write_arm(out, event.arm)
        }
        Kind::Turn => add_words(out, b" turn"),
        Kind::Meet => {
            write_channel(out, system, event.channel)?;
            write_carried(out, event.value)?;
            write_into(out, system, event.written)
        }
        Kind::Open => write_open(out, system, event),
        Kind::Close => {
            write_channel(out, system, event.channel)?;
            add_words(out, b" closes")
        }
        Kind::Sync => {
            write_channel(out, system, event.channel)?;
            add_words(out, b" syncs")
        }
    }
}

/// Adds an open: the channel, the value, and the arm.
fn write_open(out: &mut Vec<u8>, system: &System, event: &Event) -> Result<(), AllocError>
    ensures { OnOk result (out.new.items ≡ out.old.items
        ++ model.deed_by system.now Kind.Open event.now) }
{
    write_channel(out, system, event.channel)?;
    write_carried(out, event.value)?;
    add_words(out, b" opens")?;
    write_arm(out, event.arm)
}

/// Adds where a value went that was received, if it went to a variable.
fn write_into(out: &mut Vec<u8>, system: &System, variable: Option<u32>) -> Result<(), AllocError>
    ensures { OnOk result (out.new.items ≡ out.old.items ++ model.into_text system.now variable) }
{
    match variable {
        Some(_) => {
            add_words(out, b" into")?;
            write_variable(out, system, variable)
        }
        None => Ok(()),
    }
}

/// Adds a space and the name of the channel.
fn write_channel(out: &mut Vec<u8>, system: &System, channel: Option<u32>) -> Result<(), AllocError>
    ensures { OnOk result (out.new.items ≡ out.old.items ++ model.channel_text system.now channel) }
{
    match channel {
        Some(number) => write_name(out, system.channel_name(number)),
        None => add_words(out, b" ?"),
    }
}

/// Adds a space and the name of the variable.
fn write_variable(
    out: &mut Vec<u8>,
    system: &System,
    variable: Option<u32>,
) -> Result<(), AllocError>
    ensures { OnOk result (out.new.items ≡ out.old.items ++ model.variable_text system.now variable) }
{
    match variable {
        Some(number) => write_name(out, system.variable_name(number)),
        None => add_words(out, b" ?"),
    }
}

/// Adds a space and a name.
fn write_name(out: &mut Vec<u8>, name: Option<&QualifiedName>) -> Result<(), AllocError>
    ensures { OnOk result (out.new.items ≡ out.old.items ++ model.name_text (option_copied name.entry)) }
{
    match name {
        Some(name) => add_pieces(out, &[Piece::Words(b" "), Piece::Name(name)]),
        None => add_words(out, b" ?"),
    }
}

/// Adds a space and the value.
fn write_value(out: &mut Vec<u8>, value: Option<Value>) -> Result<(), AllocError>
    ensures { OnOk result (out.new.items ≡ out.old.items ++ model.value_text value) }
{
    match value {
        Some(value) => add_pieces(out, &[Piece::Words(b" "), Piece::Number(value.bits())]),
        None => add_words(out, b" -"),
    }
}

/// Adds the value that a channel carried, if it carried one.
fn write_carried(out: &mut Vec<u8>, value: Option<Value>) -> Result<(), AllocError>
    ensures { OnOk result (out.new.items ≡ out.old.items ++ model.carried_text value) }
{
    match value {
        Some(_) => {
            add_words(out, b" carries")?;
            write_value(out, value)
        }
        None => Ok(()),
    }
}

/// Adds a space and the arm.
fn write_arm(out: &mut Vec<u8>, arm: Option<u32>) -> Result<(), AllocError>
    ensures { OnOk result (out.new.items ≡ out.old.items ++ model.arm_text arm) }
{
    match arm {
        Some(number) => add_pieces(
            out,
            &[Piece::Words(b" arm "), Piece::Number(u64::from(number))],
        ),
        None => add_words(out, b" none"),
    }
}

/// Adds the variables that the event read, if it read any, with what each held then.
fn write_reads(
    out: &mut Vec<u8>,
    system: &System,
    variables: &[u32],
    values: &[Held],
) -> Result<(), AllocError>
    ensures { OnOk result (out.new.items ≡ out.old.items
        ++ model.reads_text system.now values.now variables.now) }
{
    match variables.split_first() {
        Some((first, more)) => {
            add_words(out, b", reads")?;
            write_read(out, system, *first, values)?;
            write_more_reads(out, system, more, values)
        }
        None => Ok(()),
    }
}

/// Adds each further variable that it read, with what it held.
fn write_more_reads(
    out: &mut Vec<u8>,
    system: &System,
    variables: &[u32],
    values: &[Held],
) -> Result<(), AllocError>
    ensures { OnOk result (out.new.items ≡ out.old.items
        ++ flat_map (model.more_read_text system.now values.now) variables.now) }
{
    for variable in variables {
        write_more_read(out, system, *variable, values)?;
    }
    Ok(())
}

/// Adds a further variable, with what it held.
fn write_more_read(
    out: &mut Vec<u8>,
    system: &System,
    variable: u32,
    values: &[Held],
) -> Result<(), AllocError>
    ensures { OnOk result (out.new.items ≡ out.old.items
        ++ model.more_read_text system.now values.now variable) }
{
    add_words(out, b" and")?;
    write_read(out, system, variable, values)
}

/// Adds a variable, with what it held.
fn write_read(
    out: &mut Vec<u8>,
    system: &System,
    variable: u32,
    values: &[Held],
) -> Result<(), AllocError>
    ensures { OnOk result (out.new.items ≡ out.old.items
        ++ model.read_text system.now values.now variable) }
{
    write_variable(out, system, Some(variable))?;
    add_words(out, b" =")?;
    write_held(out, values, variable)
}

/// Adds a space, the value of a variable, and the step that wrote it.
fn write_held(out: &mut Vec<u8>, values: &[Held], variable: u32) -> Result<(), AllocError>
    ensures { OnOk result (out.new.items ≡ out.old.items
        ++ model.held_text (slice_get values.now variable)) }
{
    match values.get(variable as usize) {
        Some(held) => {
            add_pieces(out, &[Piece::Words(b" "), Piece::Number(held.bits)])?;
            write_writer(out, held.writer)
        }
        None => add_words(out, b" ?"),
    }
}

/// Adds the step that wrote a value, if one did.
fn write_writer(out: &mut Vec<u8>, writer: Option<u64>) -> Result<(), AllocError>
    ensures { OnOk result (out.new.items ≡ out.old.items ++ model.writer_text writer) }
{
    match writer {
        Some(ticket) => add_pieces(out, &[Piece::Words(b" of step "), Piece::Number(ticket)]),
        None => Ok(()),
    }
}

/// Adds the tickets of its nearest causes, the least first, if there are any.
fn write_causes(out: &mut Vec<u8>, tickets: &[u64]) -> Result<(), AllocError>
    ensures { OnOk result (out.new.items ≡ out.old.items ++ model.causes_text tickets.now) }
{
    if tickets.is_empty() {
        return Ok(());
    }
    add_words(out, b", after")?;
    write_each_ticket(out, tickets)
}

/// Adds each of the tickets, the last first.
fn write_each_ticket(out: &mut Vec<u8>, tickets: &[u64]) -> Result<(), AllocError>
    ensures { OnOk result (out.new.items ≡ out.old.items
        ++ flat_map model.ticket_text (reverse tickets.now)) }
{
    let mut rest = tickets;
    'tickets: while let Some((last, before)) = rest.split_last() {
        add_pieces(out, &[Piece::Words(b" "), Piece::Number(*last)])?;
        rest = before;
    }
    Ok(())
}
