//! Lines of answers. Each function adds them behind what is there; without memory a part of them may be there.
ghost use Rattle.std.specs.Prelude.{◌≡◌, ◌++◌, OnOk, codes};
ghost use Rattle.std.specs.Fmt.{decimal};
ghost use Rattle.line_text.specs.EventText.{field, event_text};
ghost use Rattle.line_text.specs.AnswerText.{ending, numbered_text, entry_text, ready_line, live_line};
ghost use Rattle.line_text.specs.AnswerText.{ready_text, consequences_text, live_text, valued_text, refusal_text};
ghost use Rattle.line_text.specs.FieldText.{shown};

use crate::event::add_event;
use crate::field::{Field, add_field};
use crate::text::{add_byte, add_bytes, add_marked, add_word, make_room};
use runs::{Event, Refusal};
use std::alloc::AllocError;
use system::System;

/// Few lines of an event are longer.
const USUAL_LENGTH: usize = 96;

/// Adds a line of a word and a number.
pub fn add_numbered(out: &mut Vec<u8>, word: &[u8], number: u64) -> Result<(), AllocError>
    ensures { OnOk result (out.new.items ≡ out.old.items ++ numbered_text word.now number) }
{
    add_word(out, word)?;
    end_with_number(out, number)
}

/// Adds a number at the end of a line.
fn end_with_number(out: &mut Vec<u8>, number: u64) -> Result<(), AllocError>
    ensures { OnOk result (out.new.items ≡ out.old.items ++ (field (decimal number) ++ ending)) }
{
    add_marked(out, b' ', number)?;
    add_byte(out, b'\n')
}

/// Adds a line of a word, a ticket and an event.
pub fn add_entry(
    out: &mut Vec<u8>,
    word: &[u8],
    system: &System,
    ticket: u64,
    event: &Event,
) -> Result<(), AllocError>
    ensures { OnOk result (out.new.items ≡ out.old.items ++ entry_text system.now word.now ticket event.now) }
{
    make_room(out, USUAL_LENGTH)?;
    add_word(out, word)?;
    add_marked(out, b' ', ticket)?;
    end_with_event(out, system, event)
}

/// Adds an event at the end of a line.
fn end_with_event(out: &mut Vec<u8>, system: &System, event: &Event) -> Result<(), AllocError>
    ensures { OnOk result (out.new.items ≡ out.old.items ++ (field (event_text system.now event.now) ++ ending)) }
{
    add_event(out, system, event)?;
    add_byte(out, b'\n')
}

/// Adds how many events are ready, and a line for each.
pub fn add_ready(out: &mut Vec<u8>, system: &System, events: &[Event]) -> Result<(), AllocError>
    ensures { OnOk result (out.new.items ≡ out.old.items ++ ready_text system.now events.now) }
{
    add_numbered(out, b"ready", events.len() as u64)?;
    for event in events {
        add_ready_line(out, system, event)?;
    }
    Ok(())
}

/// Adds the line of a ready event.
fn add_ready_line(out: &mut Vec<u8>, system: &System, event: &Event) -> Result<(), AllocError>
    ensures { OnOk result (out.new.items ≡ out.old.items ++ ready_line system.now event.now) }
{
    add_byte(out, b' ')?;
    end_with_event(out, system, event)
}

/// Adds the tickets of consequences, in one line.
pub fn add_consequences(out: &mut Vec<u8>, tickets: &[u64]) -> Result<(), AllocError>
    ensures { OnOk result (out.new.items ≡ out.old.items ++ consequences_text tickets.now) }
{
    add_bytes(out, b"consequences")?;
    for ticket in tickets {
        add_marked(out, b' ', *ticket)?;
    }
    add_bytes(out, b"\n")
}

/// Adds how many events are live, and a line for each.
pub fn add_live(
    out: &mut Vec<u8>,
    system: &System,
    pairs: &[(u64, Event)],
) -> Result<(), AllocError>
    ensures { OnOk result (out.new.items ≡ out.old.items ++ live_text system.now pairs.now) }
{
    add_numbered(out, b"live", pairs.len() as u64)?;
    for pair in pairs {
        add_live_line(out, system, pair)?;
    }
    Ok(())
}

/// Adds the line of a live event. The first of its two spaces stands in place of a word.
fn add_live_line(out: &mut Vec<u8>, system: &System, pair: &(u64, Event)) -> Result<(), AllocError>
    ensures { OnOk result (out.new.items ≡ out.old.items ++ live_line system.now pair.now) }
{
    add_entry(out, b" ", system, pair.0, &pair.1)
}

/// Adds the line of a value behind the name of its variable.
pub fn add_valued(out: &mut Vec<u8>, name: Field<'_>, bits: u64) -> Result<(), AllocError>
    ensures { OnOk result (out.new.items ≡ out.old.items ++ valued_text (shown name.entry) bits) }
{
    add_word(out, b"value")?;
    add_field(out, name)?;
    end_with_number(out, bits)
}

/// Adds the line of a refusal.
pub fn add_refusal(out: &mut Vec<u8>, why: Refusal) -> Result<(), AllocError>
    ensures { OnOk result (out.new.items ≡ out.old.items ++ (codes "refused" ++ refusal_text why ++ ending)) }
{
    add_word(out, b"refused")?;
    let number = u64::from(why.number());
    match why {
        Refusal::NeededBy(ticket) => {
            add_marked(out, b' ', number)?;
            end_with_number(out, ticket)
        }
        _ => end_with_number(out, number),
    }
}
