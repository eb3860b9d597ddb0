//! The text of an event, one function a kind.
ghost use Rattle.std.specs.Prelude.{◌≡◌, ◌++◌, OnOk, codes};
ghost use Rattle.address.specs.Text.{text_of};
ghost use Rattle.runs.specs.declared.event.Kind.TheVariants as kind;
ghost use Rattle.line_text.specs.EventText.{event_text, text_by_kind, field, arm_text, place_text};

use crate::field::{add_arm, add_channel, add_place, add_second, add_value, add_variable};
use crate::text::add_word;
use runs::{Event, Kind};
use std::alloc::AllocError;
use system::System;

/// Adds a space and the text of the event behind what is there.
pub(crate) fn add_event(out: &mut Vec<u8>, system: &System, event: &Event) -> Result<(), AllocError>
    ensures { OnOk result (out.new.items ≡ out.old.items ++ field (event_text system.now event.now)) }
{
    match event.kind {
        Kind::Assign => add_assign(out, system, event),
        Kind::Test => add_test(out, event),
        Kind::Turn => add_turn(out, event),
        Kind::Meet => add_meet(out, system, event),
        Kind::Open => add_open(out, system, event),
        Kind::Close => add_close(out, system, event),
        Kind::Sync => add_sync(out, system, event),
    }
}

fn add_assign(out: &mut Vec<u8>, system: &System, event: &Event) -> Result<(), AllocError>
    ensures { OnOk result (out.new.items ≡ out.old.items ++ field (text_by_kind system.now kind.Assign event.now)) }
{
    add_word(out, b" assign")?;
    add_variable(out, system, event.written)?;
    add_value(out, event.value)?;
    add_place(out, &event.first)
}

fn add_test(out: &mut Vec<u8>, event: &Event) -> Result<(), AllocError>
    ensures { OnOk result (out.new.items ≡
        out.old.items ++ field (codes "test" ++ field (arm_text event.now.arm) ++ field (text_of event.now.first))) }
{
    add_word(out, b" test")?;
    add_arm(out, event.arm)?;
    add_place(out, &event.first)
}

fn add_turn(out: &mut Vec<u8>, event: &Event) -> Result<(), AllocError>
    ensures { OnOk result (out.new.items ≡ out.old.items ++ field (codes "turn" ++ field (text_of event.now.first))) }
{
    add_word(out, b" turn")?;
    add_place(out, &event.first)
}

fn add_meet(out: &mut Vec<u8>, system: &System, event: &Event) -> Result<(), AllocError>
    ensures { OnOk result (out.new.items ≡ out.old.items ++ field (text_by_kind system.now kind.Meet event.now)) }
{
    add_word(out, b" meet")?;
    add_channel(out, system, event.channel)?;
    add_value(out, event.value)?;
    add_sides(out, event)
}

fn add_open(out: &mut Vec<u8>, system: &System, event: &Event) -> Result<(), AllocError>
    ensures { OnOk result (out.new.items ≡ out.old.items ++ field (text_by_kind system.now kind.Open event.now)) }
{
    add_word(out, b" open")?;
    add_channel(out, system, event.channel)?;
    add_value(out, event.value)?;
    add_arm(out, event.arm)?;
    add_sides(out, event)
}

fn add_close(out: &mut Vec<u8>, system: &System, event: &Event) -> Result<(), AllocError>
    ensures { OnOk result (out.new.items ≡ out.old.items ++ field (text_by_kind system.now kind.Close event.now)) }
{
    add_word(out, b" close")?;
    add_channel(out, system, event.channel)?;
    add_sides(out, event)
}

fn add_sync(out: &mut Vec<u8>, system: &System, event: &Event) -> Result<(), AllocError>
    ensures { OnOk result (out.new.items ≡ out.old.items ++ field (text_by_kind system.now kind.Sync event.now)) }
{
    add_word(out, b" sync")?;
    add_channel(out, system, event.channel)?;
    add_sides(out, event)
}

/// Adds the places of both sides.
fn add_sides(out: &mut Vec<u8>, event: &Event) -> Result<(), AllocError>
    ensures { OnOk result (out.new.items ≡
        out.old.items ++ (field (text_of event.now.first) ++ field (place_text event.now.second))) }
{
    add_place(out, &event.first)?;
    add_second(out, &event.second)
}
