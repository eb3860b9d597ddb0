ghost use Rattle.std.specs.Prelude.{Err, ℕ, List, ◌≡◌, ◌++◌, ◌<◌, ◌^◌, length, Some, slice_get, OnOk, IfOk};
ghost use Rattle.std.specs.Fmt.{decimal};
ghost use Rattle.std.specs.Io.KnownBytes.{Appends};
ghost use Rattle.syntax.specs.Lists.{Every};
ghost use Rattle.address.specs.Text.{entry_text, text_of};
ghost use Rattle.address.specs.Reading.{EntryFits, NumbersFit};
ghost use Rattle.runs.specs.Choices.{choice_of};
ghost use Rattle.runs.specs.Dependence.{Respecting};
ghost use Rattle.runs.specs.Live.{events};
ghost use Rattle.system.specs.declared.system.System.{System};
ghost use Rattle.runs.specs.Steps.{State, Run, opening};
ghost use Rattle.runs.specs.declared.event.Event.{Event};
ghost use Rattle.trace_file.specs.TraceText.{event_line, IsTrace, IsWritable};
ghost use Rattle.trace_file.specs.Loading.{Saves, after_writing};

use crate::version::SECOND;
use crate::{Fault, canonical_order};
use address::{Address, Entry};
use dependence::Live;
use devices::{CountedWrite, write_out};
use line_text::{add_byte, add_bytes, add_decimal};
use machine::Machine;
use runs::Event;
use std::alloc::{AllocError, Global};

/// Writes the trace of the live events: a header, and a line for the choice of each, in canonical order. So two
/// machines whose live events are the same but for the order of independent ones write equal bytes. At `Memory` the
/// writer was not asked for anything, and at `WriteFailed`, which comes exactly where the writer counts a failure, a
/// beginning is out.
pub fn save<W: CountedWrite>(alloc: Global, machine: &Machine, writer: &mut W) -> Result<(), Fault>
    ensures equal { (k : List Event) (other : List ℕ) → Respecting (events machine.now.live) k →
        Respecting k (events machine.now.live) → IsTrace k other
        → OnOk result (Appends (W.contents writer.old) (W.contents writer.new) other) }
    ensures saves { Saves (events machine.now.live) (W.contents writer.old) (W.contents writer.new) result }
    ensures lines { OnOk result (Every (λ e. IsWritable (choice_of e)) (events machine.now.live)) }
    ensures failures { W.failed writer.new ≡ after_writing result (W.failed writer.old) }
    ensures untouched { result ≡ Err Fault.Memory → writer.new ≡ writer.old }
{
    let text = write_trace(alloc, machine)?;
    match write_out(writer, text.as_slice()) {
        Ok(()) => Ok(()),
        Err(_) => Err(Fault::WriteFailed),
    }
}

/// The trace of the live events, as `save` writes it: the same for all orders in which they may have been taken. It is
/// an error if there is no memory.
pub fn write_trace(alloc: Global, machine: &Machine) -> Result<Vec<u8>, AllocError>
    ensures text { IfOk result (λ text. IsTrace (events machine.now.live) text.items) }
    ensures equal { IfOk result (λ text. (k : List Event) (other : List ℕ) → Respecting (events machine.now.live) k →
        Respecting k (events machine.now.live) → IsTrace k other
        → other ≡ text.items) }
    ensures lines { OnOk result (Every (λ e. IsWritable (choice_of e)) (events machine.now.live)) }
{
    machine.is_sound();
    write_events(alloc, machine.live_events())
}

/// The trace of these live events.
fn write_events(alloc: Global, live: &Live) -> Result<Vec<u8>, AllocError>
    requires { (system : System) × (T : State) × Run (opening system) (events live.now.live) T }
    ensures text { IfOk result (λ text. IsTrace (events live.now.live) text.items) }
    ensures lines { OnOk result (Every (λ e. IsWritable (choice_of e)) (events live.now.live)) }
{
    let order = canonical_order(alloc, live)?;
    let mut out = Vec::new(alloc);
    add_bytes(&mut out, SECOND)?;
    add_bytes(&mut out, b"\n")?;
    for index in order.as_slice() {
        add_line(&mut out, event_at(live, *index))?;
    }
    Ok(out)
}

/// The event at an index.
fn event_at(live: &Live, index: usize) -> &Event
    requires { index < length live.now.live }
    ensures { (t : ℕ) × (slice_get live.now.live index ≡ Some (t, result.now)) }
{
    match live.pair_at(index as u64) {
        Some((_, event)) => event,
        None => unreachable!(),
    }
}

/// Adds the line of the event behind what is there.
fn add_line(out: &mut Vec<u8>, event: &Event) -> Result<(), AllocError>
    ensures text { OnOk result (out.new.items ≡ out.old.items ++ event_line event.now) }
    ensures place { OnOk result (NumbersFit (choice_of event.now).place) }
    ensures arm { (choice_of event.now).arm < 2 ^ 32 }
{
    let arm = event.arm_to_open();
    add_bytes(out, b"step ")?;
    add_place(out, event.acting_place())?;
    add_byte(out, b' ')?;
    add_number(out, arm)?;
    add_byte(out, b'\n')
}

/// Adds a place.
fn add_place(out: &mut Vec<u8>, place: &Address) -> Result<(), AllocError>
    ensures text { OnOk result (out.new.items ≡ out.old.items ++ text_of place.now) }
    ensures fits { OnOk result (NumbersFit place.now) }
{
    for entry in place.entries() {
        add_entry(out, *entry)?;
    }
    Ok(())
}

/// Adds an entry of a place.
fn add_entry(out: &mut Vec<u8>, entry: Entry) -> Result<(), AllocError>
    ensures text { OnOk result (out.new.items ≡ out.old.items ++ entry_text entry) }
    ensures fits { EntryFits entry }
{
    match entry {
        Entry::Ordered(number) => {
            add_byte(out, b'.')?;
            add_number(out, number)
        }
        Entry::Branch(number) => {
            add_byte(out, b'/')?;
            add_number(out, number)
        }
    }
}

/// Adds a number in decimal.
fn add_number(out: &mut Vec<u8>, number: u32) -> Result<(), AllocError>
    ensures { OnOk result (out.new.items ≡ out.old.items ++ decimal number) }
{
    add_decimal(out, u64::from(number))
}
