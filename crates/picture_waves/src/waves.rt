// The whole of the dump.
use crate::changes::{Change, Level, at_rest, begin_of, changes_of};
use crate::declared::add_declarations;
use crate::numbers::{add_bits, add_number};
use crate::signals::{add_code, small, width_of};
use machine::Machine;
use picture_data::Picture;
use std::alloc::{AllocError, Global};
use system::System;

/// The waves of the run of the machine: ten units of time a depth, so that all orders in which its events may have been
/// taken have the same times. It is an error if there is no memory.
pub fn waves_text(
    alloc: Global,
    machine: &Machine,
    picture: &Picture,
) -> Result<Vec<u8>, AllocError> {
    let system = machine.checked().system();
    let mut out = Vec::new(alloc);
    out.extend_from_slice(
        b"$comment\n  balsadbg: a run over logical time, 10 units a causal depth\n$end\n$timescale 1 ns $end\n",
    )?;
    add_declarations(alloc, &mut out, system, picture.instances.as_slice())?;
    out.extend_from_slice(b"$enddefinitions $end\n#0\n$dumpvars\n")?;
    let mut levels = add_first_levels(alloc, &mut out, system)?;
    out.extend_from_slice(b"$end\n")?;
    let live = machine.live_events();
    let changes = changes_of(alloc, system, live, picture)?;
    add_changes(&mut out, system, changes.as_slice(), levels.as_mut_slice())?;
    add_last_time(&mut out, picture.steps.depths.as_slice())?;
    Ok(out)
}

/// Adds what each signal has at first. The levels are given, by the numbers of the signals.
fn add_first_levels(
    alloc: Global,
    out: &mut Vec<u8>,
    system: &System,
) -> Result<Vec<Level>, AllocError> {
    let mut levels = Vec::new(alloc);
    for _ in system.variables.as_slice() {
        levels.push(Level::Has(0))?;
    }
    for index in 0..system.channels.len() {
        levels.push(at_rest(system, small(index)))?;
        levels.push(Level::Has(0))?;
        levels.push(Level::Has(0))?;
    }
    for (index, level) in levels.as_slice().iter().enumerate() {
        add_level(out, system, index as u64, *level)?;
    }
    Ok(levels)
}

/// Adds the changes, each time once, and no change to what a signal has.
fn add_changes(
    out: &mut Vec<u8>,
    system: &System,
    changes: &[Change],
    levels: &mut [Level],
) -> Result<(), AllocError> {
    let mut now = 0;
    for change in changes {
        if is_new(levels, change) {
            if change.time != now {
                now = change.time;
                add_time(out, now)?;
            }
            add_level(out, system, change.signal, change.level)?;
        }
    }
    Ok(())
}

/// Whether the signal has not yet what the change gives it, which is noted.
fn is_new(levels: &mut [Level], change: &Change) -> bool {
    match levels.get_mut(change.signal as usize) {
        Some(level) => {
            let other = *level != change.level;
            *level = change.level;
            other
        }
        None => false,
    }
}

/// Adds a time.
fn add_time(out: &mut Vec<u8>, time: u64) -> Result<(), AllocError> {
    out.push(b'#')?;
    add_number(out, time)?;
    out.push(b'\n')?;
    Ok(())
}

/// Adds the time at which the dump ends: a depth behind the last event.
fn add_last_time(out: &mut Vec<u8>, depths: &[usize]) -> Result<(), AllocError> {
    let mut deepest = 0;
    for depth in depths {
        deepest = deepest.max(*depth);
    }
    add_time(out, begin_of(deepest.saturating_add(2)))
}

/// Adds what a signal has.
fn add_level(
    out: &mut Vec<u8>,
    system: &System,
    signal: u64,
    level: Level,
) -> Result<(), AllocError> {
    let wide = width_of(system, signal) > 1;
    if wide {
        out.push(b'b')?;
    }
    match level {
        Level::Floats => out.push(b'z')?,
        Level::Has(number) => add_bits(out, number)?,
    }
    if wide {
        out.push(b' ')?;
    }
    add_code(out, signal)?;
    out.push(b'\n')?;
    Ok(())
}
