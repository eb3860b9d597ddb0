// The signals by number: each variable, and for each channel its value and its two actions.
use std::alloc::AllocError;
use system::{ChannelKind, System};

/// The number of the signal of a variable.
pub(crate) fn of_variable(variable: u32) -> u64 {
    u64::from(variable)
}

/// The number of the signal of a channel.
pub(crate) fn of_channel(system: &System, channel: u32) -> u64 {
    (system.variables.len() as u64).saturating_add(u64::from(channel).saturating_mul(3))
}

/// The number of the signal of the action that sends, or of two that sync of the first.
pub(crate) fn of_giver(system: &System, channel: u32) -> u64 {
    of_channel(system, channel).saturating_add(1)
}

/// The number of the signal of the other action.
pub(crate) fn of_taker(system: &System, channel: u32) -> u64 {
    of_channel(system, channel).saturating_add(2)
}

/// How many bits a signal has.
pub(crate) fn width_of(system: &System, signal: u64) -> u64 {
    let count = system.variables.len() as u64;
    if signal < count {
        return match system.variables.get(signal as usize) {
            Some(variable) => u64::from(variable.width.bits()),
            None => 1,
        };
    }
    let behind = signal - count;
    if behind % 3 != 0 {
        return 1;
    }
    channel_width(system, behind / 3).max(1)
}

/// How many bits pass over a channel, 0 where none do.
pub(crate) fn channel_width(system: &System, channel: u64) -> u64 {
    match system.channels.get(channel as usize) {
        Some(channel) => match channel.kind {
            ChannelKind::Data(width) => u64::from(width.bits()),
            ChannelKind::Sync => 0,
        },
        None => 0,
    }
}

/// Adds the short name of a signal: its number in 94 digits from `!` on, the last first.
pub(crate) fn add_code(out: &mut Vec<u8>, signal: u64) -> Result<(), AllocError> {
    let mut left = signal;
    for _ in 0..20 {
        out.push(b'!' + (left % 94) as u8)?;
        left /= 94;
        if left == 0 {
            break;
        }
    }
    Ok(())
}

/// The number of what stands at an index. A system has no more than 2^32 of anything.
pub(crate) fn small(index: usize) -> u32 {
    match u32::try_from(index) {
        Ok(number) => number,
        Err(_) => u32::MAX,
    }
}
