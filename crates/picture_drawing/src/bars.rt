// What handshakes enclose: a bar on both sides, from the opening to the end.
use crate::figure::{Ends, Figure, ends_of};
use crate::ink::{Dash, Ink};
use crate::sheet::{Area, Sheet};
use runs::{Event, Kind};
use std::alloc::{AllocError, Global};

/// An enclosed command.
#[derive(Clone, Copy)]
struct Bar {
    /// the index of the event that opened it, and its columns
    open: usize,
    held: usize,
    opened: usize,
    /// the event that ended it
    close: Option<usize>,
    /// how many bars are around it in each column
    held_level: u64,
    opened_level: u64,
}

/// Draws the bars, those around others first.
pub(crate) fn draw_bars(
    alloc: Global,
    sheet: &mut Sheet,
    figure: &Figure<'_>,
) -> Result<(), AllocError> {
    let bars = bars_of(alloc, figure)?;
    for bar in bars.as_slice() {
        draw_action(sheet, figure, *bar, bar.opened, bar.opened_level, true)?;
        draw_action(sheet, figure, *bar, bar.held, bar.held_level, false)?;
    }
    Ok(())
}

/// The bars, in the order in which they were opened.
fn bars_of(alloc: Global, figure: &Figure<'_>) -> Result<Vec<Bar>, AllocError> {
    let mut bars = Vec::new(alloc);
    let mut open_bars = vec![in alloc; None; figure.scene.system.channels.len()]?;
    let mut levels = vec![in alloc; 0; figure.columns.len()]?;
    for (index, (_, event)) in figure.scene.live.iter().enumerate() {
        let ends = ends_of(figure.columns, figure.scene.actions(index), event);
        match event.kind {
            Kind::Open => {
                if let Some(bar) = opened_bar(levels.as_mut_slice(), index, ends) {
                    note(open_bars.as_mut_slice(), event, bars.len());
                    bars.push(bar)?;
                }
            }
            Kind::Close => close_bar(
                bars.as_mut_slice(),
                open_bars.as_slice(),
                levels.as_mut_slice(),
                event,
                index,
            ),
            _ => {}
        }
    }
    Ok(bars)
}

/// The bar that an event with these columns opens.
fn opened_bar(levels: &mut [u64], index: usize, ends: Option<Ends>) -> Option<Bar> {
    let ends = ends?;
    let opened = ends.second?;
    let held_level = level(levels, ends.first);
    let opened_level = level(levels, opened);
    set_level(levels, ends.first, held_level.saturating_add(1));
    set_level(levels, opened, opened_level.saturating_add(1));
    Some(Bar {
        open: index,
        held: ends.first,
        opened,
        close: None,
        held_level,
        opened_level,
    })
}

/// How many bars are open in the column.
fn level(levels: &[u64], column: usize) -> u64 {
    levels.get(column).copied().unwrap_or(0)
}

/// Sets it.
fn set_level(levels: &mut [u64], column: usize, level: u64) {
    if column < levels.len() {
        levels[column] = level;
    }
}

/// Notes which bar is open on the channel of the event.
fn note(open_bars: &mut [Option<usize>], event: &Event, bar: usize) {
    if let Some(channel) = event.channel {
        let channel = channel as usize;
        if channel < open_bars.len() {
            open_bars[channel] = Some(bar);
        }
    }
}

/// The bar that is open on the channel of the event.
fn open_bar(open_bars: &[Option<usize>], event: &Event) -> Option<usize> {
    match open_bars.get(event.channel? as usize) {
        Some(bar) => *bar,
        None => None,
    }
}

/// Ends the bar on the channel of the event at an index.
fn close_bar(
    bars: &mut [Bar],
    open_bars: &[Option<usize>],
    levels: &mut [u64],
    event: &Event,
    index: usize,
) {
    let Some(bar) = open_bar(open_bars, event) else {
        return;
    };
    if bar < bars.len() {
        let held = bars[bar].held;
        let opened = bars[bar].opened;
        bars[bar].close = Some(index);
        let held_level = level(levels, held).saturating_sub(1);
        set_level(levels, held, held_level);
        let opened_level = level(levels, opened).saturating_sub(1);
        set_level(levels, opened, opened_level);
    }
}

/// The colour of a bar to the end that an event of this colour opened: what a cause opened goes on behind all causes.
fn ink_to_end(open: Ink) -> Ink {
    match open {
        Ink::Cause => Ink::Faint,
        own => own,
    }
}

/// Draws the bar in one of its columns.
fn draw_action(
    sheet: &mut Sheet,
    figure: &Figure<'_>,
    bar: Bar,
    column: usize,
    level: u64,
    is_opened: bool,
) -> Result<(), AllocError> {
    let from = figure.point(column, bar.open);
    let (end, ink) = match bar.close {
        Some(close) => (
            figure.rows.height(close),
            figure.ink_between(bar.open, close),
        ),
        None => (figure.bottom, ink_to_end(figure.ink(bar.open))),
    };
    let width = 150_u64.saturating_sub(level.saturating_mul(40)).max(50);
    let area = Area {
        x: from.x.saturating_sub(width / 2),
        y: from.y,
        width,
        height: end.saturating_sub(from.y),
    };
    let fill = if ink == Ink::Faint {
        Ink::Pale
    } else if is_opened {
        Ink::Opened
    } else {
        Ink::Held
    };
    let dash = if is_opened { Dash::Whole } else { Dash::Short };
    sheet.area(area, fill, ink.or(Ink::Enclosed), dash)
}
