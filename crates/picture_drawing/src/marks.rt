// The mark of each event, with its words.
use crate::columns::{digits_width, room_between};
use crate::depth_rows::is_tall;
use crate::figure::{Ends, Figure, ends_of, is_quiet};
use crate::ink::{Dash, Ink};
use crate::labels::{Words, add_number};
use crate::sheet::{Anchor, Area, Point, SMALL_LETTER, Sheet, Style};
use runs::{Event, Kind};
use std::alloc::{AllocError, Global};

/// What is used for one event after another.
#[derive(Drop)]
struct Scratch {
    /// the ticket, and what is written of a label
    number: Vec<u8>,
    text: Vec<u8>,
}

impl Scratch {
    /// Makes the number that of the ticket; a handshake has a mark before it.
    fn tell_ticket(&mut self, ticket: u64, is_pair: bool) -> Result<(), AllocError> {
        self.number.clear();
        if is_pair {
            self.number.push(b'#')?;
        }
        add_number(&mut self.number, ticket)
    }

    /// Writes the label, as far as there is room.
    fn write_label(
        &mut self,
        sheet: &mut Sheet,
        words: Words<'_>,
        at: Point,
        room: u64,
        style: Style,
    ) -> Result<(), AllocError> {
        self.text.clear();
        words.add_label(&mut self.text, room, style.letter())?;
        sheet.words(at, self.text.as_slice(), style)
    }
}

/// How an event is drawn.
#[derive(Clone, Copy)]
struct Look {
    ink: Ink,
    /// within the edge of a mark that is else filled
    fill: Ink,
    /// the edge of a mark, and the end of what a handshake encloses
    dash: Dash,
    end: Dash,
    /// the colour of small words
    soft: Ink,
    under: Ink,
}

/// An event that is drawn.
#[derive(Clone, Copy)]
struct Mark<'a> {
    index: usize,
    event: &'a Event,
    words: Words<'a>,
    look: Look,
    /// how wide its ticket is
    number: u64,
}

/// Draws the events.
pub(crate) fn draw_marks(
    alloc: Global,
    sheet: &mut Sheet,
    figure: &Figure<'_>,
) -> Result<(), AllocError> {
    let mut scratch = Scratch {
        number: Vec::new(alloc),
        text: Vec::new(alloc),
    };
    for (index, (ticket, event)) in figure.scene.live.iter().enumerate() {
        if figure.shown.is_marked(index) {
            let mark = Mark {
                index,
                event,
                words: figure.told.words(index),
                look: look_of(figure, index),
                number: digits_width(ticket),
            };
            draw_event(sheet, figure, &mut scratch, mark, ticket)?;
        }
    }
    Ok(())
}

/// Draws the event, which has the ticket.
fn draw_event(
    sheet: &mut Sheet,
    figure: &Figure<'_>,
    scratch: &mut Scratch,
    mark: Mark<'_>,
    ticket: u64,
) -> Result<(), AllocError> {
    let actions = figure.scene.actions(mark.index);
    let Some(ends) = ends_of(figure.columns, actions, mark.event) else {
        return Ok(());
    };
    scratch.tell_ticket(ticket, ends.second.is_some())?;
    if mark.look.under == Ink::Chosen {
        draw_choice(sheet, figure, mark)?;
    }
    match ends.second {
        Some(second) => draw_pair(sheet, figure, scratch, mark, ends, second),
        None => draw_single(sheet, figure, scratch, mark, ends.first),
    }
}

/// How the event at an index is drawn: where one is asked for, and it is this, as the chosen one. A consequence is
/// hollow with a broken edge, so that it is told from a cause without colours too.
fn look_of(figure: &Figure<'_>, index: usize) -> Look {
    let ink = figure.ink(index);
    let is_chosen = !figure.inks.is_empty() && ink == Ink::Dark;
    let is_consequence = ink == Ink::Consequence;
    Look {
        ink,
        fill: if is_consequence { Ink::White } else { ink },
        dash: if is_consequence {
            Dash::Parts
        } else {
            Dash::Whole
        },
        end: if is_consequence {
            Dash::Fine
        } else {
            Dash::Short
        },
        soft: ink.or(Ink::Soft),
        under: if is_chosen { Ink::Chosen } else { Ink::White },
    }
}

/// Draws what lies behind the event that is asked for, as high as its track has room.
fn draw_choice(sheet: &mut Sheet, figure: &Figure<'_>, mark: Mark<'_>) -> Result<(), AllocError> {
    let (low, high) = figure.rows.reach(mark.index);
    let (above, height) = if mark.event.kind == Kind::Assign {
        (95, 180)
    } else if is_tall(mark.event) {
        (140, 200)
    } else {
        (80, 150)
    };
    let area = Area {
        x: low.saturating_sub(20),
        y: figure.rows.height(mark.index).saturating_sub(above),
        width: high.saturating_sub(low).saturating_add(40),
        height,
    };
    sheet.area(area, Ink::Chosen, Ink::Dark, Dash::Whole)
}

/// How far to the right a place is that lies so far beside a point, at its right or its left.
fn beside(point: Point, right: bool, by: u64) -> u64 {
    if right {
        point.x.saturating_add(by)
    } else {
        point.x.saturating_sub(by)
    }
}

/// A style of words beside a mark.
fn words_style(ink: Ink, is_small: bool, right: bool, under: Ink) -> Style {
    Style {
        ink,
        is_small,
        is_bold: false,
        anchor: if right { Anchor::Start } else { Anchor::End },
        under: Some(under),
    }
}

/// Draws an event with one action.
fn draw_single(
    sheet: &mut Sheet,
    figure: &Figure<'_>,
    scratch: &mut Scratch,
    mark: Mark<'_>,
    column: usize,
) -> Result<(), AllocError> {
    let at = figure.point(column, mark.index);
    let look = mark.look;
    match mark.event.kind {
        Kind::Assign => sheet.square(at, look.fill, look.ink, look.dash)?,
        Kind::Turn => sheet.circle(at, 30, Ink::White, look.ink, look.dash)?,
        _ => sheet.diamond(at, look.ink, look.dash)?,
    }
    let quiet = is_quiet(mark.event);
    let ink = if quiet { look.soft } else { look.ink };
    let room = figure.columns.room_beside(column, mark.number);
    let label = Point {
        x: beside(at, true, 90),
        y: at.y.saturating_add(40),
    };
    let style = words_style(ink, quiet, true, look.under);
    scratch.write_label(sheet, mark.words, label, room, style)?;
    let ticket = Point {
        x: beside(at, false, 100),
        y: at.y.saturating_add(30),
    };
    let style = words_style(look.soft, true, false, look.under);
    sheet.words(ticket, scratch.number.as_slice(), style)
}

/// Draws an event with two actions.
fn draw_pair(
    sheet: &mut Sheet,
    figure: &Figure<'_>,
    scratch: &mut Scratch,
    mark: Mark<'_>,
    ends: Ends,
    second: usize,
) -> Result<(), AllocError> {
    let from = figure.point(ends.first, mark.index);
    let to = figure.point(second, mark.index);
    if mark.event.kind == Kind::Close {
        return sheet.line(from, to, mark.look.ink, 10, mark.look.end);
    }
    draw_ends(sheet, mark, from, to)?;
    let own = figure.point(ends.own, mark.index);
    let right = own.x <= from.x.min(to.x);
    let y = own.y.saturating_sub(40);
    let ticket = Point {
        x: beside(own, right, 120),
        y,
    };
    let style = words_style(mark.look.soft, true, right, mark.look.under);
    sheet.words(ticket, scratch.number.as_slice(), style)?;
    let by = mark.number.saturating_add(SMALL_LETTER);
    let label = Point {
        x: beside(own, right, by.saturating_add(180)),
        y,
    };
    let room = room_between(from.x, to.x, mark.number);
    let style = words_style(mark.look.ink, false, right, mark.look.under);
    scratch.write_label(sheet, mark.words, label, room, style)?;
    let to_right = to.x > from.x;
    let stored = Point {
        x: beside(to, to_right, 80),
        y: to.y.saturating_add(30),
    };
    let style = words_style(mark.look.soft, true, to_right, mark.look.under);
    sheet.words(stored, mark.words.stored, style)
}

/// Draws the line between two actions, and its ends.
fn draw_ends(sheet: &mut Sheet, mark: Mark<'_>, from: Point, to: Point) -> Result<(), AllocError> {
    let look = mark.look;
    sheet.line(from, to, look.ink, 17, look.dash)?;
    sheet.circle(from, 32, look.fill, look.ink, look.dash)?;
    if mark.event.value.is_some() {
        sheet.arrow(to, to.x > from.x, look.ink)
    } else {
        sheet.circle(to, 32, look.fill, look.ink, look.dash)
    }
}
