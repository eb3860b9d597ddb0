// The line of each lane, from event to event.
ghost use Rattle.std.specs.Prelude.{◌≤◌, length};

use crate::figure::{Figure, ends_of};
use crate::ink::{Dash, Ink};
use crate::sheet::{Point, Sheet};
use address::{Address, Entry};
use runs::Event;
use std::alloc::{AllocError, Global};

/// How far down the lanes begin, in tenths of a pixel.
pub(crate) const HEAD: u64 = 540;

/// A line of a column that may go on.
#[derive(Clone, Copy)]
struct Stretch {
    from: Point,
    to: Point,
    ink: Ink,
    dash: Dash,
}

impl Stretch {
    /// Both as one, if the other goes on from this one and looks as it does.
    fn with(self, other: Stretch) -> Option<Stretch> {
        if self.to.y == other.from.y && self.ink == other.ink && self.dash == other.dash {
            Some(Stretch {
                to: other.to,
                ..self
            })
        } else {
            None
        }
    }

    /// Draws it.
    fn draw(self, sheet: &mut Sheet) -> Result<(), AllocError> {
        sheet.line(self.from, self.to, self.ink, 20, self.dash)
    }
}

/// How far the line of a column has come.
#[derive(Clone, Copy)]
struct Trail {
    /// the last event in it, and whether that is there with its second place
    last: Option<(usize, bool)>,
    /// the last one that is drawn
    drawn: Option<usize>,
    /// each event since that one belongs to the same turn of the branch as the one before it, or follows it
    is_joined: bool,
    /// what is not drawn yet
    stretch: Option<Stretch>,
}

/// Draws the lines of all lanes.
pub(crate) fn draw_trails(
    alloc: Global,
    sheet: &mut Sheet,
    figure: &Figure<'_>,
) -> Result<(), AllocError> {
    let start = Trail {
        last: None,
        drawn: None,
        is_joined: true,
        stretch: None,
    };
    let mut trails = vec![in alloc; start; figure.columns.len()]?;
    for (index, (_, event)) in figure.scene.live.iter().enumerate() {
        if let Some(ends) = ends_of(figure.columns, figure.scene.actions(index), event) {
            follow(
                sheet,
                figure,
                trails.as_mut_slice(),
                ends.first,
                index,
                false,
            )?;
            if let Some(second) = ends.second {
                follow(sheet, figure, trails.as_mut_slice(), second, index, true)?;
            }
        }
    }
    draw_stretches(sheet, trails.as_slice())?;
    let waits = waiting_columns(alloc, figure, trails.as_slice())?;
    for (column, trail) in trails.as_slice().iter().enumerate() {
        if trail.last.is_none() || waits.get(column).copied().unwrap_or(false) {
            draw_end(sheet, figure, column, *trail)?;
        }
    }
    Ok(())
}

/// The first place of the event, or its second where it has one and that is asked for.
fn place_of(event: &Event, is_second: bool) -> &Address {
    match &event.second {
        Some(second) if is_second => second,
        _ => &event.first,
    }
}

/// Goes on with the line of a column to the event at an index.
fn follow(
    sheet: &mut Sheet,
    figure: &Figure<'_>,
    trails: &mut [Trail],
    column: usize,
    index: usize,
    is_second: bool,
) -> Result<(), AllocError> {
    let Some((_, event)) = figure.scene.live.pair_at(index as u64) else {
        return Ok(());
    };
    if column >= trails.len() {
        return Ok(());
    }
    let trail = trails[column];
    let is_joined = trail.is_joined && goes_on(figure, trail, index, place_of(event, is_second));
    let is_shown = figure.shown.is_there(index);
    trails[column] = Trail {
        last: Some((index, is_second)),
        drawn: if is_shown { Some(index) } else { trail.drawn },
        is_joined: is_shown || is_joined,
        stretch: trail.stretch,
    };
    if is_shown && is_joined {
        let next = stretch_to(figure, column, trail.drawn, index);
        trails[column].stretch = Some(drawn_up_to(sheet, trail.stretch, next)?);
    }
    Ok(())
}

/// What is still to be drawn where this comes next: both as one, and else the next, where what came before is drawn now.
fn drawn_up_to(
    sheet: &mut Sheet,
    before: Option<Stretch>,
    next: Stretch,
) -> Result<Stretch, AllocError> {
    let Some(before) = before else {
        return Ok(next);
    };
    match before.with(next) {
        Some(both) => Ok(both),
        None => {
            before.draw(sheet)?;
            Ok(next)
        }
    }
}

/// Draws what is left.
fn draw_stretches(sheet: &mut Sheet, trails: &[Trail]) -> Result<(), AllocError> {
    for trail in trails {
        if let Some(stretch) = trail.stretch {
            stretch.draw(sheet)?;
        }
    }
    Ok(())
}

/// Whether the event at an index, which stands at the place, goes on from the last one of the trail.
fn goes_on(figure: &Figure<'_>, trail: Trail, index: usize, place: &Address) -> bool {
    let Some((earlier, action)) = trail.last else {
        return is_from_start(branch_turn(place.entries()));
    };
    if figure
        .scene
        .ahead(earlier)
        .contains(&index.saturating_sub(earlier))
    {
        return true;
    }
    match figure.scene.live.pair_at(earlier as u64) {
        Some((_, event)) => {
            branch_turn(place_of(event, action).entries()) == branch_turn(place.entries())
        }
        None => false,
    }
}

/// The part of a place that says which turn of its branch it is in: up to the last number of a branch that is not 0.
fn branch_turn(entries: &[Entry]) -> &[Entry] {
    entries.split_at(turn_length(entries)).0
}

/// How many entries that part has.
fn turn_length(entries: &[Entry]) -> usize
    ensures { result ≤ length entries.now }
{
    let mut length = 0;
    for (index, entry) in entries.iter().enumerate() {
        match entry {
            Entry::Branch(0) | Entry::Ordered(_) => {}
            Entry::Branch(_) => length = index.saturating_add(1),
        }
    }
    length.min(entries.len())
}

/// Whether a branch is there from the start of the run on: nothing comes before it in a sequence.
fn is_from_start(entries: &[Entry]) -> bool {
    for entry in entries {
        match entry {
            Entry::Ordered(0) | Entry::Branch(_) => {}
            Entry::Ordered(_) => return false,
        }
    }
    true
}

/// The line of a column from an event, or from its head, to a later one.
fn stretch_to(figure: &Figure<'_>, column: usize, earlier: Option<usize>, later: usize) -> Stretch {
    let to = figure.point(column, later);
    let row = figure.rows.row(later);
    let Some(earlier) = earlier else {
        let ink = match figure.ink(later) {
            Ink::Cause => Ink::Cause,
            _ => Ink::Faint,
        };
        let dash = if row == 0 { Dash::Whole } else { Dash::Dots };
        return Stretch {
            from: head(figure, column),
            to,
            ink,
            dash,
        };
    };
    let ink = figure.ink_between(earlier, later).or(Ink::Faint);
    let far = row.saturating_sub(figure.rows.row(earlier));
    let dash = if far > 1 { Dash::Dots } else { Dash::Whole };
    Stretch {
        from: figure.point(column, earlier),
        to,
        ink,
        dash,
    }
}

/// Where the line of the column begins.
fn head(figure: &Figure<'_>, column: usize) -> Point {
    Point {
        x: figure.columns.at(column),
        y: HEAD,
    }
}

/// Which columns have a place in the turn of their branch to which their line has come.
fn waiting_columns(
    alloc: Global,
    figure: &Figure<'_>,
    trails: &[Trail],
) -> Result<Vec<bool>, AllocError> {
    let mut waits = vec![in alloc; false; trails.len()]?;
    for place in figure.scene.picture.end.places.as_slice() {
        if let Some(column) = figure.columns.of(place.lane) {
            if column < waits.len() && stands_in(figure, trails, column, &place.place) {
                waits[column] = true;
            }
        }
    }
    Ok(waits)
}

/// Whether the place is in the turn of its branch to which the line of the column has come.
fn stands_in(figure: &Figure<'_>, trails: &[Trail], column: usize, place: &Address) -> bool {
    let Some(trail) = trails.get(column) else {
        return false;
    };
    let Some((last, action)) = trail.last else {
        return true;
    };
    match figure.scene.live.pair_at(last as u64) {
        Some((_, event)) => {
            branch_turn(place_of(event, action).entries()) == branch_turn(place.entries())
        }
        None => false,
    }
}

/// Draws that a branch waits: from the last event of the column, or from its head, to the end.
fn draw_end(
    sheet: &mut Sheet,
    figure: &Figure<'_>,
    column: usize,
    trail: Trail,
) -> Result<(), AllocError> {
    let from = match trail.drawn {
        Some(drawn) => figure.point(column, drawn),
        None => head(figure, column),
    };
    let to = Point {
        x: from.x,
        y: figure.bottom,
    };
    sheet.line(from, to, Ink::Faint, 20, Dash::Dots)
}
