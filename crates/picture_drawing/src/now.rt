// What stands at the end: the events that can be taken, and what waits for whom.
use crate::figure::{Ends, Figure, Scene, ends_of};
use crate::ink::{Dash, Ink};
use crate::labels::{Teller, add_cut};
use crate::sheet::{Anchor, LETTER, Point, Sheet, Style};
use picture_data::{LaneKind, Place, Role};
use runs::{Event, Kind};
use std::alloc::{AllocError, Global};

/// How high a line of it is, and how far under the last row it begins, in tenths of a pixel.
const LINE: u64 = 220;

const GAP: u64 = 260;

/// Whether the place is shown as one that waits.
fn is_shown(scene: &Scene<'_>, place: &Place) -> bool {
    !place.is_ready && place.role != Role::Goes && is_in_body(scene, place.lane)
}

/// Whether the lane is one of a branch.
fn is_in_body(scene: &Scene<'_>, lane: Option<usize>) -> bool {
    let Some(lane) = lane else {
        return false;
    };
    match scene.picture.lanes.get(lane) {
        Some(lane) => match lane.kind {
            LaneKind::Body(_) => true,
            _ => false,
        },
        None => false,
    }
}

/// Where the drawing ends whose rows end there.
pub(crate) fn bottom_of(scene: &Scene<'_>, rows_end: u64) -> u64 {
    let mut lines = scene.picture.end.ready.len() as u64;
    for place in scene.picture.end.places.as_slice() {
        if is_shown(scene, place) {
            lines = lines.saturating_add(1);
        }
    }
    if lines == 0 {
        return rows_end.saturating_add(60);
    }
    let height = lines.saturating_mul(LINE).saturating_add(200);
    rows_end.saturating_add(GAP).saturating_add(height)
}

/// Draws what stands at the end.
pub(crate) fn draw_now(
    alloc: Global,
    sheet: &mut Sheet,
    figure: &Figure<'_>,
) -> Result<(), AllocError> {
    let start = figure.rows.bottom.saturating_add(GAP);
    if figure.bottom <= start {
        return Ok(());
    }
    draw_edge(sheet, start)?;
    let mut height = start.saturating_add(140);
    let mut teller = Teller::new(alloc);
    let mut text = Vec::new(alloc);
    for (index, event) in figure.scene.picture.end.ready.as_slice().iter().enumerate() {
        tell_ready(figure, &mut teller, &mut text, index, event)?;
        draw_ready(sheet, figure, text.as_slice(), index, event, height)?;
        height = height.saturating_add(LINE);
    }
    draw_places(alloc, sheet, figure, height)
}

/// Draws the line under the rows.
fn draw_edge(sheet: &mut Sheet, start: u64) -> Result<(), AllocError> {
    sheet.edge(start.saturating_sub(110), Ink::Faint)?;
    let at = Point {
        x: 300,
        y: start.saturating_sub(20),
    };
    sheet.words(at, b"now", Style::on_paper(Ink::Soft, true, Anchor::End))
}

/// Writes words at the right of a mark.
fn words_beside(
    sheet: &mut Sheet,
    x: u64,
    y: u64,
    text: &[u8],
    ink: Ink,
) -> Result<(), AllocError> {
    let at = Point {
        x: x.saturating_add(90),
        y,
    };
    sheet.words(at, text, Style::on_paper(ink, false, Anchor::Start))
}

/// Makes the text that of the event at an index of those that can be taken.
fn tell_ready(
    figure: &Figure<'_>,
    teller: &mut Teller,
    text: &mut Vec<u8>,
    index: usize,
    event: &Event,
) -> Result<(), AllocError> {
    text.clear();
    if let Some(actions) = figure.scene.picture.end.ready_actions.get(index) {
        teller.tell(&figure.scene, event, *actions)?;
        text.extend_from_slice(verb(event.kind))?;
        teller.words().add_label(text, 2400, LETTER)?;
    }
    Ok(())
}

/// What is written before the words of such an event.
fn verb(kind: Kind) -> &'static [u8] {
    match kind {
        Kind::Meet => b"meet ",
        Kind::Open => b"open ",
        Kind::Close => b"close",
        Kind::Sync => b"sync ",
        Kind::Assign | Kind::Test | Kind::Turn => b"",
    }
}

/// The columns of the event at an index of those that can be taken.
fn ready_ends(figure: &Figure<'_>, index: usize, event: &Event) -> Option<Ends> {
    let actions = figure.scene.picture.end.ready_actions.get(index)?;
    ends_of(figure.columns, *actions, event)
}

/// Draws an event that can be taken, at this height.
fn draw_ready(
    sheet: &mut Sheet,
    figure: &Figure<'_>,
    text: &[u8],
    index: usize,
    event: &Event,
    y: u64,
) -> Result<(), AllocError> {
    let Some(ends) = ready_ends(figure, index, event) else {
        return Ok(());
    };
    let from = Point {
        x: figure.columns.at(ends.first),
        y,
    };
    let Some(second) = ends.second else {
        sheet.circle(from, 40, Ink::White, Ink::Ready, Dash::Whole)?;
        return words_beside(sheet, from.x, y.saturating_add(40), text, Ink::Ready);
    };
    let to = Point {
        x: figure.columns.at(second),
        y,
    };
    sheet.line(from, to, Ink::Ready, 16, Dash::Short)?;
    sheet.circle(to, 40, Ink::White, Ink::Ready, Dash::Whole)?;
    sheet.circle(from, 40, Ink::White, Ink::Ready, Dash::Whole)?;
    let left = from.x.min(to.x);
    words_beside(sheet, left, y.saturating_sub(60), text, Ink::Ready)
}

/// Draws the places that wait, from this height on.
fn draw_places(
    alloc: Global,
    sheet: &mut Sheet,
    figure: &Figure<'_>,
    from: u64,
) -> Result<(), AllocError> {
    let end = &figure.scene.picture.end;
    let partners = ring_partners(alloc, end.places.len(), end.ring.as_slice())?;
    let mut y = from;
    let mut text = Vec::new(alloc);
    for (index, place) in end.places.as_slice().iter().enumerate() {
        if is_shown(&figure.scene, place) {
            let partner = partners.get(index).copied().unwrap_or(None);
            tell_place(figure, place, &mut text)?;
            draw_place(sheet, figure, place, partner, text.as_slice(), y)?;
            y = y.saturating_add(LINE);
        }
    }
    Ok(())
}

/// For which place of the ring each waits.
fn ring_partners(
    alloc: Global,
    count: usize,
    ring: &[usize],
) -> Result<Vec<Option<usize>>, AllocError> {
    let mut partners = vec![in alloc; None; count]?;
    for (index, place) in ring.iter().enumerate() {
        let next = ring
            .get(index.saturating_add(1))
            .copied()
            .or(ring.first().copied());
        if *place < partners.len() {
            partners[*place] = next;
        }
    }
    Ok(partners)
}

/// Draws a place that waits: in a ring for that partner, and else for all that it wants.
fn draw_place(
    sheet: &mut Sheet,
    figure: &Figure<'_>,
    place: &Place,
    partner: Option<usize>,
    text: &[u8],
    y: u64,
) -> Result<(), AllocError> {
    let Some(column) = figure.columns.of(place.lane) else {
        return Ok(());
    };
    let at = Point {
        x: figure.columns.at(column),
        y,
    };
    let ink = match partner {
        Some(partner) => {
            draw_arrow(sheet, figure, at, lane_of_place(figure, partner), true)?;
            Ink::Ring
        }
        None => {
            draw_arrows(sheet, figure, at, place)?;
            Ink::Soft
        }
    };
    sheet.square(at, Ink::White, ink, Dash::Whole)?;
    words_beside(sheet, at.x, y.saturating_sub(60), text, ink)
}

/// The lane of the place at an index.
fn lane_of_place(figure: &Figure<'_>, index: usize) -> Option<usize> {
    figure.scene.picture.end.places.get(index)?.lane
}

/// Draws the arrows to all for which the place waits, which stands there.
fn draw_arrows(
    sheet: &mut Sheet,
    figure: &Figure<'_>,
    at: Point,
    place: &Place,
) -> Result<(), AllocError> {
    for wanted in place.wanted.as_slice() {
        draw_wanted(sheet, figure, at, wanted.lanes.as_slice())?;
    }
    Ok(())
}

/// Draws the arrows to these lanes.
fn draw_wanted(
    sheet: &mut Sheet,
    figure: &Figure<'_>,
    at: Point,
    lanes: &[usize],
) -> Result<(), AllocError> {
    for lane in lanes {
        draw_arrow(sheet, figure, at, Some(*lane), false)?;
    }
    Ok(())
}

/// Draws the arrow to a lane, if that is another.
fn draw_arrow(
    sheet: &mut Sheet,
    figure: &Figure<'_>,
    at: Point,
    lane: Option<usize>,
    is_ring: bool,
) -> Result<(), AllocError> {
    let Some(column) = figure.columns.of(lane) else {
        return Ok(());
    };
    let to = Point {
        x: figure.columns.at(column),
        y: at.y,
    };
    if to.x == at.x {
        return Ok(());
    }
    let (ink, width, dash) = if is_ring {
        (Ink::Ring, 24, Dash::Whole)
    } else {
        (Ink::Soft, 13, Dash::Long)
    };
    sheet.line(at, to, ink, width, dash)?;
    sheet.arrow(to, to.x > at.x, ink)
}

/// Makes the text that of the place: the channels on which it waits.
fn tell_place(figure: &Figure<'_>, place: &Place, text: &mut Vec<u8>) -> Result<(), AllocError> {
    text.clear();
    if place.role == Role::Held {
        text.extend_from_slice(b"held ")?;
    }
    let mut none_comes = true;
    for (index, wanted) in place.wanted.as_slice().iter().enumerate() {
        none_comes = none_comes && !wanted.can_come;
        if index > 0 {
            text.extend_from_slice(b" | ")?;
        }
        add_channel(figure, wanted.channel, text)?;
    }
    if none_comes && !place.wanted.is_empty() {
        text.extend_from_slice(never(place.role))?;
    }
    Ok(())
}

/// What is said of a place whose partner never comes.
fn never(role: Role) -> &'static [u8] {
    if role == Role::Held {
        b" (for ever)"
    } else {
        b" (none comes)"
    }
}

/// Adds the name of a channel, or its beginning.
fn add_channel(figure: &Figure<'_>, channel: u32, text: &mut Vec<u8>) -> Result<(), AllocError> {
    match figure.scene.names.channel(channel) {
        Some(name) => add_cut(text, name.whole, 1600, LETTER),
        None => Ok(()),
    }
}
