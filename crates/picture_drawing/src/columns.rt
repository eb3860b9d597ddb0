// The columns: a lane each, so far apart that the labels fit.
use crate::figure::{Ends, Scene, ends_of, is_quiet};
use crate::labels::{Told, Words, group_title, tell_lane};
use crate::sheet::{LETTER, SMALL_LETTER};
use crate::shown::Shown;
use picture_data::{Actions, Lane, LaneKind, Place};
use runs::Event;
use std::alloc::{AllocError, Global};

/// Where the first column stands at least, in tenths of a pixel, and where what stands at its left begins at least:
/// behind the numbers of rows.
const LEFT: u64 = 620;

pub(crate) const EDGE: u64 = 340;

/// What is left, beside a label and the ticket, between an event with one action and the next column, and between the
/// two columns of others.
const BESIDE: u64 = 240;

const BETWEEN: u64 = 360;

/// The columns.
#[derive(Drop)]
pub(crate) struct Columns {
    /// the column of each lane, by the index of the lane
    of_lane: Vec<Option<usize>>,
    /// the lane of each column
    pub(crate) lanes: Vec<usize>,
    /// where each column stands, and behind the last where the drawing ends
    at: Vec<u64>,
}

impl Columns {
    /// The column of the lane, if it has one.
    pub(crate) fn of(&self, lane: Option<usize>) -> Option<usize> {
        match self.of_lane.get(lane?) {
            Some(column) => *column,
            None => None,
        }
    }

    /// Where the column stands.
    pub(crate) fn at(&self, column: usize) -> u64 {
        self.at.get(column).copied().unwrap_or(LEFT)
    }

    /// How wide the label of an event with one action in the column may be, with a ticket that is so wide.
    pub(crate) fn room_beside(&self, column: usize, number: u64) -> u64 {
        self.at(column.saturating_add(1))
            .saturating_sub(self.at(column))
            .saturating_sub(number)
            .saturating_sub(BESIDE)
    }

    /// Where the last column ends.
    pub(crate) fn right(&self) -> u64 {
        self.at.as_slice().last().copied().unwrap_or(LEFT)
    }

    /// How many there are.
    pub(crate) fn len(&self) -> usize {
        self.lanes.len()
    }

    /// The lane of the column.
    pub(crate) fn lane<'a>(&self, scene: &Scene<'a>, column: usize) -> Option<&'a Lane> {
        scene.picture.lanes.get(*self.lanes.get(column)?)
    }
}

/// The room for a label beside which so much is left: so much in all at most, but that the value is whole.
fn label_room(words: Words<'_>, is_small: bool, beside: u64, most: u64) -> u64 {
    let wanted = words.width(is_small).saturating_add(beside);
    let least = words.least_width(is_small).saturating_add(beside);
    wanted.min(most.max(least))
}

/// How wide the label of an event with two actions may be that stand there, with a ticket that is so wide.
pub(crate) fn room_between(one: u64, other: u64, number: u64) -> u64 {
    one.abs_diff(other)
        .saturating_sub(number)
        .saturating_sub(BETWEEN)
}

/// The room that is wanted between two columns: from the one that stands further to the left to the other.
#[derive(Clone, Copy, Debug, PartialEq, Eq, PartialOrd, Ord)]
struct Span {
    right: usize,
    left: usize,
    room: u64,
}

/// The block of a lane, if it has one.
pub(crate) fn block_of(lane: &Lane) -> Option<usize> {
    match lane.kind {
        LaneKind::Body(block) => Some(block),
        LaneKind::Input(_) | LaneKind::Output(_) | LaneKind::Handshakes(_) => None,
    }
}

/// What the columns have to have room for.
#[derive(Drop)]
struct Needs {
    /// where the first column stands at least
    left: u64,
    /// how wide each column is at least
    widths: Vec<u64>,
    spans: Vec<Span>,
}

impl Needs {
    /// Makes a column at least so wide.
    fn widen(&mut self, column: usize, room: u64) {
        if let Some(width) = self.widths.get_mut(column) {
            *width = (*width).max(room);
        }
    }

    /// Sees that so much has room at the left of a column, as far as that is the first.
    fn widen_left(&mut self, column: usize, room: u64) {
        if column == 0 {
            self.left = self.left.max(room.saturating_add(EDGE));
        }
    }

    /// Notes the room that an event wants, whose ticket is so wide.
    fn add_event(
        &mut self,
        event: &Event,
        ends: Ends,
        words: Words<'_>,
        number: u64,
    ) -> Result<(), AllocError> {
        let Some(second) = ends.second else {
            let beside = number.saturating_add(BESIDE);
            let room = label_room(words, is_quiet(event), beside, 1700);
            self.widen(ends.first, room);
            self.widen_left(ends.first, number.saturating_add(100));
            return Ok(());
        };
        self.add_stored(ends.first, second, words.stored);
        // Some pixels more than the label takes.
        let beside = number.saturating_add(BETWEEN).saturating_add(60);
        self.spans.push(Span {
            right: ends.first.max(second),
            left: ends.first.min(second),
            room: label_room(words, false, beside, 1500),
        })?;
        Ok(())
    }

    /// Notes the room for the name of the variable into which the second column receives, which stands at its far side.
    fn add_stored(&mut self, first: usize, second: usize, name: &[u8]) {
        if name.is_empty() {
            return;
        }
        let width = text_width(name, true);
        if second > first {
            self.widen(second, width.saturating_add(220));
        } else {
            self.widen(second.saturating_sub(1), width.saturating_add(220));
            self.widen_left(second, width.saturating_add(80));
        }
    }
}

/// The columns of the run.
pub(crate) fn columns_of(
    alloc: Global,
    scene: &Scene<'_>,
    shown: &Shown,
    told: &Told,
) -> Result<Columns, AllocError> {
    let used = used_lanes(alloc, scene)?;
    let mut columns = numbered(alloc, used.as_slice())?;
    set_apart(alloc, &mut columns, scene, shown, told)?;
    Ok(columns)
}

/// Which lanes have a column.
fn used_lanes(alloc: Global, scene: &Scene<'_>) -> Result<Vec<bool>, AllocError> {
    let picture = scene.picture;
    let mut used = vec![in alloc; false; picture.lanes.len()]?;
    mark_first(used.as_mut_slice(), picture.lanes.as_slice());
    mark_actions(used.as_mut_slice(), picture.steps.actions.as_slice());
    mark_actions(used.as_mut_slice(), picture.end.ready_actions.as_slice());
    mark_places(used.as_mut_slice(), picture.end.places.as_slice());
    Ok(used)
}

/// The columns of these lanes, without where they stand.
fn numbered(alloc: Global, used: &[bool]) -> Result<Columns, AllocError> {
    let mut of_lane = Vec::with_capacity(alloc, used.len())?;
    let mut lanes = Vec::new(alloc);
    for (lane, is_used) in used.iter().enumerate() {
        if *is_used {
            of_lane.push(Some(lanes.len()))?;
            lanes.push(lane)?;
        } else {
            of_lane.push(None)?;
        }
    }
    Ok(Columns {
        of_lane,
        lanes,
        at: Vec::new(alloc),
    })
}

/// Marks the lane, if there is one.
fn mark(used: &mut [bool], lane: Option<usize>) {
    if let Some(lane) = lane {
        if lane < used.len() {
            used[lane] = true;
        }
    }
}

/// Marks the first lane of each block, so that each is seen.
fn mark_first(used: &mut [bool], lanes: &[Lane]) {
    let mut before = None;
    for (index, lane) in lanes.iter().enumerate() {
        let block = block_of(lane);
        if block.is_none() || block != before {
            mark(used, Some(index));
        }
        before = block;
    }
}

/// Marks the lanes of events.
fn mark_actions(used: &mut [bool], actions: &[Actions]) {
    for one in actions {
        mark(used, one.first_lane);
        mark(used, one.second_lane);
    }
}

/// Marks the lanes of places.
fn mark_places(used: &mut [bool], places: &[Place]) {
    for place in places {
        mark(used, place.lane);
    }
}

/// Puts the columns so far apart that what stands between them fits.
fn set_apart(
    alloc: Global,
    columns: &mut Columns,
    scene: &Scene<'_>,
    shown: &Shown,
    told: &Told,
) -> Result<(), AllocError> {
    let mut needs = Needs {
        left: LEFT,
        widths: vec![in alloc; 420; columns.len()]?,
        spans: Vec::new(alloc),
    };
    for (index, (ticket, event)) in scene.live.iter().enumerate() {
        if shown.is_marked(index) {
            if let Some(ends) = ends_of(columns, scene.actions(index), event) {
                needs.add_event(event, ends, told.words(index), digits_width(ticket))?;
            }
        }
    }
    add_heads(alloc, columns, scene, &mut needs)?;
    needs.spans.sort_unstable();
    columns.at = places_of(alloc, &needs)?;
    Ok(())
}

/// How wide the ticket is.
pub(crate) fn digits_width(ticket: u64) -> u64 {
    let mut left = ticket / 10;
    let mut width = SMALL_LETTER;
    for _ in 0..20 {
        if left == 0 {
            break;
        }
        left /= 10;
        width = width.saturating_add(SMALL_LETTER);
    }
    width
}

/// How wide a text is.
pub(crate) fn text_width(text: &[u8], is_small: bool) -> u64 {
    (text.len() as u64).saturating_mul(if is_small { SMALL_LETTER } else { LETTER })
}

/// Notes the room that the titles of blocks want, and the words over each column.
fn add_heads(
    alloc: Global,
    columns: &Columns,
    scene: &Scene<'_>,
    needs: &mut Needs,
) -> Result<(), AllocError> {
    let mut text = Vec::new(alloc);
    let mut first = 0;
    for column in 0..columns.len() {
        tell_lane(columns.lane(scene, column), column == first, &mut text)?;
        needs.widen(column, text_width(text.as_slice(), true).saturating_add(28));
        if ends_group(columns, &scene.picture.lanes, column) {
            group_title(scene, columns.lanes.get(first).copied(), &mut text)?;
            let room = text_width(text.as_slice(), false).saturating_add(200);
            needs.spans.push(Span {
                right: column.saturating_add(1),
                left: first,
                room: room.min(1500),
            })?;
            first = column.saturating_add(1);
        }
    }
    Ok(())
}

/// Whether the next column is one of another block.
pub(crate) fn ends_group(columns: &Columns, lanes: &Vec<Lane>, column: usize) -> bool {
    let own = block_at(columns, lanes, column);
    own.is_none() || own != block_at(columns, lanes, column.saturating_add(1))
}

/// The block of the lane of a column, if there is one.
fn block_at(columns: &Columns, lanes: &Vec<Lane>, column: usize) -> Option<usize> {
    let lane = columns.lanes.get(column)?;
    block_of(lanes.get(*lane)?)
}

/// Where the columns stand, and where the last ends: at whole pixels.
fn places_of(alloc: Global, needs: &Needs) -> Result<Vec<u64>, AllocError> {
    let mut at = Vec::with_capacity(alloc, needs.widths.len().saturating_add(1))?;
    at.push(whole_pixels(needs.left))?;
    let mut next = 0;
    for (column, width) in needs.widths.as_slice().iter().enumerate() {
        let right = column.saturating_add(1);
        let end = end_of(at.as_slice(), column, *width);
        let (place, behind) = pushed(at.as_slice(), needs.spans.as_slice(), next, right, end);
        at.push(whole_pixels(place))?;
        next = behind;
    }
    Ok(at)
}

/// The same, or the next whole pixel.
pub(crate) fn whole_pixels(tenths: u64) -> u64 {
    tenths.saturating_add(9) / 10 * 10
}

/// Where the column ends that is so wide.
fn end_of(at: &[u64], column: usize, need: u64) -> u64 {
    at.get(column).copied().unwrap_or(LEFT).saturating_add(need)
}

/// Where the column stands, at least there, as the spans from `next` on want it; and the first span of another.
fn pushed(at: &[u64], spans: &[Span], next: usize, column: usize, least: u64) -> (u64, usize) {
    let mut place = least;
    for index in next..spans.len() {
        let span = spans[index];
        if span.right != column {
            return (place, index);
        }
        place = place.max(end_of(at, span.left, span.room));
    }
    (place, spans.len())
}
