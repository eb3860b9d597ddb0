// The rows: one for each depth, and in a row so many tracks that no two labels meet.
use crate::columns::{Columns, digits_width, text_width};
use crate::figure::{Ends, Scene, ends_of, is_quiet};
use crate::labels::{Told, Words};
use crate::race_names::{RaceName, names_of};
use crate::shown::{Shown, Standing};
use crate::tracks::{Band, Level, Placed, Tracks};
use runs::{Event, Kind};
use std::alloc::{AllocError, Global};

/// How deep an event stands.
#[derive(Clone, Copy, Debug, PartialEq, Eq, PartialOrd, Ord)]
pub(crate) struct Depth {
    /// how many events with marks are in the longest chain of those that led to it
    pub(crate) row: usize,
    /// how many points are behind the last of them
    points: usize,
}

/// The depth at an index.
pub(crate) fn depth_at(depths: &[Depth], index: usize) -> Depth {
    depths
        .get(index)
        .copied()
        .unwrap_or(Depth { row: 0, points: 0 })
}

/// The rows.
#[derive(Drop)]
pub(crate) struct Rows {
    /// how deep each event stands, by its index
    depths: Vec<Depth>,
    /// how far down each event stands, and behind them each name; 0 where it is not drawn
    heights: Vec<u64>,
    /// where each row begins
    pub(crate) tops: Vec<(usize, u64)>,
    /// where the last one ends
    pub(crate) bottom: u64,
    /// from where to where an event reaches with its words
    reaches: Vec<(u64, u64)>,
    pub(crate) names: Vec<RaceName>,
}

impl Rows {
    /// How far down the event stands.
    pub(crate) fn height(&self, index: usize) -> u64 {
        self.heights.get(index).copied().unwrap_or(0)
    }

    /// How far down the name stands.
    pub(crate) fn name_height(&self, name: usize) -> u64 {
        self.height(self.depths.len().saturating_add(name))
    }

    /// The row of the event.
    pub(crate) fn row(&self, index: usize) -> usize {
        depth_at(self.depths.as_slice(), index).row
    }

    /// From where to where it reaches.
    pub(crate) fn reach(&self, index: usize) -> (u64, u64) {
        self.reaches.get(index).copied().unwrap_or((0, 0))
    }
}

/// The rows of the run.
pub(crate) fn rows_of(
    alloc: Global,
    scene: &Scene<'_>,
    shown: &Shown,
    columns: &Columns,
    told: &Told,
) -> Result<Rows, AllocError> {
    let depths = depths_of(alloc, scene, shown)?;
    let names = names_of(alloc, scene, shown, columns, depths.as_slice())?;
    let reaches = reaches_of(alloc, scene, shown, columns, told)?;
    let mut placed = placed_of(alloc, scene, shown, depths.as_slice(), reaches.as_slice())?;
    add_names(&mut placed, depths.as_slice(), names.as_slice())?;
    placed.sort_unstable();
    stacked(alloc, placed.as_slice(), depths, reaches, names)
}

/// The rows with these tracks, where all is placed.
fn stacked(
    alloc: Global,
    placed: &[Placed],
    depths: Vec<Depth>,
    reaches: Vec<(u64, u64)>,
    names: Vec<RaceName>,
) -> Result<Rows, AllocError> {
    let tracks = Tracks::of(alloc, placed)?;
    let mut heights = vec![in alloc; 0; depths.len().saturating_add(names.len())]?;
    tracks.set_heights(placed, heights.as_mut_slice());
    let (tops, bottom) = tracks.into_tops();
    Ok(Rows {
        depths,
        heights,
        tops,
        bottom,
        reaches,
        names,
    })
}

/// How deep each event stands.
fn depths_of(alloc: Global, scene: &Scene<'_>, shown: &Shown) -> Result<Vec<Depth>, AllocError> {
    let top = Depth { row: 0, points: 0 };
    let mut depths = vec![in alloc; top; shown.len()]?;
    for index in 0..shown.len() {
        let own = depth_at(depths.as_slice(), index);
        let behind = match shown.standing(index) {
            Standing::Marked => Depth {
                row: own.row.saturating_add(1),
                points: 0,
            },
            Standing::Point => Depth {
                row: own.row,
                points: own.points.saturating_add(1),
            },
            Standing::Hidden => own,
        };
        push_down(depths.as_mut_slice(), index, scene.ahead(index), behind);
    }
    Ok(depths)
}

/// Puts the events that stand so far ahead at least so deep.
fn push_down(depths: &mut [Depth], index: usize, ahead: &[usize], depth: Depth) {
    for far in ahead {
        let later = index.saturating_add(*far);
        if later < depths.len() {
            depths[later] = depths[later].max(depth);
        }
    }
}

/// From where to where each event reaches.
fn reaches_of(
    alloc: Global,
    scene: &Scene<'_>,
    shown: &Shown,
    columns: &Columns,
    told: &Told,
) -> Result<Vec<(u64, u64)>, AllocError> {
    let mut reaches = Vec::with_capacity(alloc, scene.live.len())?;
    for (index, (ticket, event)) in scene.live.iter().enumerate() {
        let reach = match ends_of(columns, scene.actions(index), event) {
            Some(ends) if shown.is_marked(index) => {
                reach_of(
                    columns,
                    ends,
                    event,
                    told.words(index),
                    digits_width(ticket),
                )
            }
            Some(ends) => around(columns.at(ends.first)),
            None => (0, 0),
        };
        reaches.push(reach)?;
    }
    Ok(reaches)
}

/// From where to where a point reaches.
fn around(x: u64) -> (u64, u64) {
    (x.saturating_sub(40), x.saturating_add(40))
}

/// From where to where an event reaches with these words and a ticket that is so wide.
fn reach_of(
    columns: &Columns,
    ends: Ends,
    event: &Event,
    words: Words<'_>,
    number: u64,
) -> (u64, u64) {
    let first = columns.at(ends.first);
    let Some(second) = ends.second else {
        let room = columns.room_beside(ends.first, number);
        let label = words.width(is_quiet(event)).min(room);
        return (
            first.saturating_sub(number).saturating_sub(120),
            first.saturating_add(label).saturating_add(100),
        );
    };
    let second = columns.at(second);
    let low = first.min(second).saturating_sub(40);
    let high = first.max(second).saturating_add(40);
    if words.stored.is_empty() {
        return (low, high);
    }
    let stored = text_width(words.stored, true).saturating_add(100);
    if second > first {
        (low, high.saturating_add(stored))
    } else {
        (low.saturating_sub(stored), high)
    }
}

/// The events that are drawn.
fn placed_of(
    alloc: Global,
    scene: &Scene<'_>,
    shown: &Shown,
    depths: &[Depth],
    reaches: &[(u64, u64)],
) -> Result<Vec<Placed>, AllocError> {
    let mut placed = Vec::new(alloc);
    for (index, (_, event)) in scene.live.iter().enumerate() {
        if shown.is_there(index) {
            let is_point = !shown.is_marked(index);
            let Depth { row, points } = depth_at(depths, index);
            let level = if is_point {
                Level::Points(points)
            } else {
                Level::Events
            };
            let (low, high) = reaches.get(index).copied().unwrap_or((0, 0));
            placed.push(Placed {
                band: Band { row, level },
                low,
                index,
                high,
                // A point has room above for the curves that meet there.
                is_tall: is_point || is_tall(event),
            })?;
        }
    }
    Ok(placed)
}

/// Adds the names, as if they stood behind the events.
fn add_names(
    placed: &mut Vec<Placed>,
    depths: &[Depth],
    names: &[RaceName],
) -> Result<(), AllocError> {
    for (index, name) in names.iter().enumerate() {
        placed.push(Placed {
            band: Band {
                row: depth_at(depths, name.event).row,
                level: Level::Names,
            },
            low: name.low,
            index: depths.len().saturating_add(index),
            high: name.high,
            is_tall: false,
        })?;
    }
    Ok(())
}

/// Whether the event takes a whole track.
pub(crate) fn is_tall(event: &Event) -> bool {
    match event.kind {
        Kind::Turn | Kind::Test | Kind::Close => false,
        _ => true,
    }
}
