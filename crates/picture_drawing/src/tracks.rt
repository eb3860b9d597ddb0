// The tracks of the rows.
use std::alloc::{AllocError, Global};
use std::cmp::Reverse;
use std::collections::BinaryHeap;

/// Where the first row begins, in tenths of a pixel; how high a track is, and one that has only small signs.
const TOP: u64 = 600;

const TALL: u64 = 240;

const LOW: u64 = 150;

/// How far down what stands in them is, in whole pixels.
const TALL_CENTRE: u64 = 160;

const LOW_CENTRE: u64 = 80;

/// What stands in a part of a row.
#[derive(Clone, Copy, Debug, PartialEq, Eq, PartialOrd, Ord)]
pub(crate) enum Level {
    /// events that are points, behind so many others
    Points(usize),
    /// names beside orders that only a shared variable makes
    Names,
    /// events with their marks
    Events,
}

/// A part of a row, which has tracks of its own.
#[derive(Clone, Copy, Debug, PartialEq, Eq, PartialOrd, Ord)]
pub(crate) struct Band {
    pub(crate) row: usize,
    pub(crate) level: Level,
}

/// What stands in a band. They are in order of bands, and in one from the left.
#[derive(Clone, Copy, Debug, PartialEq, Eq, PartialOrd, Ord)]
pub(crate) struct Placed {
    pub(crate) band: Band,
    /// from where to where it reaches
    pub(crate) low: u64,
    /// its index
    pub(crate) index: usize,
    pub(crate) high: u64,
    pub(crate) is_tall: bool,
}

/// A track of a band.
#[derive(Clone, Copy)]
struct Track {
    band: Band,
    is_tall: bool,
}

/// A track in which something stands, and where that ends.
#[derive(Clone, Copy, Debug, PartialEq, Eq, PartialOrd, Ord)]
struct Taken {
    end: u64,
    track: usize,
}

/// The tracks as they are filled.
#[derive(Drop)]
struct Filling {
    tracks: Vec<Track>,
    /// the track of each that is placed, in their order
    of_placed: Vec<usize>,
    /// the tracks of the last band that are taken, the first that ends first, and those that are free, the highest
    /// first
    taken: BinaryHeap<Reverse<Taken>>,
    free: BinaryHeap<Reverse<usize>>,
}

impl Filling {
    /// Puts one into the highest track of its band in which it meets none, or into a new one.
    fn put(&mut self, one: &Placed) -> Result<(), AllocError> {
        if self.is_in_other_band(one.band) {
            self.taken.clear();
            self.free.clear();
        }
        self.set_free(one.low)?;
        let index = match self.free.pop() {
            Some(Reverse(index)) => index,
            None => self.add_track(one.band)?,
        };
        if let Some(track) = self.tracks.get_mut(index) {
            track.is_tall = track.is_tall || one.is_tall;
        }
        self.of_placed.push(index)?;
        self.taken.push(Reverse(Taken {
            end: one.high.saturating_add(50),
            track: index,
        }))?;
        Ok(())
    }

    /// Whether the last track is one of another band.
    fn is_in_other_band(&self, band: Band) -> bool {
        match self.tracks.as_slice().last() {
            Some(track) => track.band != band,
            None => true,
        }
    }

    /// Sets the tracks free in which all ends before there.
    fn set_free(&mut self, low: u64) -> Result<(), AllocError> {
        for _ in 0..self.taken.len() {
            let Some(Reverse(first)) = self.taken.pop() else {
                break;
            };
            if first.end >= low {
                self.taken.push(Reverse(first))?;
                break;
            }
            self.free.push(Reverse(first.track))?;
        }
        Ok(())
    }

    /// Adds a track.
    fn add_track(&mut self, band: Band) -> Result<usize, AllocError> {
        let index = self.tracks.len();
        self.tracks.push(Track {
            band,
            is_tall: false,
        })?;
        Ok(index)
    }
}

/// Puts all into tracks.
fn fill(filling: &mut Filling, placed: &[Placed]) -> Result<(), AllocError> {
    for one in placed {
        filling.put(one)?;
    }
    Ok(())
}

/// The tracks, and where they begin.
#[derive(Drop)]
pub(crate) struct Tracks {
    tracks: Vec<Track>,
    /// where each begins
    starts: Vec<u64>,
    /// the track of each that is placed, in their order
    of_placed: Vec<usize>,
    tops: Vec<(usize, u64)>,
    bottom: u64,
}

impl Tracks {
    /// The tracks of all that is placed.
    pub(crate) fn of(alloc: Global, placed: &[Placed]) -> Result<Tracks, AllocError> {
        let mut filling = Filling {
            tracks: Vec::new(alloc),
            of_placed: Vec::with_capacity(alloc, placed.len())?,
            taken: BinaryHeap::new(alloc),
            free: BinaryHeap::new(alloc),
        };
        fill(&mut filling, placed)?;
        let Filling {
            tracks,
            of_placed,
            ..
        } = filling;
        let Stack {
            starts,
            tops,
            bottom,
        } = stacked(alloc, tracks.as_slice())?;
        Ok(Tracks {
            tracks,
            starts,
            of_placed,
            tops,
            bottom,
        })
    }

    /// Sets how far down each stands.
    pub(crate) fn set_heights(&self, placed: &[Placed], heights: &mut [u64]) {
        for (order, one) in placed.iter().enumerate() {
            let height = self.height(order);
            if one.index < heights.len() {
                heights[one.index] = height;
            }
        }
    }

    /// How far down that stands which was placed in this order.
    fn height(&self, order: usize) -> u64 {
        let track = self.of_placed.get(order).copied().unwrap_or(0);
        let start = self.starts.get(track).copied().unwrap_or(TOP);
        match self.tracks.get(track) {
            Some(track) if track.is_tall => start.saturating_add(TALL_CENTRE),
            _ => start.saturating_add(LOW_CENTRE),
        }
    }

    /// Where each row of events begins, and where the last ends.
    pub(crate) fn into_tops(self) -> (Vec<(usize, u64)>, u64) {
        let Tracks { tops, bottom, .. } = self;
        (tops, bottom)
    }
}

/// Where tracks begin that are put under one another.
#[derive(Drop)]
struct Stack {
    starts: Vec<u64>,
    tops: Vec<(usize, u64)>,
    bottom: u64,
}

/// The tracks under one another.
fn stacked(alloc: Global, tracks: &[Track]) -> Result<Stack, AllocError> {
    let mut starts = Vec::with_capacity(alloc, tracks.len())?;
    let mut tops = Vec::new(alloc);
    let mut bottom: u64 = TOP;
    let mut row = None;
    for track in tracks {
        if track.band.level == Level::Events && row != Some(track.band.row) {
            row = Some(track.band.row);
            tops.push((track.band.row, bottom))?;
        }
        starts.push(bottom)?;
        bottom = bottom.saturating_add(if track.is_tall { TALL } else { LOW });
    }
    Ok(Stack {
        starts,
        tops,
        bottom,
    })
}
