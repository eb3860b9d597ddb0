// What the parts of the drawing are drawn of.
use crate::columns::Columns;
use crate::cones::Cones;
use crate::depth_rows::Rows;
use crate::ink::Ink;
use crate::labels::Told;
use crate::names::Names;
use crate::sheet::Point;
use crate::shown::Shown;
use dependence::Live;
use picture_data::{Actions, Picture};
use runs::{Event, Kind};
use std::alloc::{AllocError, Global};
use system::System;

/// A run, and what of it is to be drawn.
#[derive(Clone, Copy)]
pub(crate) struct Scene<'a> {
    pub(crate) system: &'a System,
    pub(crate) live: &'a Live,
    pub(crate) picture: &'a Picture,
    pub(crate) names: &'a Names,
    /// turns and tests are left out
    pub(crate) quiet: bool,
}

impl Scene<'_> {
    /// Where the event at an index stands.
    pub(crate) fn actions(&self, index: usize) -> Actions {
        match self.picture.steps.actions.get(index) {
            Some(actions) => *actions,
            None => Actions {
                first_lane: None,
                second_lane: None,
                first_line: 0,
                second_line: 0,
            },
        }
    }

    /// How many events further on each follower of the event at an index stands.
    pub(crate) fn ahead(&self, index: usize) -> &[usize] {
        match self.picture.steps.ahead.get(index) {
            Some(ahead) => ahead.as_slice(),
            None => &[],
        }
    }
}

/// Whether the event is a turn or a test.
pub(crate) fn is_quiet(event: &Event) -> bool {
    match event.kind {
        Kind::Turn | Kind::Test => true,
        _ => false,
    }
}

/// The columns of an event.
#[derive(Clone, Copy)]
pub(crate) struct Ends {
    pub(crate) first: usize,
    pub(crate) second: Option<usize>,
    /// the one under which its label stands: that of the action that takes
    pub(crate) own: usize,
}

/// The columns of an event with these lanes; none where the source is not that of the system.
pub(crate) fn ends_of(columns: &Columns, actions: Actions, event: &Event) -> Option<Ends> {
    let first = columns.of(actions.first_lane)?;
    let second = match event.second {
        Some(_) => columns.of(actions.second_lane),
        None => None,
    };
    let own = match (event.kind, second) {
        (Kind::Sync, _) | (_, None) => first,
        (_, Some(second)) => second,
    };
    Some(Ends { first, second, own })
}

/// The lane of the action that takes, or of the only one.
pub(crate) fn own_lane(actions: Actions, event: &Event) -> Option<usize> {
    match (event.kind, actions.second_lane) {
        (Kind::Sync, _) | (_, None) => actions.first_lane,
        (_, second) => second,
    }
}

/// A run as it is laid out.
#[derive(Clone, Copy)]
pub(crate) struct Figure<'a> {
    pub(crate) scene: Scene<'a>,
    pub(crate) shown: &'a Shown,
    pub(crate) told: &'a Told,
    pub(crate) columns: &'a Columns,
    pub(crate) rows: &'a Rows,
    /// how each event stands to the one that is asked for; empty where none is
    pub(crate) inks: &'a [Ink],
    /// where it ends below, in tenths of a pixel
    pub(crate) bottom: u64,
}

impl Figure<'_> {
    /// The colour of the event at an index.
    pub(crate) fn ink(&self, index: usize) -> Ink {
        match self.inks.get(index) {
            Some(ink) => *ink,
            None => Ink::Dark,
        }
    }

    /// The colour of what joins two events.
    pub(crate) fn ink_between(&self, earlier: usize, later: usize) -> Ink {
        match (self.ink(earlier), self.ink(later)) {
            (Ink::Cause, Ink::Cause) | (Ink::Cause, Ink::Dark) => Ink::Cause,
            (Ink::Consequence, Ink::Consequence) | (Ink::Dark, Ink::Consequence) => {
                Ink::Consequence
            }
            (Ink::Dark, Ink::Dark) | (Ink::Cause, Ink::Consequence) => Ink::Dark,
            _ => Ink::Faint,
        }
    }

    /// The point of the event at an index in a column.
    pub(crate) fn point(&self, column: usize, index: usize) -> Point {
        Point {
            x: self.columns.at(column),
            y: self.rows.height(index),
        }
    }
}

/// How each event stands to the one that is asked for.
pub(crate) fn inks_of(alloc: Global, live: &Live, cones: &Cones) -> Result<Vec<Ink>, AllocError> {
    let mut inks = vec![in alloc; Ink::Faint; live.len()]?;
    paint(
        live,
        inks.as_mut_slice(),
        cones.causes.as_slice(),
        Ink::Cause,
    );
    paint(
        live,
        inks.as_mut_slice(),
        cones.consequences.as_slice(),
        Ink::Consequence,
    );
    paint(live, inks.as_mut_slice(), &[cones.ticket], Ink::Dark);
    Ok(inks)
}

/// Gives the events of these tickets a colour.
fn paint(live: &Live, inks: &mut [Ink], tickets: &[u64], colour: Ink) {
    for ticket in tickets {
        if let Some(index) = live.index_of(*ticket) {
            if index < inks.len() {
                inks[index] = colour;
            }
        }
    }
}
