// Who needs whom from lane to lane: forks, joins, and orders that only a shared variable makes.
use crate::figure::Figure;
use crate::ink::{Dash, Ink};
use crate::joints::{Joint, joint_of};
use crate::sheet::{Bend, Point, Sheet};
use crate::shown::{Link, Standing};
use picture_data::Race;
use std::alloc::{AllocError, Global};

/// The heights at which something stands in each column, from the top.
#[derive(Drop)]
struct Stations {
    heights: Vec<Vec<u64>>,
}

impl Stations {
    /// Those of what is drawn.
    fn of(alloc: Global, figure: &Figure<'_>) -> Result<Stations, AllocError> {
        let mut stations = Stations {
            heights: empty_lists(alloc, figure.columns.len())?,
        };
        for index in 0..figure.shown.len() {
            if figure.shown.is_there(index) {
                let actions = figure.scene.actions(index);
                let height = figure.rows.height(index);
                stations.add(figure.columns.of(actions.first_lane), height)?;
                stations.add(figure.columns.of(actions.second_lane), height)?;
            }
        }
        Ok(stations)
    }

    /// Notes that something stands there in the column, if there is one.
    fn add(&mut self, column: Option<usize>, height: u64) -> Result<(), AllocError> {
        let Some(column) = column else {
            return Ok(());
        };
        match self.heights.get_mut(column) {
            Some(heights) => {
                heights.push(height)?;
                Ok(())
            }
            None => Ok(()),
        }
    }

    /// Whether nothing stands in the column between two heights.
    fn is_free(&self, column: usize, from: u64, to: u64) -> bool {
        let Some(heights) = self.heights.get(column) else {
            return true;
        };
        let next = heights.as_slice().partition_point(|height| *height <= from);
        match heights.get(next) {
            Some(height) => *height >= to,
            None => true,
        }
    }
}

/// So many lists in which nothing stands.
fn empty_lists(alloc: Global, count: usize) -> Result<Vec<Vec<u64>>, AllocError> {
    let mut lists = Vec::with_capacity(alloc, count)?;
    for _ in 0..count {
        lists.push(Vec::new(alloc))?;
    }
    Ok(lists)
}

/// Draws what joins events of different lanes, and the events that stay as points.
pub(crate) fn draw_links(
    alloc: Global,
    sheet: &mut Sheet,
    figure: &Figure<'_>,
) -> Result<(), AllocError> {
    draw_needs(alloc, sheet, figure)?;
    draw_races(sheet, figure)?;
    draw_points(sheet, figure)
}

/// Draws who needs whom.
fn draw_needs(alloc: Global, sheet: &mut Sheet, figure: &Figure<'_>) -> Result<(), AllocError> {
    let stations = Stations::of(alloc, figure)?;
    for link in figure.shown.links() {
        if figure.shown.is_there(link.later) {
            draw_link(sheet, figure, &stations, *link)?;
        }
    }
    Ok(())
}

/// Draws the orders that only a shared variable makes.
fn draw_races(sheet: &mut Sheet, figure: &Figure<'_>) -> Result<(), AllocError> {
    for race in figure.scene.picture.steps.races.as_slice() {
        if figure.shown.is_there(race.cause) && figure.shown.is_there(race.event) {
            draw_race(sheet, figure, *race)?;
        }
    }
    Ok(())
}

/// Draws the events that stay as points.
fn draw_points(sheet: &mut Sheet, figure: &Figure<'_>) -> Result<(), AllocError> {
    for index in 0..figure.shown.len() {
        if figure.shown.standing(index) == Standing::Point {
            draw_point(sheet, figure, index)?;
        }
    }
    Ok(())
}

/// Draws the event at an index as a point.
fn draw_point(sheet: &mut Sheet, figure: &Figure<'_>, index: usize) -> Result<(), AllocError> {
    let Some(column) = figure.columns.of(figure.scene.actions(index).first_lane) else {
        return Ok(());
    };
    let ink = figure.ink(index).or(Ink::Soft);
    sheet.circle(figure.point(column, index), 20, ink, ink, Dash::Whole)
}

/// Draws a link, but for an order that only a shared variable makes between one and its follower.
fn draw_link(
    sheet: &mut Sheet,
    figure: &Figure<'_>,
    stations: &Stations,
    link: Link,
) -> Result<(), AllocError> {
    let Some(joint) = joint_of(&figure.scene, figure.columns, link.earlier, link.later) else {
        return Ok(());
    };
    let ink = figure.ink_between(link.earlier, link.later);
    let from = figure.point(joint.from, link.earlier);
    let to = figure.point(joint.to, link.later);
    if !joint.is_apart {
        let bend = way_of(figure, stations, joint, from, to);
        return sheet.bend(bend, ink.or(Ink::Soft), Dash::Whole);
    }
    if is_race(figure.scene.picture.steps.races.as_slice(), link) {
        return Ok(());
    }
    sheet.bend(curve(from, to), ink.or(Ink::Race), Dash::Long)
}

/// The way from the one to the other: down in a column where nothing stands between them, so that it leads through no other
/// event. To a branch it goes in the column of that, if it can.
fn way_of(figure: &Figure<'_>, stations: &Stations, joint: Joint, from: Point, to: Point) -> Bend {
    let is_first_free = stations.is_free(joint.from, from.y, to.y);
    let is_second_free = stations.is_free(joint.to, from.y, to.y);
    if is_second_free && (!is_first_free || opens_branch(figure, joint)) {
        fork(from, to)
    } else if is_first_free {
        join(from, to)
    } else {
        curve(from, to)
    }
}

/// Whether the later lane is one of branches of the earlier.
fn opens_branch(figure: &Figure<'_>, joint: Joint) -> bool {
    path_length(figure, joint.to) > path_length(figure, joint.from)
}

/// How many branches the lane of a column lies in.
fn path_length(figure: &Figure<'_>, column: usize) -> usize {
    match figure.columns.lane(&figure.scene, column) {
        Some(lane) => lane.path.len(),
        None => 0,
    }
}

/// Whether the link is one of the races, which are in order of their events, and of one in order of its causes.
fn is_race(races: &[Race], link: Link) -> bool {
    let place = races.partition_point(|race| {
        race.event < link.later || race.event == link.later && race.cause < link.earlier
    });
    match races.get(place) {
        Some(race) => race.event == link.later && race.cause == link.earlier,
        None => false,
    }
}

/// A fork: away at once, and down.
fn fork(from: Point, to: Point) -> Bend {
    Bend {
        from: lower(from, 30),
        begin: from.y.saturating_add(30),
        first: from.y.saturating_add(150),
        second: from.y.saturating_add(70),
        end: from.y.saturating_add(200).min(to.y.saturating_sub(40)),
        to: higher(to, 30),
    }
}

/// A join: down, and over at the end.
fn join(from: Point, to: Point) -> Bend {
    Bend {
        from: lower(from, 30),
        begin: to.y.saturating_sub(180).max(from.y.saturating_add(40)),
        first: to.y.saturating_sub(60),
        second: to.y.saturating_sub(120),
        end: to.y.saturating_sub(20),
        to: higher(to, 20),
    }
}

/// A curve from the one to the other.
fn curve(from: Point, to: Point) -> Bend {
    let middle = from.y.saturating_add(to.y) / 2;
    Bend {
        from: lower(from, 40),
        begin: from.y.saturating_add(40),
        first: middle.saturating_add(40),
        second: middle.saturating_add(20),
        end: to.y.saturating_sub(40),
        to: higher(to, 40),
    }
}

/// A point so much lower.
fn lower(point: Point, by: u64) -> Point {
    Point {
        x: point.x,
        y: point.y.saturating_add(by),
    }
}

/// A point so much higher.
fn higher(point: Point, by: u64) -> Point {
    Point {
        x: point.x,
        y: point.y.saturating_sub(by),
    }
}

/// Draws an order that only a shared variable makes.
fn draw_race(sheet: &mut Sheet, figure: &Figure<'_>, race: Race) -> Result<(), AllocError> {
    let Some(joint) = joint_of(&figure.scene, figure.columns, race.cause, race.event) else {
        return Ok(());
    };
    let ink = figure.ink_between(race.cause, race.event).or(Ink::Race);
    let from = figure.point(joint.from, race.cause);
    let to = figure.point(joint.to, race.event);
    sheet.bend(curve(from, to), ink, Dash::Long)
}
