// The names of variables that alone make an order, each in a track above the row of the later event.
use crate::columns::{Columns, EDGE, text_width};
use crate::depth_rows::{Depth, depth_at};
use crate::figure::{Figure, Scene};
use crate::ink::Ink;
use crate::joints::{Joint, joint_of};
use crate::labels::add_cut;
use crate::sheet::{Anchor, Point, SMALL_LETTER, Sheet, Style};
use crate::shown::Shown;
use picture_data::Race;
use std::alloc::{AllocError, Global};

/// How wide a name is at most, in tenths of a pixel.
const WIDEST: u64 = 1000;

/// A name beside an event. It stands there once, however many the event follows because of the variable.
#[derive(Clone, Copy, Debug, PartialEq, Eq, PartialOrd, Ord)]
pub(crate) struct RaceName {
    /// the index of the event, and the number of the variable
    pub(crate) event: usize,
    variable: u32,
    /// the last one that it follows
    cause: usize,
    /// from where to where it reaches
    pub(crate) low: u64,
    pub(crate) high: u64,
}

impl RaceName {
    /// Whether this is the name of the same variable beside the same event.
    fn is_as(&self, other: &RaceName) -> bool {
        self.event == other.event && self.variable == other.variable
    }
}

/// The text of a name, or its beginning.
#[derive(Drop)]
struct NameText {
    cut: Vec<u8>,
}

impl NameText {
    /// None.
    fn new(alloc: Global) -> NameText {
        NameText {
            cut: Vec::new(alloc),
        }
    }

    /// Makes it that of the variable.
    fn tell(&mut self, scene: &Scene<'_>, variable: u32) -> Result<(), AllocError> {
        self.cut.clear();
        match scene.names.variable(variable) {
            Some(name) => add_cut(&mut self.cut, name.whole, WIDEST, SMALL_LETTER),
            None => Ok(()),
        }
    }

    /// How wide it is.
    fn width(&self) -> u64 {
        text_width(self.cut.as_slice(), true)
    }
}

/// The names of the run, in order of events.
pub(crate) fn names_of(
    alloc: Global,
    scene: &Scene<'_>,
    shown: &Shown,
    columns: &Columns,
    depths: &[Depth],
) -> Result<Vec<RaceName>, AllocError> {
    let mut found = Vec::new(alloc);
    let mut text = NameText::new(alloc);
    for race in scene.picture.steps.races.as_slice() {
        if shown.is_there(race.cause) && shown.is_there(race.event) {
            add_name(&mut found, &mut text, scene, columns, depths, *race)?;
        }
    }
    found.sort_unstable();
    each_once(alloc, found.as_slice())
}

/// Adds the name of a race, if that joins two columns.
fn add_name(
    found: &mut Vec<RaceName>,
    text: &mut NameText,
    scene: &Scene<'_>,
    columns: &Columns,
    depths: &[Depth],
    race: Race,
) -> Result<(), AllocError> {
    if let Some(joint) = joint_of(scene, columns, race.cause, race.event) {
        text.tell(scene, race.variable)?;
        found.push(named(columns, depths, race, joint, text.width()))?;
    }
    Ok(())
}

/// The last of those that are beside the same event for the same variable.
fn each_once(alloc: Global, found: &[RaceName]) -> Result<Vec<RaceName>, AllocError> {
    let mut names = Vec::new(alloc);
    for (index, name) in found.iter().enumerate() {
        let is_last = match found.get(index.saturating_add(1)) {
            Some(next) => !next.is_as(name),
            None => true,
        };
        if is_last {
            names.push(*name)?;
        }
    }
    Ok(names)
}

/// The name of a race that is so wide: on the curve where that goes from one row to the next, and else beside its end.
fn named(columns: &Columns, depths: &[Depth], race: Race, joint: Joint, width: u64) -> RaceName {
    let from = columns.at(joint.from);
    let to = columns.at(joint.to);
    let rows = depth_at(depths, race.event)
        .row
        .saturating_sub(depth_at(depths, race.cause).row);
    let low = if rows < 2 {
        (from.saturating_add(to) / 2).saturating_sub(width / 2)
    } else if from < to {
        to.saturating_sub(60).saturating_sub(width)
    } else {
        to.saturating_add(60)
    };
    let low = low.max(EDGE);
    RaceName {
        event: race.event,
        variable: race.variable,
        cause: race.cause,
        low,
        high: low.saturating_add(width),
    }
}

/// Draws the names.
pub(crate) fn draw_names(
    alloc: Global,
    sheet: &mut Sheet,
    figure: &Figure<'_>,
) -> Result<(), AllocError> {
    let mut text = NameText::new(alloc);
    for (index, name) in figure.rows.names.as_slice().iter().enumerate() {
        text.tell(&figure.scene, name.variable)?;
        let at = Point {
            x: name.low,
            y: figure.rows.name_height(index).saturating_add(30),
        };
        let ink = figure.ink_between(name.cause, name.event).or(Ink::Race);
        let style = Style::on_paper(ink, true, Anchor::Start);
        sheet.words(at, text.cut.as_slice(), style)?;
    }
    Ok(())
}
