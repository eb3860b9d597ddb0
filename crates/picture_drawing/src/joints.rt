// Between which columns an order of two events is drawn.
use crate::columns::Columns;
use crate::figure::Scene;
use address::{Address, before};
use runs::Event;

/// Two columns that an order joins.
#[derive(Clone, Copy, Debug, PartialEq, Eq, PartialOrd, Ord)]
pub(crate) struct Joint {
    /// the place of the earlier event is not before that of the later
    pub(crate) is_apart: bool,
    far: u64,
    pub(crate) from: usize,
    pub(crate) to: usize,
}

/// The columns in which an event stands.
#[derive(Clone, Copy)]
struct Sides {
    first: usize,
    second: Option<usize>,
}

/// Where an order of two events is drawn that have no column in common: between places of which the one is before the
/// other, where there are such, and else where it is shortest.
pub(crate) fn joint_of(
    scene: &Scene<'_>,
    columns: &Columns,
    earlier: usize,
    later: usize,
) -> Option<Joint> {
    let from = sides_at(scene, columns, earlier)?;
    let to = sides_at(scene, columns, later)?;
    if has(to, from.first) || from.second.is_some_and(|column| has(to, column)) {
        return None;
    }
    let (_, one) = scene.live.pair_at(earlier as u64)?;
    let (_, other) = scene.live.pair_at(later as u64)?;
    let mut best = nearest(columns, from.first, &one.first, to, other);
    if let (Some(column), Some(place)) = (from.second, &one.second) {
        best = best.min(nearest(columns, column, place, to, other));
    }
    Some(best)
}

/// The columns of the event at an index.
fn sides_at(scene: &Scene<'_>, columns: &Columns, index: usize) -> Option<Sides> {
    let actions = scene.actions(index);
    Some(Sides {
        first: columns.of(actions.first_lane)?,
        second: columns.of(actions.second_lane),
    })
}

/// Whether the column is one of these.
fn has(sides: Sides, column: usize) -> bool {
    sides.first == column || sides.second == Some(column)
}

/// Where the order from a place to an event is drawn.
fn nearest(columns: &Columns, from: usize, place: &Address, to: Sides, other: &Event) -> Joint {
    let first = made_joint(columns, from, place, to.first, &other.first);
    match (to.second, &other.second) {
        (Some(column), Some(second)) => {
            first.min(made_joint(columns, from, place, column, second))
        }
        _ => first,
    }
}

/// The joint of two columns with these places.
fn made_joint(
    columns: &Columns,
    from: usize,
    place: &Address,
    to: usize,
    other: &Address,
) -> Joint {
    Joint {
        is_apart: !before(place, other),
        far: columns.at(from).abs_diff(columns.at(to)),
        from,
        to,
    }
}
