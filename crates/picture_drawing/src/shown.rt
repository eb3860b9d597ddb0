// Which events are drawn, and who needs whom among them. Where turns and tests are left out, what leads to such a one
// is drawn to what it leads to. One that gathers and spreads stays as a point: so there are never more links than in
// the whole run, and none is lost.
use crate::cones::Cones;
use crate::figure::{Scene, is_quiet};
use std::alloc::{AllocError, Global};

/// How an event is drawn.
#[derive(Clone, Copy, Debug, PartialEq, Eq)]
pub(crate) enum Standing {
    /// with its mark and its words
    Marked,
    Point,
    Hidden,
}

/// An event that needs another, both by their indexes.
#[derive(Clone, Copy, Debug, PartialEq, Eq, PartialOrd, Ord)]
pub(crate) struct Link {
    pub(crate) earlier: usize,
    pub(crate) later: usize,
}

/// What of a run is drawn.
#[derive(Drop)]
pub(crate) struct Shown {
    standings: Vec<Standing>,
    /// each once; the later event may be one that is left out
    links: Vec<Link>,
}

impl Shown {
    /// How the event at an index is drawn.
    pub(crate) fn standing(&self, index: usize) -> Standing {
        standing_at(self.standings.as_slice(), index)
    }

    /// Whether it is drawn with its mark.
    pub(crate) fn is_marked(&self, index: usize) -> bool {
        self.standing(index) == Standing::Marked
    }

    /// Whether it is drawn.
    pub(crate) fn is_there(&self, index: usize) -> bool {
        self.standing(index) != Standing::Hidden
    }

    /// Who needs whom.
    pub(crate) fn links(&self) -> &[Link] {
        self.links.as_slice()
    }

    /// How many events there are.
    pub(crate) fn len(&self) -> usize {
        self.standings.len()
    }
}

/// The standing at an index.
fn standing_at(standings: &[Standing], index: usize) -> Standing {
    standings.get(index).copied().unwrap_or(Standing::Hidden)
}

/// What an event that is left out meets on one side.
#[derive(Clone, Copy, Debug, PartialEq, Eq)]
enum Met {
    Nothing,
    One(usize),
    Several,
}

impl Met {
    /// This, and one more.
    fn and(self, other: usize) -> Met {
        match self {
            Met::Nothing => Met::One(other),
            Met::One(one) if one == other => self,
            _ => Met::Several,
        }
    }
}

/// What of the run is drawn, where these are the causes and consequences that are marked.
pub(crate) fn shown_of(
    alloc: Global,
    scene: &Scene<'_>,
    cones: Option<&Cones>,
) -> Result<Shown, AllocError> {
    let mut standings = first_standings(alloc, scene, cones)?;
    let goals = goals_of(alloc, scene, standings.as_slice())?;
    let mut sources = vec![in alloc; Met::Nothing; standings.len()]?;
    let links = links_of(
        alloc,
        scene,
        standings.as_slice(),
        goals.as_slice(),
        sources.as_mut_slice(),
    )?;
    set_points(
        standings.as_mut_slice(),
        goals.as_slice(),
        sources.as_slice(),
    );
    Ok(Shown { standings, links })
}

/// The events that are marked, and the others hidden: turns and tests, but for the one that is asked for.
fn first_standings(
    alloc: Global,
    scene: &Scene<'_>,
    cones: Option<&Cones>,
) -> Result<Vec<Standing>, AllocError> {
    let asked = match cones {
        Some(cones) => Some(cones.ticket),
        None => None,
    };
    let mut standings = Vec::with_capacity(alloc, scene.live.len())?;
    for (ticket, event) in scene.live.iter() {
        let is_marked = !scene.quiet || !is_quiet(event) || asked == Some(ticket);
        standings.push(if is_marked {
            Standing::Marked
        } else {
            Standing::Hidden
        })?;
    }
    Ok(standings)
}

/// Where what leads to each event is drawn to: to itself where it is marked or leads to several, and else to the one to
/// which it leads. Those behind an event are known before it.
fn goals_of(
    alloc: Global,
    scene: &Scene<'_>,
    standings: &[Standing],
) -> Result<Vec<Option<usize>>, AllocError> {
    let mut goals = vec![in alloc; None; standings.len()]?;
    for behind in 0..standings.len() {
        let index = standings.len().saturating_sub(behind).saturating_sub(1);
        let goal = if standing_at(standings, index) == Standing::Marked {
            Some(index)
        } else {
            goal_behind(goals.as_slice(), index, scene.ahead(index))
        };
        if index < goals.len() {
            goals[index] = goal;
        }
    }
    Ok(goals)
}

/// The goal of a hidden event, whose followers stand so far ahead.
fn goal_behind(goals: &[Option<usize>], index: usize, ahead: &[usize]) -> Option<usize> {
    let mut met = Met::Nothing;
    for far in ahead {
        if let Some(goal) = goal_at(goals, index.saturating_add(*far)) {
            met = met.and(goal);
        }
    }
    match met {
        Met::Nothing => None,
        Met::One(goal) => Some(goal),
        Met::Several => Some(index),
    }
}

/// The goal at an index.
fn goal_at(goals: &[Option<usize>], index: usize) -> Option<usize> {
    goals.get(index).copied().unwrap_or(None)
}

/// Who needs whom, each once. The sources become those that lead to the goals.
fn links_of(
    alloc: Global,
    scene: &Scene<'_>,
    standings: &[Standing],
    goals: &[Option<usize>],
    sources: &mut [Met],
) -> Result<Vec<Link>, AllocError> {
    let mut links = Vec::new(alloc);
    for index in 0..standings.len() {
        let source = match standing_at(standings, index) {
            Standing::Marked => Some(index),
            _ => source_behind(goals, sources, index),
        };
        if let Some(earlier) = source {
            lead_on(
                &mut links,
                sources,
                goals,
                earlier,
                index,
                scene.ahead(index),
            )?;
        }
    }
    links.sort_unstable();
    links.dedup();
    Ok(links)
}

/// Where what a hidden event leads to is drawn from, if it leads to several: from the one that leads to it, or from
/// itself.
fn source_behind(goals: &[Option<usize>], sources: &[Met], index: usize) -> Option<usize> {
    if goal_at(goals, index) != Some(index) {
        return None;
    }
    match sources.get(index) {
        Some(Met::One(source)) => Some(*source),
        Some(Met::Several) => Some(index),
        _ => None,
    }
}

/// Draws what the event at an index leads to from another, where its followers stand so far ahead.
fn lead_on(
    links: &mut Vec<Link>,
    sources: &mut [Met],
    goals: &[Option<usize>],
    earlier: usize,
    index: usize,
    ahead: &[usize],
) -> Result<(), AllocError> {
    for far in ahead {
        if let Some(later) = goal_at(goals, index.saturating_add(*far)) {
            links.push(Link { earlier, later })?;
            if later < sources.len() {
                sources[later] = sources[later].and(earlier);
            }
        }
    }
    Ok(())
}

/// Makes those hidden ones points that gather and spread.
fn set_points(standings: &mut [Standing], goals: &[Option<usize>], sources: &[Met]) {
    for index in 0..goals.len() {
        if source_behind(goals, sources, index) == Some(index) {
            set_point(standings, index);
        }
    }
}

/// Makes the event at an index a point, if it is hidden.
fn set_point(standings: &mut [Standing], index: usize) {
    if index < standings.len() && standings[index] == Standing::Hidden {
        standings[index] = Standing::Point;
    }
}
