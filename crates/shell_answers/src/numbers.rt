// The steps that can be taken, numbered.
use crate::Scene;
use crate::steps::add_possible;
use plain_words::Text;
use runs::Event;
use waiting::{Progress, who_waits};

/// Where an event acts: a line of the source, and a branch.
#[derive(Clone, Copy)]
struct Site {
    line: Option<u64>,
    branch: Option<u32>,
}

/// Adds a line for each event, with the number that takes it; with its branch where another one stands on its line.
pub(crate) fn add_numbered(text: &mut Text, scene: &Scene<'_>, events: &[Event]) {
    let sites = sites_of(scene, events);
    for (index, event) in events.iter().enumerate() {
        text.add_counted(b"  [", (index as u64).saturating_add(1), b"] ");
        add_possible(text, scene, event);
        if let Some(site) = sites.get(index) {
            add_branch(text, sites.as_slice(), *site);
        }
        text.add(b"\n");
    }
    add_broken(text, broken_lines(scene, events).as_slice());
    if events.is_empty() {
        add_none(text, scene);
    }
}

/// Adds a line for each of these lines of the source, on which a `select` has more than one arm ready.
fn add_broken(text: &mut Text, lines: &[u64]) {
    for line in lines {
        text.add_counted(
            b"  line ",
            *line,
            b": more than one arm of this `select` is ready, against its promise\n",
        );
    }
}

/// The lines of each `select` of which two of these events open different arms, each line once; fewer without memory.
/// Of the events that act at one place each stands behind another.
fn broken_lines(scene: &Scene<'_>, events: &[Event]) -> Vec<u64> {
    let mut lines = Vec::new(scene.alloc);
    for (index, event) in events.iter().enumerate() {
        if let Some(next) = events.get(index.saturating_add(1)) {
            if let Some(line) = broken_line(scene, event, next) {
                if !lines.contains(&line) {
                    let _ = lines.push(line);
                }
            }
        }
    }
    lines
}

/// The line of the `select` of which the events open different arms, if there is one.
fn broken_line(scene: &Scene<'_>, one: &Event, other: &Event) -> Option<u64> {
    let place = one.acting_place();
    if place == other.acting_place()
        && one.arm_to_open() != other.arm_to_open()
        && scene.machine().select(place)
    {
        scene.machine().line(place)
    } else {
        None
    }
}

/// Adds that all is done, that something waits, or that there is no memory to tell which.
fn add_none(text: &mut Text, scene: &Scene<'_>) {
    text.add(match progress_now(scene) {
        Some(Progress::Done) => b"  all is done\n",
        Some(_) => b"  no step can be taken now; `waiting` tells what is waited for\n",
        None => b"  no memory to tell whether all is done\n",
    });
}

/// How the run stands; `None` without memory.
fn progress_now(scene: &Scene<'_>) -> Option<Progress> {
    match who_waits(scene.alloc, scene.machine()) {
        Ok(waiting) => Some(waiting.progress),
        Err(_) => None,
    }
}

/// Where the events act; fewer without memory.
fn sites_of(scene: &Scene<'_>, events: &[Event]) -> Vec<Site> {
    let mut sites = Vec::new(scene.alloc);
    for event in events {
        let site = Site {
            line: scene.machine().line(event.acting_place()),
            branch: scene.machine().checked().branch(event.acting_place()),
        };
        if sites.push(site).is_err() {
            break;
        }
    }
    sites
}

/// Adds the branch, where an event of another one has the same line.
fn add_branch(text: &mut Text, sites: &[Site], site: Site) {
    if let Some(branch) = site.branch {
        if has_twin(sites, site) {
            text.add_counted(b", branch ", u64::from(branch), b"");
        }
    }
}

/// Whether one of them has the line, and another branch.
fn has_twin(sites: &[Site], site: Site) -> bool {
    for other in sites {
        if other.line == site.line && other.branch != site.branch {
            return true;
        }
    }
    false
}
