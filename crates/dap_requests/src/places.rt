// The lines on which a breakpoint may stand.
ghost use Rattle.std.specs.Prelude.{◌≡◌, ◌-◌, codes};
ghost use Rattle.serde_json.specs.Data.{number, unsigned};
ghost use Rattle.serde_json.specs.View.{view};
ghost use Rattle.dap_messages.specs.Written.{Has};
ghost use Rattle.dap_moves.specs.Stops.{FirstStop};
ghost use Rattle.dap_views.specs.Counted.{shown_line};
ghost use Rattle.dap_requests.specs.Lists.{Tells};
ghost use Rattle.dap_requests.specs.Locations.{Locates, behind_asked, behind_last, last_asked, line_told, places_on, stops_from, told_lines};

use crate::breakpoints::path_in;
use crate::lists::give_made;
use dap_messages::{Answer, Listed, Members, Request};
use dap_moves::{Machine, first_stop};
use dap_views::Program;
use std::alloc::Global;

/// At how many lines `breakpointLocations` looks at most.
const MOST_LOCATIONS: u64 = 10_000;

/// Answers `breakpointLocations`: the lines that stop, of those that are asked for, in the file that is debugged; in
/// another none.
pub fn locations(
    alloc: Global,
    machine: &Machine,
    program: &Program,
    request: &Request,
    answer: &mut Answer,
)
    ensures { Locates machine.now.checked.main (view request.now.arguments) program.now answer.new }
{
    match request.number("line") {
        Some(line) => {
            let last = last_asked(request, line);
            let own = program.is_at(path_in(request));
            let places = places_on(alloc, machine, program, own, line, last);
            give_made(alloc, places, answer);
        }
        None => answer.refuse(104, "`line` is missing or no number"),
    }
}

/// The last line that is asked for: the first, where no other is.
fn last_asked(request: &Request, line: u64) -> u64
    ensures { result ≡ last_asked (view request.now.arguments) line }
{
    match request.number("endLine") {
        Some(last) => last,
        None => line,
    }
}

/// The places from one line on to another, as the client counts, if they are in the file that is debugged.
fn places_on(
    alloc: Global,
    machine: &Machine,
    program: &Program,
    own: bool,
    line: u64,
    last: u64,
) -> Listed
    ensures { Tells line_told (told_lines program.now (places_on own machine.now.checked.main program.now line last))
        result }
{
    if own {
        let first = program.meant_line(line);
        let behind = behind_asked(program, first, program.meant_line(last));
        places_before(alloc, machine, program, first, behind)
    } else {
        Listed::new(alloc)
    }
}

/// The line behind those that are looked at, where these two are asked for.
fn behind_asked(program: &Program, first: u64, last: u64) -> u64
    ensures { result ≡ behind_asked program.now.source.items first last }
{
    let most = first.saturating_add(MOST_LOCATIONS);
    let behind = behind_last(program.source.as_slice());
    last.saturating_add(1).min(most).min(behind)
}

/// The line behind the last of a source.
fn behind_last(source: &[u8]) -> u64
    ensures { result ≡ behind_last source.now }
{
    let breaks = source.iter().filter(|byte| **byte == b'\n').count();
    (breaks as u64).saturating_add(2)
}

/// The places on the lines from `first` on and before `behind`.
fn places_before(
    alloc: Global,
    machine: &Machine,
    program: &Program,
    first: u64,
    behind: u64,
) -> Listed
    ensures { Tells line_told
        (told_lines program.now (stops_from machine.now.checked.main first (behind - first))) result }
{
    let mut list = Listed::new(alloc);
    for line in first..behind {
        match stop_in(machine, line, line + 1) {
            Some(stop) => list.push(place(alloc, program, stop)),
            None => {}
        }
    }
    list
}

/// The first line that stops, of those from `from` on and before `below`.
fn stop_in(machine: &Machine, from: u64, below: u64) -> Option<u64>
    ensures { FirstStop machine.now.checked.main from below result }
{
    first_stop(machine.checked().system(), from, below)
}

/// A place on a line, as the client sees it.
fn place(alloc: Global, program: &Program, line: u64) -> Members
    ensures { Has result (codes "line") (number (unsigned (shown_line program.now line))) }
{
    let column = program.lines.column(program.source.as_slice(), line);
    let mut one = Members::new(alloc);
    one.number("column", column.saturating_sub(program.counting.columns));
    one.number("line", program.shown_line(line));
    one
}
