// The whole of the drawing.
ghost use Rattle.std.specs.Prelude.{IfOk, MatchOption};
ghost use Rattle.picture_drawing.specs.Asked.{IsMissing, IsThere};

use crate::bars::draw_bars;
use crate::columns::columns_of;
use crate::cones::{Asked, Cones, asked_of};
use crate::depth_rows::rows_of;
use crate::figure::{Figure, Scene, inks_of};
use crate::heads::{draw_axis, draw_heads};
use crate::labels::Told;
use crate::links::draw_links;
use crate::marks::draw_marks;
use crate::names::Names;
use crate::now::{bottom_of, draw_now};
use crate::race_names::draw_names;
use crate::sheet::{Part, Sheet};
use crate::shown::shown_of;
use crate::title::draw_title;
use crate::trails::draw_trails;
use machine::Machine;
use picture_data::Picture;
use std::alloc::{AllocError, Global};

/// The drawing of the run of the machine, under the name of its trace. Where an event is asked for, its causes and its
/// consequences are marked, and `None` comes where no live event has that ticket. With `quiet` turns and tests are left
/// out.
///
/// It is an error if there is no memory.
pub fn drawing_text(
    alloc: Global,
    machine: &Machine,
    picture: &Picture,
    trace: &str,
    event: Option<u64>,
    quiet: bool,
) -> Result<Option<Vec<u8>>, AllocError>
    ensures { IfOk result (λ drawn.
        MatchOption drawn (IsMissing machine.now.live event) (λ _. IsThere machine.now.live event)) }
{
    let names = Names::of(alloc, machine.checked().system())?;
    let scene = Scene {
        system: machine.checked().system(),
        live: machine.live_events(),
        picture,
        names: &names,
        quiet,
    };
    match asked_of(alloc, machine.live_events(), event)? {
        Asked::Missing => Ok(None),
        Asked::Nothing => Ok(Some(drawn(alloc, &scene, trace, None)?)),
        Asked::Event(cones) => Ok(Some(drawn(alloc, &scene, trace, Some(&cones))?)),
    }
}

/// The drawing of the scene, where what is marked is this.
fn drawn(
    alloc: Global,
    scene: &Scene<'_>,
    trace: &str,
    cones: Option<&Cones>,
) -> Result<Vec<u8>, AllocError> {
    let shown = shown_of(alloc, scene, cones)?;
    let told = Told::of(alloc, scene, &shown)?;
    let columns = columns_of(alloc, scene, &shown, &told)?;
    let rows = rows_of(alloc, scene, &shown, &columns, &told)?;
    let inks = match cones {
        Some(cones) => inks_of(alloc, scene.live, cones)?,
        None => Vec::new(alloc),
    };
    let figure = Figure {
        scene: *scene,
        shown: &shown,
        told: &told,
        columns: &columns,
        rows: &rows,
        inks: inks.as_slice(),
        bottom: bottom_of(scene, rows.bottom),
    };
    whole(alloc, &figure, trace.as_bytes(), cones)
}

/// The drawing of the figure. What lies over all is drawn first, on a sheet of its own, since it says how wide the
/// drawing has to be.
fn whole(
    alloc: Global,
    figure: &Figure<'_>,
    trace: &[u8],
    cones: Option<&Cones>,
) -> Result<Vec<u8>, AllocError> {
    let mut over = Sheet::new(alloc);
    draw_over(alloc, &mut over, figure, trace, cones)?;
    let needed = over.right().saturating_add(60);
    let width = figure.columns.right().saturating_add(160).max(needed);
    let mut sheet = Sheet::new(alloc);
    begin(&mut sheet, width, figure.bottom.saturating_add(80), trace)?;
    draw_events(alloc, &mut sheet, figure)?;
    sheet.append(&over)?;
    sheet.add_all(&[Part::Text("</svg>\n")])?;
    Ok(sheet.into_bytes())
}

/// Draws the events and what joins them, what lies under others first.
fn draw_events(alloc: Global, sheet: &mut Sheet, figure: &Figure<'_>) -> Result<(), AllocError> {
    draw_trails(alloc, sheet, figure)?;
    draw_bars(alloc, sheet, figure)?;
    draw_links(alloc, sheet, figure)?;
    draw_marks(alloc, sheet, figure)
}

/// Draws what lies over them and around.
fn draw_over(
    alloc: Global,
    sheet: &mut Sheet,
    figure: &Figure<'_>,
    trace: &[u8],
    cones: Option<&Cones>,
) -> Result<(), AllocError> {
    draw_axis(sheet, figure)?;
    draw_names(alloc, sheet, figure)?;
    draw_now(alloc, sheet, figure)?;
    draw_heads(alloc, sheet, figure)?;
    draw_title(alloc, sheet, figure, trace, cones)
}

/// Begins the drawing: its size, its title, what lies under all, and the pattern with which the held side of a
/// handshake is filled.
fn begin(sheet: &mut Sheet, width: u64, height: u64, trace: &[u8]) -> Result<(), AllocError> {
    let width = width / 10;
    let height = height / 10;
    sheet.add_all(&[
        Part::Text("<svg xmlns=\"http://www.w3.org/2000/svg\" width=\""),
        Part::Number(width),
        Part::Text("\" height=\""),
        Part::Number(height),
        Part::Text("\" viewBox=\"0 0 "),
        Part::Number(width),
        Part::Text(" "),
        Part::Number(height),
        Part::Text("\" font-family=\"'DejaVu Sans Mono',Menlo,Consolas,monospace\">\n<title>"),
        Part::Words(trace),
        Part::Text("</title>\n<rect width=\"100%\" height=\"100%\" fill=\"#ffffff\"/>\n"),
        Part::Text(
            "<defs><pattern id=\"held\" width=\"5\" height=\"5\" patternUnits=\"userSpaceOnUse\"",
        ),
        Part::Text(
            " patternTransform=\"rotate(45)\"><rect width=\"5\" height=\"5\" fill=\"#ffffff\"/>",
        ),
        Part::Text(
            "<path d=\"M1 0v5\" stroke=\"#2d9a7c\" stroke-width=\"0.8\"/></pattern></defs>\n",
        ),
    ])
}
