//! The picture of a run, as a page, as a drawing, as waves, or as the data alone.
#![tactic(auto)]

ghost use Rattle.std.specs.Prelude.{◌≡◌, IfOk, MatchResult, None, Ok, Some};
ghost use Rattle.trace_file.specs.Loading.{IsRefused, after_writing};
ghost use Rattle.picture.specs.Pictures as model;
ghost use Rattle.picture.specs.Pictures.{AreData, IsPage, IsPictureBehind, IsPictureOf, ShowsRun, WritesPicture, files_of};
ghost use Rattle.picture.specs.internal.Writing.{IsSheet, WritesPictured, WritesText};

use devices::{CountedWrite, write_out};
use machine::Machine;
use picture_data::{Picture, picture_of};
use picture_drawing::drawing_text;
pub use picture_text::Names;
use picture_text::{data_text, page_text};
use picture_waves::waves_text;
use sharing_check::Checked;
use std::alloc::{AllocError, Global};
use text_parts::{Piece, add_pieces};
use trace_file::{Fault, load_text};
use typed_source::typed_source;

/// What is drawn.
#[derive(Clone, Copy)]
pub enum Drawing {
    /// a page with its own style, script and data, which needs no other file
    Page,
    /// a drawing for a document (SVG), with the causes and the consequences of the step of this number, if one is
    /// given; where it is `quiet` without turns and tests
    Sheet { event: Option<u64>, quiet: bool },
    /// a value change dump over logical time, for viewers of waves
    Waves,
    /// the data of the page alone, as one JSON text
    Data,
}

/// What comes of it.
#[derive(Drop)]
pub enum Pictured {
    /// the picture
    Text(Vec<u8>),
    /// the trace has no step of the number that is asked for, of which these lines tell
    NoSuchStep(Vec<u8>),
}

/// The picture of the run that the trace stands for, where the source is the one that was accepted as this system.
/// `names` are the names of the three files, as they are shown. Steps are numbered from 1 as they stand in the trace.
///
/// It is an error if the text is no trace of the system, or if there is no memory; the fault says which, as that of
/// `replay`.
pub fn picture_text(
    alloc: Global,
    checked: Checked,
    source: &[u8],
    trace: &[u8],
    names: Names<'_>,
    drawing: Drawing,
) -> Result<Pictured, Fault>
    ensures { MatchResult result
        (IsPictureBehind checked trace.now (files_of source.now names.entry) drawing)
        (λ fault. IsRefused checked trace.now fault) }
{
    let machine = load_text(alloc, checked, trace)?;
    Ok(drawn(alloc, &machine, source, names, drawing)?)
}

/// Writes the same, and sends it on; the lines where there is no such step, of which nothing is written. At
/// `WriteFailed`, which comes exactly where the writer counts a failure, a beginning is out; at every other fault the
/// writer was not asked for anything.
pub fn write_picture<W: CountedWrite>(
    alloc: Global,
    checked: Checked,
    source: &[u8],
    trace: &[u8],
    names: Names<'_>,
    drawing: Drawing,
    writer: &mut W,
) -> Result<Option<Vec<u8>>, Fault>
    ensures written { WritesPicture checked trace.now (files_of source.now names.entry) drawing
        (W.contents writer.old) (W.contents writer.new) result }
    ensures sent { result ≡ Ok None → W.unsent writer.new ≡ 0 }
    ensures failures { W.failed writer.new ≡ after_writing result (W.failed writer.old) }
{
    match picture_text(alloc, checked, source, trace, names, drawing) {
        Ok(pictured) => picture_written(pictured, writer),
        Err(fault) => Err(fault),
    }
}

/// Writes the picture, or gives the lines back where there is no such step.
fn picture_written<W: CountedWrite>(
    pictured: Pictured,
    writer: &mut W,
) -> Result<Option<Vec<u8>>, Fault>
    ensures written { WritesPictured pictured (W.contents writer.old) (W.contents writer.new) result }
    ensures sent { result ≡ Ok None → W.unsent writer.new ≡ 0 }
    ensures failures { W.failed writer.new ≡ after_writing result (W.failed writer.old) }
{
    match pictured {
        Pictured::Text(text) => text_written(text.as_slice(), writer),
        Pictured::NoSuchStep(words) => Ok(Some(words)),
    }
}

/// Writes the text.
fn text_written<W: CountedWrite>(text: &[u8], writer: &mut W) -> Result<Option<Vec<u8>>, Fault>
    ensures written { WritesText text.now (W.contents writer.old) (W.contents writer.new) result }
    ensures sent { result ≡ Ok None → W.unsent writer.new ≡ 0 }
    ensures failures { W.failed writer.new ≡ after_writing result (W.failed writer.old) }
{
    match write_out(writer, text) {
        Ok(()) => Ok(None),
        Err(_) => Err(Fault::WriteFailed),
    }
}

/// The picture of the run of this machine.
fn drawn(
    alloc: Global,
    machine: &Machine,
    source: &[u8],
    names: Names<'_>,
    drawing: Drawing,
) -> Result<Pictured, AllocError>
    ensures { IfOk result (IsPictureOf machine.now (files_of source.now names.entry) drawing) }
{
    let picture = taken(alloc, machine, source)?;
    match drawing {
        Drawing::Page => Ok(Pictured::Text(page_of(alloc, machine, &picture, source, names)?)),
        Drawing::Sheet { event, quiet } => {
            sheet_of(alloc, machine, &picture, names.trace, event, quiet)
        }
        Drawing::Waves => Ok(Pictured::Text(waves_text(alloc, machine, &picture)?)),
        Drawing::Data => Ok(Pictured::Text(data_of(alloc, machine, &picture, source, names)?)),
    }
}

/// The drawing.
#[tactic(auto, using(crate::proofs::Showing::tells_missing))]
fn sheet_of(
    alloc: Global,
    machine: &Machine,
    picture: &Picture,
    trace: &str,
    event: Option<u64>,
    quiet: bool,
) -> Result<Pictured, AllocError>
    ensures { IfOk result (IsSheet machine.now.live event) }
{
    match drawing_text(alloc, machine, picture, trace, event, quiet)? {
        Some(text) => Ok(Pictured::Text(text)),
        None => {
            let count = machine.live_events().len();
            Ok(Pictured::NoSuchStep(missing_text(alloc, event, count)?))
        }
    }
}

/// What is said of the step that is asked for where a trace of so many steps does not have it.
fn missing_text(alloc: Global, event: Option<u64>, count: usize) -> Result<Vec<u8>, AllocError>
    ensures { IfOk result (λ words. words.items ≡ model.missing_text event count) }
{
    match event {
        Some(step) => step_missing(alloc, step, count),
        None => Ok(Vec::new(alloc)),
    }
}

/// The same of this step.
fn step_missing(alloc: Global, step: u64, count: usize) -> Result<Vec<u8>, AllocError>
    ensures { IfOk result (λ words. words.items ≡ model.missing_text (Some step) count) }
{
    let mut words = Vec::new(alloc);
    add_pieces(
        &mut words,
        &[
            Piece::Words(b"the trace has no step "),
            Piece::Number(step),
            Piece::Words(b": it has "),
            Piece::Number(count as u64),
            Piece::Words(steps_word(count)),
            Piece::Words(b"\n"),
        ],
    )?;
    Ok(words)
}

/// The word behind a number of steps.
fn steps_word(count: usize) -> &'static [u8]
    ensures { result.now ≡ model.steps_word count }
{
    if count == 1 { b" step" } else { b" steps" }
}

/// The page.
fn page_of(
    alloc: Global,
    machine: &Machine,
    picture: &Picture,
    source: &[u8],
    names: Names<'_>,
) -> Result<Vec<u8>, AllocError>
    requires { ShowsRun machine.now source.now picture.now }
    ensures { IfOk result (λ text. IsPage machine.now (files_of source.now names.entry) text.items) }
{
    let json = data_of(alloc, machine, picture, source, names)?;
    page_text(alloc, json.as_slice())
}

/// The data.
fn data_of(
    alloc: Global,
    machine: &Machine,
    picture: &Picture,
    source: &[u8],
    names: Names<'_>,
) -> Result<Vec<u8>, AllocError>
    requires { ShowsRun machine.now source.now picture.now }
    ensures { IfOk result (λ text. AreData machine.now (files_of source.now names.entry) text.items) }
{
    data_text(alloc, machine, picture, source, names)
}

/// The picture of the run as data. Where the source is not one that is accepted, which it was, it is an error too.
fn taken(alloc: Global, machine: &Machine, source: &[u8]) -> Result<Picture, AllocError>
    ensures { IfOk result (ShowsRun machine.now source.now) }
{
    match typed_source(alloc, source) {
        Ok(typed) => picture_of(alloc, machine, typed.procedures()),
        Err(_) => Err(AllocError),
    }
}
