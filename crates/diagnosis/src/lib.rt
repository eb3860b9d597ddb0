//! What people are told of a fault: where it is, the line with a mark under it, what is wrong and what helps.
//!
//! A fault is a number and what stands behind it, as the fault line has them. That the text begins with the place of the
//! fault, shows the lines with marks, and marks the use that clashes with one of a variable, is proved of `explain`; its
//! words are tested.
#![tactic(auto)]

ghost use Rattle.std.specs.Prelude.{◌≡◌, IfOk, IsTrue, OnOk, string_bytes};
ghost use Rattle.diagnosis.specs.Clashes.{AddsClash};
ghost use Rattle.diagnosis.specs.Told as model;

mod clash;
mod described;
mod fields;
mod grammar;
mod hints;
mod lines;
mod misspelled;
mod opened;
mod script;
mod sharing;
mod stimulus_line;
mod told;
mod trace;
mod variables;
mod words;

use findings::Finding;
pub use findings::Input;
use std::alloc::{AllocError, Global};
pub use told::{Inputs, Unread, UnreadFile};

/// What is told of a fault behind its line: nothing, or lines that each have their end. `number` and `field` are those
/// of the fault. The first line has the place of the fault, and behind it come lines of the text with marks: of two
/// branches that share a variable, the use that clashes with the one at the place is marked beside it. Where the text in
/// which it is is not at hand, the page of the refusal alone is named. It is an error if there is no memory.
pub fn explain(
    alloc: Global,
    number: u32,
    field: Option<u64>,
    inputs: &Inputs<'_>,
) -> Result<String, AllocError>
    ensures { IfOk result (λ told. model.TellsFault number field inputs.now (string_bytes told)) }
{
    if is_of_line(number) {
        return lines::explain(alloc, number, field.unwrap_or(1), inputs);
    }
    explain_at(alloc, number, field, inputs)
}

/// What is told of a fault that is in no line.
fn explain_at(
    alloc: Global,
    number: u32,
    field: Option<u64>,
    inputs: &Inputs<'_>,
) -> Result<String, AllocError>
    ensures { IfOk result (λ told. IsTrue (model.is_at_offset number) → model.TellsAt number field inputs.now
        (string_bytes told)) }
{
    match field {
        Some(offset) => {
            if is_at_offset(number) {
                explain_source(alloc, number, offset, inputs.source)
            } else {
                told::explain_plain(alloc, number, inputs)
            }
        }
        None => told::explain_plain(alloc, number, inputs),
    }
}

/// Whether a refusal is at an offset of the source.
fn is_at_offset(number: u32) -> bool
    ensures { result ≡ model.is_at_offset number }
{
    matches!(number, 2..=13 | 15..=17)
}

/// Whether a refusal is that of a line.
fn is_of_line(number: u32) -> bool
    ensures { result ≡ model.is_of_line number }
{
    matches!(number, 31..=34 | 51 | 61)
}

/// What is told of a fault in the source. Whatever is found of it, its place is the offset.
fn explain_source(
    alloc: Global,
    number: u32,
    offset: u64,
    source: Input<'_>,
) -> Result<String, AllocError>
    ensures { IfOk result (λ told. model.TellsSource number source.entry offset (string_bytes told)) }
{
    let offset = offset.min(source.bytes.len() as u64);
    let mut finding = Finding::new(alloc, offset, offset);
    find(source.bytes, number, &mut finding)?;
    finding.start = offset;
    finding.text(source, false)
}

/// What was found about a fault of the source at the finding's place.
fn find(source: &[u8], number: u32, finding: &mut Finding) -> Result<(), AllocError>
    ensures { number ≡ 15 → OnOk result (AddsClash source.now finding.old finding.new) }
{
    match number {
        2..=4 => words::find(source, number, finding),
        5 | 6 => grammar::find(source, number, finding),
        _ => described::find(source, number, finding),
    }
}
