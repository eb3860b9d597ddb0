// Refusals of lines: 31 to 34, 51 and 61.
ghost use Rattle.std.specs.Prelude.{◌≡◌, ◌≢◌, ◌≤◌, ◌<◌, ◌+◌, ℕ, length, slice_index, IfOk, Some, string_bytes};
ghost use Rattle.source_places.specs.Places.{ends_before, line_end};
ghost use Rattle.diagnosis.specs.Told.{TellsLine, input_of};

use crate::told::{Inputs, explain_plain};
use crate::{described, script, trace};
use findings::{Finding, Input};
use source_places::{end_of_line, start_of_line};
use std::alloc::{AllocError, Global};

/// The text in which a line is refused.
fn input_of<'a>(number: u32, inputs: &Inputs<'a>) -> Option<Input<'a>>
    ensures { result ≡ input_of number inputs.now }
{
    match number {
        51 => inputs.stimulus,
        61 => inputs.script,
        _ => inputs.trace,
    }
}

/// What is told of a line that is refused.
pub fn explain(
    alloc: Global,
    number: u32,
    line: u64,
    inputs: &Inputs<'_>,
) -> Result<String, AllocError>
    ensures { IfOk result (λ told. TellsLine (input_of number inputs.now) line (string_bytes told)) }
{
    match input_of(number, inputs) {
        Some(input) => explain_line(alloc, number, line, input, inputs),
        None => explain_plain(alloc, number, inputs),
    }
}

/// What is told of a line of an input.
fn explain_line(
    alloc: Global,
    number: u32,
    line: u64,
    input: Input<'_>,
    inputs: &Inputs<'_>,
) -> Result<String, AllocError>
    ensures { IfOk result (λ told. TellsLine (Some input.entry) line (string_bytes told)) }
{
    let Some(start) = start_of_line(input.bytes, line as usize) else {
        return explain_plain(alloc, number, inputs);
    };
    let stop = end_of_line(input.bytes, start);
    let mut finding = Finding::new(alloc, start as u64, stop as u64);
    find(number, line, input, inputs, &mut finding)?;
    text_in_line(&mut finding, start, stop, input)
}

/// The text of what was found in the line from `start` to `stop`. Whatever that is, its place is in the line.
fn text_in_line(
    finding: &mut Finding,
    start: usize,
    stop: usize,
    input: Input<'_>,
) -> Result<String, AllocError>
    requires order { start ≤ stop }
    requires inside { (k : ℕ) → start ≤ k → k < stop → slice_index input.bytes.now k ≢ line_end }
    requires end { stop ≤ length input.bytes.now }
    ensures { IfOk result (λ told. TellsLine (Some input.entry) (ends_before input.entry.bytes.now start + 1)
        (string_bytes told)) }
{
    finding.start = finding.start.max(start as u64).min(stop as u64);
    finding.text(input, true)
}

/// What was found of a line, at which the finding stands.
fn find(
    number: u32,
    line: u64,
    input: Input<'_>,
    inputs: &Inputs<'_>,
    finding: &mut Finding,
) -> Result<(), AllocError> {
    let (start, stop) = (finding.start as usize, finding.stop as usize);
    let text = input.bytes.get(start..stop).unwrap_or(b"");
    if text.last() == Some(&b'\r') {
        return find_return(input.name, finding);
    }
    match number {
        51 => described::find_stimulus(input.bytes, text, inputs.source.bytes, finding),
        61 => script::find(text, inputs.source.bytes, finding),
        31 => trace::find_header(text, input.bytes, finding),
        32 => trace::find_form(text, stop == input.bytes.len(), finding),
        33 => trace::find_step(text, line, finding),
        _ => trace::find_order(text, finding),
    }
}

/// Whether the shell takes a name as it stands.
fn is_plain(name: &str) -> bool {
    name.bytes().all(|byte| byte.is_ascii_alphanumeric()
        || matches!(byte, b'.' | b'/' | b'_' | b'-'))
}

/// A line that ends with byte 13.
fn find_return(name: &str, finding: &mut Finding) -> Result<(), AllocError> {
    finding.start = finding.stop.saturating_sub(1);
    finding.say(&["this line ends with byte 13, as on Windows, and lines end with byte 10 alone"])?;
    let name = if is_plain(name) { name } else { "OLD" };
    finding.advise(&["take these bytes away: `tr -d '\\r' < ", name, " > NEW`"])
}
