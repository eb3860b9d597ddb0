// Refusals 31 to 34: a line of a trace.
use crate::fields::{Field, fields_of, find_blemish, number_fault, point};
use crate::script::place_fault;
use findings::Finding;
use std::alloc::AllocError;
use std::str;

/// A line behind this one, from 1, would be live event 65,537.
const LAST_LINE: u64 = 65_537;

/// How a step is written.
const FORM: &str = "a step is as `trace` prints it, with its place and its arm: `step /0.0 0`";

/// A first line that is no header.
pub fn find_header(text: &[u8], trace: &[u8], finding: &mut Finding) -> Result<(), AllocError> {
    if text.starts_with(b"balsadbg ") && find_blemish(text, finding)? {
        return Ok(());
    }
    finding.say(&["a trace begins with the line `balsadbg trace 2`"])?;
    if let Some(line) = header_line(trace) {
        return write!(
            finding.help,
            "this one begins on line {line}: take the lines before it out, as by `sed -n '/^balsadbg trace/,$p'`"
        );
    }
    if text.starts_with(b"balsadbg trace ") {
        return finding.advise(&["versions 1 and 2 are read: of which program is it?"]);
    }
    if trace.is_empty() {
        return finding.advise(&["the file is empty: was the trace written into it?"]);
    }
    finding.advise(&[
        "a trace is what the line `trace` of a script prints, from the line `balsadbg trace 2` on",
    ])
}

/// The line, from 1, that is the header of a trace; none where no line is.
fn header_line(trace: &[u8]) -> Option<u64> {
    let mut number = 0_u64;
    for line in trace.split(|byte| *byte == b'\n') {
        number = number.saturating_add(1);
        if line == b"balsadbg trace 2".as_slice() || line == b"balsadbg trace 1".as_slice() {
            return Some(number);
        }
    }
    None
}

/// A line that is no step.
pub fn find_form(text: &[u8], is_last: bool, finding: &mut Finding) -> Result<(), AllocError> {
    if text.is_empty() {
        finding.say(&["a trace has no blank lines"])?;
        return finding.advise(&["take the line out"]);
    }
    if is_last {
        finding.say(&["the file ends inside this line"])?;
        return finding.advise(&["is it whole? Behind its last line stands byte 10, too"]);
    }
    if find_blemish(text, finding)? {
        return Ok(());
    }
    let line = str::from_utf8(text).unwrap_or("");
    let fields = fields_of(finding.alloc, line)?;
    find_field(fields.as_slice(), finding)?;
    finding.advise(&[FORM])
}

/// The first word of a line that does not belong to a step, or the one that is missing.
fn find_field(fields: &[Field<'_>], finding: &mut Finding) -> Result<(), AllocError> {
    let line = finding.start;
    for (index, field) in fields.iter().enumerate() {
        if let Some(why) = field_fault(index, field.text) {
            point(finding, line, field.start, field.stop());
            finding.say(&["`", field.text, "`"])?;
            return finding.say(&[why]);
        }
    }
    let end = finding.stop;
    finding.start = end;
    finding.say(&[if fields.len() < 2 {
        "the place of the step is missing"
    } else {
        "the arm of the step is missing, which is 0 where there is one alone"
    }])
}

/// What is wrong with a word of a step.
fn field_fault(index: usize, text: &str) -> Option<&'static str> {
    match index {
        0 if text != "step" => Some(" begins no line of a trace, which is a step"),
        0 => None,
        1 if place_fault(text).is_some() => Some(" is no place"),
        1 => None,
        2 if number_fault(text, u64::from(u32::MAX)).is_some() => Some(" is no arm"),
        2 => None,
        _ => Some(" is more than a step has"),
    }
}

/// Marks what stands behind the word `step`.
fn point_step(text: &[u8], finding: &mut Finding) {
    if text.starts_with(b"step ") {
        finding.start = finding.start.saturating_add(5);
    }
}

/// A step that cannot be taken.
pub fn find_step(text: &[u8], line: u64, finding: &mut Finding) -> Result<(), AllocError> {
    point_step(text, finding);
    if line > LAST_LINE {
        finding.say(&["65536 steps are live before this one, and there are no more"])?;
        return finding.advise(&["take the lines from here on out"]);
    }
    finding.say(&["this step cannot be taken once those of the lines before are"])?;
    finding.advise(&[
        "is it the trace of this description and this stimulus, with no line taken out or moved?",
    ])
}

/// A step that stands elsewhere than in canonical order.
pub fn find_order(text: &[u8], finding: &mut Finding) -> Result<(), AllocError> {
    point_step(text, finding);
    finding.say(&["the step can be taken, and has another place in the trace"])?;
    finding.advise(&[
        "write `balsadbg trace 1` in the first line to load the steps in the order in which they stand",
    ])
}
