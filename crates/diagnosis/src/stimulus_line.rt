// Refusal 51: a line of the stimulus.
use crate::fields::{Field, fields_of, find_blemish, number_fault, point};
use findings::{Finding, Nearest, short, text_between, text_of};
use name_faults::{greatest, kind_text};
use std::alloc::AllocError;
use std::str;
use syntax::{Description, Span};
use written_names::{Declared, Kind, find as declaration_of, ports, types};

/// What is known where a line of a stimulus is refused.
#[derive(Clone, Copy)]
struct Known<'a> {
    source: &'a [u8],
    types: &'a [Declared],
    ports: &'a [Declared],
    /// The last procedure's name.
    root: &'a str,
}

/// What is wrong with a line of the stimulus, by the ports of the last procedure of the description.
pub fn find(
    stimulus: &[u8],
    text: &[u8],
    source: &[u8],
    description: &Description,
    finding: &mut Finding,
) -> Result<(), AllocError> {
    if find_blemish(text, finding)? {
        return Ok(());
    }
    let alloc = finding.alloc;
    let Some(root) = description.procedures.as_slice().last() else {
        return finding.say(&["this line fits no port"]);
    };
    let types = types(alloc, description)?;
    let ports = ports(alloc, source, types.as_slice(), root)?;
    let known = Known {
        source,
        types: types.as_slice(),
        ports: ports.as_slice(),
        root: text_of(source, root.name.span),
    };
    let line = str::from_utf8(text).unwrap_or("");
    let fields = fields_of(alloc, line)?;
    find_in(stimulus, fields.as_slice(), known, finding)
}

/// What is wrong with the words of a line.
fn find_in(
    stimulus: &[u8],
    fields: &[Field<'_>],
    known: Known<'_>,
    finding: &mut Finding,
) -> Result<(), AllocError> {
    let line = finding.start;
    let Some(name) = fields.first() else {
        return Ok(());
    };
    point(finding, line, name.start, name.stop());
    if fields.len() == 1 || !is_name(name.text) {
        return find_alone(name.text, finding);
    }
    let Some(port) = declaration_of(known.source, known.ports, name.text.as_bytes()) else {
        finding.say(&[
            "`",
            name.text,
            "` is no port of `",
            known.root,
            "`, the last procedure",
        ])?;
        return advise_port(known.source, known.ports, name.text, finding);
    };
    if let Some(start) = earlier_line(stimulus, line, name.text) {
        return find_again(name.text, start, finding);
    }
    find_given(line, fields, port, known, finding)
}

/// Whether a text has the letters of a name alone.
fn is_name(text: &str) -> bool {
    text.starts_with(|character: char| character.is_ascii_alphabetic())
        && text
            .bytes()
            .all(|byte| byte.is_ascii_alphanumeric() || byte == b'_')
}

/// A line that does not begin with a name and a blank.
fn find_alone(text: &str, finding: &mut Finding) -> Result<(), AllocError> {
    if text.starts_with('#') || text.starts_with("--") || text.starts_with("//") {
        finding.say(&["a stimulus has no comments"])?;
        return finding.advise(&["take the line out"]);
    }
    if text.contains('=') || text.contains('*') {
        finding.say(&["blanks are missing around `=` or `*`"])?;
        return finding.advise(&[FORM]);
    }
    finding.say(&["no line of a stimulus begins with `", text, "` alone"])?;
    finding.advise(&[FORM])
}

/// A second line for a port.
fn find_again(name: &str, start: u64, finding: &mut Finding) -> Result<(), AllocError> {
    finding.say(&["`", name, "` has a line already"])?;
    let first = Span {
        start,
        stop: start.saturating_add(name.len() as u64),
        line: 0,
    };
    finding.add_beside(first, "the first")?;
    finding.advise(&["write all values of a port on one line: `i = 5 7`"])
}

/// How a line of a stimulus looks.
const FORM: &str =
    "a line is `i = 5 7` for an input port or `s * 3` for a sync port, with one blank between words and none at \
                    the end; an output port has none";

/// What helps where a name is that of no port.
fn advise_port(
    source: &[u8],
    ports: &[Declared],
    name: &str,
    finding: &mut Finding,
) -> Result<(), AllocError> {
    let alloc = finding.alloc;
    let mut nearest = Nearest::none();
    for port in ports {
        let candidate = text_between(source, port.span.start, port.span.stop);
        nearest.offer(alloc, name, candidate)?;
    }
    if let Some(candidate) = nearest.name {
        return finding.advise(&["did you mean `", candidate, "`?"]);
    }
    if ports.is_empty() {
        return finding.advise(&["it has no ports: its stimulus is empty"]);
    }
    finding.advise(&["its ports are "])?;
    let mut between = "";
    for port in ports {
        let text = text_between(source, port.span.start, port.span.stop);
        finding.advise(&[between, "`", text, "`"])?;
        between = ", ";
    }
    Ok(())
}

/// Where an earlier line begins that is of the same port.
fn earlier_line(stimulus: &[u8], before: u64, name: &str) -> Option<u64> {
    let mut start = 0_u64;
    for line in stimulus.split(|byte| *byte == b'\n') {
        if start < before
            && line.starts_with(name.as_bytes())
            && line.get(name.len()) == Some(&b' ')
        {
            return Some(start);
        }
        start = start.saturating_add(line.len() as u64).saturating_add(1);
    }
    None
}

/// What is wrong with what stands behind the name of a port.
fn find_given(
    line: u64,
    fields: &[Field<'_>],
    port: Declared,
    known: Known<'_>,
    finding: &mut Finding,
) -> Result<(), AllocError> {
    let (Some(name), Some(sign)) = (fields.first(), fields.get(1)) else {
        return Ok(());
    };
    if port.kind == Kind::Output {
        finding.say(&["`", name.text, "` is an output port, and takes no values"])?;
        return finding.advise(&[
            "take the line out: what comes out at the port is told in the answers",
        ]);
    }
    let wanted = if port.kind == Kind::SyncPort {
        "*"
    } else {
        "="
    };
    if sign.text != wanted {
        point(finding, line, sign.start, sign.stop());
        return find_sign(name.text, sign.text, port.kind, finding);
    }
    if port.kind == Kind::SyncPort {
        return find_count(line, fields, finding);
    }
    find_values(line, fields, port, known, finding)
}

/// Another sign behind the name of a port than its kind wants.
fn find_sign(name: &str, sign: &str, kind: Kind, finding: &mut Finding) -> Result<(), AllocError> {
    if sign.len() > 1 && (sign.starts_with('=') || sign.starts_with('*')) {
        finding.say(&["a blank is missing in `", sign, "`"])?;
    } else {
        finding.say(&["`", name, "` is "])?;
        finding.say(&[kind_text(kind)])?;
        finding.say(&[", and `", sign, "` stands behind it"])?;
    }
    if kind == Kind::SyncPort {
        return finding.advise(&[
            "write how many syncs it makes, at most 65536: `",
            name,
            " * 3`",
        ]);
    }
    finding.advise(&[
        "write its values behind `=`, with one blank before each: `",
        name,
        " = 5 7`",
    ])
}

/// So many syncs a line may ask for.
const MOST_SYNCS: u64 = 65536;

/// What is wrong with the count of a sync port.
fn find_count(line: u64, fields: &[Field<'_>], finding: &mut Finding) -> Result<(), AllocError> {
    let Some(count) = fields.get(2) else {
        let end = fields.last().map_or(0, |field| field.stop());
        point(finding, line, end, end);
        finding.say(&["the number of syncs is missing"])?;
        return finding.advise(&["write it behind `*`, with one blank between: `s * 3`"]);
    };
    point(finding, line, count.start, count.stop());
    if let Some(why) = number_fault(count.text, MOST_SYNCS) {
        finding.say(&["`", count.text, "` is no number of syncs: "])?;
        finding.say(&[why])?;
        return finding.advise(&["a sync port makes from 0 to 65536 syncs: `s * 3`"]);
    }
    if let (Some(more), Some(last)) = (fields.get(3), fields.last()) {
        point(finding, line, more.start, last.stop());
        finding.say(&["this is more than a sync port takes"])?;
        return finding.advise(&["one number stands behind `*`: `s * 3`"]);
    }
    finding.say(&["this line fits no port"])?;
    finding.advise(&[FORM])
}

/// What is wrong with the values of an input port.
fn find_values(
    line: u64,
    fields: &[Field<'_>],
    port: Declared,
    known: Known<'_>,
    finding: &mut Finding,
) -> Result<(), AllocError> {
    let width = port.width.unwrap_or(64);
    let most = greatest(width);
    for value in fields.iter().skip(2) {
        if let Some(why) = number_fault(value.text, most) {
            point(finding, line, value.start, value.stop());
            return find_value(value.text, why, port, known, finding);
        }
    }
    finding.say(&["this line fits no port"])?;
    finding.advise(&[FORM])
}

/// A value that its port does not take.
fn find_value(
    value: &str,
    why: &str,
    port: Declared,
    known: Known<'_>,
    finding: &mut Finding,
) -> Result<(), AllocError> {
    let name = short(text_of(known.source, port.span));
    let width = port.width.unwrap_or(64);
    let most = greatest(width);
    let value = short(value);
    if number_fault(value, u64::MAX).is_none() {
        write!(
            finding.what,
            "{value} does not fit in the {width} bits of `{name}`"
        )?;
        return write!(finding.help, "the greatest value of {width} bits is {most}");
    }
    write!(finding.what, "`{value}` is no value: {why}")?;
    if let Some(element) = declaration_of(known.source, known.types, value.as_bytes())
        && element.kind == Kind::Element
    {
        let number = element.number;
        return write!(
            finding.help,
            "an element of an enumeration is written by its number, and `{value}` is {number}"
        );
    }
    write!(
        finding.help,
        "write values in decimal, with one blank before each: `{name} = 5 7`"
    )
}
