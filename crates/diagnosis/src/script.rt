// Refusal 61: a line of a script.
use crate::fields::{Field, fields_of, find_blemish, number_fault, point};
use crate::variables;
use findings::{Finding, Nearest};
use std::alloc::AllocError;
use std::str;

/// What stands behind the word of a line.
#[derive(Clone, Copy, PartialEq, Eq)]
enum Operand {
    Nothing,
    /// A place, and an arm where one is given.
    Choice,
    Ticket,
    Line,
    Branch,
    Session,
    Variable,
}

/// A word with which lines begin.
#[derive(Clone, Copy)]
struct Form<'a> {
    word: &'a str,
    operand: Operand,
}

/// The words with which lines begin.
static WORDS: [&str; 15] = [
    "ready",
    "step",
    "live",
    "value",
    "undo",
    "consequences",
    "roll",
    "blame",
    "rollvalue",
    "branch",
    "break",
    "clear",
    "session",
    "trace",
    "view",
];

/// What stands behind a word; none where it begins no line.
fn operand_behind(word: &str) -> Option<Operand> {
    match word {
        "ready" | "live" | "trace" | "view" => Some(Operand::Nothing),
        "step" => Some(Operand::Choice),
        "value" | "blame" | "rollvalue" => Some(Operand::Variable),
        "undo" | "consequences" | "roll" => Some(Operand::Ticket),
        "branch" => Some(Operand::Branch),
        "break" | "clear" => Some(Operand::Line),
        "session" => Some(Operand::Session),
        _ => None,
    }
}

/// How the lines that begin with a word are written.
fn help_of(word: &str) -> &'static str {
    match word {
        "ready" => "the whole line is `ready`",
        "live" => "the whole line is `live`",
        "trace" => "the whole line is `trace`",
        "view" => "the whole line is `view`",
        "step" =>
            "the line is `step PLACE` or `step PLACE ARM`, with a place as `ready` lists it: `step /0.0`",
        "value" => "the line is `value X`, with the name of a variable",
        "blame" => "the line is `blame X`, with the name of a variable",
        "rollvalue" => "the line is `rollvalue X`, with the name of a variable",
        "undo" => "the line is `undo T`, with a ticket as `live` lists it",
        "consequences" => "the line is `consequences T`, with a ticket as `live` lists it",
        "roll" => "the line is `roll T`, with a ticket as `live` lists it",
        "branch" => "the line is `branch K`, with the number of a branch, from 0",
        "break" => "the line is `break L`, with a line of the description, from 1",
        "clear" => "the line is `clear L`, with a line of the description, from 1",
        _ => "the line is `session K`, with K from 0 to 15",
    }
}

/// What is wrong with a line of a script over a description.
pub fn find(text: &[u8], source: &[u8], finding: &mut Finding) -> Result<(), AllocError> {
    if find_blemish(text, finding)? {
        return Ok(());
    }
    let line = str::from_utf8(text).unwrap_or("");
    let fields = fields_of(finding.alloc, line)?;
    let Some(word) = fields.as_slice().first() else {
        return Ok(());
    };
    match operand_behind(word.text) {
        Some(operand) => {
            let form = Form {
                word: word.text,
                operand,
            };
            find_operand(form, fields.as_slice(), source, finding)
        }
        None => find_word(*word, finding),
    }
}

/// What is wrong where the first word begins no line.
fn find_word(word: Field<'_>, finding: &mut Finding) -> Result<(), AllocError> {
    let alloc = finding.alloc;
    let line = finding.start;
    point(finding, line, word.start, word.stop());
    finding.say(&["no line of a script begins with `", word.text, "`"])?;
    if let Some(help) = help_for(word.text) {
        return finding.advise(&[help]);
    }
    let mut nearest = Nearest::none();
    for known in &WORDS {
        nearest.offer(alloc, word.text, known)?;
    }
    match nearest.name {
        Some(known) if nearest.distance == 0 => {
            finding.advise(&["words are written in small letters: `", known, "`"])
        }
        Some(known) => finding.advise(&["did you mean `", known, "`? ", help_of(known)]),
        None => finding.advise(&["`balsadbg debug --help` lists the lines of a script"]),
    }
}

/// What helps against a word that other programs know.
fn help_for(word: &str) -> Option<&'static str> {
    if word.starts_with('#') || word.starts_with("--") || word.starts_with("//") {
        return Some("a script has no comments");
    }
    if word.starts_with('/') {
        return Some("the step at a place is taken by `step PLACE`, as in `step /0.0`");
    }
    match word {
        "help" | "?" | "h" => Some("`balsadbg debug --help` lists the lines of a script"),
        "quit" | "exit" | "q" | "bye" => {
            Some("a script ends where its lines end: at a terminal by Ctrl-D")
        }
        "next" | "n" | "s" | "continue" | "c" | "run" | "r" => Some(
            "`step PLACE` takes the step at a place, and `branch K` the next one of a branch; \
             `ready` lists what can be stepped",
        ),
        "back" => Some("`undo T` takes back a step, and `roll T` all that depends on it too"),
        "print" | "p" | "show" => Some("`value X` tells the value of a variable"),
        "list" | "l" | "source" => Some("`view` prints the description with marks"),
        "save" | "load" => {
            Some("`trace` prints the trace of the live steps, and `balsadbg replay` takes one")
        }
        _ => None,
    }
}

/// What is wrong with what stands behind a word that begins lines.
fn find_operand(
    form: Form<'_>,
    fields: &[Field<'_>],
    source: &[u8],
    finding: &mut Finding,
) -> Result<(), AllocError> {
    let line = finding.start;
    let Some(operand) = fields.get(1) else {
        let behind = form.word.len() as u64;
        point(finding, line, behind, behind);
        finding.say(&["something is missing behind `", form.word, "`"])?;
        return finding.advise(&[help_of(form.word)]);
    };
    point(finding, line, operand.start, operand.stop());
    match form.operand {
        Operand::Nothing => {
            finding.stop = line.saturating_add(last_stop(fields));
            finding.say(&["nothing stands behind `", form.word, "`"])?;
            return finding.advise(&[help_of(form.word)]);
        }
        Operand::Variable => {
            if fields.len() == 2 {
                return variables::find(operand.text, source, finding);
            }
        }
        other => {
            if let Some(why) = operand_fault(other, operand.text) {
                finding.say(&["`", operand.text, "` is no "])?;
                finding.say(&[operand_name(other), ": "])?;
                finding.say(&[why])?;
                return finding.advise(&[help_of(form.word)]);
            }
        }
    }
    find_behind(form, fields, line, finding)
}

/// Where the last word of a line ends.
fn last_stop(fields: &[Field<'_>]) -> u64 {
    fields.last().map_or(0, |field| field.stop())
}

/// How an operand is called.
fn operand_name(operand: Operand) -> &'static str {
    match operand {
        Operand::Choice => "place",
        Operand::Ticket => "ticket",
        Operand::Line => "line",
        Operand::Branch => "branch",
        Operand::Session => "session",
        Operand::Nothing | Operand::Variable => "variable",
    }
}

/// Why a text is no operand of this kind; none where it is one.
fn operand_fault(operand: Operand, text: &str) -> Option<&'static str> {
    match operand {
        Operand::Choice => place_fault(text),
        Operand::Branch => number_fault(text, u64::from(u32::MAX)),
        Operand::Session => number_fault(text, 15),
        _ => number_fault(text, u64::MAX),
    }
}

/// Why a text is no place; none where it is one.
pub fn place_fault(text: &str) -> Option<&'static str> {
    if !text.starts_with('/') && !text.starts_with('.') {
        return Some("a place begins with `/`");
    }
    let numbers = text.get(1..).unwrap_or("");
    for part in numbers.split(|character: char| matches!(character, '/' | '.')) {
        if let Some(why) = number_fault(part, u64::from(u32::MAX)) {
            return Some(if part.is_empty() {
                "a number stands behind each `/` and each `.`"
            } else {
                why
            });
        }
    }
    None
}

/// What is wrong behind the first operand: the arm of a step, or more than a line has.
fn find_behind(
    form: Form<'_>,
    fields: &[Field<'_>],
    line: u64,
    finding: &mut Finding,
) -> Result<(), AllocError> {
    let mut known = 2;
    if form.operand == Operand::Choice
        && let Some(arm) = fields.get(2)
    {
        known = 3;
        if let Some(why) = number_fault(arm.text, u64::from(u32::MAX)) {
            point(finding, line, arm.start, arm.stop());
            finding.say(&["`", arm.text, "` is no arm: "])?;
            finding.say(&[why])?;
            return finding.advise(&[help_of(form.word)]);
        }
    }
    match fields.get(known) {
        Some(more) => {
            point(finding, line, more.start, last_stop(fields));
            finding.say(&["this is more than stands behind `", form.word, "`"])?;
        }
        None => finding.say(&["this line is none of a script"])?,
    }
    finding.advise(&[help_of(form.word)])
}
