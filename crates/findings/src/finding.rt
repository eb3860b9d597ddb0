// What was found about a fault, and its text.
ghost use Rattle.std.specs.Prelude.{◌≡◌, ◌∷◌, ◌++◌, ℕ, List, [], map, IfOk, OnOk, string_bytes};
ghost use Rattle.std.specs.List.{list_any};
ghost use Rattle.findings.specs.Heads.{IsHead, TellsPlace, head};
ghost use Rattle.findings.specs.MarkedPlaces.{begins_at, marked_at, marked_once};
ghost use Rattle.findings.specs.Marking.{AreMarksOf, ShowsMarks, TellsMarked, seen, seen_beside};

use crate::wrap::help_text;
use marked_lines::{Mark, add_marked};
use source_places::place_of;
use std::alloc::{AllocError, Global};
use std::str;
use syntax::Span;

/// A text that was read, and how people call it: the name of its file, or what it is.
#[derive(Clone, Copy)]
pub struct Input<'a> {
    pub name: &'a str,
    pub bytes: &'a [u8],
}

/// Another place that has to do with the fault.
#[derive(Drop)]
pub struct Beside {
    pub start: u64,
    pub stop: u64,
    pub note: String,
}

/// What was found about a fault at a place.
#[derive(Drop)]
pub struct Finding {
    pub alloc: Global,
    pub start: u64,
    pub stop: u64,
    /// What is wrong.
    pub what: String,
    /// What helps; nothing where it is empty.
    pub help: String,
    pub beside: Vec<Beside>,
}

/// The bytes from one offset up to another, as text.
pub fn text_between(source: &[u8], start: u64, stop: u64) -> &str {
    let bytes = source.get(start as usize..stop as usize).unwrap_or(b"");
    str::from_utf8(bytes).unwrap_or("?")
}

/// The bytes of a span, as text.
pub fn text_of(source: &[u8], span: Span) -> &str {
    text_between(source, span.start, span.stop)
}

/// So many bytes of a name or an expression are told at most.
const LONGEST: usize = 60;

/// The text of a name or an expression as it is told: `..` where it is long or goes over lines.
pub fn short(text: &str) -> &str {
    if text.len() > LONGEST || text.as_bytes().contains(&b'\n') {
        return "..";
    }
    text
}

/// A part of what is told: `..` where it is a name that is very long.
fn part_told(part: &str) -> &str {
    if part.len() > 400 { ".." } else { part }
}

/// The name of a text, a line of it and a column in that, and what is said of it.
fn head_of(
    alloc: Global,
    name: &str,
    line: usize,
    column: usize,
    what: &str,
) -> Result<String, AllocError>
    ensures { IfOk result (λ told. string_bytes told ≡ head name.now line column what.now) }
{
    let mut text = String::from_str(alloc, name)?;
    write!(text, ":{line}:{column}: ")?;
    text.push_str(what)?;
    text.push('\n')?;
    Ok(text)
}

impl Finding {
    /// Nothing is said yet of the bytes from `start` up to `stop`.
    pub fn new(alloc: Global, start: u64, stop: u64) -> Finding
        ensures place { (result.start ≡ start) × (result.stop ≡ stop) }
        ensures bare { result.beside.items ≡ [] }
    {
        Finding {
            alloc,
            start,
            stop,
            what: String::new(alloc),
            help: String::new(alloc),
            beside: Vec::new(alloc),
        }
    }

    /// Adds another place.
    pub fn add_beside(&mut self, span: Span, note: &str) -> Result<(), AllocError>
        ensures marked { OnOk result (marked_at self.new.beside.items
            ≡ marked_at self.old.beside.items ++ span.start ∷ []) }
        ensures kept { self.new ≡ record self.old { beside = self.new.beside } }
    {
        let note = String::from_str(self.alloc, note)?;
        self.beside.push(Beside {
            start: span.start,
            stop: span.stop,
            note,
        })?;
        Ok(())
    }

    /// Adds another place, where none that is added begins there.
    pub fn add_once(&mut self, span: Span, note: &str) -> Result<(), AllocError>
        ensures marked { OnOk result (marked_at self.new.beside.items ≡ marked_once span.start self.old.beside.items) }
        ensures kept { self.new ≡ record self.old { beside = self.new.beside } }
    {
        if is_marked(self.beside.as_slice(), span.start) {
            return Ok(());
        }
        self.add_beside(span, note)
    }

    /// Says what is wrong.
    pub fn say(&mut self, parts: &[&str]) -> Result<(), AllocError>
        ensures { self.new ≡ record self.old { what = self.new.what } }
    {
        for part in parts {
            self.what.push_str(part_told(part))?;
        }
        Ok(())
    }

    /// Says what helps.
    pub fn advise(&mut self, parts: &[&str]) -> Result<(), AllocError>
        ensures { self.new ≡ record self.old { help = self.new.help } }
    {
        for part in parts {
            self.help.push_str(part_told(part))?;
        }
        Ok(())
    }

    /// All its marks, in the order of their places.
    fn marks(&self) -> Result<Vec<Mark<'_>>, AllocError>
        ensures { IfOk result (λ marks. AreMarksOf self.now marks.items) }
    {
        let mut marks = Vec::new(self.alloc);
        marks.push(Mark {
            start: self.start as usize,
            stop: self.stop as usize,
            sign: '^',
            note: "",
        })?;
        add_marks_beside(&mut marks, self.beside.as_slice())?;
        marks.sort_by_key(|mark| mark.start)?;
        Ok(marks)
    }

    /// The text: the place and what is wrong, the lines with their marks, and what helps.
    pub fn text(&self, input: Input<'_>, keeps_return: bool) -> Result<String, AllocError>
        ensures place { IfOk result (λ told. TellsPlace input.entry.name.now input.entry.bytes.now self.now.start
            (string_bytes self.now.what) (string_bytes told)) }
        ensures marks { IfOk result (λ told. TellsMarked input.entry.name.now input.entry.bytes.now keeps_return
            self.now (string_bytes told)) }
    {
        let mut text = self.head(input)?;
        let lines = self.lines(input, keeps_return)?;
        text.push_str(lines.as_str())?;
        Ok(text)
    }

    /// The first line: the place and what is wrong.
    fn head(&self, input: Input<'_>) -> Result<String, AllocError>
        ensures { IfOk result (λ told. IsHead input.entry.name.now input.entry.bytes.now self.now.start
            (string_bytes self.now.what) (string_bytes told)) }
    {
        let place = place_of(input.bytes, self.start as usize);
        let text = head_of(
            self.alloc,
            input.name,
            place.line,
            place.column,
            self.what.as_str(),
        )?;
        Ok(text)
    }

    /// The lines with their marks, and what helps.
    fn lines(&self, input: Input<'_>, keeps_return: bool) -> Result<String, AllocError>
        ensures { IfOk result (λ told. ShowsMarks input.entry.bytes.now keeps_return self.now
            (string_bytes told)) }
    {
        let marks = self.marks()?;
        let mut text = String::new(self.alloc);
        add_marked(
            self.alloc,
            &mut text,
            input.bytes,
            marks.as_slice(),
            keeps_return,
        )?;
        let help = help_text(self.alloc, self.help.as_str())?;
        text.push_str(help.as_str())?;
        Ok(text)
    }
}

/// Whether a mark begins at the offset.
fn is_marked(marks: &[Beside], at: u64) -> bool
    ensures { result ≡ list_any (begins_at at) marks.now }
{
    for mark in marks {
        if mark.start == at {
            return true;
        }
    }
    false
}

/// Adds a mark for each of what is marked beside a fault.
fn add_marks_beside<'a>(marks: &mut Vec<Mark<'a>>, beside: &'a [Beside]) -> Result<(), AllocError>
    ensures { OnOk result (map seen marks.new.items ≡ map seen marks.old.items ++ map seen_beside beside.now) }
{
    for one in beside {
        marks.push(Mark {
            start: one.start as usize,
            stop: one.stop as usize,
            sign: '-',
            note: one.note.as_str(),
        })?;
    }
    Ok(())
}
