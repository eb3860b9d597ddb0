// The drawing as it grows. All lengths are in tenths of a pixel.
use crate::columns::whole_pixels;
use crate::ink::{Dash, Ink};
use itoa::Buffer;
use std::alloc::{AllocError, Global};
use xml_text::add_text;

/// How wide a letter is, and a small one, in tenths of a pixel.
pub(crate) const LETTER: u64 = 68;

pub(crate) const SMALL_LETTER: u64 = 56;

/// A point of the drawing.
#[derive(Clone, Copy)]
pub(crate) struct Point {
    pub(crate) x: u64,
    pub(crate) y: u64,
}

/// A rectangle of the drawing.
#[derive(Clone, Copy)]
pub(crate) struct Area {
    pub(crate) x: u64,
    pub(crate) y: u64,
    pub(crate) width: u64,
    pub(crate) height: u64,
}

/// A line down, a bend to another column and a line down there. What is said of the bend are heights.
#[derive(Clone, Copy)]
pub(crate) struct Bend {
    pub(crate) from: Point,
    pub(crate) begin: u64,
    pub(crate) first: u64,
    pub(crate) second: u64,
    pub(crate) end: u64,
    pub(crate) to: Point,
}

/// On which side of its point a text stands.
#[derive(Clone, Copy, Debug, PartialEq, Eq)]
pub(crate) enum Anchor {
    Start,
    End,
}

/// How a text is written.
#[derive(Clone, Copy)]
pub(crate) struct Style {
    pub(crate) ink: Ink,
    pub(crate) is_small: bool,
    pub(crate) is_bold: bool,
    pub(crate) anchor: Anchor,
    /// the paper under it, where it stands over what is drawn already
    pub(crate) under: Option<Ink>,
}

impl Style {
    /// Words on white paper.
    pub(crate) fn on_paper(ink: Ink, is_small: bool, anchor: Anchor) -> Style {
        Style {
            ink,
            is_small,
            is_bold: false,
            anchor,
            under: Some(Ink::White),
        }
    }

    /// The width of a letter.
    pub(crate) fn letter(self) -> u64 {
        if self.is_small { SMALL_LETTER } else { LETTER }
    }

    /// The size of the letters.
    fn size(self) -> u64 {
        if self.is_small { 90 } else { 110 }
    }

    /// What the element of a text has between its place and its colour.
    fn before_ink(self) -> &'static str {
        if self.is_small {
            "\" font-size=\"9\" fill=\""
        } else {
            "\" font-size=\"11\" fill=\""
        }
    }

    /// What the paper under it has between its width and its colour.
    fn before_paper(self) -> &'static str {
        if self.is_small {
            "\" height=\"9\" fill=\""
        } else {
            "\" height=\"11\" fill=\""
        }
    }

    /// What it has between its colour and its letters.
    fn behind_ink(self) -> &'static str {
        match (self.anchor, self.is_bold) {
            (Anchor::Start, false) => "\" text-anchor=\"start\">",
            (Anchor::Start, true) => "\" text-anchor=\"start\" font-weight=\"bold\">",
            (Anchor::End, false) => "\" text-anchor=\"end\">",
            (Anchor::End, true) => "\" text-anchor=\"end\" font-weight=\"bold\">",
        }
    }
}

/// A part of an element. An attribute is ended by what stands before the next one.
#[derive(Clone, Copy)]
pub(crate) enum Part<'a> {
    /// as it stands here
    Text(&'a str),
    /// a text that stands for these bytes
    Words(&'a [u8]),
    Number(u64),
    /// a length, and what stands before it
    Length(&'a str, u64),
    /// a colour, and what stands before it
    Ink(&'a str, Ink),
    /// a point of a path behind the letter that leads to it
    To(&'a str, u64, u64),
    /// a line of a path down from there to there, if it has a length
    Down(u64, u64),
    /// the end of an element without content, with how its lines are broken, if they are
    End(Dash),
}

/// The drawing as it grows.
#[derive(Drop)]
pub(crate) struct Sheet {
    bytes: Vec<u8>,
    /// how far its texts reach to the right
    right: u64,
}

impl Sheet {
    /// Nothing yet.
    pub(crate) fn new(alloc: Global) -> Sheet {
        Sheet {
            bytes: Vec::new(alloc),
            right: 0,
        }
    }

    /// What is drawn.
    pub(crate) fn into_bytes(self) -> Vec<u8> {
        let Sheet { bytes, .. } = self;
        bytes
    }

    /// How far its texts reach to the right.
    pub(crate) fn right(&self) -> u64 {
        self.right
    }

    /// Notes that a text reaches so far to the right.
    pub(crate) fn reach(&mut self, right: u64) {
        self.right = self.right.max(right);
    }

    /// Lays another sheet over this one.
    pub(crate) fn append(&mut self, other: &Sheet) -> Result<(), AllocError> {
        self.bytes.extend_from_slice(other.bytes.as_slice())
    }

    /// Adds these parts.
    pub(crate) fn add_all(&mut self, parts: &[Part<'_>]) -> Result<(), AllocError> {
        for part in parts {
            self.add_part(*part)?;
        }
        Ok(())
    }

    /// Adds a part.
    fn add_part(&mut self, part: Part<'_>) -> Result<(), AllocError> {
        match part {
            Part::Text(text) => self.add(text),
            Part::Words(bytes) => add_text(&mut self.bytes, bytes),
            Part::Number(number) => self.add_number(number),
            Part::Length(before, tenths) => self.add_length(before, tenths),
            Part::Ink(before, ink) => {
                self.add(before)?;
                self.add(ink.code())
            }
            Part::To(letter, x, y) => {
                self.add_length(letter, x)?;
                self.add_length(" ", y)
            }
            Part::Down(from, to) if from == to => Ok(()),
            Part::Down(_, to) => self.add_length("V", to),
            Part::End(dash) => self.add(dash.end()),
        }
    }

    /// Adds a text of the drawing's own.
    fn add(&mut self, text: &str) -> Result<(), AllocError> {
        self.bytes.extend_from_slice(text.as_bytes())
    }

    /// Adds a number.
    fn add_number(&mut self, number: u64) -> Result<(), AllocError> {
        let mut buffer = Buffer::new();
        let digits = buffer.format(number);
        self.bytes.extend_from_slice(digits.as_bytes())
    }

    /// Adds a length in pixels, and before it what stands there.
    fn add_length(&mut self, before: &str, tenths: u64) -> Result<(), AllocError> {
        self.add(before)?;
        self.add_number(tenths / 10)?;
        match part_of(tenths) {
            Some(part) => self.add(part),
            None => Ok(()),
        }
    }

    /// Draws a line.
    pub(crate) fn line(
        &mut self,
        from: Point,
        to: Point,
        ink: Ink,
        width: u64,
        dash: Dash,
    ) -> Result<(), AllocError> {
        self.add_all(&[
            Part::Length("<line x1=\"", from.x),
            Part::Length("\" y1=\"", from.y),
            Part::Length("\" x2=\"", to.x),
            Part::Length("\" y2=\"", to.y),
            Part::Ink("\" stroke=\"", ink),
            Part::Length("\" stroke-width=\"", width),
            Part::End(dash),
        ])
    }

    /// Draws a line from edge to edge.
    pub(crate) fn edge(&mut self, y: u64, ink: Ink) -> Result<(), AllocError> {
        self.add_all(&[
            Part::Length("<line x1=\"0\" x2=\"100%\" y1=\"", y),
            Part::Length("\" y2=\"", y),
            Part::Ink("\" stroke=\"", ink),
            Part::Text("\" stroke-width=\"1\"/>\n"),
        ])
    }

    /// Draws an area with an edge.
    pub(crate) fn area(
        &mut self,
        area: Area,
        fill: Ink,
        edge: Ink,
        dash: Dash,
    ) -> Result<(), AllocError> {
        self.rectangle(area, "\" rx=\"2.5\" fill=\"", fill, edge, dash)
    }

    /// Draws a small square.
    pub(crate) fn square(
        &mut self,
        centre: Point,
        fill: Ink,
        edge: Ink,
        dash: Dash,
    ) -> Result<(), AllocError> {
        let area = Area {
            x: centre.x.saturating_sub(40),
            y: centre.y.saturating_sub(40),
            width: 80,
            height: 80,
        };
        self.rectangle(area, "\" fill=\"", fill, edge, dash)
    }

    /// Draws a rectangle that has this between its outline and its colour.
    fn rectangle(
        &mut self,
        area: Area,
        before_fill: &str,
        fill: Ink,
        edge: Ink,
        dash: Dash,
    ) -> Result<(), AllocError> {
        self.add_all(&[
            Part::Length("<rect x=\"", area.x),
            Part::Length("\" y=\"", area.y),
            Part::Length("\" width=\"", area.width),
            Part::Length("\" height=\"", area.height),
            Part::Ink(before_fill, fill),
            Part::Ink("\" stroke=\"", edge),
            Part::End(dash),
        ])
    }

    /// Draws a circle with an edge.
    pub(crate) fn circle(
        &mut self,
        centre: Point,
        radius: u64,
        fill: Ink,
        edge: Ink,
        dash: Dash,
    ) -> Result<(), AllocError> {
        self.add_all(&[
            Part::Length("<circle cx=\"", centre.x),
            Part::Length("\" cy=\"", centre.y),
            Part::Length("\" r=\"", radius),
            Part::Ink("\" fill=\"", fill),
            Part::Ink("\" stroke=\"", edge),
            Part::End(dash),
        ])
    }

    /// Draws a small diamond.
    pub(crate) fn diamond(
        &mut self,
        centre: Point,
        ink: Ink,
        dash: Dash,
    ) -> Result<(), AllocError> {
        self.add_all(&[
            Part::To("<path d=\"M", centre.x, centre.y.saturating_sub(40)),
            Part::Ink("l4 4l-4 4l-4 -4z\" fill=\"", Ink::White),
            Part::Ink("\" stroke=\"", ink),
            Part::End(dash),
        ])
    }

    /// Draws the head of an arrow that points to the right, or else to the left.
    pub(crate) fn arrow(&mut self, tip: Point, to_right: bool, ink: Ink) -> Result<(), AllocError> {
        let sides = if to_right {
            "l-8 -4.5v9z\" fill=\""
        } else {
            "l8 -4.5v9z\" fill=\""
        };
        self.add_all(&[
            Part::To("<path d=\"M", tip.x, tip.y),
            Part::Ink(sides, ink),
            Part::End(Dash::Whole),
        ])
    }

    /// Draws a line that bends to another column.
    pub(crate) fn bend(&mut self, bend: Bend, ink: Ink, dash: Dash) -> Result<(), AllocError> {
        self.add_all(&[
            Part::To("<path d=\"M", bend.from.x, bend.from.y),
            Part::Down(bend.from.y, bend.begin),
            Part::To("C", bend.from.x, bend.first),
            Part::To(" ", bend.to.x, bend.second),
            Part::To(" ", bend.to.x, bend.end),
            Part::Down(bend.end, bend.to.y),
            Part::Ink("\" fill=\"none\" stroke-width=\"1.3\" stroke=\"", ink),
            Part::End(dash),
        ])
    }

    /// Writes a text, with the paper under it. It does not leave the drawing at the left.
    pub(crate) fn words(&mut self, at: Point, text: &[u8], style: Style) -> Result<(), AllocError> {
        if text.is_empty() {
            return Ok(());
        }
        let width = (text.len() as u64).saturating_mul(style.letter());
        let before = match style.anchor {
            Anchor::Start => 0,
            Anchor::End => width,
        };
        let x = at.x.max(before);
        let left = x.saturating_sub(before);
        self.reach(left.saturating_add(width));
        if let Some(under) = style.under {
            self.paper(Point { x: left, y: at.y }, width, style, under)?;
        }
        self.letters(Point { x, y: at.y }, text, style)
    }

    /// Draws the paper under a text that begins there, in whole pixels. What lies under it is seen a little.
    fn paper(&mut self, at: Point, width: u64, style: Style, ink: Ink) -> Result<(), AllocError> {
        let left = at.x / 10 * 10;
        let right = whole_pixels(at.x.saturating_add(width));
        let top = at.y.saturating_sub(style.size()).saturating_add(20);
        self.add_all(&[
            Part::Length("<rect opacity=\"0.8\" x=\"", left),
            Part::Length("\" y=\"", top),
            Part::Length("\" width=\"", right.saturating_sub(left)),
            Part::Ink(style.before_paper(), ink),
            Part::End(Dash::Whole),
        ])
    }

    /// Writes the letters of a text.
    fn letters(&mut self, at: Point, text: &[u8], style: Style) -> Result<(), AllocError> {
        self.add_all(&[
            Part::Length("<text x=\"", at.x),
            Part::Length("\" y=\"", at.y),
            Part::Ink(style.before_ink(), style.ink),
            Part::Text(style.behind_ink()),
            Part::Words(text),
            Part::Text("</text>\n"),
        ])
    }
}

/// What is written of so many tenths behind the whole pixels.
fn part_of(tenths: u64) -> Option<&'static str> {
    match tenths % 10 {
        0 => None,
        1 => Some(".1"),
        2 => Some(".2"),
        3 => Some(".3"),
        4 => Some(".4"),
        5 => Some(".5"),
        6 => Some(".6"),
        7 => Some(".7"),
        8 => Some(".8"),
        _ => Some(".9"),
    }
}
