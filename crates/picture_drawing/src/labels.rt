// What is written beside events, and over the columns.
use crate::columns::text_width;
use crate::figure::{Scene, own_lane};
use crate::names::Name;
use crate::shown::Shown;
use itoa::Buffer;
use picture_data::{Actions, Lane, LaneKind};
use runs::{Event, Kind};
use std::alloc::{AllocError, Global};
use system::QualifiedName;

/// So many letters of a name are told at most, and of one that a value is received into.
const MOST_LETTERS: u64 = 256;

const MOST_STORED: u64 = 17;

/// The words of an event.
#[derive(Clone, Copy)]
pub(crate) struct Words<'a> {
    /// the name of the channel or of the variable
    name: &'a [u8],
    /// the value with what stands before it, or what else happens; it is never cut
    value: &'a [u8],
    /// the variable that a value is received into; empty where there is none
    pub(crate) stored: &'a [u8],
}

impl Words<'_> {
    /// How wide the label is: name and value.
    pub(crate) fn width(&self, is_small: bool) -> u64 {
        text_width(self.name, is_small).saturating_add(text_width(self.value, is_small))
    }

    /// How wide it is at least where the name is cut.
    pub(crate) fn least_width(&self, is_small: bool) -> u64 {
        let name = text_width(self.name, is_small);
        text_width(self.value, is_small).saturating_add(name.min(text_width(b"abc...", is_small)))
    }

    /// Adds the label. Where it is wider than the room the name is cut, and the value stays whole.
    pub(crate) fn add_label(
        &self,
        out: &mut Vec<u8>,
        room: u64,
        letter: u64,
    ) -> Result<(), AllocError> {
        let rest = room.saturating_sub((self.value.len() as u64).saturating_mul(letter));
        add_cut(out, self.name, rest, letter)?;
        out.extend_from_slice(self.value)
    }
}

/// The words of all events that have marks, told once.
#[derive(Drop)]
pub(crate) struct Told {
    text: Vec<u8>,
    /// where in it the words of each event end; those of the next begin there
    ends: Vec<WordEnds>,
}

/// Where the words of an event end: the name, the value, and what it is stored in.
#[derive(Clone, Copy)]
struct WordEnds {
    name: usize,
    value: usize,
    stored: usize,
}

impl Told {
    /// The words of the run.
    pub(crate) fn of(alloc: Global, scene: &Scene<'_>, shown: &Shown) -> Result<Told, AllocError> {
        let mut told = Told {
            text: Vec::new(alloc),
            ends: Vec::with_capacity(alloc, scene.live.len())?,
        };
        let mut teller = Teller::new(alloc);
        for (index, (_, event)) in scene.live.iter().enumerate() {
            if shown.is_marked(index) {
                teller.tell(scene, event, scene.actions(index))?;
            } else {
                teller.clear();
            }
            told.add(teller.words())?;
        }
        Ok(told)
    }

    /// Adds the words of the next event.
    fn add(&mut self, words: Words<'_>) -> Result<(), AllocError> {
        self.text.extend_from_slice(words.name)?;
        let name = self.text.len();
        self.text.extend_from_slice(words.value)?;
        let value = self.text.len();
        self.text.extend_from_slice(words.stored)?;
        let stored = self.text.len();
        self.ends.push(WordEnds {
            name,
            value,
            stored,
        })?;
        Ok(())
    }

    /// The words of the event at an index.
    pub(crate) fn words(&self, index: usize) -> Words<'_> {
        let begin = match index.checked_sub(1) {
            Some(before) => self.ends_at(before).stored,
            None => 0,
        };
        let ends = self.ends_at(index);
        Words {
            name: self.part(begin, ends.name),
            value: self.part(ends.name, ends.value),
            stored: self.part(ends.value, ends.stored),
        }
    }

    /// Where the words of the event at an index end.
    fn ends_at(&self, index: usize) -> WordEnds {
        self.ends.get(index).copied().unwrap_or(WordEnds {
            name: 0,
            value: 0,
            stored: 0,
        })
    }

    /// A part of the text.
    fn part(&self, begin: usize, end: usize) -> &[u8] {
        let behind = self.text.as_slice().get(begin..).unwrap_or(&[]);
        behind.get(..end.saturating_sub(begin)).unwrap_or(&[])
    }
}

/// Tells the words of one event after another.
#[derive(Drop)]
pub(crate) struct Teller {
    name: Vec<u8>,
    value: Vec<u8>,
    stored: Vec<u8>,
}

impl Teller {
    /// None yet.
    pub(crate) fn new(alloc: Global) -> Teller {
        Teller {
            name: Vec::new(alloc),
            value: Vec::new(alloc),
            stored: Vec::new(alloc),
        }
    }

    /// The words that were told last.
    pub(crate) fn words(&self) -> Words<'_> {
        Words {
            name: self.name.as_slice(),
            value: self.value.as_slice(),
            stored: self.stored.as_slice(),
        }
    }

    /// Makes them none.
    fn clear(&mut self) {
        self.name.clear();
        self.value.clear();
        self.stored.clear();
    }

    /// Makes them those of an event with these lanes.
    pub(crate) fn tell(
        &mut self,
        scene: &Scene<'_>,
        event: &Event,
        actions: Actions,
    ) -> Result<(), AllocError> {
        self.clear();
        let lane = own_lane(actions, event);
        match event.kind {
            Kind::Assign => self.tell_assignment(scene, event, lane),
            Kind::Turn => self.value.extend_from_slice(b"turn"),
            Kind::Test => self.tell_test(event),
            Kind::Close => Ok(()),
            Kind::Meet | Kind::Open | Kind::Sync => self.tell_handshake(scene, event, lane),
        }
    }

    /// The words of an assignment.
    fn tell_assignment(
        &mut self,
        scene: &Scene<'_>,
        event: &Event,
        lane: Option<usize>,
    ) -> Result<(), AllocError> {
        let name = written_name(scene, event);
        add_own_name(scene, name, lane, MOST_LETTERS, &mut self.name)?;
        self.value.extend_from_slice(b" := ")?;
        add_value(event, &mut self.value)
    }

    /// The words of a test.
    fn tell_test(&mut self, event: &Event) -> Result<(), AllocError> {
        self.value.extend_from_slice(b"test ")?;
        match event.arm {
            Some(arm) => add_number(&mut self.value, u64::from(arm)),
            None => self.value.extend_from_slice(b"none"),
        }
    }

    /// The words of a handshake.
    fn tell_handshake(
        &mut self,
        scene: &Scene<'_>,
        event: &Event,
        lane: Option<usize>,
    ) -> Result<(), AllocError> {
        let name = channel_name(scene, event);
        add_own_name(scene, name, lane, MOST_LETTERS, &mut self.name)?;
        if event.value.is_some() {
            self.value.extend_from_slice(b" ")?;
            add_value(event, &mut self.value)?;
        }
        if event.kind == Kind::Meet {
            let name = written_name(scene, event);
            add_own_name(scene, name, lane, MOST_STORED, &mut self.stored)?;
        }
        Ok(())
    }
}

/// The name of the variable that the event writes, if it writes one.
fn written_name<'a>(scene: &Scene<'a>, event: &Event) -> Option<Name<'a>> {
    scene.names.variable(event.written?)
}

/// The name of the channel of the event, if it has one.
fn channel_name<'a>(scene: &Scene<'a>, event: &Event) -> Option<Name<'a>> {
    scene.names.channel(event.channel?)
}

/// Adds a number.
pub(crate) fn add_number(out: &mut Vec<u8>, number: u64) -> Result<(), AllocError> {
    let mut buffer = Buffer::new();
    let digits = buffer.format(number);
    out.extend_from_slice(digits.as_bytes())
}

/// Adds the value of the event, if it has one.
fn add_value(event: &Event, out: &mut Vec<u8>) -> Result<(), AllocError> {
    match event.value {
        Some(value) => add_number(out, value.bits()),
        None => Ok(()),
    }
}

/// Adds a name, or the beginning of one of more letters than so many: its own alone where it is declared in the block of
/// the lane or in one around it, and else the whole.
fn add_own_name(
    scene: &Scene<'_>,
    name: Option<Name<'_>>,
    lane: Option<usize>,
    most: u64,
    out: &mut Vec<u8>,
) -> Result<(), AllocError> {
    let Some(name) = name else {
        return Ok(());
    };
    let is_own = block_prefix(scene, lane).starts_with(name.prefix);
    add_cut(out, if is_own { name.own } else { name.whole }, most, 1)
}

/// The prefix of the block of the lane; empty for the environment.
fn block_prefix<'a>(scene: &Scene<'a>, lane: Option<usize>) -> &'a [u8] {
    match block_of_lane(scene, lane) {
        Some(block) => match scene.picture.instances.get(block) {
            Some(instance) => instance.prefix.as_slice(),
            None => b"",
        },
        None => b"",
    }
}

/// The block of the lane, if it has one.
fn block_of_lane(scene: &Scene<'_>, lane: Option<usize>) -> Option<usize> {
    match scene.picture.lanes.get(lane?)?.kind {
        LaneKind::Body(block) => Some(block),
        LaneKind::Input(_) | LaneKind::Output(_) | LaneKind::Handshakes(_) => None,
    }
}

/// Makes the text what stands over a column: what its lane is.
pub(crate) fn tell_lane(
    lane: Option<&Lane>,
    is_first: bool,
    text: &mut Vec<u8>,
) -> Result<(), AllocError> {
    text.clear();
    let Some(lane) = lane else {
        return Ok(());
    };
    match lane.kind {
        LaneKind::Input(_) => text.extend_from_slice(b"input"),
        LaneKind::Output(_) => text.extend_from_slice(b"output"),
        LaneKind::Handshakes(_) => text.extend_from_slice(b"sync"),
        LaneKind::Body(_) => {
            text.extend_from_slice(if is_first { b"line " } else { b"|| " })?;
            add_number(text, lane.line)
        }
    }
}

/// Makes the text what stands over the columns of the block of the lane, or over that of a port.
pub(crate) fn group_title(
    scene: &Scene<'_>,
    lane: Option<usize>,
    text: &mut Vec<u8>,
) -> Result<(), AllocError> {
    text.clear();
    match block_of_lane(scene, lane) {
        Some(block) => add_block_title(scene, block, text),
        None => match port_channel(scene, lane) {
            Some(name) => name.write_to(text),
            None => Ok(()),
        },
    }
}

/// Adds the name of a block as the outline has it: what stands before its names, and its procedure.
fn add_block_title(scene: &Scene<'_>, block: usize, out: &mut Vec<u8>) -> Result<(), AllocError> {
    let Some(instance) = scene.picture.instances.get(block) else {
        return Ok(());
    };
    out.extend_from_slice(instance.prefix.as_slice())?;
    out.extend_from_slice(instance.procedure.as_slice())
}

/// The channel of the port that the lane is at.
fn port_channel<'a>(scene: &Scene<'a>, lane: Option<usize>) -> Option<&'a QualifiedName> {
    match scene.picture.lanes.get(lane?)?.kind {
        LaneKind::Input(channel) | LaneKind::Output(channel) | LaneKind::Handshakes(channel) => {
            scene.system.channel_name(channel)
        }
        LaneKind::Body(_) => None,
    }
}

/// Adds the text, or its beginning and three dots where it is wider than the room.
pub(crate) fn add_cut(
    out: &mut Vec<u8>,
    text: &[u8],
    room: u64,
    letter: u64,
) -> Result<(), AllocError> {
    let count = room / letter.max(1);
    if text.len() as u64 <= count {
        return out.extend_from_slice(text);
    }
    if count < 4 {
        return Ok(());
    }
    out.extend_from_slice(beginning(text, (count - 3) as usize))?;
    out.extend_from_slice(b"...")
}

/// At most so many bytes from the beginning.
fn beginning(text: &[u8], count: usize) -> &[u8] {
    text.split_at(count.min(text.len())).0
}
