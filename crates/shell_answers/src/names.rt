// Names that no variable has: which ones are meant.
use crate::Scene;
use crate::ports::{channel_named, is_sync, kind_of};
use bstr::ByteSlice;
use findings::Nearest;
use plain_words::Text;
use std::alloc::{AllocError, Global};
use std::str;
use system::System;

/// So many names are told at most.
const MOST_NAMES: usize = 12;

/// So many characters are told at most of what was typed.
const MOST_GIVEN: usize = 200;

/// Adds what was typed, as a terminal may show it; what is too long is cut.
pub(crate) fn add_given(text: &mut Text, given: &[u8]) {
    let mut told: usize = 0;
    for character in given.chars() {
        if told >= MOST_GIVEN {
            text.add(b"..");
            return;
        }
        told = told.saturating_add(1);
        add_character(text, character);
    }
}

/// Adds a text as a terminal may show it.
pub(crate) fn add_plain(text: &mut Text, given: &[u8]) {
    for character in given.chars() {
        add_character(text, character);
    }
}

/// Adds a character. What a terminal would obey, and what is no UTF-8, is told as `?`, but tabs are kept.
fn add_character(text: &mut Text, character: char) {
    if (character.is_control() && character != '\t') || character == char::REPLACEMENT_CHARACTER {
        text.add(b"?");
    } else {
        text.add(character.encode_utf8(&mut [0; 4]).as_bytes());
    }
}

/// Adds that no variable has this name: what has it, the names that end in it behind the number of a call, or the
/// nearest one.
pub(crate) fn add_unknown_name(text: &mut Text, scene: &Scene<'_>, given: &[u8]) {
    match channel_named(scene.system(), given) {
        Some(channel) => add_channel_asked(text, scene.system(), channel, given),
        None => add_no_variable(text, scene, given),
    }
}

/// Adds that the name is that of a channel, and what shows what passed there.
fn add_channel_asked(text: &mut Text, system: &System, channel: u32, given: &[u8]) {
    text.add(b"  `");
    add_given(text, given);
    text.add(b"` is ");
    text.add(kind_of(system, channel));
    text.add(b", and no variable\n  `why ");
    add_given(text, given);
    text.add(if is_sync(system, channel) {
        b"` tells the last step on it, `live` lists the steps\n"
    } else {
        b"` tells the last step on it with its value, `live` lists the steps\n"
    });
}

/// Adds that nothing has this name, and which is meant.
fn add_no_variable(text: &mut Text, scene: &Scene<'_>, given: &[u8]) {
    text.add(b"  no variable has the name `");
    add_given(text, given);
    text.add(b"`");
    match names_of(scene.alloc, scene.system()) {
        Ok(names) => add_meant(text, scene.alloc, names.as_slice(), given),
        Err(_) => text.add(b"; `vars` lists the variables\n"),
    }
}

/// The names of the variables.
fn names_of(alloc: Global, system: &System) -> Result<Vec<Vec<u8>>, AllocError> {
    let mut names = Vec::with_capacity(alloc, system.variables.len())?;
    for variable in system.variables.as_slice() {
        let mut name = Vec::new(alloc);
        variable.name.write_to(&mut name)?;
        names.push(name)?;
    }
    Ok(names)
}

/// Adds those of the names that may be meant.
fn add_meant(text: &mut Text, alloc: Global, names: &[Vec<u8>], given: &[u8]) {
    let ending = count_ending(names, given);
    if ending > 0 {
        text.add(b"; with the number of its call it is ");
        add_ending(text, names, given);
        text.add(b"\n");
        return;
    }
    match nearest(alloc, names, given) {
        Some(near) => {
            text.add(b"; did you mean `");
            text.add(near.as_bytes());
            text.add(b"`?\n");
        }
        None => text.add(b"; `vars` lists the variables\n"),
    }
}

/// How many of the names end in the given one, behind the number of a call.
fn count_ending(names: &[Vec<u8>], given: &[u8]) -> usize {
    let mut count: usize = 0;
    for name in names {
        if ends_in(name.as_slice(), given) {
            count = count.saturating_add(1);
        }
    }
    count
}

/// Adds the names that end in the given one.
fn add_ending(text: &mut Text, names: &[Vec<u8>], given: &[u8]) {
    let mut told: usize = 0;
    for name in names {
        if ends_in(name.as_slice(), given) {
            if told < MOST_NAMES {
                text.add(if told == 0 { b"`" } else { b", `" });
                text.add(name.as_slice());
                text.add(b"`");
            }
            told = told.saturating_add(1);
        }
    }
    if told > MOST_NAMES {
        text.add_counted(b" and ", told.saturating_sub(MOST_NAMES) as u64, b" more");
    }
}

/// Whether a name is the given one behind the number of a call.
fn ends_in(name: &[u8], given: &[u8]) -> bool {
    match name.strip_suffix(given) {
        Some(before) => before.ends_with(b":"),
        None => false,
    }
}

/// The nearest of the names, if one is near.
fn nearest<'a>(alloc: Global, names: &'a [Vec<u8>], given: &[u8]) -> Option<&'a str> {
    let given = str::from_utf8(given).ok()?;
    let mut nearest = Nearest::none();
    for name in names {
        let text = str::from_utf8(name.as_slice()).unwrap_or("");
        if nearest.offer(alloc, given, text).is_err() {
            return None;
        }
    }
    nearest.name
}
