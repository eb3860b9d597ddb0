// What is said of files that are saved, written or loaded, behind the word that says whether it was done.
use crate::names::add_given;
use crate::steps::steps_word;
use crate::usage::add_usage_words;
use line_text::{Keyword, cut_at_space};
use plain_words::Text;
use shell_desk::Word;
use shell_files::FileFault;
use std::alloc::Global;

/// What was written: so many bytes to the file of this name.
pub fn written_text(alloc: Global, name: &str, count: u64) -> Text {
    let mut text = Text::new(alloc);
    add_given(&mut text, name.as_bytes());
    text.add_counted(b", ", count, b" bytes\n");
    add_odd_name(&mut text, name.as_bytes());
    text
}

/// Adds what is to be known of a name that is hardly meant so: one in quotes, or with the mark of a word that writes over a
/// file.
fn add_odd_name(text: &mut Text, name: &[u8]) {
    if is_within(name, b"\"") || is_within(name, b"'") {
        text.add(b"  the quotes are part of the name, which needs none\n");
    } else if name.starts_with(b"!") || name.ends_with(b"!") {
        text.add(b"  the `!` is part of the name; `save! NAME` writes over a file\n");
    }
}

/// Whether the name stands between two of these.
fn is_within(name: &[u8], quote: &[u8]) -> bool {
    name.starts_with(quote) && name.ends_with(quote)
}

/// How many steps were loaded, and in place of how many.
pub fn loaded_text(alloc: Global, count: u64, before: u64) -> Text {
    let mut text = Text::new(alloc);
    text.add_number(count);
    text.add(steps_word(count));
    if before > 0 {
        text.add_counted(b", in place of ", before, b"");
    }
    text.add(b"\n");
    text
}

/// How a word is written with the name of a file, where `rest` is none.
pub fn unnamed_text(alloc: Global, word: Word, rest: &[u8]) -> Text {
    let mut text = Text::new(alloc);
    add_usage_words(&mut text, word.spelling(), rest);
    text
}

/// Why the file of this name was not read or written by the word.
pub fn file_fault_text(alloc: Global, name: &str, fault: FileFault, word: Word) -> Text {
    let mut text = Text::new(alloc);
    add_given(&mut text, name.as_bytes());
    match fault {
        FileFault::Exists => add_exists(&mut text, name, word),
        _ => text.add(fault_words(fault)),
    }
    add_odd_name(&mut text, name.as_bytes());
    text
}

/// Adds that the file is there, and which word writes over it.
fn add_exists(text: &mut Text, name: &str, word: Word) {
    text.add(b" is there already, and stays as it is\n  `");
    text.add(word.spelling());
    text.add(b"! ");
    add_given(text, name.as_bytes());
    text.add(b"` writes over it\n");
}

/// What is the matter with a file.
fn fault_words(fault: FileFault) -> &'static [u8] {
    match fault {
        FileFault::Memory => b": there was no memory for it, and nothing changed\n",
        FileFault::Missing => b": there is no such file or folder\n",
        FileFault::Exists => b" is there already, and stays as it is\n",
        FileFault::PartExists =>
            b".part is in the way; remove it\n  a file is written there first, and then renamed\n",
        FileFault::LinkPartExists =>
            b" is a link\n  beside the file to which it leads lies one with `.part` behind its name\n  remove that one\n",
        FileFault::NoFile => b" is no file: it is a folder or a device\n",
        FileFault::LeadsNowhere =>
            b" is a link that leads to no file\n  it stays as it is, and nothing was written\n",
        FileFault::AtHand =>
            b" is the description or the stimulus of this session\n  it is not written over\n",
        FileFault::Forbidden => b": you may not read or write it there\n",
        FileFault::Full => b": the disk is full, and nothing was written\n",
        FileFault::Other => b": the system refused it, and nothing changed\n",
    }
}

/// Why the trace in the file of this name was not loaded: the refusal of this number, which names this line if it names
/// one, what the line has, and what helps.
pub fn refused_trace_text(
    alloc: Global,
    name: &str,
    trace: &[u8],
    number: u32,
    line: Option<u64>,
) -> Text {
    let mut text = Text::new(alloc);
    add_given(&mut text, name.as_bytes());
    text.add_counted(b": refused ", u64::from(number), b"");
    match line {
        Some(line) => add_refused_line(&mut text, trace, line),
        None => text.add(b"\n"),
    }
    text.add(b"  ");
    text.add(why_refused(trace, number));
    text.add(b"\n  the steps stay as they are\n");
    text
}

/// Adds the number of the line, and what the line of this number, from 1, has in the trace.
fn add_refused_line(text: &mut Text, trace: &[u8], line: u64) {
    text.add_counted(b" ", line, b"\n");
    for (index, row) in trace.split(|byte| *byte == b'\n').enumerate() {
        if (index as u64).saturating_add(1) == line {
            text.add_counted(b"  line ", line, b" is `");
            add_given(text, row);
            text.add(b"`\n");
            break;
        }
    }
}

/// What the number of a refusal says of a trace.
fn why_refused(trace: &[u8], number: u32) -> &'static [u8] {
    match number {
        1 => b"there was no memory for it",
        31 if begins_as_script(trace) =>
            b"this looks like a script, which `debug` takes\n  outside of the shell type `balsadbg debug FILE STIMULUS < NAME`",
        31 => b"its first line is not `balsadbg trace 2`, or ends as on Windows",
        32 => b"that line is none of a trace, or is cut off, or ends as on Windows",
        33 =>
            b"that step cannot be taken there: it is of another description or stimulus, or\n  lines were exchanged",
        34 =>
            b"another step is due on that line: with `balsadbg trace 1` in the first line\n  any order loads",
        _ => b"it is no trace of this description",
    }
}

/// Whether the text begins with a word of a script.
fn begins_as_script(text: &[u8]) -> bool {
    let line = first_line(text);
    // A script from Windows has one before each end of a line.
    let (word, _) = cut_at_space(line.strip_suffix(b"\r").unwrap_or(line));
    Keyword::read(word).is_some()
}

/// The first line, without its end.
fn first_line(text: &[u8]) -> &[u8] {
    match text.iter().position(|byte| *byte == b'\n') {
        Some(end) => text.get(..end).unwrap_or(text),
        None => text,
    }
}
