// Texts in lines of at most 80 columns.
use std::alloc::{AllocError, Global};

/// So many columns a line has at most, but for a single word that has more.
const COLUMNS: usize = 80;

/// What stands before the first line of what helps. Further lines stand under its end.
const HELP: &str = "  help: ";

/// Adds a word behind what stands in a line up to `column`: in this line where there is room, else in a further one,
/// which begins behind `indent` blanks. Answers the column behind it.
fn add_word(
    out: &mut String,
    word: &str,
    column: usize,
    indent: usize,
) -> Result<usize, AllocError> {
    let width = word.chars().count();
    if column == indent {
        out.push_str(word)?;
        return Ok(column.saturating_add(width));
    }
    if column.saturating_add(width) < COLUMNS {
        out.push(' ')?;
        out.push_str(word)?;
        return Ok(column.saturating_add(width).saturating_add(1));
    }
    out.push('\n')?;
    for _ in 0..indent {
        out.push(' ')?;
    }
    out.push_str(word)?;
    Ok(indent.saturating_add(width))
}

/// Whether a text opens a backquote that it does not close.
fn is_open(text: &str) -> bool {
    text.bytes().filter(|byte| *byte == b'`').count() % 2 == 1
}

/// Adds a text behind `indent` columns of a line, over as many lines as it takes. It is not cut inside backquotes.
fn add_wrapped(
    alloc: Global,
    out: &mut String,
    text: &str,
    indent: usize,
) -> Result<(), AllocError> {
    let mut column = indent;
    let mut word = String::new(alloc);
    for part in text.split(' ') {
        if !word.is_empty() {
            word.push(' ')?;
        }
        word.push_str(part)?;
        if !is_open(word.as_str()) {
            column = add_word(out, word.as_str(), column, indent)?;
            word.clear();
        }
    }
    if !word.is_empty() {
        add_word(out, word.as_str(), column, indent)?;
    }
    Ok(())
}

/// What helps, with the end of its line. Nothing where it is empty.
pub fn help_text(alloc: Global, help: &str) -> Result<String, AllocError> {
    let mut text = String::new(alloc);
    if help.is_empty() {
        return Ok(text);
    }
    text.push_str(HELP)?;
    add_wrapped(alloc, &mut text, help, HELP.len())?;
    text.push('\n')?;
    Ok(text)
}

/// What is told of a fault that has no place in a text: what is wrong, and what helps.
pub fn plain_text(alloc: Global, what: &[&str], help: &str) -> Result<String, AllocError> {
    let mut text = String::new(alloc);
    for part in what {
        text.push_str(part)?;
    }
    text.push('\n')?;
    let help = help_text(alloc, help)?;
    text.push_str(help.as_str())?;
    Ok(text)
}
