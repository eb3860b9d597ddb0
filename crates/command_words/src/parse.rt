//! From words to a request.

ghost use Rattle.std.specs.Prelude.{map, MatchResult};
ghost use Rattle.command_words.specs.Words as spec;
ghost use Rattle.command_words.specs.internal.Building.{Finds, IsCommand, Refuses};

use crate::asked::chosen;
use crate::commands::balsadbg;
use crate::hint::subject_of;
use crate::unasked::why_unasked;
use crate::{Request, Unasked, help};
use clap::error::ErrorKind;
use clap::{Command, Error};
use std::alloc::Global;
use std::convert::AsStr;

/// The request that the program finds in the words, if it finds one.
fn found<'a, S: AsStr>(
    program: &mut Command<'a>,
    words: &'a [S],
) -> Result<Option<Request<'a>>, Error>
    requires { IsCommand spec.program program.now }
    ensures { MatchResult result (Finds (map S.text words.entry.now)) (Refuses (map S.text words.entry.now)) }
{
    let matches = program.try_get_matches_from_mut(words)?;
    Ok(chosen(&matches))
}

/// Whether this option is among them: not behind `--`, where no word is an option.
fn has_option<S: AsStr>(words: &[S], option: &str) -> bool {
    for word in words {
        let word = word.as_str();
        if word == option || word == "--" {
            return word == option;
        }
    }
    false
}

/// Why words of a picture in good form ask for none: more than one form, no number of a step, or what goes with `--svg`.
fn why_no_picture<S: AsStr>(words: &[S]) -> &'static str {
    let svg = has_option(words, "--svg");
    let vcd = has_option(words, "--vcd");
    let json = has_option(words, "--json");
    if svg && vcd || svg && json || vcd && json {
        help::TWO_FORMS
    } else if svg {
        help::NO_STEP
    } else {
        help::NO_DRAWING
    }
}

/// Why words of a command in good form ask for no request.
fn why_none<S: AsStr>(words: &[S]) -> &'static str {
    match words.get(1) {
        Some(name) if name.as_str() == "picture" => why_no_picture(words),
        _ => help::NO_REFUSAL,
    }
}

/// The request for which the words ask, as this program reads them.
fn asked<'a, S: AsStr>(program: &mut Command<'a>, words: &'a [S]) -> Result<Request<'a>, Error>
    requires { IsCommand spec.program program.now }
    ensures { MatchResult result (spec.AskFor (map S.text words.entry.now)) (Refuses (map S.text words.entry.now)) }
{
    let found = found(program, words)?;
    match found {
        Some(request) => Ok(request),
        // As of `explain 18`: the command, its files and its numbers are required.
        None => Err(program.error(ErrorKind::MissingSubcommand, why_none(words))?),
    }
}

/// The request for which the words ask, as the program reads them.
fn read<'a, S: AsStr>(alloc: Global, words: &'a [S]) -> Result<Request<'a>, Error>
    ensures { MatchResult result (spec.AskFor (map S.text words.entry.now)) (Refuses (map S.text words.entry.now)) }
{
    let mut program = balsadbg(alloc)?;
    asked(&mut program, words)
}

/// What `words` ask for, of which the first is the program's name; or the text to show instead. Where words ask for a
/// request it is an error only if there is no memory.
pub fn requested<'a, S: AsStr>(alloc: Global, words: &'a [S]) -> Result<Request<'a>, Unasked>
    ensures { MatchResult result (spec.AskFor (map S.text words.entry.now))
        (spec.AskNothing (map S.text words.entry.now)) }
{
    match read(alloc, words) {
        Ok(request) => Ok(request),
        Err(error) => Err(why_unasked(alloc, &error, subject_of(words))),
    }
}
