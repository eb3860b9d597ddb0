//! What helps where the words of a command are mistaken.

use clap::Error;
use clap::error::ErrorKind;
use std::convert::AsStr;

/// What stands behind the text of a mistake in the words of `explain`.
const EXPLAIN: &str = "
The number of a refusal stands behind the word `refused`, and is one of these:
1 to 17, 21 to 28, 31 to 34, 41, 42, 51, 61, 101 to 111 and 113. For example:
  balsadbg explain 16
`balsadbg --help` has a line on each.
";

/// What stands there where words are behind the number.
const EXPLAIN_ONE: &str = "
`explain` takes one word, the first number behind `refused`. What else stands
there is the place of the fault, or a ticket. For example, of `refused 16 209`:
  balsadbg explain 16
";

/// What stands there where the trace is missing.
const TRACE: &str = "
A trace is a file with the steps of a run, as the script line `trace` answers.
This takes up to 100 steps, and writes one:
  printf 'run 100\\nsave TRACE\\n' | balsadbg shell FILE STIMULUS
";

/// What words are about, as far as a mistake in them has help of its own.
#[derive(Clone, Copy, PartialEq, Eq)]
pub enum Subject {
    /// The page of a refusal.
    Refusal,
    /// A trace that is not among the words.
    Trace,
    Other,
}

/// How many words there are but for options, in a command that has its trace: the name of the program, that of the
/// command, and three files.
const WORDS_WITH_TRACE: usize = 5;

/// Whether fewer words than with a trace are there.
fn lack_trace<S: AsStr>(words: &[S]) -> bool {
    let mut count = 0_usize;
    for word in words {
        if !word.as_str().starts_with('-') {
            count = count.saturating_add(1);
        }
    }
    count < WORDS_WITH_TRACE
}

/// What words are about.
pub fn subject_of<S: AsStr>(words: &[S]) -> Subject {
    let Some(command) = words.get(1) else {
        return Subject::Other;
    };
    match command.as_str() {
        "explain" => Subject::Refusal,
        "replay" | "waiting" | "why" | "picture" if lack_trace(words) => Subject::Trace,
        _ => Subject::Other,
    }
}

/// What stands behind the text of an error, by what the words are about.
pub fn hint_for(error: &Error, subject: Subject) -> &'static str {
    match (error.kind(), subject) {
        (ErrorKind::ValueValidation | ErrorKind::MissingRequiredArgument, Subject::Refusal) => {
            EXPLAIN
        }
        (ErrorKind::UnknownArgument, Subject::Refusal) => EXPLAIN_ONE,
        (ErrorKind::MissingRequiredArgument, Subject::Trace) => TRACE,
        _ => "",
    }
}
