ghost use Rattle.std.specs.Prelude.{◌≡◌};
ghost use Rattle.command_words.specs.Words.{explains};

use crate::{CrewSize, Drawing};
use refusal_pages::Page;

/// What a run is to do. With `explain` a refusal is told in words too.
#[derive(Clone, Copy)]
pub enum Request<'a> {
    /// Say whether the description in `file` is accepted.
    Check {
        file: &'a str,
        explain: bool,
    },
    /// Answer a script over the description in `file`.
    Debug {
        file: &'a str,
        stimulus: &'a str,
        explain: bool,
    },
    /// Tell the events of a trace over the description in `file`.
    Replay {
        file: &'a str,
        stimulus: &'a str,
        trace: &'a str,
        explain: bool,
    },
    /// Let workers step the description in `file`, and tell how many steps they took.
    Work {
        file: &'a str,
        stimulus: &'a str,
        crew: CrewSize,
        explain: bool,
    },
    /// Answer a person who steps the description in `file`, from the end of a trace where one is named.
    Shell {
        file: &'a str,
        stimulus: &'a str,
        trace: Option<&'a str>,
    },
    /// Show the page of a refusal.
    Explain {
        page: &'static Page,
    },
    /// Answer an editor, by the debug adapter protocol.
    Dap,
    /// Tell what the description in `file` has.
    Outline {
        file: &'a str,
    },
    /// Tell who waits behind a trace.
    Waiting {
        file: &'a str,
        stimulus: &'a str,
        trace: &'a str,
    },
    /// Tell why a variable has its value behind a trace, or why a step of it could be taken: by the steps that carried
    /// a value, or `all`.
    Why {
        file: &'a str,
        stimulus: &'a str,
        trace: &'a str,
        subject: &'a str,
        all: bool,
    },
    /// Draw a picture of the run that a trace is.
    Picture {
        file: &'a str,
        stimulus: &'a str,
        trace: &'a str,
        drawing: Drawing,
    },
}

impl Request<'_> {
    /// Whether a refusal is told in words too: where that is asked for, and always where people alone ask. An editor is
    /// told of faults by messages.
    pub fn explains(&self) -> bool
        ensures { result ≡ explains self.now }
    {
        match self {
            Request::Check { explain, .. }
            | Request::Debug { explain, .. }
            | Request::Replay { explain, .. }
            | Request::Work { explain, .. } => *explain,
            Request::Dap => false,
            _ => true,
        }
    }
}
