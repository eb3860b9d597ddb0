//! What the matches of the words ask for.

ghost use Rattle.std.specs.Prelude.{◌≡◌, codes, MatchOption, option_map};
ghost use Rattle.clap.specs.Words.{first_of, one_of};
ghost use Rattle.command_words.specs.Words as spec;
ghost use Rattle.command_words.specs.internal.Building.{Chooses, ChoosesNone, IsNoRequest, NamesNoFiles, NamesNoTrace};
ghost use Rattle.command_words.specs.internal.Building.{rows_in, AsksNoDrawing, TellsCrew, TellsNoCrew, TellsNoPage, TellsNoStep};

use crate::form::{Forms, drawing_of};
use crate::{CrewSize, Drawing, Request};
use clap::ArgMatches;
use decimal::read_number;
use refusal_pages::{Page, page_of};

/// Whether the option of this name is among the words.
fn flag_asked(words: &ArgMatches<'_>, name: &str) -> bool
    ensures { spec.IsFlag (one_of name.now (rows_in words.now)) result }
{
    words.get_flag(name)
}

/// The names of a description and of its stimulus.
fn files_asked<'a>(words: &ArgMatches<'a>) -> Option<(&'a str, &'a str)>
    ensures { MatchOption result (NamesNoFiles (rows_in words.now))
        (λ names. spec.AreFiles (rows_in words.now) names.0.now names.1.now) }
{
    let file = words.get_str("FILE")?;
    let stimulus = words.get_str("STIMULUS")?;
    Some((file, stimulus))
}

/// The names of a description, of its stimulus and of a trace.
fn traced_asked<'a>(words: &ArgMatches<'a>) -> Option<(&'a str, &'a str, &'a str)>
    ensures { MatchOption result (NamesNoTrace (rows_in words.now))
        (λ names. spec.AreTraced (rows_in words.now) names.0.now names.1.now names.2.now) }
{
    let (file, stimulus) = files_asked(words)?;
    let trace = words.get_str("TRACE")?;
    Some((file, stimulus, trace))
}

/// The crew of which the words tell.
fn crew_asked(words: &ArgMatches<'_>) -> Option<CrewSize>
    ensures { MatchOption result (TellsNoCrew (rows_in words.now)) (TellsCrew (rows_in words.now)) }
{
    let workers = words.get_one::<u32>("workers")?;
    let turns = words.get_one::<u64>("turns")?;
    CrewSize::new(workers, turns)
}

/// The page of the refusal whose number the words tell.
fn page_asked(words: &ArgMatches<'_>) -> Option<&'static Page>
    ensures { MatchOption result (TellsNoPage (rows_in words.now))
        (λ page. spec.TellsPage (rows_in words.now) page.now) }
{
    let number = words.get_one::<u32>("N")?;
    page_of(number)
}

fn check_asked<'a>(words: &ArgMatches<'a>) -> Option<Request<'a>>
    ensures { MatchOption result (IsNoRequest (codes "check") (rows_in words.now))
        (spec.IsRequest (codes "check") (rows_in words.now)) }
{
    let file = words.get_str("FILE")?;
    let explain = flag_asked(words, "explain");
    Some(Request::Check { file, explain })
}

fn debug_asked<'a>(words: &ArgMatches<'a>) -> Option<Request<'a>>
    ensures { MatchOption result (IsNoRequest (codes "debug") (rows_in words.now))
        (spec.IsRequest (codes "debug") (rows_in words.now)) }
{
    let (file, stimulus) = files_asked(words)?;
    let explain = flag_asked(words, "explain");
    Some(Request::Debug {
        file,
        stimulus,
        explain,
    })
}

fn replay_asked<'a>(words: &ArgMatches<'a>) -> Option<Request<'a>>
    ensures { MatchOption result (IsNoRequest (codes "replay") (rows_in words.now))
        (spec.IsRequest (codes "replay") (rows_in words.now)) }
{
    let (file, stimulus, trace) = traced_asked(words)?;
    let explain = flag_asked(words, "explain");
    Some(Request::Replay {
        file,
        stimulus,
        trace,
        explain,
    })
}

fn work_asked<'a>(words: &ArgMatches<'a>) -> Option<Request<'a>>
    ensures { MatchOption result (IsNoRequest (codes "work") (rows_in words.now))
        (spec.IsRequest (codes "work") (rows_in words.now)) }
{
    let (file, stimulus) = files_asked(words)?;
    let crew = crew_asked(words)?;
    let explain = flag_asked(words, "explain");
    Some(Request::Work {
        file,
        stimulus,
        crew,
        explain,
    })
}

/// The name of a trace, where one is among the words.
fn trace_asked<'a>(words: &ArgMatches<'a>) -> Option<&'a str>
    ensures { option_map (λ text. text.now) result ≡ first_of (codes "TRACE") (rows_in words.now) }
{
    words.get_str("TRACE")
}

fn shell_asked<'a>(words: &ArgMatches<'a>) -> Option<Request<'a>>
    ensures { MatchOption result (IsNoRequest (codes "shell") (rows_in words.now))
        (spec.IsRequest (codes "shell") (rows_in words.now)) }
{
    let (file, stimulus) = files_asked(words)?;
    let trace = trace_asked(words);
    Some(Request::Shell {
        file,
        stimulus,
        trace,
    })
}

fn explain_asked<'a>(words: &ArgMatches<'a>) -> Option<Request<'a>>
    ensures { MatchOption result (IsNoRequest (codes "explain") (rows_in words.now))
        (spec.IsRequest (codes "explain") (rows_in words.now)) }
{
    let page = page_asked(words)?;
    Some(Request::Explain { page })
}

fn outline_asked<'a>(words: &ArgMatches<'a>) -> Option<Request<'a>>
    ensures { MatchOption result (IsNoRequest (codes "outline") (rows_in words.now))
        (spec.IsRequest (codes "outline") (rows_in words.now)) }
{
    let file = words.get_str("FILE")?;
    Some(Request::Outline { file })
}

fn waiting_asked<'a>(words: &ArgMatches<'a>) -> Option<Request<'a>>
    ensures { MatchOption result (IsNoRequest (codes "waiting") (rows_in words.now))
        (spec.IsRequest (codes "waiting") (rows_in words.now)) }
{
    let (file, stimulus, trace) = traced_asked(words)?;
    Some(Request::Waiting {
        file,
        stimulus,
        trace,
    })
}

fn why_asked<'a>(words: &ArgMatches<'a>) -> Option<Request<'a>>
    ensures { MatchOption result (IsNoRequest (codes "why") (rows_in words.now))
        (spec.IsRequest (codes "why") (rows_in words.now)) }
{
    let (file, stimulus, trace) = traced_asked(words)?;
    let subject = words.get_str("X")?;
    let all = flag_asked(words, "all");
    Some(Request::Why {
        file,
        stimulus,
        trace,
        subject,
        all,
    })
}

/// Whether the option of this name, which has no value, is among the words.
fn is_among(words: &ArgMatches<'_>, name: &str) -> bool
    ensures { result ≡ spec.is_on (first_of name.now (rows_in words.now)) }
{
    match words.get_str(name) {
        Some(text) => text == "true",
        None => false,
    }
}

/// The number of the step that the words give, if they give one; `None` where they give what is no number.
fn event_asked(words: &ArgMatches<'_>) -> Option<Option<u64>>
    ensures { MatchOption result (TellsNoStep (rows_in words.now))
        (spec.TellsStep (first_of (codes "event") (rows_in words.now))) }
{
    match words.get_str("event") {
        Some(text) => match read_number(text.as_bytes()) {
            Some(ticket) => Some(Some(ticket)),
            None => None,
        },
        None => Some(None),
    }
}

/// The picture for which the words ask.
fn drawing_asked(words: &ArgMatches<'_>) -> Option<Drawing>
    ensures { MatchOption result (AsksNoDrawing (rows_in words.now)) (spec.AskDrawing (rows_in words.now)) }
{
    let event = event_asked(words)?;
    let forms = Forms {
        svg: is_among(words, "svg"),
        vcd: is_among(words, "vcd"),
        json: is_among(words, "json"),
    };
    drawing_of(forms, event, is_among(words, "quiet"))
}

fn picture_asked<'a>(words: &ArgMatches<'a>) -> Option<Request<'a>>
    ensures { MatchOption result (IsNoRequest (codes "picture") (rows_in words.now))
        (spec.IsRequest (codes "picture") (rows_in words.now)) }
{
    let (file, stimulus, trace) = traced_asked(words)?;
    let drawing = drawing_asked(words)?;
    Some(Request::Picture {
        file,
        stimulus,
        trace,
        drawing,
    })
}

/// The request of the command of this name with these words.
fn request_of<'a>(name: &str, words: &ArgMatches<'a>) -> Option<Request<'a>>
    ensures { MatchOption result (IsNoRequest name.now (rows_in words.now))
        (spec.IsRequest name.now (rows_in words.now)) }
{
    match name {
        "check" => check_asked(words),
        "debug" => debug_asked(words),
        "replay" => replay_asked(words),
        "work" => work_asked(words),
        "shell" => shell_asked(words),
        "explain" => explain_asked(words),
        "dap" => Some(Request::Dap),
        "outline" => outline_asked(words),
        "waiting" => waiting_asked(words),
        "why" => why_asked(words),
        "picture" => picture_asked(words),
        _ => None,
    }
}

/// The request that the matches of the program's words make.
pub fn chosen<'a>(matches: &ArgMatches<'a>) -> Option<Request<'a>>
    ensures { MatchOption result (ChoosesNone matches.now) (Chooses matches.now) }
{
    let found = matches.subcommand()?;
    request_of(found.0, found.1)
}
