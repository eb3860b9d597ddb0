//! The program's commands, as `clap` has them.

ghost use Rattle.std.specs.Prelude.{codes, pos, IfOk};
ghost use Rattle.clap.specs.Words.{App, Rule, new_app, with_rule, with_subcommand};
ghost use Rattle.clap.specs.declared.builder.value_parser.ValueParser.TheVariants.{Signed, Unsigned};
ghost use Rattle.command_words.specs.Words as spec;
ghost use Rattle.command_words.specs.internal.Building.{IsArgument, IsCommand};

use crate::crew_size::{MOST_TURNS, MOST_WORKERS};
use crate::help;
use clap::{Arg, ArgAction, Command, value_parser};
use std::alloc::{AllocError, Global};

/// A word that has to be given.
fn word<'a>(alloc: Global, name: &'a str, help: &'a str) -> Arg<'a>
    ensures { IsArgument (spec.word name.now) result }
{
    Arg::new(alloc, name)
        .required(true)
        .action(ArgAction::Set)
        .help(help)
}

fn workers<'a>(alloc: Global) -> Arg<'a>
    ensures { IsArgument (spec.number (codes "workers") (Signed (pos 1) (pos 16))) result }
{
    word(alloc, "workers", help::WORKERS)
        .long("workers")
        .value_name("N")
        .value_parser(value_parser!(u32).range(1..=i64::from(MOST_WORKERS)))
}

fn turns<'a>(alloc: Global) -> Arg<'a>
    ensures { IsArgument (spec.number (codes "turns") (Unsigned 0 1000000)) result }
{
    word(alloc, "turns", help::TURNS)
        .long("turns")
        .value_name("M")
        .value_parser(value_parser!(u64).range(0..=i64::from(MOST_TURNS)))
}

/// A number of a refusal.
fn number<'a>(alloc: Global) -> Arg<'a>
    ensures { IsArgument spec.refusal_number result }
{
    word(alloc, "N", help::NUMBER).value_parser(value_parser!(u64).range(1..=113))
}

/// An option without a value.
fn flag<'a>(alloc: Global, name: &'a str, help: &'a str) -> Arg<'a>
    ensures { IsArgument (spec.flag name.now) result }
{
    Arg::new(alloc, name)
        .long(name)
        .action(ArgAction::SetTrue)
        .help(help)
}

/// A command with its texts, and with nothing behind its name yet.
fn begun<'a>(
    alloc: Global,
    name: &'a str,
    about: &'a str,
    long_about: &'a str,
    refusals: &'a str,
) -> Command<'a>
    ensures { IsCommand (new_app name.now) result }
{
    Command::new(alloc, name)
        .about(about)
        .long_about(long_about)
        .after_long_help(refusals)
}

/// The command with one more word behind it, where there was memory for both.
fn with_argument<'a>(
    command: Result<Command<'a>, AllocError>,
    argument: Arg<'a>,
) -> Result<Command<'a>, AllocError>
    ensures { (app : App) (rule : Rule) → IfOk command.entry (IsCommand app) → IsArgument rule argument.entry
        → IfOk result (IsCommand (with_rule app rule)) }
{
    match command {
        Ok(command) => command.arg(argument),
        Err(error) => Err(error),
    }
}

/// The command with `--explain`.
fn explaining<'a>(
    alloc: Global,
    command: Result<Command<'a>, AllocError>,
) -> Result<Command<'a>, AllocError>
    ensures { (app : App) → IfOk command.entry (IsCommand app) → IfOk result (IsCommand (spec.explaining app)) }
{
    with_argument(command, flag(alloc, "explain", help::EXPLAIN_REFUSAL))
}

/// The command over a description.
fn over_file<'a>(alloc: Global, command: Command<'a>) -> Result<Command<'a>, AllocError>
    ensures { (app : App) → IsCommand app command.entry → IfOk result (IsCommand (spec.over_file app)) }
{
    with_argument(Ok(command), word(alloc, "FILE", help::FILE))
}

/// The command over a description and its stimulus.
fn over_ports<'a>(alloc: Global, command: Command<'a>) -> Result<Command<'a>, AllocError>
    ensures { (app : App) → IsCommand app command.entry → IfOk result (IsCommand (spec.over_ports app)) }
{
    let described = over_file(alloc, command);
    with_argument(described, word(alloc, "STIMULUS", help::STIMULUS))
}

/// The command over a description, its stimulus and a trace.
fn over_trace<'a>(alloc: Global, command: Command<'a>) -> Result<Command<'a>, AllocError>
    ensures { (app : App) → IsCommand app command.entry → IfOk result (IsCommand (spec.over_trace app)) }
{
    let stepped = over_ports(alloc, command);
    with_argument(stepped, word(alloc, "TRACE", help::TRACE))
}

fn check<'a>(alloc: Global) -> Result<Command<'a>, AllocError>
    ensures { IfOk result (IsCommand spec.check) }
{
    let command = begun(
        alloc,
        "check",
        help::CHECK,
        help::CHECK_LONG,
        help::CHECK_REFUSALS,
    );
    explaining(alloc, over_file(alloc, command))
}

fn debug<'a>(alloc: Global) -> Result<Command<'a>, AllocError>
    ensures { IfOk result (IsCommand spec.debug) }
{
    let command = begun(
        alloc,
        "debug",
        help::DEBUG,
        help::DEBUG_LONG,
        help::DEBUG_REFUSALS,
    );
    explaining(alloc, over_ports(alloc, command))
}

fn replay<'a>(alloc: Global) -> Result<Command<'a>, AllocError>
    ensures { IfOk result (IsCommand spec.replay) }
{
    let command = begun(
        alloc,
        "replay",
        help::REPLAY,
        help::REPLAY_LONG,
        help::TRACE_REFUSALS,
    );
    explaining(alloc, over_trace(alloc, command))
}

fn work<'a>(alloc: Global) -> Result<Command<'a>, AllocError>
    ensures { IfOk result (IsCommand spec.work) }
{
    let command = begun(
        alloc,
        "work",
        help::WORK,
        help::WORK_LONG,
        help::WORK_REFUSALS,
    );
    let hired = with_argument(over_ports(alloc, command), workers(alloc));
    explaining(alloc, with_argument(hired, turns(alloc)))
}

/// A word that may be left out.
fn optional<'a>(alloc: Global, name: &'a str, help: &'a str) -> Arg<'a>
    ensures { IsArgument (spec.optional name.now) result }
{
    Arg::new(alloc, name).action(ArgAction::Set).help(help)
}

fn shell<'a>(alloc: Global) -> Result<Command<'a>, AllocError>
    ensures { IfOk result (IsCommand spec.shell) }
{
    let command = begun(
        alloc,
        "shell",
        help::SHELL,
        help::SHELL_LONG,
        help::SHELL_REFUSALS,
    );
    with_argument(
        over_ports(alloc, command),
        optional(alloc, "TRACE", help::TRACE),
    )
}

fn explain<'a>(alloc: Global) -> Result<Command<'a>, AllocError>
    ensures { IfOk result (IsCommand spec.explain) }
{
    let command = begun(
        alloc,
        "explain",
        help::EXPLAIN,
        help::EXPLAIN_LONG,
        help::EXPLAIN_REFUSALS,
    );
    with_argument(Ok(command), number(alloc))
}

fn outline<'a>(alloc: Global) -> Result<Command<'a>, AllocError>
    ensures { IfOk result (IsCommand spec.outline) }
{
    let command = begun(
        alloc,
        "outline",
        help::OUTLINE,
        help::OUTLINE_LONG,
        help::OUTLINE_REFUSALS,
    );
    explaining(alloc, over_file(alloc, command))
}

fn waiting<'a>(alloc: Global) -> Result<Command<'a>, AllocError>
    ensures { IfOk result (IsCommand spec.waiting) }
{
    let command = begun(
        alloc,
        "waiting",
        help::WAITING,
        help::WAITING_LONG,
        help::TRACE_REFUSALS,
    );
    explaining(alloc, over_trace(alloc, command))
}

/// The number of a step to mark.
fn event<'a>(alloc: Global) -> Arg<'a>
    ensures { IsArgument spec.event_number result }
{
    Arg::new(alloc, "event")
        .long("event")
        .action(ArgAction::Set)
        .value_name("T")
        .help(help::EVENT)
}

/// `picture` with the forms of a drawing.
fn drawn<'a>(alloc: Global) -> Result<Command<'a>, AllocError>
    ensures { IfOk result (IsCommand spec.drawn) }
{
    let command = begun(
        alloc,
        "picture",
        help::PICTURE,
        help::PICTURE_LONG,
        help::PICTURE_REFUSALS,
    );
    let as_sheet = with_argument(over_trace(alloc, command), flag(alloc, "svg", help::SVG));
    let as_waves = with_argument(as_sheet, flag(alloc, "vcd", help::VCD));
    with_argument(as_waves, flag(alloc, "json", help::JSON))
}

fn picture<'a>(alloc: Global) -> Result<Command<'a>, AllocError>
    ensures { IfOk result (IsCommand spec.picture) }
{
    let marked = with_argument(drawn(alloc), event(alloc));
    with_argument(marked, flag(alloc, "quiet", help::QUIET))
}

fn why<'a>(alloc: Global) -> Result<Command<'a>, AllocError>
    ensures { IfOk result (IsCommand spec.why) }
{
    let command = begun(alloc, "why", help::WHY, help::WHY_LONG, help::WHY_REFUSALS);
    let asking = with_argument(over_trace(alloc, command), word(alloc, "X", help::SUBJECT));
    explaining(alloc, with_argument(asking, flag(alloc, "all", help::ALL)))
}

fn dap<'a>(alloc: Global) -> Result<Command<'a>, AllocError>
    ensures { IfOk result (IsCommand spec.dap) }
{
    let command = begun(alloc, "dap", help::DAP, help::DAP_LONG, help::DAP_REFUSALS);
    Ok(command)
}

/// The program without its commands.
fn bare<'a>(alloc: Global) -> Result<Command<'a>, AllocError>
    ensures { IfOk result (IsCommand spec.bare) }
{
    begun(
        alloc,
        "balsadbg",
        help::BALSADBG,
        help::BALSADBG_LONG,
        help::REFUSALS,
    )
    .version(help::VERSION)
    .subcommand_required(true)
    .arg_required_else_help(true)
    .bin_name("balsadbg")
}

/// The program with one more command, where there was memory for that.
fn add_command<'a>(
    program: Command<'a>,
    command: Result<Command<'a>, AllocError>,
) -> Result<Command<'a>, AllocError>
    ensures { (over under : App) → IsCommand over program.entry → IfOk command.entry (IsCommand under)
        → IfOk result (IsCommand (with_subcommand over under.top)) }
{
    match command {
        Ok(command) => program.subcommand(command),
        Err(error) => Err(error),
    }
}

/// The program with one more command, where there was memory for both.
fn with_command<'a>(
    program: Result<Command<'a>, AllocError>,
    command: Result<Command<'a>, AllocError>,
) -> Result<Command<'a>, AllocError>
    ensures { (over under : App) → IfOk program.entry (IsCommand over) → IfOk command.entry (IsCommand under)
        → IfOk result (IsCommand (with_subcommand over under.top)) }
{
    match program {
        Ok(program) => add_command(program, command),
        Err(error) => Err(error),
    }
}

/// The program with the words that run a description.
fn running<'a>(alloc: Global) -> Result<Command<'a>, AllocError>
    ensures { IfOk result (IsCommand spec.running) }
{
    let program = with_command(bare(alloc), check(alloc));
    let program = with_command(program, debug(alloc));
    let program = with_command(program, replay(alloc));
    let program = with_command(program, work(alloc));
    with_command(program, shell(alloc))
}

/// The program with the words that people ask, too.
fn asking<'a>(alloc: Global) -> Result<Command<'a>, AllocError>
    ensures { IfOk result (IsCommand spec.asking) }
{
    let program = with_command(running(alloc), explain(alloc));
    let program = with_command(program, outline(alloc));
    let program = with_command(program, waiting(alloc));
    let program = with_command(program, why(alloc));
    with_command(program, picture(alloc))
}

/// The program.
pub fn balsadbg<'a>(alloc: Global) -> Result<Command<'a>, AllocError>
    ensures { IfOk result (IsCommand spec.program) }
{
    with_command(asking(alloc), dap(alloc))
}
