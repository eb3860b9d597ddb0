// What the arguments of a launch ask for.
ghost use Rattle.std.specs.Prelude.{◌≡◌, [], IfOk, MatchResult, None, Some, codes, false, is_some, string_bytes};
ghost use Rattle.std.specs.Prelude.{unwrap_or};
ghost use Rattle.std.specs.Option.{option_map};
ghost use Rattle.serde_json.specs.View.{view};
ghost use Rattle.dap_messages.specs.Arguments.{flag_named};
ghost use Rattle.dap.specs.Asking.{IsAsked, asked_by, has_wrong, has_wrong_option, has_wrong_text, path_named};
ghost use Rattle.dap.specs.Asking.{text_given};
ghost use Rattle.dap.specs.Asking as model;
ghost use Rattle.dap.specs.Stops.{RefusedAs};
ghost use Rattle.dap.specs.Unlaunched.{AsksForNothing, Fails};
ghost use Rattle.dap.specs.declared.launch.Failed.{Failed as Failing};

use crate::launch::Failed;
use crate::paths::path_in;
use dap_messages::{Answer, field, number_in, text_in};
use dap_views::{Launch, Words};
use serde_json::Value;
use std::alloc::{AllocError, Global};

/// How many steps a run has at most, where the client does not say.
const MOST_STEPS: u64 = 10_000;

/// What the arguments ask to launch.
pub(crate) fn launch_of(
    alloc: Global,
    arguments: &Value,
    answer: &mut Answer,
) -> Result<Launch, Failed>
    ensures { MatchResult result
        (λ launch. IsAsked (view arguments.now) (asked_by launch) × (answer.new ≡ answer.old))
        (λ failed. Fails (AsksForNothing (view arguments.now)) failed answer.new) }
{
    match wrong_in(arguments) {
        Some(wrong) => {
            refuse_type(alloc, wrong, answer);
            Err(Failed::Told)
        }
        None => right_launch(alloc, arguments, answer),
    }
}

/// The same where each argument is what it should be.
fn right_launch(alloc: Global, arguments: &Value, answer: &mut Answer) -> Result<Launch, Failed>
    requires { has_wrong (view arguments.now) ≡ false }
    ensures { MatchResult result
        (λ launch. IsAsked (view arguments.now) (asked_by launch) × (answer.new ≡ answer.old))
        (λ failed. Fails (AsksForNothing (view arguments.now)) failed answer.new) }
{
    match path_of(alloc, arguments, "program") {
        Ok(Some(program)) => launch_on(alloc, arguments, program),
        Ok(None) => {
            answer.refuse(108, "`program` is missing: the path of a Balsa source");
            Err(Failed::Told)
        }
        Err(AllocError) => Err(Failed::Memory),
    }
}

/// The same of the program at this path.
fn launch_on(alloc: Global, arguments: &Value, program: String) -> Result<Launch, Failed>
    requires right { has_wrong (view arguments.now) ≡ false }
    requires named { path_named (codes "program") (view arguments.now) ≡ Some (string_bytes program) }
    ensures { MatchResult result (λ launch. IsAsked (view arguments.now) (asked_by launch))
        (λ failed. failed ≡ Failing.Memory) }
{
    let stimulus = path_of(alloc, arguments, "stimulus")?;
    let trace = path_of(alloc, arguments, "trace")?;
    Ok(Launch {
        program,
        stimulus,
        trace,
        stops: flag_in(arguments, "stopOnEntry", true),
        most: number_in(arguments, "maxSteps").unwrap_or(MOST_STEPS),
        free: flag_in(arguments, "noDebug", false),
    })
}

/// The path of the file that the argument of this name tells, if it tells one.
fn path_of(alloc: Global, arguments: &Value, name: &str) -> Result<Option<String>, AllocError>
    ensures { IfOk result (λ path.
        option_map (λ p. string_bytes p) path ≡ path_named name.now (view arguments.now)) }
{
    path_in(
        alloc,
        text_or_none(arguments, "cwd"),
        text_or_none(arguments, name),
    )
}

/// The argument of this name, where it is a text; else an empty one.
fn text_or_none<'a>(arguments: &'a Value, name: &str) -> &'a str
    ensures { result.now ≡ text_given name.now (view arguments.now) }
{
    match text_in(arguments, name) {
        Some(text) => text,
        None => "",
    }
}

/// The argument of this name, where it is `true` or `false`; else the one that stands for it.
fn flag_in(arguments: &Value, name: &str, otherwise: bool) -> bool
    ensures { result ≡ unwrap_or (flag_named name.now (view arguments.now)) otherwise }
{
    match flag_given(arguments, name) {
        Some(flag) => flag,
        None => otherwise,
    }
}

/// The argument of this name, where it is `true` or `false`.
fn flag_given(arguments: &Value, name: &str) -> Option<bool>
    ensures { result ≡ flag_named name.now (view arguments.now) }
{
    match arguments.get(name) {
        Some(value) => value.as_bool(),
        None => None,
    }
}

/// Refuses an argument of another type than it should have.
fn refuse_type(alloc: Global, wrong: (&str, Wanted), answer: &mut Answer)
    ensures { RefusedAs 104 answer.new.outcome }
{
    let (name, wanted) = wrong;
    let mut words = Words::of(alloc, "`");
    words.add(name);
    words.add(match wanted {
        Wanted::Text => "` is no text",
        Wanted::Flag => "` is neither true nor false",
        Wanted::Number => "` is no whole number from 1 on",
    });
    answer.refuse(104, words.as_str());
}

/// What an argument should be.
#[derive(Clone, Copy, Debug, PartialEq, Eq)]
enum Wanted {
    Text,
    Flag,
    Number,
}

/// The first argument of a launch that is not what it should be.
fn wrong_in(arguments: &Value) -> Option<(&'static str, Wanted)>
    ensures { is_some result ≡ has_wrong (view arguments.now) }
{
    match wrong_text_in(arguments) {
        Some(name) => Some((name, Wanted::Text)),
        None => wrong_option_in(arguments),
    }
}

/// The first that should be a text, and is none.
fn wrong_text_in(arguments: &Value) -> Option<&'static str>
    ensures { is_some result ≡ has_wrong_text (view arguments.now) }
{
    if is_wrong(arguments, "program", Wanted::Text) {
        Some("program")
    } else if is_wrong(arguments, "cwd", Wanted::Text) {
        Some("cwd")
    } else if is_wrong(arguments, "stimulus", Wanted::Text) {
        Some("stimulus")
    } else if is_wrong(arguments, "trace", Wanted::Text) {
        Some("trace")
    } else {
        None
    }
}

/// The first of the others that is not what it should be.
fn wrong_option_in(arguments: &Value) -> Option<(&'static str, Wanted)>
    ensures { is_some result ≡ has_wrong_option (view arguments.now) }
{
    if is_wrong(arguments, "stopOnEntry", Wanted::Flag) {
        Some(("stopOnEntry", Wanted::Flag))
    } else if is_wrong(arguments, "noDebug", Wanted::Flag) {
        Some(("noDebug", Wanted::Flag))
    } else if is_wrong(arguments, "maxSteps", Wanted::Number) {
        Some(("maxSteps", Wanted::Number))
    } else {
        None
    }
}

/// Whether the argument of this name is there, and is not what it should be.
fn is_wrong(arguments: &Value, name: &str, wanted: Wanted) -> bool
    ensures { result ≡ model.is_wrong wanted name.now (view arguments.now) }
{
    match field(arguments, name) {
        Some(value) => !is_wanted(value, wanted),
        None => false,
    }
}

/// Whether the value is what it should be.
fn is_wanted(value: &Value, wanted: Wanted) -> bool
    ensures { result ≡ model.is_wanted wanted (view value.now) }
{
    match wanted {
        Wanted::Text => value.as_str().is_some(),
        Wanted::Flag => value.as_bool().is_some(),
        Wanted::Number => is_positive(value.as_u64()),
    }
}

/// Whether it is a number from 1 on.
fn is_positive(number: Option<u64>) -> bool
    ensures { result ≡ model.is_positive number }
{
    match number {
        Some(number) => number > 0,
        None => false,
    }
}
