// The texts of messages for which there is no memory.
ghost use Rattle.std.specs.Prelude.{◌≡◌, ◌++◌, OnOk, codes, string_bytes};
ghost use Rattle.std.specs.Fmt.{decimal};
ghost use Rattle.dap_messages.specs.Messages.{event_name};
ghost use Rattle.dap_server.specs.Short as model;

use crate::gist::Gist;
use dap_messages::{Kind, Request, Stop, Told};
use std::alloc::AllocError;
use std::io::Write;

/// Writes the response to the request of which this came, in place of what was there.
pub(crate) fn write_response(
    body: &mut Vec<u8>,
    request: &Request,
    gist: Gist,
    seq: u64,
) -> Result<(), AllocError>
    ensures { OnOk result (body.new.items ≡ model.short_response request.now gist seq) }
{
    begin_response(body, request.seq, seq)?;
    add_key(body)?;
    add_short_name(body, request)?;
    add_result(body, request, gist)
}

/// Writes the event that has to come behind the response to the request, in place of what was there.
pub(crate) fn write_event(
    body: &mut Vec<u8>,
    request: &Request,
    told: Told,
    seq: u64,
) -> Result<(), AllocError>
    ensures { OnOk result (body.new.items ≡ model.short_event request.now told seq) }
{
    begin_event(body, seq)?;
    body.extend_from_slice(told.name().as_bytes())?;
    add_rest(body, request, told)
}

/// Writes an event that tells a line, in place of what was there.
pub(crate) fn write_line(body: &mut Vec<u8>, line: &str, seq: u64) -> Result<(), AllocError>
    ensures { OnOk result (body.new.items ≡ model.short_line line.now seq) }
{
    begin_event(body, seq)?;
    begin_line(body)?;
    add_text(body, line)?;
    end_line(body)
}

/// Adds that a line comes.
fn begin_line(body: &mut Vec<u8>) -> Result<(), AllocError>
    ensures { OnOk result (body.new.items ≡ body.old.items ++ model.line_key) }
{
    body.extend_from_slice(b"output\",\"body\":{\"category\":\"stderr\",\"output\":\"balsadbg: ")
}

/// Adds that the line ends.
fn end_line(body: &mut Vec<u8>) -> Result<(), AllocError>
    ensures { OnOk result (body.new.items ≡ body.old.items ++ model.line_end) }
{
    body.extend_from_slice(b"\\n\"}}")
}

/// Begins a message of this number, in place of what was there.
fn begin(body: &mut Vec<u8>, seq: u64) -> Result<(), AllocError>
    ensures { OnOk result (body.new.items ≡ model.numbered seq) }
{
    body.clear();
    body.extend_from_slice(b"{\"seq\":")?;
    add_number(body, seq)
}

/// Begins a response to the request of this number.
fn begin_response(body: &mut Vec<u8>, request: u64, seq: u64) -> Result<(), AllocError>
    ensures { OnOk result (body.new.items ≡ model.response_head request seq) }
{
    begin(body, seq)?;
    body.extend_from_slice(b",\"type\":\"response\",\"request_seq\":")?;
    add_number(body, request)
}

/// Begins an event, up to its name.
fn begin_event(body: &mut Vec<u8>, seq: u64) -> Result<(), AllocError>
    ensures { OnOk result (body.new.items ≡ model.event_head seq) }
{
    begin(body, seq)?;
    body.extend_from_slice(b",\"type\":\"event\",\"event\":\"")
}

/// Adds that a name comes.
fn add_key(body: &mut Vec<u8>) -> Result<(), AllocError>
    ensures { OnOk result (body.new.items ≡ body.old.items ++ model.command_key) }
{
    body.extend_from_slice(b",\"command\":\"")
}

/// Adds the name of the request, where it needs no signs of its own in JSON.
fn add_short_name(body: &mut Vec<u8>, request: &Request) -> Result<(), AllocError>
    ensures { OnOk result (body.new.items ≡ body.old.items ++ model.short_name (string_bytes request.now.command)) }
{
    add_text(body, short_name(request.command.as_str()))
}

/// Adds a text.
fn add_text(body: &mut Vec<u8>, text: &str) -> Result<(), AllocError>
    ensures { OnOk result (body.new.items ≡ body.old.items ++ text.now) }
{
    body.extend_from_slice(text.as_bytes())
}

/// Adds what came of the request.
fn add_result(body: &mut Vec<u8>, request: &Request, gist: Gist) -> Result<(), AllocError>
    ensures { OnOk result (body.new.items ≡ body.old.items ++ model.result_text request.now gist) }
{
    match gist {
        Gist::Refused(why) => add_refusal(body, why, "there is no memory left to say why"),
        Gist::Untold => add_refusal(body, 1, "there is no memory left"),
        Gist::Done => add_done(body, request),
        Gist::Due(_) => add_done(body, request),
    }
}

/// Adds that the request is done.
fn add_done(body: &mut Vec<u8>, request: &Request) -> Result<(), AllocError>
    ensures { OnOk result (body.new.items ≡ body.old.items ++ model.done_text request.now) }
{
    if needs_more(request.kind) {
        add_refusal(
            body,
            1,
            "it is done, and there is no memory left to tell more",
        )
    } else {
        let single = request.flag("singleThread", false);
        body.extend_from_slice(success_text(request.kind, single))
    }
}

/// Whether the protocol wants more with a response that such a request is done than there is memory for.
fn needs_more(kind: Kind) -> bool
    ensures { result ≡ model.needs_more kind }
{
    matches!(
        kind,
        Kind::Initialize | Kind::SetBreakpoints | Kind::SetDataBreakpoints
    )
}

/// That another request is done, which is of one thread alone or not.
fn success_text(kind: Kind, single: bool) -> &'static [u8]
    ensures { result.now ≡ model.success_text kind single }
{
    match kind {
        Kind::Continue => continued_text(single),
        Kind::Evaluate => {
            b"\",\"success\":true,\"body\":{\"result\":\"done; there is no memory left to tell more\",\"variablesReference\":0}}"
        }
        _ => b"\",\"success\":true}",
    }
}

/// That all threads go on, or one alone.
fn continued_text(single: bool) -> &'static [u8]
    ensures { result.now ≡ model.continued_text single }
{
    if single {
        b"\",\"success\":true,\"body\":{\"allThreadsContinued\":false}}"
    } else {
        b"\",\"success\":true,\"body\":{\"allThreadsContinued\":true}}"
    }
}

/// Adds that the request is refused, for the reason of this number, in these words.
fn add_refusal(body: &mut Vec<u8>, why: u64, words: &str) -> Result<(), AllocError>
    ensures { OnOk result (body.new.items ≡ body.old.items ++ model.refusal_text why words.now) }
{
    add_message(body, why, words)?;
    add_error(body, why, words)
}

/// Adds the message of a refusal, up to the end of its words.
fn add_message(body: &mut Vec<u8>, why: u64, words: &str) -> Result<(), AllocError>
    ensures { OnOk result (body.new.items ≡ body.old.items
        ++ (codes "\",\"success\":false,\"message\":\"refused " ++ decimal why ++ codes ": " ++ words.now)) }
{
    body.extend_from_slice(b"\",\"success\":false,\"message\":\"refused ")?;
    add_number(body, why)?;
    body.extend_from_slice(b": ")?;
    body.extend_from_slice(words.as_bytes())
}

/// Adds the error of a refusal, and all that is left.
fn add_error(body: &mut Vec<u8>, why: u64, words: &str) -> Result<(), AllocError>
    ensures { OnOk result (body.new.items ≡ body.old.items
        ++ (codes "\",\"body\":{\"error\":{\"id\":" ++ decimal why ++ codes ",\"format\":\"" ++ words.now
        ++ codes "\",\"showUser\":true}}}")) }
{
    body.extend_from_slice(b"\",\"body\":{\"error\":{\"id\":")?;
    add_number(body, why)?;
    body.extend_from_slice(b",\"format\":\"")?;
    body.extend_from_slice(words.as_bytes())?;
    body.extend_from_slice(b"\",\"showUser\":true}}}")
}

/// Adds what stands behind the name of an event.
fn add_rest(body: &mut Vec<u8>, request: &Request, told: Told) -> Result<(), AllocError>
    ensures { OnOk result (body.new.items ≡ body.old.items ++ model.event_rest request.now told) }
{
    match told {
        Told::Stopped(stop) => add_stopped(body, stop, thread_named(request)),
        _ => body.extend_from_slice(b"\"}"),
    }
}

/// The thread that the request names, else the first.
fn thread_named(request: &Request) -> u64
    ensures { result ≡ model.thread_named request.now }
{
    request.number("threadId").unwrap_or(1)
}

/// Adds that nothing moves.
fn add_stopped(body: &mut Vec<u8>, stop: Stop, thread: u64) -> Result<(), AllocError>
    ensures { OnOk result (body.new.items ≡ body.old.items ++ model.stopped_text stop thread) }
{
    add_stop_thread(body, stop, thread)?;
    add_stop_rest(body, stop)
}

/// Adds why nothing moves, and the thread that stopped.
fn add_stop_thread(body: &mut Vec<u8>, stop: Stop, thread: u64) -> Result<(), AllocError>
    ensures { OnOk result (body.new.items ≡ body.old.items ++ (model.stop_head stop ++ decimal thread)) }
{
    add_stop_head(body, stop)?;
    add_number(body, thread)
}

/// Adds why nothing moves, up to the number of the thread.
fn add_stop_head(body: &mut Vec<u8>, stop: Stop) -> Result<(), AllocError>
    ensures { OnOk result (body.new.items ≡ body.old.items ++ model.stop_head stop) }
{
    body.extend_from_slice(b"\",\"body\":{\"reason\":\"")?;
    add_text(body, stop.reason())?;
    body.extend_from_slice(b"\",\"threadId\":")
}

/// Adds the words for why nothing moves, and all that is left.
fn add_stop_rest(body: &mut Vec<u8>, stop: Stop) -> Result<(), AllocError>
    ensures { OnOk result (body.new.items ≡ body.old.items ++ model.stop_rest stop) }
{
    match stop {
        Stop::AtLine => body.extend_from_slice(
            b",\"allThreadsStopped\":true,\"text\":\"stopped at a breakpoint; there is no memory left to tell more\"}}",
        ),
        Stop::Refused(why, _) => add_refused(body, why),
        _ => body.extend_from_slice(
            b",\"allThreadsStopped\":true,\"text\":\"stopped; there is no memory left to tell more\"}}",
        ),
    }
}

/// Adds that a step was refused, for the reason of this number, and all that is left.
fn add_refused(body: &mut Vec<u8>, why: u64) -> Result<(), AllocError>
    ensures { OnOk result (body.new.items ≡ body.old.items ++ model.refused_rest why) }
{
    body.extend_from_slice(b",\"allThreadsStopped\":true,\"text\":\"")?;
    add_refused_words(body, why)
}

/// Adds the words for a step that was refused, and all that is left.
fn add_refused_words(body: &mut Vec<u8>, why: u64) -> Result<(), AllocError>
    ensures { OnOk result (body.new.items ≡ body.old.items ++ model.refused_words why) }
{
    body.extend_from_slice(b"refused ")?;
    add_number(body, why)?;
    body.extend_from_slice(b"; there is no memory left to tell more\"}}")
}

/// Adds a number in decimal.
fn add_number(body: &mut Vec<u8>, number: u64) -> Result<(), AllocError>
    ensures { OnOk result (body.new.items ≡ body.old.items ++ decimal number) }
{
    write!(body, "{number}").map_err(|_| AllocError)
}

/// The name of a request, where it needs no signs of its own in JSON.
fn short_name(name: &str) -> &str
    ensures { result.now ≡ model.short_name name.now }
{
    if name.len() < 64 && is_plain(name.as_bytes()) {
        name
    } else {
        "unknown"
    }
}

/// Whether each byte is a letter or a digit.
fn is_plain(name: &[u8]) -> bool
    ensures { result ≡ model.is_plain name.now }
{
    for byte in name {
        if !byte.is_ascii_alphanumeric() {
            return false;
        }
    }
    true
}
