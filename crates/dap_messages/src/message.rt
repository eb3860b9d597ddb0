ghost use Rattle.std.specs.Prelude.{◌≡◌, ◌∷◌, [], ◌++◌, ◌+◌, None, Some, false, true, IfOk, OnOk, codes, string_bytes};
ghost use Rattle.std.specs.Option.{option_map};
ghost use Rattle.serde_json.specs.Data.{boolean, number, string, unsigned};
ghost use Rattle.serde_json.specs.Read.{read};
ghost use Rattle.serde_json.specs.View.{view};
ghost use Rattle.dap_messages.specs.Json.{IsJsonOf};
ghost use Rattle.dap_messages.specs.Messages.{EventsAdded, HasError, IsAnswerTo, TellsOutcome, event_name, is_done};
ghost use Rattle.dap_messages.specs.Written.{Has, Holds};
ghost use Rattle.dap_messages.specs.internal.Heads.{Keeps, KeepsHead};

use crate::answer::{Answer, Note, Outcome};
use crate::members::Members;
use crate::request::{Request, nests_within};
use serde_json::Value;
use std::alloc::{AllocError, Global};

/// How deep a message may nest: as deep as JSON is read.
const MOST_WRITTEN: u32 = 127;

/// A message to the client.
#[derive(Drop)]
pub struct Message {
    /// the messages of a session count from 1
    pub seq: u64,
    /// the number of the request that it answers; none of an event
    pub answers: Option<u64>,
    /// its members, but for its number
    members: Members,
}

/// The messages of an answer, the first of which has this number: the response to the request, and then the events. It
/// is an error if there is no memory, or was none for a part of the answer.
pub fn messages_of(
    alloc: Global,
    request: &Request,
    answer: Answer,
    next: u64,
) -> Result<Vec<Message>, AllocError>
    ensures { IfOk result (λ messages. (answer.lacks ≡ false) × IsAnswerTo request.now answer next messages.items) }
{
    let Answer {
        alloc: _,
        outcome,
        notes,
        lacks,
        effect: _,
    } = answer;
    if lacks {
        return Err(AllocError);
    }
    let mut messages = Vec::new(alloc);
    messages.push(Message {
        seq: next,
        answers: Some(request.seq),
        members: response(alloc, request, outcome),
    })?;
    add_events(alloc, notes, &mut messages, next)?;
    Ok(messages)
}

/// Adds the events, numbered on from the one message that is there.
fn add_events(
    alloc: Global,
    notes: Vec<Note>,
    messages: &mut Vec<Message>,
    first: u64,
) -> Result<(), AllocError>
    ensures { OnOk result (EventsAdded messages.old.items (first + 1) notes.items messages.new.items) }
{
    let mut seq = first;
    for note in notes {
        seq = following(seq)?;
        messages.push(Message {
            seq,
            answers: None,
            members: event(alloc, note),
        })?;
    }
    Ok(())
}

/// The number behind this.
fn following(seq: u64) -> Result<u64, AllocError>
    ensures { IfOk result (λ next. next ≡ seq + 1) }
{
    match seq.checked_add(1) {
        Some(next) => Ok(next),
        None => Err(AllocError),
    }
}

/// The members of the response.
fn response(alloc: Global, request: &Request, outcome: Outcome) -> Members
    ensures type_is { Has result (codes "type") (string (codes "response")) }
    ensures request { Has result (codes "request_seq") (number (unsigned request.now.seq)) }
    ensures command { Has result (codes "command") (string (string_bytes request.now.command)) }
    ensures success { Has result (codes "success") (boolean (is_done outcome)) }
    ensures outcome { TellsOutcome outcome result }
{
    let mut members = Members::new(alloc);
    members.text("type", "response");
    members.number("request_seq", request.seq);
    members.text("command", request.command.as_str());
    add_outcome(alloc, &mut members, outcome);
    members
}

/// Adds whether the request is done, and what it gives.
fn add_outcome(alloc: Global, members: &mut Members, outcome: Outcome)
    ensures head { KeepsHead members.old members.new }
    ensures success { Has members.new (codes "success") (boolean (is_done outcome)) }
    ensures outcome { Holds members.old (codes "body") None → TellsOutcome outcome members.new }
{
    match outcome {
        Outcome::Done(body) => add_done(members, body),
        Outcome::Refused(number, words) => add_refusal(alloc, members, number, words.as_str()),
    }
}

/// Adds that the request is done.
fn add_done(members: &mut Members, body: Option<Value>)
    ensures head { KeepsHead members.old members.new }
    ensures success { Has members.new (codes "success") (boolean true) }
    ensures body { Holds members.old (codes "body") None → Holds members.new (codes "body") (option_map view body) }
{
    members.flag("success", true);
    add_body(members, body);
}

/// Adds the body, if there is one.
fn add_body(members: &mut Members, body: Option<Value>)
    ensures head { KeepsHead members.old members.new }
    ensures success { Keeps (codes "success") members.old members.new }
    ensures body { Holds members.old (codes "body") None → Holds members.new (codes "body") (option_map view body) }
{
    match body {
        Some(body) => members.value("body", body),
        None => {}
    }
}

/// Adds that the request is refused.
fn add_refusal(alloc: Global, members: &mut Members, number: u64, words: &str)
    ensures head { KeepsHead members.old members.new }
    ensures success { Has members.new (codes "success") (boolean false) }
    ensures message { Has members.new (codes "message") (string words.now) }
    ensures error { HasError members.new number }
{
    let mut body = Members::new(alloc);
    body.object("error", error_of(alloc, number, words));
    members.flag("success", false);
    members.text("message", words);
    members.object("body", body);
}

/// The error, in words that a client may show. In a `format` braces stand around the name of a variable, so words that
/// have some are a variable themselves.
fn error_of(alloc: Global, why: u64, words: &str) -> Members
    ensures { Has result (codes "id") (number (unsigned why)) }
{
    let mut error = Members::new(alloc);
    error.number("id", why);
    add_format(alloc, &mut error, words);
    error.flag("showUser", true);
    error
}

/// Adds the words of an error.
fn add_format(alloc: Global, error: &mut Members, words: &str)
    ensures { Keeps (codes "id") error.old error.new }
{
    if words.contains('{') || words.contains('}') {
        let mut variables = Members::new(alloc);
        variables.text("words", words);
        error.text("format", "{words}");
        error.object("variables", variables);
    } else {
        error.text("format", words);
    }
}

/// The members of the event.
fn event(alloc: Global, note: Note) -> Members
    ensures type_is { Has result (codes "type") (string (codes "event")) }
    ensures event { Has result (codes "event") (string (event_name note.told)) }
    ensures body { Holds result (codes "body") (option_map view note.body) }
{
    let Note { told, body } = note;
    let mut members = Members::new(alloc);
    members.text("type", "event");
    members.text("event", told.name());
    add_body(&mut members, body);
    members
}

/// The JSON of the message. It is an error if there is no memory, or was none for a part of it, or if it nests deeper
/// than JSON is read, which none does.
pub fn write_message(alloc: Global, message: Message) -> Result<Vec<u8>, AllocError>
    ensures { IfOk result (λ bytes. IsJsonOf message bytes.items) }
{
    let Message {
        seq,
        answers: _,
        mut members,
    } = message;
    members.number("seq", seq);
    match members.into_value() {
        Some(value) => written(alloc, &value),
        None => Err(AllocError),
    }
}

/// The JSON of a value that nests no deeper than JSON is read.
fn written(alloc: Global, value: &Value) -> Result<Vec<u8>, AllocError>
    ensures { IfOk result (λ bytes. read bytes.items ≡ Some (view value.now)) }
{
    if nests_within(value, MOST_WRITTEN) {
        value.to_vec(alloc)
    } else {
        Err(AllocError)
    }
}
