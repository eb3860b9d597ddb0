// Breakpoints on variables and on channels.
ghost use Rattle.std.specs.Prelude.{◌≡◌, ◌⊎◌, ◌++◌, [], Some, codes, false, nat_eq, true, IfSome};
ghost use Rattle.std.specs.Cmp.Lexicographic.{pointwise};
ghost use Rattle.serde_json.specs.Data.{boolean};
ghost use Rattle.serde_json.specs.View.{items_view, view};
ghost use Rattle.dap_messages.specs.Written.{Has};
ghost use Rattle.dap_views.specs.declared.index.Thing as meant;
ghost use Rattle.dap_requests.specs.Lists.{Lists, Tells, each, list_in, verified_told};
ghost use Rattle.dap_requests.specs.Sets.{SetsWatched, TellsNoData, WatchesOnly, all_verified, all_watched, id_in, items_named, watched_as, watched_before, watched_by};

use crate::breakpoints::items_in;
use crate::lists::{give, give_made};
use dap_messages::{Answer, Listed, Members, Request, field, text_in};
use dap_moves::Machine;
use dap_threads::{frame_in, handle_named};
use dap_views::{Handle, Program, Thing, Watched, Words};
use serde_json::Value;
use std::alloc::Global;

/// Answers `dataBreakpointInfo`: the variable or the channel of this name.
pub fn data_info(
    alloc: Global,
    machine: &Machine,
    program: &Program,
    request: &Request,
    answer: &mut Answer,
) {
    let Some(instance) = instance_in(alloc, machine, program, request, answer) else {
        return;
    };
    let name = request.text("name").unwrap_or("");
    let body = info(alloc, machine, program.index.find(instance, name), name);
    answer.body(body);
}

/// The instance in which a name is read: that of what was unfolded, else that of the frame.
fn instance_in(
    alloc: Global,
    machine: &Machine,
    program: &Program,
    request: &Request,
    answer: &mut Answer,
) -> Option<usize> {
    match request.number("variablesReference") {
        // What cannot be unfolded has 0 for a number.
        None | Some(0) => frame_instance(alloc, machine, program, request, answer),
        Some(_) => match handle_named(machine, program, request, answer)? {
            Handle::Variables(number) | Handle::Channels(number) | Handle::Instance(number) => {
                Some(number as usize)
            }
            Handle::Steps(_) => frame_instance(alloc, machine, program, request, answer),
        },
    }
}

/// The instance of the frame that the request names.
fn frame_instance(
    alloc: Global,
    machine: &Machine,
    program: &Program,
    request: &Request,
    answer: &mut Answer,
) -> Option<usize> {
    let (_, instance) = frame_in(alloc, machine, program, request, answer)?;
    Some(instance)
}

/// What may be watched of a thing.
fn info(alloc: Global, machine: &Machine, thing: Option<Thing>, name: &str) -> Members {
    let mut body = Members::new(alloc);
    let Some(thing) = thing else {
        let mut words = Words::of(alloc, name);
        words.add(" is no variable and no channel");
        body.value("dataId", Value::Null);
        body.text("description", words.as_str());
        return body;
    };
    let whole = whole_name(alloc, machine, thing);
    let mut id = Words::new(alloc);
    let mut words = Words::new(alloc);
    let mut kinds = Listed::new(alloc);
    match thing {
        Thing::Variable(_) => {
            id.add("var ");
            words.add("stop when it is written: ");
            kinds.push_text(alloc, "write");
        }
        Thing::Channel(_) => {
            id.add("chan ");
            words.add("stop at a handshake on ");
            kinds.push_text(alloc, "readWrite");
        }
    }
    id.add(whole.as_str());
    words.add(whole.as_str());
    body.text("dataId", id.as_str());
    body.text("description", words.as_str());
    body.list("accessTypes", kinds);
    body
}

/// The whole name of a variable or a channel.
fn whole_name(alloc: Global, machine: &Machine, thing: Thing) -> Words {
    let system = machine.checked().system();
    let mut words = Words::new(alloc);
    match thing {
        Thing::Variable(number) => words.variable(alloc, system, number),
        Thing::Channel(number) => words.channel(alloc, system, number),
    }
    words
}

/// Answers `setDataBreakpoints`. Where it is refused, or there is no memory, what is watched stays.
pub fn set_data(alloc: Global, program: &mut Program, request: &Request, answer: &mut Answer)
    ensures { SetsWatched (view request.now.arguments) program.old answer.new program.new }
{
    match items_in(request, "breakpoints", answer) {
        Some(items) => watch(alloc, program, items, answer),
        None => {}
    }
}

/// Watches what these items mean, and nothing else; if there is no memory, what was watched before.
fn watch(alloc: Global, program: &mut Program, items: &[Value], answer: &mut Answer)
    ensures { (WatchesOnly (items_view items.now) program.old program.new
        × Lists verified_told (all_verified program.old.index (items_view items.now)) answer.new)
        ⊎ ((program.new ≡ program.old) × (answer.new.lacks ≡ true)) }
{
    let mut list = Listed::new(alloc);
    match watched_all(alloc, program, items, &mut list) {
        Some(watched) => keep_watched(alloc, program, watched, list, answer),
        None => answer.lacks = true,
    }
}

/// Keeps what is watched, and tells it; if there is no memory, what was watched before stays.
fn keep_watched(
    alloc: Global,
    program: &mut Program,
    watched: Vec<Watched>,
    list: Listed,
    answer: &mut Answer,
)
    ensures { ((program.new ≡ record program.old { watched = watched })
        × (answer.new.lacks ≡ false
        → (list.lacks ≡ false) × (list_in answer.new.outcome ≡ Some (items_view list.made.items))))
        ⊎ ((program.new ≡ program.old) × (answer.new.lacks ≡ true)) }
{
    match list.into_value() {
        Some(list) => {
            program.watched = watched;
            answer.did();
            give(alloc, list, answer);
        }
        None => answer.lacks = true,
    }
}

/// What these items mean, each of which the list tells; `None` where there is no memory.
fn watched_all(
    alloc: Global,
    program: &Program,
    items: &[Value],
    list: &mut Listed,
) -> Option<Vec<Watched>>
    ensures { IfSome result (λ watched. (watched.items ≡ all_watched program.now.index (items_view items.now))
        × (list.old.made.items ≡ []
        → Tells verified_told (all_verified program.now.index (items_view items.now)) list.new)) }
{
    let mut watched = Vec::new(alloc);
    for value in items {
        let found = watched_by(program, id_in(value));
        list.push(shown(alloc, found.is_some()));
        add_watched(&mut watched, found)?;
    }
    Some(watched)
}

/// Adds what is watched too, if it is something; `None` where there is no memory for it.
fn add_watched(watched: &mut Vec<Watched>, found: Option<Watched>) -> Option<()>
    ensures { IfSome result (λ done. watched.new.items ≡ watched.old.items ++ watched_before found []) }
{
    match found {
        Some(found) => watched.push(found).ok(),
        None => Some(()),
    }
}

/// The id that an item has.
fn id_in(item: &Value) -> &str
    ensures { result.now ≡ id_in (view item.now) }
{
    text_in(item, "dataId").unwrap_or("")
}

/// A data breakpoint as the client sees it.
fn shown(alloc: Global, verified: bool) -> Members
    ensures { Has result (codes "verified") (boolean verified) }
{
    let mut one = Members::new(alloc);
    one.flag("verified", verified);
    if !verified {
        one.text("message", "no such variable or channel");
    }
    one
}

/// What is watched by this name of the client.
fn watched_by(program: &Program, id: &str) -> Option<Watched>
    ensures { result ≡ watched_by program.now.index id.now }
{
    match id.split_once(' ') {
        Some(parts) => watched_as(parts.0, program.index.find(0, parts.1)),
        None => None,
    }
}

/// What is watched by a word for its kind, if it means this.
fn watched_as(kind: &str, thing: Option<Thing>) -> Option<Watched>
    ensures { result ≡ watched_as kind.now thing }
{
    match thing {
        Some(Thing::Variable(number)) => variable_as(kind, number),
        Some(Thing::Channel(number)) => channel_as(kind, number),
        None => None,
    }
}

/// The variable, if the word is that of a variable.
fn variable_as(kind: &str, number: u32) -> Option<Watched>
    ensures { result ≡ watched_as kind.now (Some (meant.Thing.Variable number)) }
{
    if is_word(kind, b"var") {
        Some(Watched::Variable(number))
    } else {
        None
    }
}

/// The channel, if the word is that of a channel.
fn channel_as(kind: &str, number: u32) -> Option<Watched>
    ensures { result ≡ watched_as kind.now (Some (meant.Thing.Channel number)) }
{
    if is_word(kind, b"chan") {
        Some(Watched::Channel(number))
    } else {
        None
    }
}

/// Whether the text is this word.
fn is_word(text: &str, word: &[u8]) -> bool
    ensures { result ≡ pointwise nat_eq text.now word.now }
{
    text.as_bytes() == word
}

/// Answers `setDataBreakpoints` while nothing is launched: none is verified.
pub fn set_data_before(alloc: Global, request: &Request, answer: &mut Answer)
    ensures { TellsNoData (items_named (codes "breakpoints") (view request.now.arguments)) answer.new }
{
    match items_in(request, "breakpoints", answer) {
        Some(items) => give_unwatched(alloc, items, answer),
        None => {}
    }
}

/// Tells of each of these items that it is not watched.
fn give_unwatched(alloc: Global, items: &[Value], answer: &mut Answer)
    ensures { TellsNoData (Some (items_view items.now)) answer.new }
{
    let list = unwatched(alloc, items);
    give_made(alloc, list, answer);
}

/// The items, of which none is watched.
fn unwatched(alloc: Global, items: &[Value]) -> Listed
    ensures { Tells verified_told (each (λ d. Some false) (items_view items.now)) result }
{
    let mut list = Listed::new(alloc);
    for value in items {
        list.push(unset(alloc, value));
    }
    list
}

/// A data breakpoint that is not watched.
fn unset(alloc: Global, value: &Value) -> Members
    ensures { Has result (codes "verified") (boolean false) }
{
    let mut one = Members::new(alloc);
    one.flag("verified", false);
    if field(value, "dataId").is_some() {
        one.text("message", "nothing is launched yet");
    }
    one
}
