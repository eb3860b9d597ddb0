// What stands at the end.
ghost use Rattle.std.specs.Prelude.{◌≡◌, OnOk, codes, map, slice_get};
ghost use Rattle.std.specs.Option.{option_copied};
ghost use Rattle.address.specs.Text.{text_of};
ghost use Rattle.json_text.specs.Values.{list_text, member_text, string_text, with_value};
ghost use Rattle.picture_text.specs.DataText as model;

use crate::ground::{flag, optional};
use crate::steps::{add_actions, add_event, add_indexes};
use address::Address;
use json_text::{Item, Json};
use picture_data::{Actions, End, Place, Role, Wanted};
use runs::Event;
use std::alloc::AllocError;
use system::System;
use text_parts::{Piece, add_pieces};
use waiting::Progress;

/// Adds the events that can be taken, each with the line of a script that takes it.
pub(crate) fn add_ready(
    json: &mut Json,
    system: &System,
    end: &End,
    scratch: &mut Vec<u8>,
) -> Result<(), AllocError>
    ensures { OnOk result (json.new ≡ with_value json.old (member_text (codes "ready")
        (list_text (model.ready_rows system.now end.now.ready_actions.items 0 end.now.ready)))) }
{
    json.name("ready")?;
    json.open_list()?;
    for (index, event) in end.ready.as_slice().iter().enumerate() {
        add_ready_row(json, system, end, index, event, scratch)?;
    }
    json.close_list()
}

/// Adds the event of this index that can be taken.
fn add_ready_row(
    json: &mut Json,
    system: &System,
    end: &End,
    index: usize,
    event: &Event,
    scratch: &mut Vec<u8>,
) -> Result<(), AllocError>
    ensures { OnOk result (json.new
        ≡ with_value json.old (model.ready_row system.now end.now.ready_actions.items index event.now)) }
{
    json.open_list()?;
    add_event(json, system, event, scratch)?;
    add_actions(json, actions_at(end, index))?;
    add_line(json, event, scratch)?;
    json.close_list()
}

/// Where the event of this index that can be taken stands.
fn actions_at(end: &End, index: usize) -> Option<&Actions>
    ensures { option_copied result ≡ slice_get end.now.ready_actions.items index }
{
    end.ready_actions.get(index)
}

/// Adds the line of a script that takes the event.
fn add_line(json: &mut Json, event: &Event, scratch: &mut Vec<u8>) -> Result<(), AllocError>
    ensures { OnOk result (json.new ≡ with_value json.old (string_text (model.step_text event.now))) }
{
    write_step(event, scratch)?;
    json.text(scratch.as_slice())
}

/// Writes that line into the scratch, which is written anew.
fn write_step(event: &Event, scratch: &mut Vec<u8>) -> Result<(), AllocError>
    ensures { OnOk result (scratch.new.items ≡ model.step_text event.now) }
{
    scratch.clear();
    add_pieces(
        scratch,
        &[
            Piece::Words(b"step "),
            Piece::Place(event.acting_place()),
            Piece::Words(b" "),
            Piece::Number(u64::from(event.arm_to_open())),
        ],
    )
}

/// Adds the places.
pub(crate) fn add_places(
    json: &mut Json,
    end: &End,
    scratch: &mut Vec<u8>,
) -> Result<(), AllocError>
    ensures { OnOk result (json.new ≡ with_value json.old (member_text (codes "places")
        (list_text (map model.place_row end.now.places.items)))) }
{
    json.name("places")?;
    json.open_list()?;
    for place in end.places.as_slice() {
        add_place(json, place, scratch)?;
    }
    json.close_list()
}

/// Adds a place.
fn add_place(json: &mut Json, place: &Place, scratch: &mut Vec<u8>) -> Result<(), AllocError>
    ensures { OnOk result (json.new ≡ with_value json.old (model.place_row place.now)) }
{
    write_place(&place.place, scratch)?;
    json.open_list()?;
    json.items(&[
        Item::Optional(optional(place.lane)),
        Item::Text(scratch.as_slice()),
        Item::Number(place.line),
        Item::Text(role_text(place.role).as_bytes()),
    ])?;
    add_wanted(json, place.wanted.as_slice())?;
    json.number(flag(place.is_ready))?;
    json.close_list()
}

/// Writes the place into the scratch, which is written anew.
fn write_place(place: &Address, scratch: &mut Vec<u8>) -> Result<(), AllocError>
    ensures { OnOk result (scratch.new.items ≡ text_of place.now) }
{
    scratch.clear();
    add_pieces(scratch, &[Piece::Place(place)])
}

/// What is done at a place, in a word.
fn role_text(role: Role) -> &'static str
    ensures { result.now ≡ model.role_text role }
{
    match role {
        Role::Sends => "send",
        Role::Receives => "receive",
        Role::Syncs => "sync",
        Role::Opens => "open",
        Role::Held => "held",
        Role::Closes => "close",
        Role::Goes => "go",
    }
}

/// Adds the channels that a place waits on: each with the lanes that it waits for, and whether a partner can still
/// come.
fn add_wanted(json: &mut Json, wanted: &[Wanted]) -> Result<(), AllocError>
    ensures { OnOk result (json.new ≡ with_value json.old (list_text (map model.wanted_text wanted.now))) }
{
    json.open_list()?;
    for one in wanted {
        add_one_wanted(json, one)?;
    }
    json.close_list()
}

/// Adds such a channel.
fn add_one_wanted(json: &mut Json, wanted: &Wanted) -> Result<(), AllocError>
    ensures { OnOk result (json.new ≡ with_value json.old (model.wanted_text wanted.now)) }
{
    json.open_list()?;
    json.number(u64::from(wanted.channel))?;
    add_indexes(json, wanted.lanes.as_slice())?;
    json.number(flag(wanted.can_come))?;
    json.close_list()
}

/// Adds a list of the one ring that is told of places that wait for one another, if there is one.
#[tactic(auto, using(json_text::proofs::public::Growing::member_added))]
pub(crate) fn add_ring(json: &mut Json, ring: &[usize]) -> Result<(), AllocError>
    ensures { OnOk result (json.new ≡ with_value json.old (member_text (codes "rings") (model.rings_text ring.now))) }
{
    json.name("rings")?;
    add_rings(json, ring)
}

/// Adds that list.
fn add_rings(json: &mut Json, ring: &[usize]) -> Result<(), AllocError>
    ensures { OnOk result (json.new ≡ with_value json.old (model.rings_text ring.now)) }
{
    if ring.is_empty() {
        return json.list(&[]);
    }
    json.open_list()?;
    add_indexes(json, ring)?;
    json.close_list()
}

/// Adds how the run stands; of one that is stuck, whether it lacks input.
#[tactic(auto, using(json_text::proofs::public::Growing::member_added))]
pub(crate) fn add_progress(
    json: &mut Json,
    progress: Progress,
    lacks_input: bool,
) -> Result<(), AllocError>
    ensures { OnOk result (json.new ≡ with_value json.old
        (member_text (codes "progress") (string_text (model.progress_text progress lacks_input)))) }
{
    json.name("progress")?;
    add_progress_words(json, progress, lacks_input)
}

/// Adds the words.
fn add_progress_words(
    json: &mut Json,
    progress: Progress,
    lacks_input: bool,
) -> Result<(), AllocError>
    ensures { OnOk result (json.new ≡ with_value json.old (string_text (model.progress_text progress lacks_input))) }
{
    json.text(progress_text(progress, lacks_input).as_bytes())
}

/// How a run stands, in the words of `waiting`.
fn progress_text(progress: Progress, lacks_input: bool) -> &'static str
    ensures { result.now ≡ model.progress_text progress lacks_input }
{
    match progress {
        Progress::GoesOn => "goes on",
        Progress::Done => "done",
        Progress::Stuck => stuck_text(lacks_input),
    }
}

/// How a run stands that is stuck, and may lack nothing but input.
fn stuck_text(lacks_input: bool) -> &'static str
    ensures { result.now ≡ model.stuck_text lacks_input }
{
    if lacks_input { "out of input" } else { "stuck" }
}
