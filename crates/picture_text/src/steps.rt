// The events.
ghost use Rattle.std.specs.Prelude.{◌≡◌, ◌≤◌, ◌-◌, [], OnOk, codes, length, map, slice_get, slice_range};
ghost use Rattle.std.specs.Option.{option_copied};
ghost use Rattle.json_text.specs.Values.{list_text, member_text, string_text, with_value, with_values};
ghost use Rattle.line_text.specs.AnswerText.{entry_text};
ghost use Rattle.line_text.specs.EventText.{event_text};
ghost use Rattle.picture_text.specs.DataText as model;

use crate::ground::optional;
use address::Address;
use dependence::Live;
use json_text::{Item, Json};
use line_text::add_entry;
use picture_data::{Actions, Race, Steps};
use runs::Event;
use std::alloc::AllocError;
use syntax::Items;
use system::System;

/// Adds the tickets: 1 where they are those from 1 on, and else a list.
#[tactic(auto, using(json_text::proofs::public::Growing::member_added))]
pub(crate) fn add_tickets(json: &mut Json, live: &Live) -> Result<(), AllocError>
    ensures { OnOk result (json.new
        ≡ with_value json.old (member_text (codes "tickets") (model.tickets_text live.now.live))) }
{
    json.name("tickets")?;
    if are_counted(live) {
        json.number(1)
    } else {
        add_all_tickets(json, live)
    }
}

/// Adds a list of the tickets.
fn add_all_tickets(json: &mut Json, live: &Live) -> Result<(), AllocError>
    ensures { OnOk result (json.new ≡ with_value json.old (list_text (model.ticket_texts live.now.live))) }
{
    json.open_list()?;
    for (ticket, _) in live.iter() {
        json.number(ticket)?;
    }
    json.close_list()
}

/// Whether the tickets are those from 1 on.
fn are_counted(live: &Live) -> bool
    ensures { result ≡ model.are_counted 1 live.now.live }
{
    for (index, (ticket, _)) in live.iter().enumerate() {
        if ticket != index as u64 + 1 {
            return false;
        }
    }
    true
}

/// Adds the events.
pub(crate) fn add_events(
    json: &mut Json,
    system: &System,
    live: &Live,
    steps: &Steps,
    scratch: &mut Vec<u8>,
) -> Result<(), AllocError>
    ensures { OnOk result (json.new ≡ with_value json.old
        (member_text (codes "events") (list_text (model.event_rows system.now steps.now 0 live.now.live)))) }
{
    json.name("events")?;
    json.open_list()?;
    for (index, (_, event)) in live.iter().enumerate() {
        add_row(json, system, steps, index, event, scratch)?;
    }
    json.close_list()
}

/// Adds the event at an index.
fn add_row(
    json: &mut Json,
    system: &System,
    steps: &Steps,
    index: usize,
    event: &Event,
    scratch: &mut Vec<u8>,
) -> Result<(), AllocError>
    ensures { OnOk result (json.new ≡ with_value json.old (model.event_row system.now steps.now index event.now)) }
{
    json.open_list()?;
    add_event(json, system, event, scratch)?;
    add_actions(json, actions_at(steps, index))?;
    json.items(&[
        Item::Optional(depth_at(steps, index)),
        Item::Optional(number(event.written)),
    ])?;
    add_reads(json, event)?;
    add_ahead(json, ahead_at(steps, index))?;
    add_since(json, &event.second, since_at(steps, index))?;
    json.close_list()
}

/// Adds the text of an event, as answers show it.
pub(crate) fn add_event(
    json: &mut Json,
    system: &System,
    event: &Event,
    scratch: &mut Vec<u8>,
) -> Result<(), AllocError>
    ensures { OnOk result (json.new ≡ with_value json.old (string_text (event_text system.now event.now))) }
{
    write_event(system, event, scratch)?;
    // A space, the number and a space stand before it, and the end of the line behind it.
    json.text(inner(scratch.as_slice()))
}

/// Writes the line of an event of number 0 into the scratch, which is written anew.
fn write_event(system: &System, event: &Event, scratch: &mut Vec<u8>) -> Result<(), AllocError>
    ensures { OnOk result (scratch.new.items ≡ entry_text system.now [] 0 event.now) }
{
    scratch.clear();
    add_entry(scratch, b"", system, 0, event)
}

/// What stands behind the first three bytes and before the last.
fn inner(line: &[u8]) -> &[u8]
    requires { 4 ≤ length line.now }
    ensures { result.now ≡ slice_range line.now 3 (length line.now - 1) }
{
    &line[3..line.len() - 1]
}

/// The number, if it is one.
fn number(number: Option<u32>) -> Option<u64>
    ensures { result ≡ number }
{
    match number {
        Some(number) => Some(u64::from(number)),
        None => None,
    }
}

/// The depth of the event at an index.
fn depth_at(steps: &Steps, index: usize) -> Option<u64>
    ensures { result ≡ slice_get steps.now.depths.items index }
{
    match steps.depths.get(index) {
        Some(depth) => Some(*depth as u64),
        None => None,
    }
}

/// Where the event at an index stands.
fn actions_at(steps: &Steps, index: usize) -> Option<&Actions>
    ensures { option_copied result ≡ slice_get steps.now.actions.items index }
{
    steps.actions.get(index)
}

/// Adds the lanes and the lines of an event.
pub(crate) fn add_actions(json: &mut Json, actions: Option<&Actions>) -> Result<(), AllocError>
    ensures { OnOk result (json.new ≡ with_values json.old (model.action_texts (option_copied actions.entry))) }
{
    match actions {
        Some(actions) => json.items(&[
            Item::Optional(optional(actions.first_lane)),
            Item::Optional(optional(actions.second_lane)),
            Item::Number(actions.first_line),
            Item::Number(actions.second_line),
        ]),
        None => Ok(()),
    }
}

/// Adds the variables that the event read.
fn add_reads(json: &mut Json, event: &Event) -> Result<(), AllocError>
    ensures { OnOk result (json.new ≡ with_value json.old (model.numbers_text event.now.read)) }
{
    json.open_list()?;
    for variable in event.read.as_slice() {
        json.number(u64::from(*variable))?;
    }
    json.close_list()
}

/// How much further on the followers of the event at an index stand.
fn ahead_at(steps: &Steps, index: usize) -> Option<&Items<usize>>
    ensures { option_copied result ≡ slice_get steps.now.ahead index }
{
    steps.ahead.get(index)
}

/// Adds how much further on the followers of an event stand.
fn add_ahead(json: &mut Json, row: Option<&Items<usize>>) -> Result<(), AllocError>
    ensures { OnOk result (json.new ≡ with_value json.old (model.ahead_text (option_copied row.entry))) }
{
    match row {
        Some(row) => add_indexes(json, row.as_slice()),
        None => add_indexes(json, &[]),
    }
}

/// Adds a list of indexes.
pub(crate) fn add_indexes(json: &mut Json, indexes: &[usize]) -> Result<(), AllocError>
    ensures { OnOk result (json.new ≡ with_value json.old (model.numbers_text indexes.now)) }
{
    json.open_list()?;
    for index in indexes {
        json.number(*index as u64)?;
    }
    json.close_list()
}

/// From which depth on the actions of the event at an index stood there.
fn since_at(steps: &Steps, index: usize) -> Option<&(usize, usize)>
    ensures { option_copied result ≡ slice_get steps.now.since.items index }
{
    steps.since.get(index)
}

/// Adds from which depth on an event with a second place stood at each of its places.
fn add_since(
    json: &mut Json,
    second: &Option<Address>,
    since: Option<&(usize, usize)>,
) -> Result<(), AllocError>
    ensures { OnOk result (json.new ≡ with_values json.old (model.since_texts second.now (option_copied since.entry))) }
{
    match second {
        Some(_) => add_depths(json, since),
        None => Ok(()),
    }
}

/// Adds from which depth on an event stood at each of its two places.
fn add_depths(json: &mut Json, since: Option<&(usize, usize)>) -> Result<(), AllocError>
    ensures { OnOk result (json.new ≡ with_values json.old (model.depths_texts (option_copied since.entry))) }
{
    match since {
        Some((first, second)) => json.list(&[
            Item::Number(*first as u64),
            Item::Number(*second as u64),
        ]),
        None => Ok(()),
    }
}

/// Adds the orders that only a shared variable makes.
pub(crate) fn add_races(json: &mut Json, races: &[Race]) -> Result<(), AllocError>
    ensures { OnOk result (json.new ≡ with_value json.old
        (member_text (codes "races") (list_text (map model.race_text races.now)))) }
{
    json.name("races")?;
    json.open_list()?;
    for race in races {
        add_race(json, race)?;
    }
    json.close_list()
}

/// Adds such an order.
fn add_race(json: &mut Json, race: &Race) -> Result<(), AllocError>
    ensures { OnOk result (json.new ≡ with_value json.old (model.race_text race.now)) }
{
    json.list(&[
        Item::Number(race.cause as u64),
        Item::Number(race.event as u64),
        Item::Number(u64::from(race.variable)),
    ])
}
