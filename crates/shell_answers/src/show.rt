// One step in words, and which steps hang together with it.
ghost use Rattle.runs.specs.Live.{IsLive};

use crate::Scene;
use crate::past_steps::add_read_line;
use crate::steps::{add_numbers, add_step, steps_word};
use dependence::Live;
use plain_words::{Text, consequences_of};

/// Adds the live step of this ticket: what it does, on what it depends, and what depends on it.
pub(crate) fn add_shown(text: &mut Text, scene: &Scene<'_>, ticket: u64) {
    let live = scene.machine().live_events();
    let Some(index) = live.index_of(ticket) else {
        text.add_counted(
            b"  no live step has the number ",
            ticket,
            b"; `live` lists them\n",
        );
        return;
    };
    text.add(b"  ");
    add_step(text, scene, ticket);
    text.add(b"\n");
    add_read_line(text, scene, ticket);
    add_leads(text, live, index as u64);
    add_dependents(text, scene, ticket);
}

/// Adds the nearest causes of the live step at this index.
fn add_leads(text: &mut Text, live: &Live, index: u64) {
    let Some((ticket, _)) = live.pair_at(index) else {
        return;
    };
    let leads = leads_of(live, ticket);
    if leads.is_empty() {
        text.add(b"  it depends on no other step\n");
    } else {
        text.add(leads_word(leads.len()));
        add_numbers(text, leads);
        text.add(b"\n");
    }
}

/// What stands before so many nearest causes.
fn leads_word(count: usize) -> &'static [u8] {
    if count == 1 {
        b"  its nearest cause is step "
    } else {
        b"  its nearest causes are steps "
    }
}

/// The steps that the live step of this ticket follows.
fn leads_of(live: &Live, ticket: u64) -> &[u64]
    requires { IsLive live.now.live ticket }
{
    live.leads(ticket)
}

/// Adds how many steps depend on the one of this ticket.
fn add_dependents(text: &mut Text, scene: &Scene<'_>, ticket: u64) {
    let Ok(tickets) = consequences_of(scene.alloc, scene.machine(), ticket) else {
        text.add(b"  there was no memory to list what depends on it\n");
        return;
    };
    if let [_, others @ ..] = tickets.as_slice() {
        if others.is_empty() {
            text.add_counted(
                b"  no step depends on it: `undo ",
                ticket,
                b"` takes it back alone\n",
            );
        } else {
            text.add(b" ");
            text.add(steps_word(others.len() as u64));
            text.add(b" ");
            add_numbers(text, others);
            text.add(depend_word(others.len()));
        }
    }
}

/// That so many depend on it.
fn depend_word(count: usize) -> &'static [u8] {
    if count == 1 {
        b" depends on it\n"
    } else {
        b" depend on it\n"
    }
}
