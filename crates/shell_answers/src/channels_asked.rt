// Why there was a step on a channel.
use crate::Scene;
use crate::names::add_unknown_name;
use crate::past_steps::add_past;
use crate::ports::channel_named;
use crate::steps::add_step;
use past::past_of_event;
use plain_words::Text;

/// Adds what led to the last step on the channel of this name; where no channel has it, which name is meant.
pub(crate) fn add_why_name(text: &mut Text, scene: &Scene<'_>, given: &[u8], all: bool) {
    match channel_named(scene.system(), given) {
        Some(channel) => add_why_channel(text, scene, channel, given, all),
        None => add_unknown_name(text, scene, given),
    }
}

/// Adds the last step on the channel, and what led to it.
fn add_why_channel(text: &mut Text, scene: &Scene<'_>, channel: u32, given: &[u8], all: bool) {
    let Some(ticket) = last_on(scene, channel) else {
        text.add(b"  no live step was on ");
        text.add_channel(scene.system(), Some(channel));
        return text.add(b"; `waiting` tells who waits for it\n");
    };
    text.add(b"  the last on ");
    text.add_channel(scene.system(), Some(channel));
    text.add(b" was ");
    add_step(text, scene, ticket);
    text.add(b"\n");
    add_past_of(text, scene, ticket, given, all);
}

/// Adds the steps that led to the one of this ticket.
fn add_past_of(text: &mut Text, scene: &Scene<'_>, ticket: u64, given: &[u8], all: bool) {
    match past_of_event(scene.alloc, scene.machine().live_events(), ticket, all) {
        Ok(Some(past)) => add_past(text, scene, &past, given),
        Ok(None) => {}
        Err(_) => text.add(b"  there was no memory to find it out\n"),
    }
}

/// The ticket of the newest live step on the channel.
fn last_on(scene: &Scene<'_>, channel: u32) -> Option<u64> {
    let mut last = None;
    for (ticket, event) in scene.machine().live_events().iter() {
        if event.channel == Some(channel) {
            last = Some(ticket);
        }
    }
    last
}
