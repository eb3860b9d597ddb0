// An event in plain words, with its line.
use crate::sight::line_at;
use crate::words::Words;
use machine::Machine;
use runs::{Event, Kind};
use std::alloc::Global;
use system::System;
use value::Value;

/// The event in plain words.
pub fn event_words(alloc: Global, machine: &Machine, event: &Event) -> Words {
    let mut words = Words::new(alloc);
    let system = machine.checked().system();
    match event.kind {
        Kind::Assign => assigned(alloc, system, event, &mut words),
        Kind::Turn => words.add("began a turn"),
        Kind::Meet => met(alloc, system, event, &mut words),
        Kind::Test => tested(event, &mut words),
        Kind::Open => opened(alloc, system, event, &mut words),
        Kind::Close => on_channel(alloc, system, event, "closed ", &mut words),
        Kind::Sync => on_channel(alloc, system, event, "synced on ", &mut words),
    }
    add_line(machine, event, &mut words);
    words
}

fn assigned(alloc: Global, system: &System, event: &Event, words: &mut Words) {
    words.variable(alloc, system, event.written.unwrap_or(u32::MAX));
    words.add(" := ");
    add_value(event.value, words);
}

fn met(alloc: Global, system: &System, event: &Event, words: &mut Words) {
    let channel = event.channel.unwrap_or(u32::MAX);
    match event.written {
        Some(variable) => {
            words.add("received ");
            add_value(event.value, words);
            words.add(" from ");
            words.channel(alloc, system, channel);
            words.add(" into ");
            words.variable(alloc, system, variable);
        }
        None => {
            words.add("sent ");
            add_value(event.value, words);
            words.add(" to ");
            words.channel(alloc, system, channel);
        }
    }
}

fn tested(event: &Event, words: &mut Words) {
    match event.arm {
        Some(arm) => {
            words.add("took arm ");
            words.number(u64::from(arm));
        }
        None => words.add("found no arm true"),
    }
}

fn opened(alloc: Global, system: &System, event: &Event, words: &mut Words) {
    on_channel(alloc, system, event, "opened ", words);
    if event.value.is_some() {
        words.add(" with ");
        add_value(event.value, words);
    }
}

fn on_channel(alloc: Global, system: &System, event: &Event, before: &str, words: &mut Words) {
    words.add(before);
    words.channel(alloc, system, event.channel.unwrap_or(u32::MAX));
}

fn add_value(value: Option<Value>, words: &mut Words) {
    match value {
        Some(value) => words.number(value.bits()),
        None => words.add("?"),
    }
}

/// Adds the line at which the event acts, or that of its other action.
fn add_line(machine: &Machine, event: &Event, words: &mut Words) {
    let line = match line_at(machine, event.acting_place()) {
        Some(line) => Some(line),
        None => line_at(machine, &event.first),
    };
    if let Some(line) = line {
        words.add(", line ");
        words.number(line);
    }
}
