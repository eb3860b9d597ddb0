// The first lines: what the circuit is, and what to type.
use crate::Scene;
use crate::ports::{Port, ports};
use crate::steps::steps_word;
use outline::{BranchEntry, Outline, Part, outline_of};
use plain_words::{Text, root_name};

/// So many names are told at most.
const MOST_NAMES: usize = 12;

/// The first lines of a session.
pub fn greeting(scene: &Scene<'_>) -> Text {
    let mut text = Text::new(scene.alloc);
    add_name(&mut text, scene);
    let inputs = ports(scene, Port::Input);
    let outputs = ports(scene, Port::Output);
    let syncs = ports(scene, Port::Sync);
    add_ports(&mut text, scene, inputs, b"input");
    add_ports(&mut text, scene, outputs, b"output");
    add_ports(&mut text, scene, syncs, b"sync port");
    match outline_of(scene.alloc, scene.bench.desk().machine().checked()) {
        Ok(outline) => add_branches(&mut text, &outline),
        Err(_) => text.add(b"\n"),
    }
    add_live(&mut text, scene);
    text.add(b"`ready` lists what can be stepped, `run` takes steps, `help` lists all words.\n");
    text
}

/// Adds the name of the procedure.
fn add_name(text: &mut Text, scene: &Scene<'_>) {
    match root_name(scene.alloc, scene.source) {
        Ok(Some(name)) => text.add(name),
        _ => text.add(b"this circuit"),
    }
    text.add(b":");
}

/// Adds the ports of these channels.
fn add_ports(text: &mut Text, scene: &Scene<'_>, channels: Vec<u32>, word: &[u8]) {
    let count = channels.len();
    if count == 0 {
        return;
    }
    text.add(b" ");
    text.add(word);
    text.add(if count == 1 { b" " } else { b"s " });
    for (index, channel) in channels.as_slice().iter().enumerate() {
        if index < MOST_NAMES {
            text.add(if index == 0 { b"" } else { b", " });
            text.add_channel(scene.system(), Some(*channel));
        }
    }
    add_more(text, count);
    text.add(b";");
}

/// Adds how many more there are of so many.
fn add_more(text: &mut Text, count: usize) {
    let left = count.saturating_sub(MOST_NAMES);
    if left > 0 {
        text.add_counted(b" and ", left as u64, b" more");
    }
}

/// Adds the branches with their numbers.
fn add_branches(text: &mut Text, outline: &Outline) {
    let branches = outline.branches.as_slice();
    text.add(if branches.len() == 1 {
        b" branch "
    } else {
        b" branches "
    });
    for (index, branch) in branches.iter().enumerate() {
        if index < MOST_NAMES {
            text.add(if index == 0 { b"" } else { b", " });
            add_branch(text, outline, branch);
        }
    }
    add_more(text, branches.len());
    text.add(b".\n");
}

/// Adds a branch: its number, and its port or its line.
fn add_branch(text: &mut Text, outline: &Outline, branch: &BranchEntry) {
    text.add_number(u64::from(branch.number));
    match branch.part {
        Part::Body(line) => text.add_counted(b" (line ", line, b")"),
        Part::Port => add_port(text, outline, branch),
    }
}

/// Adds the port at which a branch of the environment is.
fn add_port(text: &mut Text, outline: &Outline, branch: &BranchEntry) {
    for end in branch.ends.as_slice() {
        if let Some(channel) = outline.channels.get(end.channel as usize) {
            text.add(b" ");
            text.add_qualified(&channel.name);
        }
    }
}

/// Adds how many steps are live already, if there are some.
fn add_live(text: &mut Text, scene: &Scene<'_>) {
    let live = scene.machine().live_events().len() as u64;
    if live > 0 {
        text.add_number(live);
        text.add(steps_word(live));
        text.add(b" of the trace ");
        text.add(if live == 1 { b"is" } else { b"are" });
        text.add(b" taken.\n");
    }
}
