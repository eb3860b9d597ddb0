// What is told where no variable has a name: what has it, names that are near, or how to see all of them.
use findings::{Nearest, plain_text};
use std::alloc::{AllocError, Global};
use std::str;
use system::{Branch, ChannelKind, System};

/// So many names are told at most.
const MOST: usize = 6;

/// What is told of a name that no variable has.
pub(crate) fn unknown_text(
    alloc: Global,
    system: &System,
    name: &str,
) -> Result<Vec<u8>, AllocError> {
    let names = names_of(alloc, system)?;
    let same = same_own_name(alloc, names.as_slice(), name)?;
    if !same.is_empty() {
        let what = format!(in alloc; "no variable has the name `{name}`")?;
        return said(alloc, what.as_str(), same.as_str());
    }
    if let Some(channel) = channel_named(system, name) {
        let kind = kind_of(system, channel);
        let what = format!(in alloc; "`{name}` is {kind}, and no variable")?;
        return said(alloc, what.as_str(), help_of(system, channel));
    }
    let what = format!(in alloc;
        "no variable has the name `{name}`, and it is the number of no step"
    )?;
    match nearest(alloc, names.as_slice(), name)? {
        Some(near) => {
            let help = format!(in alloc; "did you mean `{near}`?")?;
            said(alloc, what.as_str(), help.as_str())
        }
        None => said(
            alloc,
            what.as_str(),
            "`balsadbg outline FILE` lists the variables",
        ),
    }
}

/// The lines that say what is wrong and what helps.
fn said(alloc: Global, what: &str, help: &str) -> Result<Vec<u8>, AllocError> {
    Ok(plain_text(alloc, &[what], help)?.into_bytes())
}

/// The names of the variables, as lines of a script and answers have them.
fn names_of(alloc: Global, system: &System) -> Result<Vec<Vec<u8>>, AllocError> {
    let mut names = Vec::with_capacity(alloc, system.variables.len())?;
    for variable in system.variables.as_slice() {
        let mut name = Vec::new(alloc);
        variable.name.write_to(&mut name)?;
        names.push(name)?;
    }
    Ok(names)
}

/// What helps where variables have the name behind the numbers of calls; nothing where none has.
fn same_own_name(alloc: Global, names: &[Vec<u8>], given: &str) -> Result<String, AllocError> {
    let mut help = String::new(alloc);
    let mut count = 0_usize;
    for name in names {
        let text = str::from_utf8(name.as_slice()).unwrap_or("");
        if own_name(text) == own_name(given) && count < MOST {
            help.push_str(if count == 0 { "did you mean `" } else { ", `" })?;
            help.push_str(text)?;
            help.push_str("`")?;
            count = count.saturating_add(1);
        }
    }
    if count > 0 {
        help.push_str("? A number in front is that of the call in its body, from 1")?;
    }
    Ok(help)
}

/// The nearest to the given one of some names, if one is near.
fn nearest<'a>(
    alloc: Global,
    names: &'a [Vec<u8>],
    given: &str,
) -> Result<Option<&'a str>, AllocError> {
    let mut nearest = Nearest::none();
    for name in names {
        let text = str::from_utf8(name.as_slice()).unwrap_or("");
        nearest.offer(alloc, given, text)?;
    }
    Ok(nearest.name)
}

/// The name without the numbers of calls before it.
fn own_name(name: &str) -> &str {
    match name.rsplit_once(':') {
        Some((_, own)) => own,
        None => name,
    }
}

/// The number of the channel with this name.
fn channel_named(system: &System, name: &str) -> Option<u32> {
    for number in 0..system.channels.len() {
        let number = u32::try_from(number).ok()?;
        let found = system.channel_name(number)?;
        if found.is(name.as_bytes()) {
            return Some(number);
        }
    }
    None
}

/// What a channel is, in words.
fn kind_of(system: &System, channel: u32) -> &'static str {
    for branch in system.environment.as_slice() {
        match branch {
            Branch::Feed(own, _, _) if *own == channel => return "an input port",
            Branch::Drain(own) if *own == channel => return "an output port",
            Branch::Syncs(own, _) if *own == channel => return "a sync port",
            _ => {}
        }
    }
    if is_sync(system, channel) {
        "a sync"
    } else {
        "a channel"
    }
}

/// Whether a channel carries no data.
fn is_sync(system: &System, channel: u32) -> bool {
    match system.channels.as_slice().get(channel as usize) {
        Some(found) => found.kind == ChannelKind::Sync,
        None => false,
    }
}

/// What helps where a channel is asked for.
fn help_of(system: &System, channel: u32) -> &'static str {
    if is_sync(system, channel) {
        return "ask by the number of a step: `balsadbg replay` lists those that met on it";
    }
    "ask by the number of a step: `balsadbg replay` lists those that carried a value on it; or ask for the variable that \
     was sent or that received"
}
