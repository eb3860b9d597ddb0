// Names of variables as the lines of a script have them: those of called procedures stand behind the numbers of the
// calls.
use crate::described::described_by;
use findings::{Finding, Nearest, text_of};
use name_faults::kind_text;
use std::alloc::{AllocError, Global};
use syntax::{Description, LocalKind, Procedure, Span};
use written_names::{Kind, Role, find as declaration_of, sites, types, visible};

/// So many names of variables are told at most, and kept of one procedure.
const MOST: usize = 6;

/// The names of a procedure's variables, and of those that it calls, that end with the name that is asked for.
#[derive(Drop)]
struct Known {
    names: Vec<String>,
}

/// The name without the numbers of calls before it.
fn own_name(name: &str) -> &str {
    match name.rsplit_once(':') {
        Some((_, own)) => own,
        None => name,
    }
}

/// Whether a procedure has a variable of this name of its own.
fn has_variable(procedure: &Procedure, own: &str) -> bool {
    for local in procedure.locals.as_slice() {
        if matches!(
            local.kind,
            LocalKind::Variable(_) | LocalKind::SharedVariable(_)
        ) && has_name(local.names.as_slice(), own)
        {
            return true;
        }
    }
    false
}

/// Whether a name is among some.
fn has_name(names: &[syntax::Identifier], own: &str) -> bool {
    names
        .iter()
        .any(|name| *name.name.text() == *own.as_bytes())
}

/// The number, from 0, of the procedure with this name.
fn number_of(description: &Description, name: &[u8]) -> Option<usize> {
    for (index, procedure) in description.procedures.as_slice().iter().enumerate() {
        if *procedure.name.name.text() == *name {
            return Some(index);
        }
    }
    None
}

/// The names of the procedures that a procedure calls, in the order of its calls.
fn calls_of(alloc: Global, source: &[u8], procedure: &Procedure) -> Result<Vec<Span>, AllocError> {
    let mut calls = Vec::new(alloc);
    let found = sites(alloc, source, &[], procedure, u64::MAX)?;
    for site in found.as_slice() {
        if site.role == Role::Called {
            calls.push(site.span)?;
        }
    }
    Ok(calls)
}

/// Adds names of a called procedure, behind the number of the call.
fn add_called(
    alloc: Global,
    names: &mut Vec<String>,
    call: usize,
    called: &Known,
) -> Result<(), AllocError> {
    for name in called.names.as_slice() {
        if names.len() < MOST {
            let name = name.as_str();
            names.push(format!(in alloc; "{call}:{name}")?)?;
        }
    }
    Ok(())
}

/// The names in a procedure, where those in the procedures before it are known.
fn known_in(
    alloc: Global,
    source: &[u8],
    description: &Description,
    procedure: &Procedure,
    before: &[Known],
    own: &str,
) -> Result<Known, AllocError> {
    let mut names = Vec::new(alloc);
    if has_variable(procedure, own) {
        names.push(String::from_str(alloc, own)?)?;
    }
    let calls = calls_of(alloc, source, procedure)?;
    for (index, call) in calls.as_slice().iter().enumerate() {
        let called = text_of(source, *call).as_bytes();
        if let Some(number) = number_of(description, called)
            && let Some(known) = before.get(number)
        {
            add_called(alloc, &mut names, index.saturating_add(1), known)?;
        }
    }
    Ok(Known { names })
}

/// The names of the variables of a system that end with a name: those of its last procedure, and of those that it
/// calls.
fn names_with(
    alloc: Global,
    source: &[u8],
    description: &Description,
    own: &str,
) -> Result<Known, AllocError> {
    let mut known: Vec<Known> = Vec::new(alloc);
    for procedure in description.procedures.as_slice() {
        let next = known_in(alloc, source, description, procedure, known.as_slice(), own)?;
        known.push(next)?;
    }
    Ok(
        known.pop().unwrap_or(Known {
            names: Vec::new(alloc),
        }),
    )
}

/// The name of a variable of any procedure that is nearest to a name.
fn nearest_of<'a>(
    alloc: Global,
    source: &'a [u8],
    description: &Description,
    own: &str,
) -> Result<Option<&'a str>, AllocError> {
    let mut nearest = Nearest::none();
    let types = types(alloc, description)?;
    let mut owner = 0_usize;
    for _ in description.procedures.as_slice() {
        owner = owner.saturating_add(1);
        let visible = visible(alloc, source, types.as_slice(), description, owner)?;
        for one in visible.as_slice() {
            if matches!(one.kind, Kind::Variable | Kind::SharedVariable) {
                nearest.offer(alloc, own, text_of(source, one.span))?;
            }
        }
    }
    Ok(nearest.name)
}

/// What a name of the last procedure is that is no variable.
fn other_kind(
    alloc: Global,
    source: &[u8],
    description: &Description,
    name: &str,
) -> Result<Option<Kind>, AllocError> {
    let types = types(alloc, description)?;
    let owner = description.procedures.len();
    let visible = visible(alloc, source, types.as_slice(), description, owner)?;
    Ok(declaration_of(source, visible.as_slice(), name.as_bytes()).map(|one| one.kind))
}

/// What helps where a name is that of something else than a variable.
fn help_for(kind: Kind) -> &'static str {
    match kind {
        Kind::Output => {
            "what came out at a port stands in the steps that `live` lists; ask for the variable that was sent"
        }
        Kind::Input | Kind::Channel => {
            "what a channel carried stands in the steps that `live` lists; ask for the variable that received it"
        }
        Kind::Sync | Kind::SyncPort => "a sync carries no value; `live` lists where it was met on",
        _ => "variables alone have values; `balsadbg outline FILE` lists them",
    }
}

/// What is wrong with the name of a variable that a system does not have.
pub fn find(name: &str, source: &[u8], finding: &mut Finding) -> Result<(), AllocError> {
    match described_by(finding.alloc, source)? {
        Some(description) => find_in(name, source, &description, finding),
        None => say_unknown(name, finding),
    }
}

/// The same of the system that a description makes.
fn find_in(
    name: &str,
    source: &[u8],
    description: &Description,
    finding: &mut Finding,
) -> Result<(), AllocError> {
    let same = names_with(finding.alloc, source, description, own_name(name))?;
    if same.names.is_empty() {
        find_other(name, source, description, finding)
    } else {
        find_same(name, same.names.as_slice(), finding)
    }
}

fn say_unknown(name: &str, finding: &mut Finding) -> Result<(), AllocError> {
    finding.say(&["no variable is called `", name, "`"])
}

/// A name that other names of variables end with.
fn find_same(name: &str, same: &[String], finding: &mut Finding) -> Result<(), AllocError> {
    say_unknown(name, finding)?;
    advise_names(same, finding)
}

/// A name that no name of a variable ends with.
fn find_other(
    name: &str,
    source: &[u8],
    description: &Description,
    finding: &mut Finding,
) -> Result<(), AllocError> {
    let alloc = finding.alloc;
    if let Some(kind) = other_kind(alloc, source, description, name)? {
        finding.say(&["`", name, "` is "])?;
        finding.say(&[kind_text(kind), ", and no variable"])?;
        return finding.advise(&[help_for(kind)]);
    }
    say_unknown(name, finding)?;
    match nearest_of(alloc, source, description, own_name(name))? {
        Some(near) => advise_near(near, source, description, finding),
        None => finding.advise(&["`balsadbg outline FILE` lists the variables"]),
    }
}

/// The names that end with the nearest one.
fn advise_near(
    near: &str,
    source: &[u8],
    description: &Description,
    finding: &mut Finding,
) -> Result<(), AllocError> {
    let names = names_with(finding.alloc, source, description, near)?;
    advise_names(names.names.as_slice(), finding)
}

/// Names that may be meant.
fn advise_names(names: &[String], finding: &mut Finding) -> Result<(), AllocError> {
    let mut before = "did you mean ";
    for name in names {
        finding.advise(&[before, "`", name.as_str(), "`"])?;
        before = ", ";
    }
    if names.is_empty() {
        return finding.advise(&["`balsadbg outline FILE` lists the variables"]);
    }
    finding.advise(&["? A number in front is that of the call in its body, from 1"])
}
