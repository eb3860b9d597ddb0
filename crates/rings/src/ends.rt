// The ends of channels that a walk through a tree finds, for all that is sought at once.
ghost use Rattle.std.specs.Prelude.{◌≡◌, ◌++◌, ◌∷◌, [], false, IfOk, OnOk};
ghost use Rattle.rings.specs.internal.Ends as model;

use crate::sought::Sought;
use crate::waits::is_marked;
use address::Entry;
use std::alloc::{AllocError, Global};
use std::marker::Model;

/// How an end counts for an action that waits.
#[derive(Clone, Copy)]
pub(crate) enum Kind {
    /// It is there. It is no partner of the action at its place.
    There,
    /// It comes behind its place. It is no partner of an action there or below.
    Later,
    /// The same, but it is one of each action.
    Within,
}

/// An end of a channel, and where it stands.
#[derive(Drop)]
pub(crate) struct End {
    pub(crate) sought: Sought,
    pub(crate) place: Vec<Entry>,
    pub(crate) kind: Kind,
}

impl Model for End {
    ghost use Rattle.rings.specs.internal.Placed.{Placed, placed};

    ghost Value = { Placed };

    ghost view = { λ end. placed end.sought end.place.items end.kind };
}

/// An end that a walk has found in the part that it looks at. The way to it from the root of that part is kept from its
/// last entry to the first, so that an entry comes before it without another being moved.
#[derive(Drop)]
pub(crate) struct Found {
    pub(crate) sought: Sought,
    way: Vec<Entry>,
    kind: Kind,
}

impl Model for Found {
    ghost use Rattle.std.specs.Prelude.{reverse};
    ghost use Rattle.rings.specs.internal.Placed.{Placed, placed};

    ghost Value = { Placed };

    ghost view = { λ found. placed found.sought (reverse found.way.items) found.kind };
}

/// What a walk has found in a part of a tree.
#[derive(Drop)]
pub(crate) enum Summary {
    /// nothing is left to do there
    Over,
    /// something is: whether it never ends, and the ends there
    AtWork(bool, Vec<Found>),
    /// a loop: whether it never ends, and what is sought in its turns. A loop around it takes this list as it is.
    InTurns(bool, Vec<Sought>),
}

/// The ends with their places.
pub(crate) fn placed_ends(alloc: Global, found: Summary) -> Result<Vec<End>, AllocError>
    ensures { IfOk result (λ ends. ends.items ≡ model.ends_in (model.sum_of found)) }
{
    match found {
        Summary::Over => Ok(Vec::new(alloc)),
        Summary::AtWork(_, ends) => all_placed(alloc, ends),
        Summary::InTurns(_, soughts) => all_placed(alloc, within(alloc, soughts.as_slice())?),
    }
}

/// These ends with their places.
fn all_placed(alloc: Global, found: Vec<Found>) -> Result<Vec<End>, AllocError>
    ensures { IfOk result (λ ends. ends.items ≡ found.items) }
{
    let mut ends = Vec::with_capacity(alloc, found.len())?;
    for one in found {
        ends.push(one_placed(one))?;
    }
    Ok(ends)
}

/// The end with its place.
fn one_placed(one: Found) -> End
    ensures { result ≡ one }
{
    let Found {
        sought,
        way: mut place,
        kind,
    } = one;
    place.reverse();
    End {
        sought,
        place,
        kind,
    }
}

/// What is left to do here, of which nothing is sought.
pub(crate) fn none_here(alloc: Global, endless: bool) -> Summary
    ensures { model.sum_of result ≡ model.working endless [] }
{
    Summary::AtWork(endless, Vec::new(alloc))
}

/// An end that stands here, if an action waits on its channel.
pub(crate) fn one_here(
    alloc: Global,
    wanted: &[bool],
    channel: u32,
    sought: Sought,
) -> Result<Summary, AllocError>
    ensures { IfOk result (λ made. model.sum_of made ≡ model.one wanted.now channel sought) }
{
    let mut ends = Vec::new(alloc);
    if is_marked(wanted, channel as usize) {
        ends.push(there(alloc, sought))?;
    }
    Ok(Summary::AtWork(false, ends))
}

/// Adds what is two ends at once, if an action waits on its channel.
pub(crate) fn add_both(
    alloc: Global,
    wanted: &[bool],
    channel: u32,
    one: Sought,
    other: Sought,
    ends: &mut Vec<Found>,
) -> Result<(), AllocError>
    ensures { OnOk result (ends.new.items
        ≡ ends.old.items ++ model.if_wanted wanted.now channel (model.there one ∷ model.there other ∷ [])) }
{
    if is_marked(wanted, channel as usize) {
        ends.push(there(alloc, one))?;
        ends.push(there(alloc, other))?;
    }
    Ok(())
}

/// An end that is there.
fn there(alloc: Global, sought: Sought) -> Found
    ensures { result ≡ model.there sought }
{
    Found {
        sought,
        way: Vec::new(alloc),
        kind: Kind::There,
    }
}

/// Adds the ends of a part as those that come from somewhere here.
pub(crate) fn add_here(
    alloc: Global,
    kind: Kind,
    part: &Summary,
    ends: &mut Vec<Found>,
) -> Result<(), AllocError>
    ensures { OnOk result (ends.new.items ≡ ends.old.items ++ model.here kind (model.sum_of part.now)) }
{
    match part {
        Summary::Over => Ok(()),
        Summary::AtWork(_, others) => add_all_here(alloc, kind, others.as_slice(), ends),
        Summary::InTurns(_, soughts) => add_each_here(alloc, kind, soughts.as_slice(), ends),
    }
}

/// Adds these ends as those that come from somewhere here.
fn add_all_here(
    alloc: Global,
    kind: Kind,
    others: &[Found],
    ends: &mut Vec<Found>,
) -> Result<(), AllocError>
    ensures { OnOk result (ends.new.items ≡ ends.old.items ++ model.all_here kind others.now) }
{
    for other in others {
        ends.push(Found {
            sought: other.sought,
            way: Vec::new(alloc),
            kind,
        })?;
    }
    Ok(())
}

/// Adds ends where each of these is sought as those that come from somewhere here.
fn add_each_here(
    alloc: Global,
    kind: Kind,
    soughts: &[Sought],
    ends: &mut Vec<Found>,
) -> Result<(), AllocError>
    ensures { OnOk result (ends.new.items
        ≡ ends.old.items ++ model.all_here kind (model.within soughts.now)) }
{
    for sought in soughts {
        ends.push(Found {
            sought: *sought,
            way: Vec::new(alloc),
            kind,
        })?;
    }
    Ok(())
}

/// The ends in turns in which these are sought.
pub(crate) fn within(alloc: Global, soughts: &[Sought]) -> Result<Vec<Found>, AllocError>
    ensures { IfOk result (λ ends. ends.items ≡ model.within soughts.now) }
{
    let mut ends = Vec::with_capacity(alloc, soughts.len())?;
    add_each_here(alloc, Kind::Within, soughts, &mut ends)?;
    Ok(ends)
}

/// In the turns of a loop with this body.
#[tactic(auto, using(crate::proofs::Turns::here_within))]
pub(crate) fn in_turns(alloc: Global, endless: bool, body: Summary) -> Result<Summary, AllocError>
    ensures { IfOk result (λ made. model.sum_of made ≡ model.in_turns endless (model.sum_of body)) }
{
    match body {
        Summary::Over => Ok(none_here(alloc, endless)),
        Summary::AtWork(_, ends) => sought_in_turns(alloc, endless, ends.as_slice()),
        Summary::InTurns(_, soughts) => Ok(Summary::InTurns(endless, soughts)),
    }
}

/// In the turns of a loop with these ends in its body.
fn sought_in_turns(alloc: Global, endless: bool, ends: &[Found]) -> Result<Summary, AllocError>
    ensures { IfOk result (λ made.
        model.sum_of made ≡ model.in_turns endless (model.working false ends.now)) }
{
    let mut soughts = Vec::with_capacity(alloc, ends.len())?;
    add_soughts(ends, &mut soughts)?;
    Ok(Summary::InTurns(endless, soughts))
}

/// Adds what is sought at these ends.
pub(crate) fn add_soughts(ends: &[Found], soughts: &mut Vec<Sought>) -> Result<(), AllocError>
    ensures { OnOk result (soughts.new.items ≡ soughts.old.items ++ model.soughts ends.now) }
{
    for end in ends {
        soughts.push(end.sought)?;
    }
    Ok(())
}

/// In the child at this entry alone.
pub(crate) fn at_entry(
    alloc: Global,
    entry: Entry,
    endless: bool,
    ends: Vec<Found>,
) -> Result<Summary, AllocError>
    ensures { IfOk result (λ made. model.sum_of made ≡ model.working endless (model.under entry ends.items)) }
{
    let mut all = Vec::with_capacity(alloc, ends.len())?;
    add_under(entry, ends, &mut all)?;
    Ok(Summary::AtWork(endless, all))
}

/// In the branch at this entry, or in those beside it.
pub(crate) fn beside(
    alloc: Global,
    entry: Entry,
    child: Summary,
    rest: Summary,
) -> Result<Summary, AllocError>
    ensures { IfOk result (λ made.
        model.sum_of made ≡ model.beside entry (model.sum_of child) (model.sum_of rest)) }
{
    match child {
        Summary::Over => Ok(rest),
        Summary::AtWork(endless, ends) => beside_work(alloc, entry, endless, ends, rest),
        Summary::InTurns(endless, soughts) => {
            let ends = within(alloc, soughts.as_slice())?;
            beside_work(alloc, entry, endless, ends, rest)
        }
    }
}

/// In the branch at this entry, where these ends are and something is left to do, or in those beside it.
fn beside_work(
    alloc: Global,
    entry: Entry,
    endless: bool,
    ends: Vec<Found>,
    rest: Summary,
) -> Result<Summary, AllocError>
    ensures { IfOk result (λ made.
        model.sum_of made ≡ model.beside_work entry endless ends.items (model.sum_of rest)) }
{
    match rest {
        Summary::Over => at_entry(alloc, entry, endless, ends),
        Summary::AtWork(other, mut all) => {
            add_under(entry, ends, &mut all)?;
            Ok(Summary::AtWork(endless || other, all))
        }
        Summary::InTurns(other, soughts) => {
            let mut all = within(alloc, soughts.as_slice())?;
            add_under(entry, ends, &mut all)?;
            Ok(Summary::AtWork(endless || other, all))
        }
    }
}

/// Adds the ends of the child at this entry.
pub(crate) fn add_under(
    entry: Entry,
    others: Vec<Found>,
    ends: &mut Vec<Found>,
) -> Result<(), AllocError>
    ensures { OnOk result (ends.new.items ≡ ends.old.items ++ model.under entry others.items) }
{
    for other in others {
        ends.push(farther(entry, other)?)?;
    }
    Ok(())
}

/// An end behind an entry.
fn farther(entry: Entry, one: Found) -> Result<Found, AllocError>
    ensures { IfOk result (λ made. made ≡ model.farther entry one) }
{
    let Found {
        sought,
        mut way,
        kind,
    } = one;
    way.push(entry)?;
    Ok(Found { sought, way, kind })
}

/// An end that comes behind what stands at this entry.
pub(crate) fn behind_entry(alloc: Global, entry: Entry, sought: Sought) -> Result<Found, AllocError>
    ensures { IfOk result (λ made. made ≡ model.behind_entry entry sought) }
{
    let mut way = Vec::new(alloc);
    way.push(entry)?;
    Ok(Found {
        sought,
        way,
        kind: Kind::Later,
    })
}
