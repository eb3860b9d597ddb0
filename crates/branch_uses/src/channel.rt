// The uses of a channel that stand side by side in a command.
use crate::port::PortUses;
use std::alloc::{AllocError, Global};
use syntax::{Action, Arm, CaseArm, Command, Guarded, Identifier, Span};

/// On which side a channel is used.
#[derive(Clone, Copy, PartialEq, Eq)]
pub enum Side {
    Sending,
    Receiving,
    Syncing,
}

/// A use of a channel: the name where it is sent on, received from or synced.
#[derive(Drop)]
pub struct SideUse {
    pub side: Side,
    pub span: Span,
    /// The calls by which it comes, the outermost first: the name of the called procedure in each.
    pub calls: Vec<Span>,
}

impl SideUse {
    /// The same use once more, through calls before its own.
    fn behind(&self, alloc: Global, outer: &[Span]) -> Result<SideUse, AllocError> {
        let mut calls = Vec::new(alloc);
        calls.extend_from_slice(outer)?;
        calls.extend_from_slice(self.calls.as_slice())?;
        Ok(SideUse {
            side: self.side,
            span: self.span,
            calls,
        })
    }
}

/// Uses of a channel at places apart, so many on each side as there can be at one time, up to three.
#[derive(Drop)]
pub struct ChannelUses {
    pub uses: Vec<SideUse>,
}

/// So many uses of one side are kept.
const KEPT: usize = 3;

/// What is asked for: the channel by its name, and what the ports of the procedures before are used for.
#[derive(Clone, Copy)]
pub struct Asked<'a> {
    pub alloc: Global,
    pub name: &'a [u8],
    /// Whether it has no data: then each use is a sync.
    pub is_sync: bool,
    pub ports: &'a [PortUses],
}

/// How many of the uses are of this side.
fn count_of(uses: &[SideUse], side: Side) -> usize {
    uses.iter().filter(|one| one.side == side).count()
}

/// Adds a use, if not enough of its side are there.
fn add_use(uses: &mut Vec<SideUse>, one: SideUse) -> Result<(), AllocError> {
    if count_of(uses.as_slice(), one.side) < KEPT {
        uses.push(one)?;
    }
    Ok(())
}

/// Adds uses that stand beside those, through these calls before their own.
fn add_beside(
    alloc: Global,
    uses: &mut Vec<SideUse>,
    others: &[SideUse],
    outer: &[Span],
) -> Result<(), AllocError> {
    for one in others {
        add_use(uses, one.behind(alloc, outer)?)?;
    }
    Ok(())
}

/// Takes the uses of one side from whichever has more of them.
fn add_wider(
    alloc: Global,
    wider: &mut Vec<SideUse>,
    one: &[SideUse],
    other: &[SideUse],
    side: Side,
) -> Result<(), AllocError> {
    let from = if count_of(one, side) < count_of(other, side) {
        other
    } else {
        one
    };
    for each in from {
        if each.side == side {
            wider.push(each.behind(alloc, &[])?)?;
        }
    }
    Ok(())
}

/// The uses of two parts that do not stand side by side: on each side, those of the part that has more.
fn put_wider(alloc: Global, uses: &mut Vec<SideUse>, others: &[SideUse]) -> Result<(), AllocError> {
    let mut wider = Vec::new(alloc);
    add_wider(alloc, &mut wider, uses.as_slice(), others, Side::Sending)?;
    add_wider(alloc, &mut wider, uses.as_slice(), others, Side::Receiving)?;
    add_wider(alloc, &mut wider, uses.as_slice(), others, Side::Syncing)?;
    *uses = wider;
    Ok(())
}

/// One use, if it is of the channel that is asked for.
fn use_of(asked: Asked<'_>, channel: &Identifier, side: Side) -> Result<ChannelUses, AllocError> {
    let mut uses = Vec::new(asked.alloc);
    if *channel.name.text() == *asked.name {
        uses.push(SideUse {
            side: if asked.is_sync { Side::Syncing } else { side },
            span: channel.span,
            calls: Vec::new(asked.alloc),
        })?;
    }
    Ok(ChannelUses { uses })
}

/// The uses of the ports that a call gives the channel to.
fn uses_of_call(
    asked: Asked<'_>,
    called: &Identifier,
    arguments: &[Identifier],
) -> Result<ChannelUses, AllocError> {
    let mut uses = Vec::new(asked.alloc);
    for (place, argument) in arguments.iter().enumerate() {
        if *argument.name.text() == *asked.name {
            for port in asked.ports {
                if port.is_of(called.name.text(), place) {
                    add_beside(
                        asked.alloc,
                        &mut uses,
                        port.uses.uses.as_slice(),
                        &[called.span],
                    )?;
                }
            }
        }
    }
    Ok(ChannelUses { uses })
}

/// No uses.
fn none(asked: Asked<'_>) -> ChannelUses {
    ChannelUses {
        uses: Vec::new(asked.alloc),
    }
}

/// The uses of the channel that may stand side by side in a command: of branches all, and else those of one part.
#[cycle(sides)]
pub fn uses_in(command: &Command, asked: Asked<'_>) -> Result<ChannelUses, AllocError> {
    match command.action.get() {
        Action::Continue | Action::Halt | Action::Assign(_, _) => Ok(none(asked)),
        Action::Sync(channel) => use_of(asked, channel, Side::Syncing),
        Action::Send(channel, _) => use_of(asked, channel, Side::Sending),
        Action::Receive(channel, _) => use_of(asked, channel, Side::Receiving),
        Action::Loop(body) | Action::While(_, body) => uses_in(body, asked),
        Action::If(arms, last) => {
            let uses = uses_in_guarded(arms.as_slice(), asked)?;
            with_last(last, asked, uses)
        }
        Action::Case(_, arms, last) => {
            let uses = uses_in_case(arms.as_slice(), asked)?;
            with_last(last, asked, uses)
        }
        Action::Input(channel, body) => {
            let mut uses = use_of(asked, channel, Side::Receiving)?;
            let inside = uses_in(body, asked)?;
            put_wider(asked.alloc, &mut uses.uses, inside.uses.as_slice())?;
            Ok(uses)
        }
        Action::Select(arms) => uses_in_arms(arms.as_slice(), asked),
        Action::Arbitrate(one, other) => {
            let mut uses = uses_in_arm(one, asked)?;
            let others = uses_in_arm(other.get(), asked)?;
            put_wider(asked.alloc, &mut uses.uses, others.uses.as_slice())?;
            Ok(uses)
        }
        Action::Call(called, arguments) => uses_of_call(asked, called, arguments.as_slice()),
        Action::Sequence(children) => uses_in_turn(children.as_slice(), asked),
        Action::Parallel(children) => uses_beside(children.as_slice(), asked),
    }
}

/// The uses in branches.
#[cycle(sides)]
fn uses_beside(children: &[Command], asked: Asked<'_>) -> Result<ChannelUses, AllocError> {
    let mut all = none(asked);
    for child in children {
        let uses = uses_in(child, asked)?;
        add_beside(asked.alloc, &mut all.uses, uses.uses.as_slice(), &[])?;
    }
    Ok(all)
}

/// The uses in one of the commands of a sequence.
#[cycle(sides)]
fn uses_in_turn(children: &[Command], asked: Asked<'_>) -> Result<ChannelUses, AllocError> {
    let mut all = none(asked);
    for child in children {
        let uses = uses_in(child, asked)?;
        put_wider(asked.alloc, &mut all.uses, uses.uses.as_slice())?;
    }
    Ok(all)
}

/// The uses in one arm of an `if`.
#[cycle(sides)]
fn uses_in_guarded(arms: &[Guarded], asked: Asked<'_>) -> Result<ChannelUses, AllocError> {
    let mut all = none(asked);
    for arm in arms {
        let uses = uses_in(&arm.body, asked)?;
        put_wider(asked.alloc, &mut all.uses, uses.uses.as_slice())?;
    }
    Ok(all)
}

/// The uses in one arm of a `case`.
#[cycle(sides)]
fn uses_in_case(arms: &[CaseArm], asked: Asked<'_>) -> Result<ChannelUses, AllocError> {
    let mut all = none(asked);
    for arm in arms {
        let uses = uses_in(&arm.body, asked)?;
        put_wider(asked.alloc, &mut all.uses, uses.uses.as_slice())?;
    }
    Ok(all)
}

/// The uses in one arm of a `select`.
#[cycle(sides)]
fn uses_in_arms(arms: &[Arm], asked: Asked<'_>) -> Result<ChannelUses, AllocError> {
    let mut all = none(asked);
    for arm in arms {
        let uses = uses_in_arm(arm, asked)?;
        put_wider(asked.alloc, &mut all.uses, uses.uses.as_slice())?;
    }
    Ok(all)
}

/// The uses in an arm of a `select` or an `arbitrate`. An arm on a channel without data syncs.
#[cycle(sides)]
fn uses_in_arm(arm: &Arm, asked: Asked<'_>) -> Result<ChannelUses, AllocError> {
    let mut uses = use_of(asked, &arm.channel, Side::Receiving)?;
    let inside = uses_in(&arm.body, asked)?;
    put_wider(asked.alloc, &mut uses.uses, inside.uses.as_slice())?;
    Ok(uses)
}

/// The uses in the arms or in what stands behind an `else`.
#[cycle(sides)]
fn with_last(
    last: &Option<Command>,
    asked: Asked<'_>,
    arms: ChannelUses,
) -> Result<ChannelUses, AllocError> {
    let mut all = arms;
    if let Some(body) = last {
        let uses = uses_in(body, asked)?;
        put_wider(asked.alloc, &mut all.uses, uses.uses.as_slice())?;
    }
    Ok(all)
}
