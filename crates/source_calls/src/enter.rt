// How the calls are found: the bodies are gone through in the order in which a system is made of them.
use crate::calls::{Call, Made};
use std::alloc::{AllocError, Global};
use std::fmt::Write;
use types::{
    Action, Arm, Binding, ChannelUse, Command, Guarded, Labelled, Local, LocalKind, Port, Procedure,
};

/// A command that is still to be gone through.
#[derive(Clone, Copy)]
pub(crate) struct Waiting<'a> {
    /// the index of the call in whose body it stands
    call: usize,
    command: &'a Command,
}

/// What a procedure is entered with.
#[derive(Drop)]
struct Entrance {
    /// the line of the call, from 1; 0 for the root
    line: u64,
    procedure: usize,
    prefix: String,
    /// the channel of each port
    ports: Vec<u32>,
}

/// Enters the root.
pub(crate) fn enter_root<'a>(
    alloc: Global,
    procedures: &'a [Procedure],
    made: &mut Made,
    waiting: &mut Vec<Waiting<'a>>,
) -> Result<(), AllocError> {
    let Some(root) = procedures.last() else {
        return Ok(());
    };
    let ports = made.ports(alloc, root.ports.as_slice())?;
    let entrance = Entrance {
        line: 0,
        procedure: procedures.len().saturating_sub(1),
        prefix: String::new(alloc),
        ports,
    };
    add(alloc, procedures, made, waiting, 0, entrance)
}

/// Goes through a command: enters the call that it is, or has its parts wait, the first of them last.
pub(crate) fn go_through<'a>(
    alloc: Global,
    procedures: &'a [Procedure],
    made: &mut Made,
    waiting: &mut Vec<Waiting<'a>>,
    next: Waiting<'a>,
) -> Result<(), AllocError> {
    let call = next.call;
    match next.command.action.get() {
        Action::Call(procedure, arguments) => {
            let called = *procedure as usize;
            enter(
                alloc,
                procedures,
                made,
                waiting,
                next,
                called,
                arguments.as_slice(),
            )
        }
        Action::Loop(body) | Action::While(_, body) | Action::Input(_, body) => {
            wait_for(call, body, waiting)
        }
        Action::If(arms, last) => {
            wait_for_last(call, last, waiting)?;
            wait_for_guarded(call, arms.as_slice(), waiting)
        }
        Action::Case(_, arms, last) => {
            wait_for_last(call, last, waiting)?;
            wait_for_labelled(call, arms.as_slice(), waiting)
        }
        Action::Select(arms) | Action::Arbitrate(arms) => {
            wait_for_arms(call, arms.as_slice(), waiting)
        }
        Action::Sequence(children) | Action::Parallel(children) => {
            wait_for_all(call, children.as_slice(), waiting)
        }
        Action::Continue
        | Action::Halt
        | Action::Assign(_, _, _)
        | Action::Send(_, _, _)
        | Action::Receive(_, _)
        | Action::Sync(_) => Ok(()),
    }
}

/// Has a command wait.
fn wait_for<'a>(
    call: usize,
    command: &'a Command,
    waiting: &mut Vec<Waiting<'a>>,
) -> Result<(), AllocError> {
    waiting.push(Waiting { call, command })?;
    Ok(())
}

/// Has what stands behind an `else` wait.
fn wait_for_last<'a>(
    call: usize,
    last: &'a Option<Command>,
    waiting: &mut Vec<Waiting<'a>>,
) -> Result<(), AllocError> {
    match last {
        Some(command) => wait_for(call, command, waiting),
        None => Ok(()),
    }
}

/// Has these commands wait.
fn wait_for_all<'a>(
    call: usize,
    commands: &'a [Command],
    waiting: &mut Vec<Waiting<'a>>,
) -> Result<(), AllocError> {
    for command in commands.iter().rev() {
        wait_for(call, command, waiting)?;
    }
    Ok(())
}

/// Has the arms of an `if` wait.
fn wait_for_guarded<'a>(
    call: usize,
    arms: &'a [Guarded],
    waiting: &mut Vec<Waiting<'a>>,
) -> Result<(), AllocError> {
    for arm in arms.iter().rev() {
        wait_for(call, &arm.body, waiting)?;
    }
    Ok(())
}

/// Has the arms of a `case` wait.
fn wait_for_labelled<'a>(
    call: usize,
    arms: &'a [Labelled],
    waiting: &mut Vec<Waiting<'a>>,
) -> Result<(), AllocError> {
    for arm in arms.iter().rev() {
        wait_for(call, &arm.body, waiting)?;
    }
    Ok(())
}

/// Has the arms of a `select` or an `arbitrate` wait.
fn wait_for_arms<'a>(
    call: usize,
    arms: &'a [Arm],
    waiting: &mut Vec<Waiting<'a>>,
) -> Result<(), AllocError> {
    for arm in arms.iter().rev() {
        wait_for(call, &arm.body, waiting)?;
    }
    Ok(())
}

/// Enters the call that this command is.
fn enter<'a>(
    alloc: Global,
    procedures: &'a [Procedure],
    made: &mut Made,
    waiting: &mut Vec<Waiting<'a>>,
    command: Waiting<'a>,
    procedure: usize,
    arguments: &[ChannelUse],
) -> Result<(), AllocError> {
    let parent = command.call;
    let line = command.command.line;
    let entrance = entrance_of(alloc, made, parent, line, procedure, arguments)?;
    let entrance = passed(alloc, procedures, entrance)?;
    let index = made.list.len();
    if let Some(around) = made.list.as_mut_slice().get_mut(parent) {
        around.calls.push(index)?;
    }
    add(alloc, procedures, made, waiting, parent, entrance)
}

/// What the next call of the one at this index enters its procedure with, on this line.
fn entrance_of(
    alloc: Global,
    made: &Made,
    parent: usize,
    line: u64,
    procedure: usize,
    arguments: &[ChannelUse],
) -> Result<Entrance, AllocError> {
    let Some(around) = made.list.as_slice().get(parent) else {
        return Err(AllocError);
    };
    let mut prefix = String::from_str(alloc, around.prefix.as_str())?;
    add_number(&mut prefix, around.calls.len().saturating_add(1))?;
    let ports = channels_of(
        alloc,
        around.ports.as_slice(),
        around.locals.as_slice(),
        arguments,
    )?;
    Ok(Entrance {
        line,
        procedure,
        prefix,
        ports,
    })
}

/// Adds the number of a call, and a `:`.
fn add_number(prefix: &mut String, number: usize) -> Result<(), AllocError> {
    match write!(prefix, "{number}:") {
        Ok(()) => Ok(()),
        Err(_) => Err(AllocError),
    }
}

/// The channel that a name is bound to, where the ports and the locals are these.
fn bound(ports: &[u32], locals: &[u32], binding: Binding) -> u32 {
    let found = match binding {
        Binding::Port(place) => ports.get(place as usize),
        Binding::Local(place) => locals.get(place as usize),
    };
    found.copied().unwrap_or(0)
}

/// The channels of the arguments.
fn channels_of(
    alloc: Global,
    ports: &[u32],
    locals: &[u32],
    arguments: &[ChannelUse],
) -> Result<Vec<u32>, AllocError> {
    let mut channels = Vec::with_capacity(alloc, arguments.len())?;
    for argument in arguments {
        channels.push(bound(ports, locals, argument.channel))?;
    }
    Ok(channels)
}

/// The entrance of the procedure that is entered in the end, where this one does nothing but call another and has no
/// locals. It keeps the line of the first call.
fn passed(
    alloc: Global,
    procedures: &[Procedure],
    entrance: Entrance,
) -> Result<Entrance, AllocError> {
    let Entrance {
        line,
        mut procedure,
        mut prefix,
        mut ports,
    } = entrance;
    for _ in 0..procedures.len() {
        let Some((next, arguments)) = call_alone(procedures, procedure) else {
            break;
        };
        ports = channels_of(alloc, ports.as_slice(), &[], arguments)?;
        prefix.push_str("1:")?;
        procedure = next as usize;
    }
    Ok(Entrance {
        line,
        procedure,
        prefix,
        ports,
    })
}

/// The call that the procedure of this place is, where it does nothing else and has no locals.
fn call_alone(procedures: &[Procedure], procedure: usize) -> Option<(u32, &[ChannelUse])> {
    let found = procedures.get(procedure)?;
    match found.body.action.get() {
        Action::Call(next, arguments) if found.locals.is_empty() => {
            Some((*next, arguments.as_slice()))
        }
        _ => None,
    }
}

/// Adds a call, whose body waits.
fn add<'a>(
    alloc: Global,
    procedures: &'a [Procedure],
    made: &mut Made,
    waiting: &mut Vec<Waiting<'a>>,
    parent: usize,
    entrance: Entrance,
) -> Result<(), AllocError> {
    let Entrance {
        line,
        procedure,
        prefix,
        ports,
    } = entrance;
    let Some(entered) = procedures.get(procedure) else {
        return Ok(());
    };
    let call = made.list.len();
    let locals = made.locals(alloc, entered.locals.as_slice())?;
    made.list.push(Call {
        prefix,
        procedure,
        parent,
        line,
        ports,
        locals,
        calls: Vec::new(alloc),
    })?;
    wait_for(call, &entered.body, waiting)
}

impl Made {
    /// The number of the next variable.
    fn variable(&mut self) -> u32 {
        let number = self.variables;
        self.variables = number.saturating_add(1);
        number
    }

    /// The number of the next channel.
    fn channel(&mut self) -> u32 {
        let number = self.channels;
        self.channels = number.saturating_add(1);
        number
    }

    /// The numbers of the ports of the root.
    fn ports(&mut self, alloc: Global, ports: &[Port]) -> Result<Vec<u32>, AllocError> {
        let mut numbers = Vec::with_capacity(alloc, ports.len())?;
        for _port in ports {
            numbers.push(self.channel())?;
        }
        Ok(numbers)
    }

    /// The numbers of the locals.
    fn locals(&mut self, alloc: Global, locals: &[Local]) -> Result<Vec<u32>, AllocError> {
        let mut numbers = Vec::with_capacity(alloc, locals.len())?;
        for local in locals {
            let number = match local.kind {
                LocalKind::Variable(_) | LocalKind::SharedVariable(_) => self.variable(),
                LocalKind::Channel(_) | LocalKind::Sync => self.channel(),
            };
            numbers.push(number)?;
        }
        Ok(numbers)
    }
}
