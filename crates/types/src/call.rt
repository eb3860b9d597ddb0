ghost use Rattle.std.specs.List.{list_all};
ghost use Rattle.std.specs.Prelude.{◌≡◌, [], is_ok, slice_get, IfOk};
ghost use Rattle.types.specs.Arms.{new_channels};
ghost use Rattle.types.specs.Calls as calls;
ghost use Rattle.types.specs.Names.{look_up};
ghost use Rattle.types.specs.internal.Least.{least};
ghost use Rattle.types.specs.internal.Scopes.{entries};

use crate::scope::{Meaning, Names, Scope};
use crate::verdict::{Settled, both, with_next};
use crate::{Action, Binding, ChannelUse, Fault, PortKind, uses};
use indexmap::IndexSet;
use std::alloc::{AllocError, Global};
use syntax::{Identifier, Items};
use value::Width;

/// A call of the procedure with the arguments.
#[tactic(auto, unfolding(crate::specs::Calls::called))]
pub(crate) fn called(
    alloc: Global,
    scope: &Scope,
    opened: &[Binding],
    procedure: &Identifier,
    arguments: &[Identifier],
) -> Settled<Action>
    ensures { IfOk result (λ made.
        made
        ≡ calls.called least (entries scope.now.names) scope.now.signatures opened.now procedure.now arguments.now) }
{
    let offset = procedure.span.start;
    let found = uses::procedure_use(scope.names.find(opened, &procedure.name), offset);
    let channels = settled_arguments(alloc, &scope.names, opened, arguments)?;
    match both(found, channels) {
        Ok((procedure, channels)) => {
            if !call_fits(alloc, scope, procedure, arguments, channels.as_slice())? {
                return Ok(Err(Fault::PortMismatch(offset)));
            }
            Ok(Ok(Action::Call(procedure, channels)))
        }
        Err(fault) => Ok(Err(fault)),
    }
}

/// Each of the arguments.
fn settled_arguments(
    alloc: Global,
    names: &Names,
    opened: &[Binding],
    arguments: &[Identifier],
) -> Settled<Items<ChannelUse>>
    ensures { IfOk result (λ made. made ≡ calls.judged_arguments least (entries names.now) opened.now arguments.now) }
{
    let mut channels = Ok(Items::with_capacity(alloc, arguments.len())?);
    for argument in arguments {
        let found = names.find(opened, &argument.name);
        channels = with_next(channels, uses::argument_use(found, argument.span.start))?;
    }
    Ok(channels)
}

/// Whether there is one argument for each port of the procedure, fit for it, and no channel stands twice.
fn call_fits(
    alloc: Global,
    scope: &Scope,
    procedure: u32,
    arguments: &[Identifier],
    channels: &[ChannelUse],
) -> Result<bool, AllocError>
    ensures { IfOk result (λ answer.
        answer
        ≡ calls.call_fits (entries scope.now.names)
        (slice_get scope.now.signatures procedure) arguments.now channels.now) }
{
    match scope.signatures.get(procedure as usize) {
        Some(ports) => {
            if !all_fit(&scope.names, ports.as_slice(), arguments) {
                return Ok(false);
            }
            all_differ(alloc, channels)
        }
        None => Ok(false),
    }
}

/// Whether there are as many arguments as ports, each fit for its port.
fn all_fit(names: &Names, ports: &[PortKind], arguments: &[Identifier]) -> bool
    ensures { result ≡ calls.all_fit (entries names.now) ports.now arguments.now }
{
    if ports.len() != arguments.len() {
        return false;
    }
    for (index, port) in ports.iter().enumerate() {
        if !fits_port(names, *port, &arguments[index]) {
            return false;
        }
    }
    true
}

/// Whether the argument can stand for the port.
fn fits_port(names: &Names, port: PortKind, argument: &Identifier) -> bool
    ensures { result ≡ calls.fits_port port (look_up (entries names.now) argument.now.name) }
{
    match names.meaning(&argument.name) {
        Some(meaning) => is_fit(port, meaning),
        None => false,
    }
}

/// Whether what a name means can stand for the port.
fn is_fit(port: PortKind, meaning: &Meaning) -> bool
    ensures { result ≡ calls.is_fit port meaning.now }
{
    match port {
        PortKind::Input(width) => fits_input(width, meaning),
        PortKind::Output(width) => fits_output(width, meaning),
        PortKind::Sync => fits_sync(meaning),
    }
}

fn fits_input(width: Width, meaning: &Meaning) -> bool
    ensures { result ≡ calls.fits_input width meaning.now }
{
    match meaning {
        Meaning::Input(_, given) => width == *given,
        Meaning::Channel(_, given) => width == *given,
        _ => false,
    }
}

fn fits_output(width: Width, meaning: &Meaning) -> bool
    ensures { result ≡ calls.fits_output width meaning.now }
{
    match meaning {
        Meaning::Output(_, given) => width == *given,
        Meaning::Channel(_, given) => width == *given,
        _ => false,
    }
}

fn fits_sync(meaning: &Meaning) -> bool
    ensures { result ≡ calls.fits_sync meaning.now }
{
    match meaning {
        Meaning::SyncPort(_) => true,
        Meaning::Sync(_) => true,
        _ => false,
    }
}

/// Whether no channel is passed twice.
fn all_differ(alloc: Global, channels: &[ChannelUse]) -> Result<bool, AllocError>
    ensures { IfOk result (λ answer. answer ≡ list_all is_ok (new_channels [] channels.now)) }
{
    let mut seen = IndexSet::new(alloc);
    differ_from(&mut seen, channels)
}

/// Whether no channel is passed twice, nor was seen before.
fn differ_from(seen: &mut IndexSet<Binding>, channels: &[ChannelUse]) -> Result<bool, AllocError>
    ensures { IfOk result (λ answer. answer ≡ list_all is_ok (new_channels seen.old.keys channels.now)) }
{
    for channel in channels {
        if !seen.insert(channel.channel)? {
            return Ok(false);
        }
    }
    Ok(true)
}
