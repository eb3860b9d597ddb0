// What a name has to be at each place where a name can stand. A name at the offset that is something else has a fault.
ghost use Rattle.std.specs.Prelude.{◌≡◌};
ghost use Rattle.types.specs.Uses as uses;

use crate::scope::{Channel, Found, Meaning};
use crate::verdict::Verdict;
use crate::{Binding, ChannelUse, Fault, VariableUse};
use value::{Value, Width};

/// What the name means, if it is visible and no channel that is open.
fn meaning_of(found: Found, offset: u64) -> Verdict<Meaning>
    ensures { result ≡ uses.meaning_of found offset }
{
    match found {
        Found::Nothing => Err(Fault::UnknownName(offset)),
        Found::Opened(_) => Err(Fault::EnclosedTwice(offset)),
        Found::Means(meaning) => Ok(meaning),
    }
}

/// A type, by its width.
#[tactic(auto, unfolding(crate::specs::Uses::type_use))]
pub(crate) fn type_use(found: Found, offset: u64) -> Verdict<Width>
    ensures { result ≡ uses.type_use found offset }
{
    match meaning_of(found, offset)? {
        Meaning::TypeName(width) => Ok(width),
        _ => Err(Fault::WrongKind(offset)),
    }
}

/// A variable to write, and its width.
#[tactic(auto, unfolding(crate::specs::Uses::target_use))]
pub(crate) fn target_use(found: Found, offset: u64) -> Verdict<(VariableUse, Width)>
    ensures { result ≡ uses.target_use found offset }
{
    match meaning_of(found, offset)? {
        Meaning::Variable(variable, width) => Ok((VariableUse { variable, offset }, width)),
        _ => Err(Fault::WrongKind(offset)),
    }
}

/// A channel to send on, and its width.
#[tactic(auto, unfolding(crate::specs::Uses::sending_use))]
pub(crate) fn sending_use(found: Found, offset: u64) -> Verdict<(ChannelUse, Width)>
    ensures { result ≡ uses.sending_use found offset }
{
    match meaning_of(found, offset)? {
        Meaning::Output(port, width) => Ok((at(Binding::Port(port), offset), width)),
        Meaning::Channel(local, width) => Ok((at(Binding::Local(local), offset), width)),
        _ => Err(Fault::WrongKind(offset)),
    }
}

/// A channel to receive from, and its width.
#[tactic(auto, unfolding(crate::specs::Uses::receiving_use))]
pub(crate) fn receiving_use(found: Found, offset: u64) -> Verdict<(ChannelUse, Width)>
    ensures { result ≡ uses.receiving_use found offset }
{
    match meaning_of(found, offset)? {
        Meaning::Input(port, width) => Ok((at(Binding::Port(port), offset), width)),
        Meaning::Channel(local, width) => Ok((at(Binding::Local(local), offset), width)),
        _ => Err(Fault::WrongKind(offset)),
    }
}

/// A channel without data.
#[tactic(auto, unfolding(crate::specs::Uses::sync_use))]
pub(crate) fn sync_use(found: Found, offset: u64) -> Verdict<ChannelUse>
    ensures { result ≡ uses.sync_use found offset }
{
    match meaning_of(found, offset)? {
        Meaning::SyncPort(port) => Ok(at(Binding::Port(port), offset)),
        Meaning::Sync(local) => Ok(at(Binding::Local(local), offset)),
        _ => Err(Fault::WrongKind(offset)),
    }
}

/// A channel that an arm of `select` or `arbitrate` can be opened on: one to receive from, or one without data.
#[tactic(auto, unfolding(crate::specs::Uses::arm_use))]
pub(crate) fn arm_use(found: Found, offset: u64) -> Verdict<ChannelUse>
    ensures { result ≡ uses.arm_use found offset }
{
    match meaning_of(found, offset)? {
        Meaning::Input(port, _) => Ok(at(Binding::Port(port), offset)),
        Meaning::SyncPort(port) => Ok(at(Binding::Port(port), offset)),
        Meaning::Channel(local, _) => Ok(at(Binding::Local(local), offset)),
        Meaning::Sync(local) => Ok(at(Binding::Local(local), offset)),
        _ => Err(Fault::WrongKind(offset)),
    }
}

/// A procedure, by its place in the description.
#[tactic(auto, unfolding(crate::specs::Uses::procedure_use))]
pub(crate) fn procedure_use(found: Found, offset: u64) -> Verdict<u32>
    ensures { result ≡ uses.procedure_use found offset }
{
    match meaning_of(found, offset)? {
        Meaning::Procedure(procedure) => Ok(procedure),
        _ => Err(Fault::WrongKind(offset)),
    }
}

/// A label of a `case` that is a name: an element of an enumeration.
#[tactic(auto, unfolding(crate::specs::Uses::label_use))]
pub(crate) fn label_use(found: Found, offset: u64) -> Verdict<Value>
    ensures { result ≡ uses.label_use found offset }
{
    match meaning_of(found, offset)? {
        Meaning::Element(value) => Ok(value),
        _ => Err(Fault::WrongKind(offset)),
    }
}

/// An argument of a call: a channel or a port.
#[tactic(auto, unfolding(crate::specs::Uses::argument_use))]
pub(crate) fn argument_use(found: Found, offset: u64) -> Verdict<ChannelUse>
    ensures { result ≡ uses.argument_use found offset }
{
    match meaning_of(found, offset)? {
        Meaning::Input(port, _) => Ok(at(Binding::Port(port), offset)),
        Meaning::Output(port, _) => Ok(at(Binding::Port(port), offset)),
        Meaning::SyncPort(port) => Ok(at(Binding::Port(port), offset)),
        Meaning::Channel(local, _) => Ok(at(Binding::Local(local), offset)),
        Meaning::Sync(local) => Ok(at(Binding::Local(local), offset)),
        _ => Err(Fault::WrongKind(offset)),
    }
}

/// A name in an expression.
#[derive(Clone, Copy)]
pub(crate) enum Named {
    /// an element of an enumeration
    Element(Value),
    Variable(VariableUse, Width),
    /// the value of an opened channel
    Received(Binding, Width),
}

/// A name that has a value.
#[tactic(auto, unfolding(crate::specs::Uses::value_use))]
pub(crate) fn value_use(found: Found, offset: u64) -> Verdict<Named>
    ensures { result ≡ uses.value_use found offset }
{
    match found {
        Found::Nothing => Err(Fault::UnknownName(offset)),
        Found::Opened(channel) => received(channel, offset),
        Found::Means(meaning) => match meaning {
            Meaning::Element(value) => Ok(Named::Element(value)),
            Meaning::Variable(variable, width) => {
                Ok(Named::Variable(VariableUse { variable, offset }, width))
            }
            _ => Err(Fault::WrongKind(offset)),
        },
    }
}

/// The value of an opened channel, if it has any.
fn received(channel: Channel, offset: u64) -> Verdict<Named>
    ensures { result ≡ uses.received_by offset channel.binding channel.width }
{
    match channel.width {
        Some(width) => Ok(Named::Received(channel.binding, width)),
        None => Err(Fault::EnclosedTwice(offset)),
    }
}

fn at(channel: Binding, offset: u64) -> ChannelUse
    ensures { result ≡ uses.at channel offset }
{
    ChannelUse { channel, offset }
}
