ghost use Rattle.std.specs.Prelude.{◌≡◌};

use crate::{Command, QualifiedName, VariableTable};
use syntax::Items;
use value::{Value, Width};

/// A variable. Its number is its position in the system's list, from 0.
#[derive(Drop)]
pub struct Variable {
    pub name: QualifiedName,
    pub width: Width,
    /// whether branches of a parallel may share it
    pub shared: bool,
}

/// What passes over a channel.
#[derive(Clone, Copy, Debug, PartialEq, Eq)]
pub enum ChannelKind {
    /// values of this width
    Data(Width),
    /// nothing: a handshake
    Sync,
}

/// A channel or a port. Its number is its position in the system's list, from 0.
#[derive(Drop)]
pub struct Channel {
    pub name: QualifiedName,
    pub kind: ChannelKind,
    /// The offset in bytes of the name in its declaration, from 0.
    pub declared: u64,
}

/// The environment's side of a port of the root.
#[derive(Drop)]
pub enum Branch {
    /// sends these values, in order, on the channel of this width
    Feed(u32, Width, Items<Value>),
    /// receives on the channel for ever
    Drain(u32),
    /// makes so many handshakes on the channel
    Syncs(u32, u32),
}

/// An elaborated description: what the root's body does, at `/0`, and the environment's branch of its
/// k-th port, counted from 1, at `/k`.
#[derive(Drop)]
pub struct System {
    pub main: Command,
    /// one branch for each port, in order
    pub environment: Items<Branch>,
    /// by number, and their numbers by name
    pub variables: VariableTable,
    /// by number
    pub channels: Items<Channel>,
}

impl System {
    ghost use Rattle.std.specs.Option.{option_copied};
    ghost use Rattle.system.specs.Named as named;

    /// The number of the first variable of this name.
    pub fn variable(&self, name: &[u8]) -> Option<u32>
        ensures { result ≡ named.variable_from 0 self.now.variables name.now }
    {
        self.variables.number(name)
    }

    /// The name of the variable of this number.
    pub fn variable_name(&self, number: u32) -> Option<&QualifiedName>
        ensures { option_copied result ≡ named.variable_name_at self.now.variables number }
    {
        match self.variables.get(number as usize) {
            Some(variable) => Some(&variable.name),
            None => None,
        }
    }

    /// The name of the channel of this number.
    pub fn channel_name(&self, number: u32) -> Option<&QualifiedName>
        ensures { option_copied result ≡ named.channel_name_at self.now.channels number }
    {
        match self.channels.as_slice().get(number as usize) {
            Some(channel) => Some(&channel.name),
            None => None,
        }
    }
}
