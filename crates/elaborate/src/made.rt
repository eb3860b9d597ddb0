// The variables and channels of a system as they are made.
ghost use Rattle.std.specs.Prelude.{◌≡◌, [], length, IfOk, OnOk};
ghost use Rattle.elaborate.specs.internal.Making.{capped_number, kind_of_port};

use crate::instance::{Entrance, Instance};
use std::alloc::{AllocError, Global};
use syntax::Items;
use system::{Channel, ChannelKind, Prefix, QualifiedName, Variable};
use types::{Local, LocalKind, Port, PortKind};
use value::Width;

/// What is made so far.
#[derive(Drop)]
pub struct Made {
    pub variables: Items<Variable>,
    pub channels: Items<Channel>,
    /// how many calls were replaced in the body that is being made
    pub calls: u64,
}

/// The number that a position gives, or the largest one of 32 bits.
pub fn capped_number(position: usize) -> u32
    ensures { result ≡ capped_number position }
{
    u32::try_from(position).unwrap_or(u32::MAX)
}

/// What passes over a port.
fn kind_of_port(kind: PortKind) -> ChannelKind
    ensures { result ≡ kind_of_port kind }
{
    match kind {
        PortKind::Input(width) | PortKind::Output(width) => ChannelKind::Data(width),
        PortKind::Sync => ChannelKind::Sync,
    }
}

impl Made {
    ghost use Rattle.elaborate.specs.internal.Making as making;
    ghost use Rattle.elaborate.specs.internal.Making.{instance_of, entered};

    /// Nothing.
    pub fn nothing(alloc: Global) -> Made
        ensures { result ≡ making.nothing_made }
    {
        Made {
            variables: Items::new(alloc),
            channels: Items::new(alloc),
            calls: 0,
        }
    }

    /// Makes a channel, and answers its number.
    fn channel(
        &mut self,
        name: QualifiedName,
        kind: ChannelKind,
        declared: u64,
    ) -> Result<u32, AllocError>
        ensures number { IfOk result (λ number. number ≡ capped_number (length self.old.channels)) }
        ensures made { OnOk result (self.new ≡ making.with_channel self.old name kind declared) }
    {
        let number = capped_number(self.channels.len());
        self.channels.push(Channel {
            name,
            kind,
            declared,
        })?;
        Ok(number)
    }

    /// Makes a variable, and answers its number.
    fn variable(
        &mut self,
        name: QualifiedName,
        width: Width,
        shared: bool,
    ) -> Result<u32, AllocError>
        ensures number { IfOk result (λ number. number ≡ capped_number (length self.old.variables)) }
        ensures made { OnOk result (self.new ≡ making.with_variable self.old name width shared) }
    {
        let number = capped_number(self.variables.len());
        self.variables.push(Variable {
            name,
            width,
            shared,
        })?;
        Ok(number)
    }

    /// Makes the variable or channel of a local, and answers its number.
    fn local(&mut self, name: QualifiedName, local: &Local) -> Result<u32, AllocError>
        ensures number { IfOk result (λ number. number ≡ making.number_for self.old local.now.kind) }
        ensures made { OnOk result (self.new ≡ making.with_local self.old name local.now.declared local.now.kind) }
    {
        match local.kind {
            LocalKind::Variable(width) => self.variable(name, width, false),
            LocalKind::SharedVariable(width) => self.variable(name, width, true),
            LocalKind::Channel(width) => {
                self.channel(name, ChannelKind::Data(width), local.declared)
            }
            LocalKind::Sync => self.channel(name, ChannelKind::Sync, local.declared),
        }
    }

    /// Makes the locals of a procedure, the prefix before the name of each, and answers their numbers.
    fn locals(
        &mut self,
        alloc: Global,
        locals: &[Local],
        prefix: &Prefix,
    ) -> Result<Items<u32>, AllocError>
        ensures numbers { IfOk result (λ numbers.
            numbers ≡ (making.locals_onto [] prefix.now self.old locals.now).numbers) }
        ensures made { OnOk result (self.new ≡ (making.locals_onto [] prefix.now self.old locals.now).made) }
    {
        let mut numbers = Items::with_capacity(alloc, locals.len())?;
        for local in locals {
            let name = QualifiedName::new(prefix.clone()?, local.name.clone()?);
            numbers.push(self.local(name, local)?)?;
        }
        Ok(numbers)
    }

    /// Makes the locals of a procedure that is entered so.
    #[inline(never)]
    pub fn instance(
        &mut self,
        alloc: Global,
        entrance: Entrance,
        locals: &[Local],
    ) -> Result<Instance, AllocError>
        ensures instance { IfOk result (λ instance.
            instance ≡ instance_of entrance (making.locals_onto [] entrance.prefix self.old locals.now)) }
        ensures made { OnOk result (self.new ≡ entered (making.locals_onto [] entrance.prefix self.old locals.now)) }
    {
        let Entrance { ports, prefix } = entrance;
        let locals = self.locals(alloc, locals, &prefix)?;
        self.calls = 0;
        Ok(Instance {
            ports,
            locals,
            prefix,
        })
    }

    /// Makes the channels of the root's ports, and answers their numbers.
    pub fn ports(&mut self, alloc: Global, ports: &[Port]) -> Result<Items<u32>, AllocError>
        ensures numbers { IfOk result (λ numbers. numbers ≡ (making.ports_onto [] self.old ports.now).numbers) }
        ensures made { OnOk result (self.new ≡ (making.ports_onto [] self.old ports.now).made) }
    {
        let mut numbers = Items::with_capacity(alloc, ports.len())?;
        for port in ports {
            let name = QualifiedName::new(Prefix::root(), port.name.clone()?);
            numbers.push(self.channel(name, kind_of_port(port.kind), port.declared)?)?;
        }
        Ok(numbers)
    }
}
