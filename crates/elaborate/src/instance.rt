// What the names of a procedure stand for where it is called.
ghost use Rattle.std.specs.Prelude.{◌≡◌, IfOk};
ghost use Rattle.elaborate.specs.Naming.{operator_of, number_at};

use std::alloc::{AllocError, Global};
use syntax::{Boxed, Items};
use system::{Expression, Operator, Prefix, Use};
use types::{Binding, ChannelUse, VariableUse};
use value::Comparison;

/// What the names of a procedure stand for where it is called.
#[derive(Drop)]
pub struct Instance {
    /// the channel of each port
    pub ports: Items<u32>,
    /// the variable or channel made for each local
    pub locals: Items<u32>,
    /// what stands before the names that are made there
    pub prefix: Prefix,
}

/// What a procedure is called with.
#[derive(Drop)]
pub struct Entrance {
    /// the channel of each port
    pub ports: Items<u32>,
    /// what stands before the names that are made there
    pub prefix: Prefix,
}

/// The number at the position, 0 where there are not so many.
fn number_at(numbers: &[u32], position: u32) -> u32
    ensures { result ≡ number_at numbers.now position }
{
    match numbers.get(position as usize) {
        Some(number) => *number,
        None => 0,
    }
}

impl Instance {
    ghost use Rattle.elaborate.specs.internal.Instances as instances;

    /// The channel that a port or local is.
    pub fn channel(&self, binding: Binding) -> u32
        ensures { result ≡ instances.channel_at self.now binding }
    {
        match binding {
            Binding::Port(position) => number_at(self.ports.as_slice(), position),
            Binding::Local(position) => number_at(self.locals.as_slice(), position),
        }
    }

    /// A use of a channel.
    pub fn channel_use(&self, named: ChannelUse) -> Use
        ensures { result ≡ instances.channel_use self.now named }
    {
        Use {
            number: self.channel(named.channel),
            offset: named.offset,
        }
    }

    /// A use of a variable.
    pub fn variable_use(&self, named: VariableUse) -> Use
        ensures { result ≡ instances.variable_use self.now named }
    {
        Use {
            number: number_at(self.locals.as_slice(), named.variable),
            offset: named.offset,
        }
    }

    /// What the call of this number, counted from 1, enters a procedure with.
    #[inline(never)]
    pub fn entrance(
        &self,
        alloc: Global,
        arguments: &[ChannelUse],
        call: u64,
    ) -> Result<Entrance, AllocError>
        ensures { IfOk result (λ made. made ≡ instances.entrance_of self.now arguments.now call) }
    {
        let ports = self.channels(alloc, arguments)?;
        let prefix = self.prefix.clone()?.of_call(alloc, call)?;
        Ok(Entrance { ports, prefix })
    }

    /// What the first call enters a procedure with, where nothing else is done here.
    #[inline(never)]
    pub fn into_entrance(
        self,
        alloc: Global,
        arguments: &[ChannelUse],
    ) -> Result<Entrance, AllocError>
        ensures { IfOk result (λ made. made ≡ instances.entrance_of self arguments.now 1) }
    {
        let ports = self.channels(alloc, arguments)?;
        let Instance {
            ports: _,
            locals: _,
            prefix,
        } = self;
        let prefix = prefix.of_call(alloc, 1)?;
        Ok(Entrance { ports, prefix })
    }

    /// The channels of the arguments of a call.
    fn channels(&self, alloc: Global, arguments: &[ChannelUse]) -> Result<Items<u32>, AllocError>
        ensures { IfOk result (λ made. made ≡ instances.channels_of self.now arguments.now) }
    {
        let mut channels = Items::with_capacity(alloc, arguments.len())?;
        for argument in arguments {
            channels.push(self.channel(argument.channel))?;
        }
        Ok(channels)
    }

    /// The expression with numbers for its names.
    pub fn expression(
        &self,
        alloc: Global,
        expression: &types::Expression,
    ) -> Result<Expression, AllocError>
        ensures { IfOk result (λ made. made ≡ instances.expression_in self.now expression.now) }
    {
        Ok(match expression {
            types::Expression::Constant(value) => Expression::Constant(*value),
            types::Expression::Variable(named, width) => {
                Expression::Variable(self.variable_use(*named), *width)
            }
            types::Expression::Received(binding, width) => {
                Expression::Received(self.channel(*binding), *width)
            }
            types::Expression::Binary(operator, left, right) => {
                let left = Boxed::new(alloc, self.expression(alloc, left.get())?)?;
                let right = Boxed::new(alloc, self.expression(alloc, right.get())?)?;
                Expression::Binary(operator_of(*operator), left, right)
            }
            types::Expression::Not(operand) => {
                Expression::Not(Boxed::new(alloc, self.expression(alloc, operand.get())?)?)
            }
            types::Expression::Cast(operand, width) => {
                let operand = self.expression(alloc, operand.get())?;
                Expression::Cast(Boxed::new(alloc, operand)?, *width)
            }
        })
    }
}

/// The operator that is written so.
fn operator_of(operator: syntax::Operator) -> Operator
    ensures { result ≡ operator_of operator }
{
    match operator {
        syntax::Operator::Add => Operator::Add,
        syntax::Operator::Subtract => Operator::Subtract,
        syntax::Operator::And => Operator::And,
        syntax::Operator::Or => Operator::Or,
        syntax::Operator::Xor => Operator::Xor,
        syntax::Operator::Equal => Operator::Compare(Comparison::Equal),
        syntax::Operator::NotEqual => Operator::Compare(Comparison::NotEqual),
        syntax::Operator::Less => Operator::Compare(Comparison::Less),
        syntax::Operator::Greater => Operator::Compare(Comparison::Greater),
        syntax::Operator::LessOrEqual => Operator::Compare(Comparison::LessOrEqual),
        syntax::Operator::GreaterOrEqual => Operator::Compare(Comparison::GreaterOrEqual),
    }
}
