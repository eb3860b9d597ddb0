ghost use Rattle.std.specs.Prelude.{◌≡◌, IfOk};
ghost use Rattle.system.specs.Expression as model;
ghost use Rattle.system.specs.Translation.{expression_of};

use std::alloc::{AllocError, Global};
use syntax::Boxed;
use value::{Comparison, MOST_BITS, Value, Width};

/// A name in the source that uses a variable or a channel.
#[derive(Clone, Copy, Debug, PartialEq, Eq)]
pub struct Use {
    /// The number of the variable or channel, from 0.
    pub number: u32,
    /// The offset in bytes of the name in the source, from 0.
    pub offset: u64,
}

/// An operator of two operands.
#[derive(Clone, Copy, Debug, PartialEq, Eq)]
pub enum Operator {
    /// `+`, one bit wider than the wider operand
    Add,
    /// `-`, as wide as the wider operand; it wraps
    Subtract,
    /// `and`, bit by bit
    And,
    /// `or`, bit by bit
    Or,
    /// `xor`, bit by bit
    Xor,
    /// a comparison, of one bit
    Compare(Comparison),
}

impl Operator {
    /// The value of the operator at two operands. A sum has at most `MOST_BITS` bits, and what would not fit is cut.
    pub fn apply(self, left: Value, right: Value) -> Value
        ensures { result ≡ model.combined self left right }
    {
        match self {
            Operator::Add => add_cut(left, right),
            Operator::Subtract => value::sub(left, right),
            Operator::And => value::bit_and(left, right),
            Operator::Or => value::bit_or(left, right),
            Operator::Xor => value::bit_xor(left, right),
            Operator::Compare(comparison) => value::compare(comparison, left, right),
        }
    }
}

/// The sum, one bit wider than the wider operand, or cut at the most bits where that operand has as many.
fn add_cut(left: Value, right: Value) -> Value
    ensures { result ≡ model.combined Operator.Add left right }
{
    if left.width().max(right.width()) < MOST_BITS {
        value::add(left, right)
    } else {
        Value::make(left.bits().wrapping_add(right.bits()), MOST_BITS)
    }
}

/// An expression whose names are numbers.
#[derive(Drop)]
pub enum Expression {
    /// a number, or an element of an enumeration
    Constant(Value),
    /// a variable, and its width
    Variable(Use, Width),
    /// in an arm opened on this channel: the value received, and the channel's width
    Received(u32, Width),
    Binary(Operator, Boxed<Expression>, Boxed<Expression>),
    /// `not`, each bit flipped
    Not(Boxed<Expression>),
    /// `(e as T)`: cut, or widened with zeros
    Cast(Boxed<Expression>, Width),
}

impl Expression {
    /// The value over the variables, which stand by number. A variable past the last reads 0, and so does the name of a
    /// channel, since what was received stands in the name's position (`with_received`).
    pub fn value(&self, variables: &[Value]) -> Value
        ensures { result ≡ model.value variables.now (expression_of self.now) }
    {
        match self {
            Expression::Constant(constant) => *constant,
            Expression::Variable(variable, width) => {
                let held = variable_value(variables, variable.number);
                value::resize(held, width.bits())
            }
            Expression::Received(_, width) => Value::zero(width.bits()),
            Expression::Binary(operator, left, right) => {
                operator.apply(left.get().value(variables), right.get().value(variables))
            }
            Expression::Not(operand) => value::not(operand.get().value(variables)),
            Expression::Cast(operand, width) => {
                value::resize(operand.get().value(variables), width.bits())
            }
        }
    }

    /// An equal expression in memory of its own.
    pub fn copy(&self, alloc: Global) -> Result<Expression, AllocError>
        ensures { IfOk result (λ made. made ≡ self.now) }
    {
        Ok(match self {
            Expression::Constant(constant) => Expression::Constant(*constant),
            Expression::Variable(variable, width) => Expression::Variable(*variable, *width),
            Expression::Received(channel, width) => Expression::Received(*channel, *width),
            Expression::Binary(operator, left, right) => {
                let left = Boxed::new(alloc, left.get().copy(alloc)?)?;
                let right = Boxed::new(alloc, right.get().copy(alloc)?)?;
                Expression::Binary(*operator, left, right)
            }
            Expression::Not(operand) => {
                Expression::Not(Boxed::new(alloc, operand.get().copy(alloc)?)?)
            }
            Expression::Cast(operand, width) => {
                Expression::Cast(Boxed::new(alloc, operand.get().copy(alloc)?)?, *width)
            }
        })
    }

    /// A copy in which the value, cut or widened to the channel's width, stands for each name of the channel.
    pub fn with_received(
        &self,
        alloc: Global,
        channel: u32,
        value: Value,
    ) -> Result<Expression, AllocError>
        ensures { IfOk result (λ made. expression_of made ≡ model.put_value channel value (expression_of self.now)) }
    {
        Ok(match self {
            Expression::Constant(constant) => Expression::Constant(*constant),
            Expression::Variable(variable, width) => Expression::Variable(*variable, *width),
            Expression::Received(named, width) if *named == channel => {
                Expression::Constant(value::resize(value, width.bits()))
            }
            Expression::Received(named, width) => Expression::Received(*named, *width),
            Expression::Binary(operator, left, right) => {
                let left = Boxed::new(alloc, left.get().with_received(alloc, channel, value)?)?;
                let right = Boxed::new(alloc, right.get().with_received(alloc, channel, value)?)?;
                Expression::Binary(*operator, left, right)
            }
            Expression::Not(operand) => {
                let operand = operand.get().with_received(alloc, channel, value)?;
                Expression::Not(Boxed::new(alloc, operand)?)
            }
            Expression::Cast(operand, width) => {
                let operand = operand.get().with_received(alloc, channel, value)?;
                Expression::Cast(Boxed::new(alloc, operand)?, *width)
            }
        })
    }
}

/// The value of the variable, or 0 of one bit where there are not so many.
fn variable_value(variables: &[Value], number: u32) -> Value
    ensures { result ≡ model.get variables.now number }
{
    match variables.get(number as usize) {
        Some(value) => *value,
        None => Value::zero(1),
    }
}
