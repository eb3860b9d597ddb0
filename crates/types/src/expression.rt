ghost use Rattle.std.specs.Prelude.{◌≡◌, ◌+◌, ◌≤◌, max, IfOk, Ok};
ghost use Rattle.types.specs.Expressions as expressions;
ghost use Rattle.types.specs.Findings as findings;
ghost use Rattle.types.specs.internal.Scopes.{entries};
ghost use Rattle.types.specs.Names.{find};
ghost use Rattle.types.specs.declared.tree.Expression.TheVariants as typed;
ghost use Rattle.types.specs.Uses as uses;
ghost use Rattle.types.specs.internal.Least.{least};

use crate::scope::Names;
use crate::uses::{self, Named};
use crate::verdict::{Settled, Verdict, both};
use crate::{Binding, Expression, Fault};
use std::alloc::{AllocError, Global};
use syntax::{Boxed, Name, Operator, Shape, TypeName};
use value::{MOST_BITS, Value, Width};

/// A typed expression, and how many bits its value has.
#[derive(Drop)]
pub(crate) struct Valued {
    pub(crate) expression: Expression,
    pub(crate) width: u8,
}

/// The declared width, which has to be from 1 to `MOST_BITS`.
#[tactic(auto, unfolding(crate::specs::Expressions::declared_width))]
pub(crate) fn declared_width(declared: &syntax::Width) -> Verdict<Width>
    ensures { result ≡ expressions.declared_width declared.now }
{
    if declared.bits > MOST_BITS as u64 {
        return Err(Fault::TooWide(declared.span.start));
    }
    match Width::new(declared.bits as u8) {
        Some(width) => Ok(width),
        None => Err(Fault::TooWide(declared.span.start)),
    }
}

/// The width of the type.
pub(crate) fn type_width(names: &Names, opened: &[Binding], type_name: &TypeName) -> Verdict<Width>
    ensures { result ≡ expressions.type_width (entries names.now) opened.now type_name.now }
{
    match type_name {
        TypeName::Named(named) => {
            let identifier = named.get();
            uses::type_use(names.find(opened, &identifier.name), identifier.span.start)
        }
        TypeName::Bits(width) => declared_width(width),
    }
}

/// The expression with its names settled, at a place around which these channels are open.
pub(crate) fn settled_expression(
    alloc: Global,
    names: &Names,
    opened: &[Binding],
    expression: &syntax::Expr,
) -> Settled<Valued>
    ensures { IfOk result (λ made.
        made ≡ expressions.judged_expression least expression.now (entries names.now) opened.now) }
{
    let start = expression.own_start;
    match expression.shape.get() {
        Shape::Number(number) => Ok(Ok(constant(least_value(*number)))),
        Shape::Name(name) => Ok(named(names, opened, name, start)),
        Shape::Binary(operator, left, right) => {
            let left = settled_expression(alloc, names, opened, left)?;
            let right = settled_expression(alloc, names, opened, right)?;
            binary(alloc, *operator, start, left, right)
        }
        Shape::Not(operand) => {
            let operand = settled_expression(alloc, names, opened, operand)?;
            complement(alloc, operand)
        }
        Shape::Cast(operand, type_name) => {
            let operand = settled_expression(alloc, names, opened, operand)?;
            cast(alloc, operand, type_width(names, opened, type_name))
        }
    }
}

/// The number at its least width.
pub(crate) fn least_value(number: u64) -> Value
    ensures { result ≡ expressions.least_word number }
{
    Value::make(number, value::least_width(number))
}

fn constant(constant: Value) -> Valued
    ensures { result ≡ expressions.constant constant }
{
    Valued {
        width: constant.width(),
        expression: Expression::Constant(constant),
    }
}

fn named(names: &Names, opened: &[Binding], name: &Name, offset: u64) -> Verdict<Valued>
    ensures { result
        ≡ findings.becomes expressions.of_name (uses.value_use (find (entries names.now) opened.now name.now) offset) }
{
    match uses::value_use(names.find(opened, name), offset) {
        Ok(name) => Ok(settled_name(name)),
        Err(fault) => Err(fault),
    }
}

fn settled_name(name: Named) -> Valued
    ensures { result ≡ expressions.of_name name }
{
    match name {
        Named::Element(element) => constant(element),
        Named::Variable(variable, width) => Valued {
            width: width.bits(),
            expression: Expression::Variable(variable, width),
        },
        Named::Received(channel, width) => Valued {
            width: width.bits(),
            expression: Expression::Received(channel, width),
        },
    }
}

/// How many bits the operator's value has over operands of so many bits, which may be no more than `MOST_BITS`.
fn operator_width(operator: Operator, start: u64, left: u8, right: u8) -> Verdict<u8>
    ensures { result ≡ expressions.width_within start (expressions.operator_width operator left right) operator }
{
    match operator {
        Operator::Add => {
            if left.max(right) >= MOST_BITS {
                Err(Fault::TooWide(start))
            } else {
                Ok(left.max(right) + 1)
            }
        }
        Operator::Subtract | Operator::And | Operator::Or | Operator::Xor => Ok(left.max(right)),
        _ => Ok(1),
    }
}

#[tactic(auto, unfolding(crate::specs::Expressions::binary))]
fn binary(
    alloc: Global,
    operator: Operator,
    start: u64,
    left: Verdict<Valued>,
    right: Verdict<Valued>,
) -> Settled<Valued>
    ensures { IfOk result (λ made. made ≡ expressions.binary least operator start left right) }
{
    match both(left, right) {
        Ok((left, right)) => match operator_width(operator, start, left.width, right.width) {
            Ok(width) => combined(alloc, operator, left.expression, right.expression, width),
            Err(fault) => Ok(Err(fault)),
        },
        Err(fault) => Ok(Err(fault)),
    }
}

fn combined(
    alloc: Global,
    operator: Operator,
    left: Expression,
    right: Expression,
    width: u8,
) -> Settled<Valued>
    ensures { IfOk result (λ made.
        made ≡ Ok (record { expression = typed.Binary operator left right; width = width })) }
{
    let left = Boxed::new(alloc, left)?;
    let right = Boxed::new(alloc, right)?;
    Ok(Ok(Valued {
        expression: Expression::Binary(operator, left, right),
        width,
    }))
}

fn complement(alloc: Global, operand: Verdict<Valued>) -> Settled<Valued>
    ensures { IfOk result (λ made. made ≡ findings.becomes expressions.complement operand) }
{
    match operand {
        Ok(operand) => Ok(Ok(Valued {
            width: operand.width,
            expression: Expression::Not(Boxed::new(alloc, operand.expression)?),
        })),
        Err(fault) => Ok(Err(fault)),
    }
}

fn cast(alloc: Global, operand: Verdict<Valued>, width: Verdict<Width>) -> Settled<Valued>
    ensures { IfOk result (λ made.
        made ≡ findings.becomes (λ p. expressions.cast p.0 p.1) (findings.both least operand width)) }
{
    match both(operand, width) {
        Ok((operand, width)) => Ok(Ok(Valued {
            width: width.bits(),
            expression: Expression::Cast(Boxed::new(alloc, operand.expression)?, width),
        })),
        Err(fault) => Ok(Err(fault)),
    }
}
