use crate::declarations::{Declared, Kind, find, type_width, width_of_number};
use syntax::{Expr, Operator, Shape};

/// What widths are found by.
#[derive(Clone, Copy)]
pub struct Known<'a> {
    pub source: &'a [u8],
    pub visible: &'a [Declared],
}

/// The width of a name in an expression.
fn name_width(known: Known<'_>, name: &[u8]) -> Option<u64> {
    let found = find(known.source, known.visible, name)?;
    match found.kind {
        Kind::Type | Kind::Procedure | Kind::SyncPort | Kind::Sync => None,
        Kind::Element
        | Kind::Input
        | Kind::Output
        | Kind::Variable
        | Kind::SharedVariable
        | Kind::Channel => found.width,
    }
}

/// The width of what an operator makes of two operands.
fn operator_width(operator: Operator, left: u64, right: u64) -> u64 {
    match operator {
        Operator::Add => left.max(right).saturating_add(1),
        Operator::Subtract | Operator::And | Operator::Or | Operator::Xor => left.max(right),
        Operator::Equal
        | Operator::NotEqual
        | Operator::Less
        | Operator::Greater
        | Operator::LessOrEqual
        | Operator::GreaterOrEqual => 1,
    }
}

/// The width of an expression, where its names have one.
pub fn width_of(expression: &Expr, known: Known<'_>) -> Option<u64> {
    match expression.shape.get() {
        Shape::Number(number) => Some(width_of_number(*number)),
        Shape::Name(name) => name_width(known, name.text()),
        Shape::Binary(operator, left, right) => {
            let left = width_of(left, known)?;
            let right = width_of(right, known)?;
            Some(operator_width(*operator, left, right))
        }
        Shape::Not(operand) => width_of(operand, known),
        Shape::Cast(_, name) => type_width(known.source, known.visible, name),
    }
}
