ghost use Rattle.std.specs.Prelude.{◌≡◌, IfOk};

use crate::{Boxed, Identifier, Name, Span};
use std::alloc::{AllocError, Global};

/// A declared width: the number before `bits`.
#[derive(Clone, Copy, Debug, PartialEq, Eq)]
pub struct Width {
    /// Where the number stands.
    pub span: Span,
    pub bits: u64,
}

/// The type of a port, of a local or of a cast.
#[derive(Drop)]
pub enum TypeName {
    /// In a place of its own, so that a cast is no larger than other expressions.
    Named(Boxed<Identifier>),
    Bits(Width),
}

/// What stands between two operands.
#[derive(Clone, Copy, Debug, PartialEq, Eq)]
pub enum Operator {
    /// `+`
    Add,
    /// `-`
    Subtract,
    /// `and`
    And,
    /// `or`
    Or,
    /// `xor`
    Xor,
    /// `=`
    Equal,
    /// `/=`
    NotEqual,
    /// `<`
    Less,
    /// `>`
    Greater,
    /// `<=`
    LessOrEqual,
    /// `>=`
    GreaterOrEqual,
}

/// An expression. Parentheses round it make no node: they only widen its `span`.
#[cycle(expression)]
#[derive(Drop)]
pub struct Expr {
    /// The whole of it, the outermost parentheses included.
    pub span: Span,
    /// The offset of its first byte within the parentheses around it; `span.start` where there are none.
    pub own_start: u64,
    pub shape: Boxed<Shape>,
}

/// What an expression is made of.
#[cycle(expression)]
#[derive(Drop)]
pub enum Shape {
    Number(u64),
    Name(Name),
    /// `left operator right`
    Binary(Operator, Expr, Expr),
    /// `not operand`
    Not(Expr),
    /// `(operand as type)`
    Cast(Expr, TypeName),
}

impl Expr {
    /// An expression with no parentheses around it. Without memory the shape is dropped.
    pub fn new(alloc: Global, span: Span, shape: Shape) -> Result<Expr, AllocError>
        ensures { IfOk result (λ made. made ≡ record { span = span; own_start = span.start; shape = shape }) }
    {
        Ok(Expr {
            span,
            own_start: span.start,
            shape: Boxed::new(alloc, shape)?,
        })
    }

    /// The same expression in parentheses, which take up `span`.
    pub fn parenthesised(self, span: Span) -> Expr
        ensures { result ≡ record { span = span; own_start = self.own_start; shape = self.shape } }
    {
        Expr {
            span,
            own_start: self.own_start,
            shape: self.shape,
        }
    }
}
