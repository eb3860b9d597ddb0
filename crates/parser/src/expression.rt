//! Expressions, a rule for each rank of operators. Behind all of them stands a function value that
//! reads what an operand holds, so that each function but one is proved by itself.

ghost use Rattle.std.specs.Prelude.{◌≡◌};
ghost use Rattle.parser.specs.Grammar.{expression_words};
ghost use Rattle.parser.specs.internal.Nests.{ReadsAt, factor_in, expression_in};
ghost use Rattle.parser.specs.internal.Readers.{read};
ghost use Rattle.parser.specs.internal.Reading as reading;
ghost use Rattle.parser.specs.internal.Reads.{place, Reads};
ghost use Rattle.parser.specs.Trees as trees;

use crate::cursor::Cursor;
use crate::halt::Halt;
use crate::name::type_name;
use crate::rule::Rule;
use lexer::{Kind, Token};
use syntax::{Expr, Operator, Shape, Span};

/// What stands between the operands of a sum, of a comparison, of a conjunct and of an expression.
const SUM_SIGNS: [Kind; 2] = [Kind::PlusSign, Kind::MinusSign];

const COMPARISON_SIGNS: [Kind; 6] = [
    Kind::EqualSign,
    Kind::NotEqualSign,
    Kind::LessSign,
    Kind::GreaterSign,
    Kind::LessOrEqualSign,
    Kind::GreaterOrEqualSign,
];

const CONJUNCT_WORDS: [Kind; 1] = [Kind::AndWord];

const EXPRESSION_WORDS: [Kind; 2] = [Kind::OrWord, Kind::XorWord];

/// The operator that `sign` stands for. What is no other is taken for `>=`.
fn operator_of(sign: Kind) -> Operator
    ensures { result ≡ trees.operator_of sign }
{
    match sign {
        Kind::PlusSign => Operator::Add,
        Kind::MinusSign => Operator::Subtract,
        Kind::AndWord => Operator::And,
        Kind::OrWord => Operator::Or,
        Kind::XorWord => Operator::Xor,
        Kind::EqualSign => Operator::Equal,
        Kind::NotEqualSign => Operator::NotEqual,
        Kind::LessSign => Operator::Less,
        Kind::GreaterSign => Operator::Greater,
        Kind::LessOrEqualSign => Operator::LessOrEqual,
        _ => Operator::GreaterOrEqual,
    }
}

/// An expression, unless memory is out. It reads no token.
fn new_expression(cursor: &Cursor<'_, '_>, span: Span, shape: Shape) -> Result<Expr, Halt>
    ensures { Reads (read (trees.expression_at span shape) (place cursor.now)) result (place cursor.now) }
{
    Ok(Expr::new(cursor.alloc(), span, shape)?)
}

#[tactic(auto, unfolding(crate::specs::internal::Reading::number, crate::specs::internal::Readers::bind, crate::specs::internal::Readers::pure))]
fn number(cursor: &mut Cursor<'_, '_>) -> Result<Expr, Halt>
    ensures { Reads (reading.number (place cursor.old)) result (place cursor.new) }
{
    let token = cursor.take(Kind::Number)?;
    let shape = Shape::Number(token.number);
    new_expression(cursor, token.span, shape)
}

#[tactic(auto, unfolding(crate::specs::internal::Reading::variable_name, crate::specs::internal::Readers::bind, crate::specs::internal::Readers::pure))]
fn named(cursor: &mut Cursor<'_, '_>) -> Result<Expr, Halt>
    ensures { Reads (reading.variable_name (place cursor.old)) result (place cursor.new) }
{
    let name = cursor.identifier()?;
    let shape = Shape::Name(name.name);
    new_expression(cursor, name.span, shape)
}

/// `left` and `right` with the operator between them that `sign` is.
fn binary(cursor: &Cursor<'_, '_>, sign: &Token<'_>, left: Expr, right: Expr) -> Result<Expr, Halt>
    ensures { Reads (read (trees.binary sign.now left right) (place cursor.now)) result (place cursor.now) }
{
    let span = left.span.through(right.span);
    let shape = Shape::Binary(operator_of(sign.kind), left, right);
    new_expression(cursor, span, shape)
}

/// One of `signs` and the operand behind it, behind `left`.
#[tactic(auto, unfolding(crate::specs::internal::Reading::operation, crate::specs::internal::Readers::bind, crate::specs::internal::Readers::pure))]
fn operation<R: Rule<Tree = Expr>>(
    operand: &R,
    cursor: &mut Cursor<'_, '_>,
    depth: usize,
    signs: &[Kind],
    left: Expr,
) -> Result<Expr, Halt>
    requires { R.can_read operand.now }
    ensures { Reads (reading.operation depth signs.now (R.reader operand.now) left (place cursor.old)) result
        (place cursor.new) }
{
    let sign = cursor.open_any(depth, signs)?;
    let right = operand.read(cursor)?;
    binary(cursor, sign, left, right)
}

/// Operands with one of `signs` between them, grouped to the left.
#[derive(Drop)]
struct Grouped<'r, R> {
    depth: usize,
    signs: &'r [Kind],
    operand: &'r R,
}

impl<R: Rule<Tree = Expr>> Rule for Grouped<'_, R> {
    type Tree = Expr;

    ghost can_read = { λ grouped. R.can_read grouped.operand.now };

    ghost reader = { λ grouped. reading.grouped grouped.depth grouped.signs.now (R.reader grouped.operand.now) };

    #[tactic(auto, unfolding(crate::specs::internal::Reading::grouped, crate::specs::internal::Readers::bind))]
    fn read(&self, cursor: &mut Cursor<'_, '_>) -> Result<Expr, Halt> {
        let mut left = self.operand.read(cursor)?;
        for _turn in 0..cursor.rest().len() {
            if !cursor.sees_any(self.signs) {
                return Ok(left);
            }
            left = operation(self.operand, cursor, self.depth, self.signs, left)?;
        }
        Ok(left)
    }
}

/// One operand, or two with a sign between them that compares.
#[derive(Drop)]
struct Compared<'r, R> {
    depth: usize,
    operand: &'r R,
}

impl<R: Rule<Tree = Expr>> Rule for Compared<'_, R> {
    type Tree = Expr;

    ghost can_read = { λ compared. R.can_read compared.operand.now };

    ghost reader = { λ compared. reading.compared compared.depth (R.reader compared.operand.now) };

    #[tactic(auto, unfolding(crate::specs::internal::Reading::compared, crate::specs::internal::Readers::branch, crate::specs::internal::Readers::bind, crate::specs::internal::Readers::pure))]
    fn read(&self, cursor: &mut Cursor<'_, '_>) -> Result<Expr, Halt> {
        let left = self.operand.read(cursor)?;
        if cursor.sees_any(&COMPARISON_SIGNS) {
            operation(self.operand, cursor, self.depth, &COMPARISON_SIGNS, left)
        } else {
            Ok(left)
        }
    }
}

/// Reads what is made of operands, which `factor` reads.
#[derive(Drop)]
struct Operands<R> {
    /// How many levels may be written inside one another, the one that this stands in included.
    depth: usize,
    factor: R,
}

impl<R: Rule<Tree = Expr>> Operands<R> {
    /// Factors with operators between them, a rule for each rank. It closes the levels of its operators.
    #[tactic(auto, using(crate::proofs::Closed::closes), unfolding(crate::specs::internal::Reading::expression_of, crate::specs::internal::Reading::sum_of, crate::specs::internal::Reading::comparison_of, crate::specs::internal::Reading::conjunct_of, crate::specs::internal::Readers::inside))]
    fn expression(&self, cursor: &mut Cursor<'_, '_>) -> Result<Expr, Halt>
        requires { R.can_read self.now.factor }
        ensures { Reads (reading.expression_of self.now.depth (R.reader self.now.factor) (place cursor.old)) result
            (place cursor.new) }
    {
        let depth = self.depth;
        let sum = Grouped {
            depth,
            signs: &SUM_SIGNS,
            operand: &self.factor,
        };
        let comparison = Compared {
            depth,
            operand: &sum,
        };
        let conjunct = Grouped {
            depth,
            signs: &CONJUNCT_WORDS,
            operand: &comparison,
        };
        let chain = Grouped {
            depth,
            signs: &EXPRESSION_WORDS,
            operand: &conjunct,
        };
        let levels = cursor.levels();
        let whole = chain.read(cursor);
        cursor.close_to(levels);
        whole
    }

    /// `not factor`
    #[tactic(auto, unfolding(crate::specs::internal::Reading::negation, crate::specs::internal::Readers::bind, crate::specs::internal::Readers::pure))]
    fn negated(&self, cursor: &mut Cursor<'_, '_>) -> Result<Expr, Halt>
        requires { R.can_read self.now.factor }
        ensures { Reads
            (reading.negation self.now.depth (R.reader self.now.factor)
            (reading.expression_of self.now.depth (R.reader self.now.factor)) (place cursor.old)) result
            (place cursor.new) }
    {
        let start = cursor.open(self.depth, Kind::NotWord)?;
        let operand = self.factor.read(cursor)?;
        let span = start.span.through(operand.span);
        new_expression(cursor, span, Shape::Not(operand))
    }

    /// `( expression )` or `( expression as type )`
    #[tactic(auto, unfolding(crate::specs::internal::Reading::parenthesised, crate::specs::internal::Readers::branch, crate::specs::internal::Readers::bind, crate::specs::internal::Readers::pure))]
    fn parenthesised(&self, cursor: &mut Cursor<'_, '_>) -> Result<Expr, Halt>
        requires { R.can_read self.now.factor }
        ensures { Reads
            (reading.parenthesised self.now.depth (R.reader self.now.factor)
            (reading.expression_of self.now.depth (R.reader self.now.factor)) (place cursor.old)) result
            (place cursor.new) }
    {
        let start = cursor.open(self.depth, Kind::LeftParenthesis)?;
        let inner = self.expression(cursor)?;
        if cursor.sees(Kind::AsWord) {
            cast(cursor, start.span, inner)
        } else {
            closing(cursor, start.span, inner)
        }
    }

    /// What stands between operators.
    #[tactic(auto, unfolding(crate::specs::internal::Reading::any_factor, crate::specs::internal::Readers::branch))]
    fn choice(&self, cursor: &mut Cursor<'_, '_>) -> Result<Expr, Halt>
        requires { R.can_read self.now.factor }
        ensures { Reads
            (reading.any_factor self.now.depth (R.reader self.now.factor)
            (reading.expression_of self.now.depth (R.reader self.now.factor)) (place cursor.old)) result
            (place cursor.new) }
    {
        if cursor.sees(Kind::NotWord) {
            self.negated(cursor)
        } else if cursor.sees(Kind::LeftParenthesis) {
            self.parenthesised(cursor)
        } else if cursor.sees(Kind::Number) {
            number(cursor)
        } else {
            named(cursor)
        }
    }

    /// The same, and closes the levels that it opened.
    #[tactic(auto, using(crate::proofs::Closed::closes), unfolding(crate::specs::internal::Reading::factor_of, crate::specs::internal::Readers::inside))]
    fn whole(&self, cursor: &mut Cursor<'_, '_>) -> Result<Expr, Halt>
        requires { R.can_read self.now.factor }
        ensures { Reads
            (reading.factor_of self.now.depth (R.reader self.now.factor)
            (reading.expression_of self.now.depth (R.reader self.now.factor)) (place cursor.old)) result
            (place cursor.new) }
    {
        let levels = cursor.levels();
        let whole = self.choice(cursor);
        cursor.close_to(levels);
        whole
    }
}

/// `as type )`, behind what begins at `start`.
#[tactic(auto, unfolding(crate::specs::internal::Reading::cast, crate::specs::internal::Reading::closing, crate::specs::internal::Readers::bind, crate::specs::internal::Readers::pure))]
fn cast(cursor: &mut Cursor<'_, '_>, start: Span, operand: Expr) -> Result<Expr, Halt>
    ensures { Reads (reading.cast start operand (place cursor.old)) result (place cursor.new) }
{
    cursor.take(Kind::AsWord)?;
    let to = type_name(cursor)?;
    let whole = new_expression(cursor, start, Shape::Cast(operand, to))?;
    closing(cursor, start, whole)
}

/// `)`, behind what begins at `start`.
#[tactic(auto, unfolding(crate::specs::internal::Reading::closing, crate::specs::internal::Readers::bind, crate::specs::internal::Readers::pure))]
fn closing(cursor: &mut Cursor<'_, '_>, start: Span, operand: Expr) -> Result<Expr, Halt>
    ensures { Reads (reading.closing start operand (place cursor.old)) result (place cursor.new) }
{
    let end = cursor.take(Kind::RightParenthesis)?;
    Ok(operand.parenthesised(start.through(end.span)))
}

/// What stands between operators in a level, which a function value reads.
#[derive(Drop)]
struct Inside<F> {
    depth: usize,
    factor: F,
}

impl<F: Fn(&mut Cursor<'_, '_>, usize) -> Result<Expr, Halt>> Rule for Inside<F> {
    type Tree = Expr;

    ghost can_read = { λ inside.
        ReadsAt inside.depth (factor_in inside.depth) (F.pre inside.factor) (F.post inside.factor) };

    ghost reader = { λ inside. factor_in inside.depth };

    fn read(&self, cursor: &mut Cursor<'_, '_>) -> Result<Expr, Halt> {
        (self.factor)(cursor, self.depth)
    }
}

/// What stands between operators in a level, inside which so many may be written, this one included.
fn factor(cursor: &mut Cursor<'_, '_>, depth: usize) -> Result<Expr, Halt>
    ensures { Reads (factor_in depth (place cursor.old)) result (place cursor.new) }
{
    if depth == 0 {
        return Err(Halt::Unexpected);
    }
    let depth = depth - 1;
    Operands {
        depth,
        factor: Inside { depth, factor },
    }
    .whole(cursor)
}

/// An expression in a level, inside which so many may be written, this one included.
pub fn expression(cursor: &mut Cursor<'_, '_>, depth: usize) -> Result<Expr, Halt>
    ensures { Reads (expression_in depth (place cursor.old)) result (place cursor.new) }
{
    Operands {
        depth,
        factor: Inside { depth, factor },
    }
    .expression(cursor)
}
