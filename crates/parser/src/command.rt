//! Commands. What a command holds is read by a rule, and behind all of them stands a function value,
//! so that each function but one is proved by itself.

ghost use Rattle.std.specs.Prelude.{◌≡◌, ◌+◌, ◌^◌, ◌<◌};
ghost use Rattle.parser.specs.internal.Nests.{ReadsAt, simple_in, command_in, expression_in};
ghost use Rattle.parser.specs.internal.Readers.{read};
ghost use Rattle.parser.specs.internal.Reading as reading;
ghost use Rattle.parser.specs.internal.Reading.{command_of};
ghost use Rattle.parser.specs.internal.Reads.{place, Reads};
ghost use Rattle.parser.specs.Trees as trees;
ghost use Rattle.parser.specs.internal.BySign as by_sign;

use crate::cursor::Cursor;
use crate::expression::expression;
use crate::halt::Halt;
use crate::list::{Behind, next, one, separated, several};
use crate::name::{labels, names};
use crate::rule::Rule;
use lexer::Kind;
use syntax::{Action, Arm, Boxed, CaseArm, Command, Expr, Guarded, Identifier, Items, Span};

/// A command, unless memory is out. It reads no token.
fn new_command(cursor: &Cursor<'_, '_>, span: Span, action: Action) -> Result<Command, Halt>
    ensures { Reads (read (trees.command_at span action) (place cursor.now)) result (place cursor.now) }
{
    Ok(Command::new(cursor.alloc(), span, action)?)
}

/// `end`, behind what begins at `start`. The command is made first, since an action that is dropped
/// at the `?` would be dropped form by form.
#[tactic(auto, unfolding(crate::specs::internal::Readers::bind, crate::specs::internal::Readers::pure))]
fn ended(cursor: &mut Cursor<'_, '_>, start: Span, action: Action) -> Result<Command, Halt>
    ensures { Reads (reading.ended start action (place cursor.old)) result (place cursor.new) }
{
    let mut command = new_command(cursor, start, action)?;
    let end = cursor.take(Kind::EndWord)?;
    command.span = start.through(end.span);
    Ok(command)
}

/// `continue`
#[tactic(auto, unfolding(crate::specs::internal::Reading::word, crate::specs::internal::Readers::bind, crate::specs::internal::Readers::pure))]
fn nothing(cursor: &mut Cursor<'_, '_>) -> Result<Command, Halt>
    ensures { Reads (reading.word Kind.ContinueWord Action.Continue (place cursor.old)) result (place cursor.new) }
{
    let word = cursor.take(Kind::ContinueWord)?;
    new_command(cursor, word.span, Action::Continue)
}

/// `halt`
#[tactic(auto, unfolding(crate::specs::internal::Reading::word, crate::specs::internal::Readers::bind, crate::specs::internal::Readers::pure))]
fn halt(cursor: &mut Cursor<'_, '_>) -> Result<Command, Halt>
    ensures { Reads (reading.word Kind.HaltWord Action.Halt (place cursor.old)) result (place cursor.new) }
{
    let word = cursor.take(Kind::HaltWord)?;
    new_command(cursor, word.span, Action::Halt)
}

/// `sync name`
#[tactic(auto, unfolding(crate::specs::internal::Reading::synchronisation, crate::specs::internal::Readers::bind, crate::specs::internal::Readers::pure))]
fn sync(cursor: &mut Cursor<'_, '_>) -> Result<Command, Halt>
    ensures { Reads (reading.synchronisation (place cursor.old)) result (place cursor.new) }
{
    let start = cursor.take(Kind::SyncWord)?;
    let channel = cursor.identifier()?;
    let span = start.span.through(channel.span);
    new_command(cursor, span, Action::Sync(channel))
}

/// What an expression behind `sign` does with the name before it.
fn given_by(sign: Kind, name: Identifier, value: Expr) -> Action
    ensures { result ≡ by_sign.given_by sign name value }
{
    match sign {
        Kind::AssignSign => Action::Assign(name, value),
        _ => Action::Send(name, value),
    }
}

/// `:= expression` or `<- expression`, behind `name`.
#[tactic(auto, unfolding(crate::specs::internal::Readers::bind, crate::specs::internal::Readers::pure))]
fn give(
    cursor: &mut Cursor<'_, '_>,
    sign: Kind,
    depth: usize,
    name: Identifier,
) -> Result<Command, Halt>
    ensures { Reads (reading.giving sign (by_sign.given_by sign) (expression_in depth) name (place cursor.old)) result
        (place cursor.new) }
{
    cursor.take(sign)?;
    let value = expression(cursor, depth)?;
    let span = name.span.through(value.span);
    new_command(cursor, span, given_by(sign, name, value))
}

/// A variable's name, behind `channel ->`.
#[tactic(auto, unfolding(crate::specs::internal::Reading::receiving, crate::specs::internal::Readers::bind, crate::specs::internal::Readers::pure))]
fn receive(cursor: &mut Cursor<'_, '_>, channel: Identifier) -> Result<Command, Halt>
    ensures { Reads (reading.receiving channel (place cursor.old)) result (place cursor.new) }
{
    let target = cursor.identifier()?;
    let span = channel.span.through(target.span);
    let action = Action::Receive(channel, target);
    new_command(cursor, span, action)
}

/// The names in the parentheses of a call, none or more.
#[tactic(auto, unfolding(crate::specs::internal::Reading::arguments, crate::specs::internal::Readers::branch, crate::specs::internal::Readers::pure))]
fn arguments(cursor: &mut Cursor<'_, '_>) -> Result<Items<Identifier>, Halt>
    ensures { Reads (reading.arguments (place cursor.old)) result (place cursor.new) }
{
    if cursor.sees(Kind::Name) {
        names(cursor)
    } else {
        Ok(Items::new(cursor.alloc()))
    }
}

/// `( names )`, behind `procedure`.
#[tactic(auto, unfolding(crate::specs::internal::Reading::call, crate::specs::internal::Readers::bind, crate::specs::internal::Readers::pure))]
fn call(cursor: &mut Cursor<'_, '_>, procedure: Identifier) -> Result<Command, Halt>
    ensures { Reads (reading.call procedure (place cursor.old)) result (place cursor.new) }
{
    cursor.take(Kind::LeftParenthesis)?;
    let arguments = arguments(cursor)?;
    let end = cursor.take(Kind::RightParenthesis)?;
    let span = procedure.span.through(end.span);
    let action = Action::Call(procedure, arguments);
    new_command(cursor, span, action)
}

/// From `start` to the end of the last of `children`.
fn span_over(start: Span, children: &Items<Command>) -> Span
    ensures { result ≡ trees.over start children.now }
{
    match children.as_slice().last() {
        Some(last) => start.through(last.span),
        None => start,
    }
}

/// What commands with `sign` between them make.
fn made_of(sign: Kind, children: Items<Command>) -> Action
    ensures { result ≡ by_sign.made_of sign children }
{
    match sign {
        Kind::DoubleBar => Action::Parallel(children),
        _ => Action::Sequence(children),
    }
}

/// Commands with `sign` between them, which make one. One alone is itself.
#[derive(Drop)]
struct Joined<'r, R> {
    sign: Kind,
    item: &'r R,
}

impl<R: Rule<Tree = Command>> Joined<'_, R> {
    /// The command that `first` begins.
    #[tactic(auto, unfolding(crate::specs::internal::Reading::joined, crate::specs::internal::Reading::one_more, crate::specs::internal::Readers::bind, crate::specs::internal::Readers::pure))]
    fn joined(&self, cursor: &mut Cursor<'_, '_>, first: Command) -> Result<Command, Halt>
        requires { R.can_read self.now.item.now }
        ensures { Reads
            (reading.joined self.now.sign (by_sign.made_of self.now.sign) (R.reader self.now.item.now) first
            (place cursor.old)) result (place cursor.new) }
    {
        let start = first.span;
        let mut children = one(cursor.alloc(), first)?;
        let behind = Behind {
            sign: self.sign,
            item: self.item,
        };
        next(&behind, cursor, &mut children)?;
        several(&behind, cursor, &[self.sign], &mut children)?;
        let span = span_over(start, &children);
        new_command(cursor, span, made_of(self.sign, children))
    }
}

impl<R: Rule<Tree = Command>> Rule for Joined<'_, R> {
    type Tree = Command;

    ghost can_read = { λ joined. R.can_read joined.item.now };

    ghost reader = { λ joined.
        reading.alone_or_joined joined.sign (by_sign.made_of joined.sign) (R.reader joined.item.now) };

    #[tactic(auto, unfolding(crate::specs::internal::Reading::alone_or_joined, crate::specs::internal::Readers::branch, crate::specs::internal::Readers::bind, crate::specs::internal::Readers::pure))]
    fn read(&self, cursor: &mut Cursor<'_, '_>) -> Result<Command, Halt> {
        let first = self.item.read(cursor)?;
        if cursor.sees(self.sign) {
            self.joined(cursor, first)
        } else {
            Ok(first)
        }
    }
}

/// Reads what is made of simple commands, which `simple` reads.
#[derive(Drop)]
struct Parts<R> {
    /// How many levels may be written inside one another, the one that a command opens included.
    depth: usize,
    simple: R,
    ghost has_next: { depth + 1 < 2 ^ 64 },
}

impl<R: Rule<Tree = Command>> Parts<R> {
    /// Any command: parallels with `;` between them, of simple commands with `||` between them.
    #[tactic(auto, unfolding(crate::specs::internal::Reading::command_of, crate::specs::internal::Reading::parallel_of))]
    fn command(&self, cursor: &mut Cursor<'_, '_>) -> Result<Command, Halt>
        requires { R.can_read self.now.simple }
        ensures { Reads (command_of (R.reader self.now.simple) (place cursor.old)) result (place cursor.new) }
    {
        let parallel = Joined {
            sign: Kind::DoubleBar,
            item: &self.simple,
        };
        let sequence = Joined {
            sign: Kind::Semicolon,
            item: &parallel,
        };
        sequence.read(cursor)
    }

    /// `[ command ]`
    #[tactic(auto, unfolding(crate::specs::internal::Reading::bracketed, crate::specs::internal::Readers::bind, crate::specs::internal::Readers::pure))]
    fn bracketed(&self, cursor: &mut Cursor<'_, '_>) -> Result<Command, Halt>
        requires { R.can_read self.now.simple }
        ensures { Reads
            (reading.bracketed self.now.depth (expression_in (self.now.depth + 1))
            (command_of (R.reader self.now.simple)) (expression_in self.now.depth) (place cursor.old)) result
            (place cursor.new) }
    {
        cursor.open(self.depth, Kind::LeftBracket)?;
        let inner = self.command(cursor)?;
        cursor.take(Kind::RightBracket)?;
        Ok(inner)
    }

    /// `then command`
    #[tactic(auto, unfolding(crate::specs::internal::Reading::body, crate::specs::internal::Readers::bind, crate::specs::internal::Readers::pure))]
    fn body(&self, cursor: &mut Cursor<'_, '_>) -> Result<Command, Halt>
        requires { R.can_read self.now.simple }
        ensures { Reads
            (reading.body (command_of (R.reader self.now.simple)) (expression_in self.now.depth) (place cursor.old))
            result (place cursor.new) }
    {
        cursor.take(Kind::ThenWord)?;
        self.command(cursor)
    }

    /// `while expression then command end`, behind the `loop` at `start`.
    #[tactic(auto, unfolding(crate::specs::internal::Reading::while_loop, crate::specs::internal::Readers::bind, crate::specs::internal::Readers::pure))]
    fn while_loop(&self, cursor: &mut Cursor<'_, '_>, start: Span) -> Result<Command, Halt>
        requires { R.can_read self.now.simple }
        ensures { Reads
            (reading.while_loop (command_of (R.reader self.now.simple)) (expression_in self.now.depth) start
            (place cursor.old)) result (place cursor.new) }
    {
        cursor.take(Kind::WhileWord)?;
        let guard = expression(cursor, self.depth)?;
        let body = self.body(cursor)?;
        ended(cursor, start, Action::While(guard, body))
    }

    /// `command end`, behind the `loop` at `start`.
    #[tactic(auto, unfolding(crate::specs::internal::Reading::endless, crate::specs::internal::Readers::bind, crate::specs::internal::Readers::pure))]
    fn endless(&self, cursor: &mut Cursor<'_, '_>, start: Span) -> Result<Command, Halt>
        requires { R.can_read self.now.simple }
        ensures { Reads
            (reading.endless (command_of (R.reader self.now.simple)) (expression_in self.now.depth) start
            (place cursor.old)) result (place cursor.new) }
    {
        let body = self.command(cursor)?;
        ended(cursor, start, Action::Loop(body))
    }

    /// `loop .. end`
    #[tactic(auto, unfolding(crate::specs::internal::Reading::looping, crate::specs::internal::Readers::branch, crate::specs::internal::Readers::bind, crate::specs::internal::Readers::pure))]
    fn repeated(&self, cursor: &mut Cursor<'_, '_>) -> Result<Command, Halt>
        requires { R.can_read self.now.simple }
        ensures { Reads
            (reading.looping self.now.depth (expression_in (self.now.depth + 1)) (command_of (R.reader self.now.simple))
            (expression_in self.now.depth) (place cursor.old)) result (place cursor.new) }
    {
        let start = cursor.open(self.depth, Kind::LoopWord)?;
        if cursor.sees(Kind::WhileWord) {
            self.while_loop(cursor, start.span)
        } else {
            self.endless(cursor, start.span)
        }
    }

    /// `else command`, or nothing.
    #[tactic(auto, unfolding(crate::specs::internal::Reading::otherwise, crate::specs::internal::Reading::last_body, crate::specs::internal::Readers::branch, crate::specs::internal::Readers::bind, crate::specs::internal::Readers::pure))]
    fn otherwise(&self, cursor: &mut Cursor<'_, '_>) -> Result<Option<Command>, Halt>
        requires { R.can_read self.now.simple }
        ensures { Reads
            (reading.otherwise (command_of (R.reader self.now.simple)) (expression_in self.now.depth)
            (place cursor.old)) result (place cursor.new) }
    {
        if cursor.sees(Kind::ElseWord) {
            cursor.take(Kind::ElseWord)?;
            let last = self.command(cursor)?;
            Ok(Some(last))
        } else {
            Ok(None)
        }
    }

    /// `if .. end`
    #[tactic(auto, unfolding(crate::specs::internal::Reading::branching, crate::specs::internal::Readers::bind, crate::specs::internal::Readers::pure))]
    fn branching(&self, cursor: &mut Cursor<'_, '_>) -> Result<Command, Halt>
        requires { R.can_read self.now.simple }
        ensures { Reads
            (reading.branching self.now.depth (expression_in (self.now.depth + 1))
            (command_of (R.reader self.now.simple)) (expression_in self.now.depth) (place cursor.old)) result
            (place cursor.new) }
    {
        let start = cursor.open(self.depth, Kind::IfWord)?;
        let arms = separated(&GuardedRule { parts: self }, cursor, Kind::Bar)?;
        let otherwise = self.otherwise(cursor)?;
        let action = Action::If(arms, otherwise);
        ended(cursor, start.span, action)
    }

    /// `of .. end`, behind the `case` at `start` and `value`.
    #[tactic(auto, unfolding(crate::specs::internal::Readers::bind, crate::specs::internal::Readers::pure))]
    fn cases(&self, cursor: &mut Cursor<'_, '_>, start: Span, value: Expr) -> Result<Command, Halt>
        requires { R.can_read self.now.simple }
        ensures { Reads
            (reading.cases (command_of (R.reader self.now.simple)) (expression_in self.now.depth) start value
            (place cursor.old)) result (place cursor.new) }
    {
        cursor.take(Kind::OfWord)?;
        let arms = separated(&CaseArmRule { parts: self }, cursor, Kind::Bar)?;
        let otherwise = self.otherwise(cursor)?;
        let action = Action::Case(value, arms, otherwise);
        ended(cursor, start, action)
    }

    /// `case .. end`
    #[tactic(auto, unfolding(crate::specs::internal::Reading::casing, crate::specs::internal::Readers::bind, crate::specs::internal::Readers::pure))]
    fn case(&self, cursor: &mut Cursor<'_, '_>) -> Result<Command, Halt>
        requires { R.can_read self.now.simple }
        ensures { Reads
            (reading.casing self.now.depth (expression_in (self.now.depth + 1)) (command_of (R.reader self.now.simple))
            (expression_in self.now.depth) (place cursor.old)) result (place cursor.new) }
    {
        let start = cursor.open(self.depth, Kind::CaseWord)?;
        let value = expression(cursor, self.depth)?;
        self.cases(cursor, start.span, value)
    }

    /// `select .. end`
    #[tactic(auto, unfolding(crate::specs::internal::Reading::selecting, crate::specs::internal::Readers::bind, crate::specs::internal::Readers::pure))]
    fn select(&self, cursor: &mut Cursor<'_, '_>) -> Result<Command, Halt>
        requires { R.can_read self.now.simple }
        ensures { Reads
            (reading.selecting self.now.depth (expression_in (self.now.depth + 1))
            (command_of (R.reader self.now.simple)) (expression_in self.now.depth) (place cursor.old)) result
            (place cursor.new) }
    {
        let start = cursor.open(self.depth, Kind::SelectWord)?;
        let arms = separated(&ArmRule { parts: self }, cursor, Kind::Bar)?;
        ended(cursor, start.span, Action::Select(arms))
    }

    /// `| name then command end`, behind the `arbitrate` at `start` and its first arm.
    #[tactic(auto, unfolding(crate::specs::internal::Readers::bind, crate::specs::internal::Readers::pure))]
    fn against(&self, cursor: &mut Cursor<'_, '_>, start: Span, first: Arm) -> Result<Command, Halt>
        requires { R.can_read self.now.simple }
        ensures { Reads
            (reading.against (command_of (R.reader self.now.simple)) (expression_in self.now.depth) start first
            (place cursor.old)) result (place cursor.new) }
    {
        cursor.take(Kind::Bar)?;
        let second = ArmRule { parts: self }.read(cursor)?;
        let second = Boxed::new(cursor.alloc(), second)?;
        ended(cursor, start, Action::Arbitrate(first, second))
    }

    /// `arbitrate .. end`
    #[tactic(auto, unfolding(crate::specs::internal::Reading::arbitrating, crate::specs::internal::Readers::bind, crate::specs::internal::Readers::pure))]
    fn arbitrate(&self, cursor: &mut Cursor<'_, '_>) -> Result<Command, Halt>
        requires { R.can_read self.now.simple }
        ensures { Reads
            (reading.arbitrating self.now.depth (expression_in (self.now.depth + 1))
            (command_of (R.reader self.now.simple)) (expression_in self.now.depth) (place cursor.old)) result
            (place cursor.new) }
    {
        let start = cursor.open(self.depth, Kind::ArbitrateWord)?;
        let first = ArmRule { parts: self }.read(cursor)?;
        self.against(cursor, start.span, first)
    }

    /// `then command end`, behind `channel ->`.
    #[tactic(auto, unfolding(crate::specs::internal::Reading::enclosing, crate::specs::internal::Readers::bind, crate::specs::internal::Readers::pure))]
    fn input(&self, cursor: &mut Cursor<'_, '_>, channel: Identifier) -> Result<Command, Halt>
        requires { R.can_read self.now.simple }
        ensures { Reads
            (reading.enclosing self.now.depth (expression_in (self.now.depth + 1))
            (command_of (R.reader self.now.simple)) (expression_in self.now.depth) channel (place cursor.old)) result
            (place cursor.new) }
    {
        cursor.open(self.depth, Kind::ThenWord)?;
        let body = self.command(cursor)?;
        ended(cursor, channel.span, Action::Input(channel, body))
    }

    /// `->` and what stands behind it, behind `channel`.
    #[tactic(auto, unfolding(crate::specs::internal::Reading::incoming, crate::specs::internal::Readers::branch, crate::specs::internal::Readers::bind, crate::specs::internal::Readers::pure))]
    fn incoming(&self, cursor: &mut Cursor<'_, '_>, channel: Identifier) -> Result<Command, Halt>
        requires { R.can_read self.now.simple }
        ensures { Reads
            (reading.incoming self.now.depth (expression_in (self.now.depth + 1))
            (command_of (R.reader self.now.simple)) (expression_in self.now.depth) channel (place cursor.old)) result
            (place cursor.new) }
    {
        cursor.take(Kind::ReceiveSign)?;
        if cursor.sees(Kind::ThenWord) {
            self.input(cursor, channel)
        } else {
            receive(cursor, channel)
        }
    }

    /// What begins with a name.
    #[tactic(auto, unfolding(crate::specs::internal::Reading::named, crate::specs::internal::Reading::assignment, crate::specs::internal::Reading::sending, crate::specs::internal::Readers::branch, crate::specs::internal::Readers::bind, crate::specs::internal::Readers::pure))]
    fn named(&self, cursor: &mut Cursor<'_, '_>) -> Result<Command, Halt>
        requires { R.can_read self.now.simple }
        ensures { Reads
            (reading.named self.now.depth (expression_in (self.now.depth + 1)) (command_of (R.reader self.now.simple))
            (expression_in self.now.depth) (place cursor.old)) result (place cursor.new) }
    {
        let name = cursor.identifier()?;
        if cursor.sees(Kind::AssignSign) {
            give(cursor, Kind::AssignSign, self.depth + 1, name)
        } else if cursor.sees(Kind::SendSign) {
            give(cursor, Kind::SendSign, self.depth + 1, name)
        } else if cursor.sees(Kind::ReceiveSign) {
            self.incoming(cursor, name)
        } else {
            call(cursor, name)
        }
    }

    /// A command that is no sequence and no parallel, unless in brackets.
    #[tactic(auto, unfolding(crate::specs::internal::Reading::any_simple, crate::specs::internal::Readers::branch))]
    fn choice(&self, cursor: &mut Cursor<'_, '_>) -> Result<Command, Halt>
        requires { R.can_read self.now.simple }
        ensures { Reads
            (reading.any_simple self.now.depth (expression_in (self.now.depth + 1))
            (command_of (R.reader self.now.simple)) (expression_in self.now.depth) (place cursor.old)) result
            (place cursor.new) }
    {
        if cursor.sees(Kind::LeftBracket) {
            self.bracketed(cursor)
        } else if cursor.sees(Kind::LoopWord) {
            self.repeated(cursor)
        } else if cursor.sees(Kind::IfWord) {
            self.branching(cursor)
        } else if cursor.sees(Kind::CaseWord) {
            self.case(cursor)
        } else if cursor.sees(Kind::SelectWord) {
            self.select(cursor)
        } else if cursor.sees(Kind::ArbitrateWord) {
            self.arbitrate(cursor)
        } else if cursor.sees(Kind::SyncWord) {
            sync(cursor)
        } else if cursor.sees(Kind::Name) {
            self.named(cursor)
        } else if cursor.sees(Kind::ContinueWord) {
            nothing(cursor)
        } else {
            halt(cursor)
        }
    }

    /// The same, and closes the levels that it opened.
    #[tactic(auto, using(crate::proofs::Closed::closes), unfolding(crate::specs::internal::Reading::simple_of, crate::specs::internal::Readers::inside))]
    fn whole(&self, cursor: &mut Cursor<'_, '_>) -> Result<Command, Halt>
        requires { R.can_read self.now.simple }
        ensures { Reads
            (reading.simple_of self.now.depth (expression_in (self.now.depth + 1))
            (command_of (R.reader self.now.simple)) (expression_in self.now.depth) (place cursor.old)) result
            (place cursor.new) }
    {
        let levels = cursor.levels();
        let whole = self.choice(cursor);
        cursor.close_to(levels);
        whole
    }
}

/// `expression then command`
#[derive(Drop)]
struct GuardedRule<'p, R> {
    parts: &'p Parts<R>,
}

impl<R: Rule<Tree = Command>> Rule for GuardedRule<'_, R> {
    type Tree = Guarded;

    ghost can_read = { λ arm. R.can_read arm.parts.now.simple };

    ghost reader = { λ arm.
        reading.guarded (command_of (R.reader arm.parts.now.simple)) (expression_in arm.parts.now.depth) };

    #[tactic(auto, unfolding(crate::specs::internal::Reading::guarded, crate::specs::internal::Readers::bind, crate::specs::internal::Readers::pure))]
    fn read(&self, cursor: &mut Cursor<'_, '_>) -> Result<Guarded, Halt> {
        let guard = expression(cursor, self.parts.depth)?;
        let body = self.parts.body(cursor)?;
        Ok(Guarded { guard, body })
    }
}

/// `labels then command`
#[derive(Drop)]
struct CaseArmRule<'p, R> {
    parts: &'p Parts<R>,
}

impl<R: Rule<Tree = Command>> Rule for CaseArmRule<'_, R> {
    type Tree = CaseArm;

    ghost can_read = { λ arm. R.can_read arm.parts.now.simple };

    ghost reader = { λ arm.
        reading.case_arm (command_of (R.reader arm.parts.now.simple)) (expression_in arm.parts.now.depth) };

    #[tactic(auto, unfolding(crate::specs::internal::Reading::case_arm, crate::specs::internal::Readers::bind, crate::specs::internal::Readers::pure))]
    fn read(&self, cursor: &mut Cursor<'_, '_>) -> Result<CaseArm, Halt> {
        let labels = labels(cursor)?;
        let body = self.parts.body(cursor)?;
        Ok(CaseArm { labels, body })
    }
}

/// `name then command`
#[derive(Drop)]
struct ArmRule<'p, R> {
    parts: &'p Parts<R>,
}

impl<R: Rule<Tree = Command>> Rule for ArmRule<'_, R> {
    type Tree = Arm;

    ghost can_read = { λ arm. R.can_read arm.parts.now.simple };

    ghost reader = { λ arm.
        reading.arm_of (command_of (R.reader arm.parts.now.simple)) (expression_in arm.parts.now.depth) };

    #[tactic(auto, unfolding(crate::specs::internal::Reading::arm_of, crate::specs::internal::Readers::bind, crate::specs::internal::Readers::pure))]
    fn read(&self, cursor: &mut Cursor<'_, '_>) -> Result<Arm, Halt> {
        let channel = cursor.identifier()?;
        let body = self.parts.body(cursor)?;
        Ok(Arm { channel, body })
    }
}

/// A simple command in a level, which a function value reads.
#[derive(Drop)]
struct Inside<F> {
    depth: usize,
    simple: F,
}

impl<F: Fn(&mut Cursor<'_, '_>, usize) -> Result<Command, Halt>> Rule for Inside<F> {
    type Tree = Command;

    ghost can_read = { λ inside.
        ReadsAt inside.depth (simple_in inside.depth) (F.pre inside.simple) (F.post inside.simple) };

    ghost reader = { λ inside. simple_in inside.depth };

    fn read(&self, cursor: &mut Cursor<'_, '_>) -> Result<Command, Halt> {
        (self.simple)(cursor, self.depth)
    }
}

/// A command that is no sequence and no parallel, unless in brackets, in a level, inside which so
/// many may be written, this one included.
fn simple(cursor: &mut Cursor<'_, '_>, depth: usize) -> Result<Command, Halt>
    ensures { Reads (simple_in depth (place cursor.old)) result (place cursor.new) }
{
    if depth == 0 {
        return Err(Halt::Unexpected);
    }
    let depth = depth - 1;
    Parts {
        depth,
        simple: Inside { depth, simple },
    }
    .whole(cursor)
}

/// A command in a level, inside which so many may be written, this one included.
pub fn command(cursor: &mut Cursor<'_, '_>, depth: usize) -> Result<Command, Halt>
    requires { depth + 1 < 2 ^ 64 }
    ensures { Reads (command_in depth (place cursor.old)) result (place cursor.new) }
{
    Parts {
        depth,
        simple: Inside { depth, simple },
    }
    .command(cursor)
}
