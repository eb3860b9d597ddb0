// The sites of a body, in the order of the source.
use crate::declarations::Declared;
use crate::places::{Role, Site};
use crate::widths::{Known, width_of};
use std::alloc::{AllocError, Global};
use syntax::{
    Action, Arm, CaseArm, Command, Expr, Guarded, Identifier, Label, LabelValue, Procedure, Shape,
    Span, TypeName,
};

/// What sites are found by, and those that are found.
#[derive(Drop)]
struct Walk<'a> {
    known: Known<'a>,
    /// The offset for which the widths are asked.
    offset: u64,
    sites: Vec<Site>,
}

/// A site without width, number or body.
fn plain(role: Role, span: Span) -> Site {
    Site {
        role,
        span,
        width: None,
        number: None,
        body: (0, 0),
        choice: 0,
    }
}

/// Adds a name at its place.
fn add_name(walk: &mut Walk<'_>, role: Role, name: &Identifier) -> Result<(), AllocError> {
    walk.sites.push(plain(role, name.span))?;
    Ok(())
}

/// Adds the type of a cast.
fn add_cast(walk: &mut Walk<'_>, name: &TypeName) -> Result<(), AllocError> {
    match name {
        TypeName::Named(identifier) => add_name(walk, Role::CastType, identifier.get()),
        TypeName::Bits(_) => Ok(()),
    }
}

/// Adds the names that an expression reads, and the types of its casts.
fn add_reads(expression: &Expr, walk: &mut Walk<'_>) -> Result<(), AllocError> {
    match expression.shape.get() {
        Shape::Number(_) => Ok(()),
        Shape::Name(name) => {
            let start = expression.own_start;
            let span = Span {
                start,
                stop: start.saturating_add(name.text().len() as u64),
                line: expression.span.line,
            };
            walk.sites.push(plain(Role::Read, span))?;
            Ok(())
        }
        Shape::Binary(_, left, right) => {
            add_reads(left, walk)?;
            add_reads(right, walk)
        }
        Shape::Not(operand) => add_reads(operand, walk),
        Shape::Cast(operand, name) => {
            add_reads(operand, walk)?;
            add_cast(walk, name)
        }
    }
}

/// Whether the offset that is asked for lies in the span.
fn is_asked(walk: &Walk<'_>, span: Span) -> bool {
    span.start <= walk.offset && walk.offset <= span.stop
}

/// Adds an expression with its width, which is found where the offset lies in `within`, and what it reads.
fn add_expression(
    walk: &mut Walk<'_>,
    role: Role,
    expression: &Expr,
    within: Span,
    choice: u64,
) -> Result<(), AllocError> {
    let width = if is_asked(walk, within) {
        width_of(expression, walk.known)
    } else {
        None
    };
    walk.sites.push(Site {
        role,
        span: expression.span,
        width,
        number: None,
        body: (0, 0),
        choice,
    })?;
    add_reads(expression, walk)
}

/// Adds the channel of an arm, which is open in `body`.
fn add_opened(
    walk: &mut Walk<'_>,
    role: Role,
    channel: &Identifier,
    body: Span,
    choice: u64,
) -> Result<(), AllocError> {
    walk.sites.push(Site {
        role,
        span: channel.span,
        width: None,
        number: None,
        body: (body.start, body.stop),
        choice,
    })?;
    Ok(())
}

/// Adds a label.
fn add_label(walk: &mut Walk<'_>, label: &Label, choice: u64) -> Result<(), AllocError> {
    let number = match &label.value {
        LabelValue::Number(number) => Some(*number),
        LabelValue::Name(_) => None,
    };
    walk.sites.push(Site {
        role: Role::Label,
        span: label.span,
        width: None,
        number,
        body: (0, 0),
        choice,
    })?;
    Ok(())
}

/// Adds labels.
fn add_labels(walk: &mut Walk<'_>, labels: &[Label], choice: u64) -> Result<(), AllocError> {
    for label in labels {
        add_label(walk, label, choice)?;
    }
    Ok(())
}

/// Adds the arguments of a call.
fn add_arguments(walk: &mut Walk<'_>, arguments: &[Identifier]) -> Result<(), AllocError> {
    for argument in arguments {
        add_name(walk, Role::Argument, argument)?;
    }
    Ok(())
}

/// Adds the sites of a command.
#[cycle(walk)]
fn add_command(command: &Command, walk: &mut Walk<'_>) -> Result<(), AllocError> {
    let span = command.span;
    match command.action.get() {
        Action::Continue | Action::Halt => Ok(()),
        Action::Sync(channel) => add_name(walk, Role::Synced, channel),
        Action::Loop(body) => add_command(body, walk),
        Action::While(guard, body) => {
            add_expression(walk, Role::Guard, guard, guard.span, span.start)?;
            add_command(body, walk)
        }
        Action::If(arms, last) => {
            add_guarded(arms.as_slice(), walk)?;
            add_last(last, walk)
        }
        Action::Case(subject, arms, last) => {
            add_expression(walk, Role::Subject, subject, span, span.start)?;
            add_case(arms.as_slice(), walk, span.start)?;
            add_last(last, walk)
        }
        Action::Select(arms) => add_arms(arms.as_slice(), walk, span.start),
        Action::Arbitrate(one, other) => {
            add_arm(one, walk, span.start)?;
            add_arm(other.get(), walk, span.start)
        }
        Action::Assign(variable, value) => {
            add_name(walk, Role::Assigned, variable)?;
            add_expression(walk, Role::AssignedValue, value, span, span.start)
        }
        Action::Send(channel, value) => {
            add_name(walk, Role::SentOn, channel)?;
            add_expression(walk, Role::SentValue, value, span, span.start)
        }
        Action::Receive(channel, variable) => {
            add_name(walk, Role::ReceivedFrom, channel)?;
            add_name(walk, Role::ReceivedInto, variable)
        }
        Action::Input(channel, body) => {
            add_opened(walk, Role::Opened, channel, body.span, span.start)?;
            add_command(body, walk)
        }
        Action::Call(called, arguments) => {
            add_name(walk, Role::Called, called)?;
            add_arguments(walk, arguments.as_slice())
        }
        Action::Sequence(children) | Action::Parallel(children) => {
            add_children(children.as_slice(), walk)
        }
    }
}

/// Adds the sites of commands.
#[cycle(walk)]
fn add_children(children: &[Command], walk: &mut Walk<'_>) -> Result<(), AllocError> {
    for child in children {
        add_command(child, walk)?;
    }
    Ok(())
}

/// Adds the sites of the arms of an `if`.
#[cycle(walk)]
fn add_guarded(arms: &[Guarded], walk: &mut Walk<'_>) -> Result<(), AllocError> {
    for arm in arms {
        add_expression(walk, Role::Guard, &arm.guard, arm.guard.span, 0)?;
        add_command(&arm.body, walk)?;
    }
    Ok(())
}

/// Adds the sites of the arms of a `case`.
#[cycle(walk)]
fn add_case(arms: &[CaseArm], walk: &mut Walk<'_>, choice: u64) -> Result<(), AllocError> {
    for arm in arms {
        add_labels(walk, arm.labels.as_slice(), choice)?;
        add_command(&arm.body, walk)?;
    }
    Ok(())
}

/// Adds the sites of the arms of a `select`.
#[cycle(walk)]
fn add_arms(arms: &[Arm], walk: &mut Walk<'_>, choice: u64) -> Result<(), AllocError> {
    for arm in arms {
        add_arm(arm, walk, choice)?;
    }
    Ok(())
}

/// Adds the sites of an arm of a `select` or an `arbitrate`.
#[cycle(walk)]
fn add_arm(arm: &Arm, walk: &mut Walk<'_>, choice: u64) -> Result<(), AllocError> {
    add_opened(walk, Role::Arm, &arm.channel, arm.body.span, choice)?;
    add_command(&arm.body, walk)
}

/// Adds the sites of what stands behind an `else`.
#[cycle(walk)]
fn add_last(last: &Option<Command>, walk: &mut Walk<'_>) -> Result<(), AllocError> {
    match last {
        Some(body) => add_command(body, walk),
        None => Ok(()),
    }
}

/// What stands in the body of a procedure, in the order of the source. Widths of expressions are found where `offset`
/// lies in their command: of a guard, in itself.
pub fn sites(
    alloc: Global,
    source: &[u8],
    visible: &[Declared],
    procedure: &Procedure,
    offset: u64,
) -> Result<Vec<Site>, AllocError> {
    let mut walk = Walk {
        known: Known { source, visible },
        offset,
        sites: Vec::new(alloc),
    };
    add_command(&procedure.body, &mut walk)?;
    let Walk {
        known: _,
        offset: _,
        sites,
    } = walk;
    Ok(sites)
}
