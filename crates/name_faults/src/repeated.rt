// Refusals 8, 12 and 17: what stands twice.
ghost use Rattle.std.specs.Prelude.{◌≡◌, ◌≢◌, ◌<◌, ◌≤◌, IfSome};
ghost use Rattle.written_names.specs.Texts.{text_of};

use crate::kinds::kind_text;
use crate::names::{Context, role_at, site_text};
use findings::{Finding, short, text_between};
use std::alloc::AllocError;
use written_names::{Declared, Kind, Role, Site, find as declaration_of, text_at, width_of_number};

/// A name that is declared already.
pub fn find_name(context: Context<'_>, finding: &mut Finding) -> Result<(), AllocError> {
    let name = text_between(context.source, finding.start, finding.stop);
    let Some(first) = first_declared(context, name.as_bytes(), finding.start) else {
        return finding.say(&["`", name, "` is declared already"]);
    };
    finding.say(&["`", name, "` is "])?;
    finding.say(&[kind_text(first.kind), " already"])?;
    finding.add_beside(first.span, "declared here")?;
    finding.advise(&[
        "take another name for one of the two: a name that is visible is not declared again",
    ])
}

/// The first declaration of a name that stands elsewhere than at the offset.
fn first_declared(context: Context<'_>, name: &[u8], offset: u64) -> Option<Declared>
    ensures { IfSome result (λ one. (one.span.start ≢ offset)
        × (text_of context.entry.source.now one.span ≡ name.now)) }
{
    for one in context.visible {
        if one.span.start != offset && *text_at(context.source, one.span) == *name {
            return Some(*one);
        }
    }
    None
}

/// The site that begins at the offset as a label or as an arm.
fn arm_at(context: Context<'_>) -> Option<Site> {
    for site in context.sites {
        if site.span.start == context.offset && matches!(site.role, Role::Label | Role::Arm) {
            return Some(*site);
        }
    }
    None
}

/// A label or an arm that stands twice, or a label that is too wide.
pub fn find_arm(context: Context<'_>, finding: &mut Finding) -> Result<(), AllocError> {
    let text = text_between(context.source, finding.start, finding.stop);
    let Some(site) = arm_at(context) else {
        return finding.say(&["`", text, "` stands in two arms, or is too wide"]);
    };
    if site.role == Role::Arm {
        finding.say(&["`", text, "` stands in two arms of this choice"])?;
        if let Some(first) = earlier_arm(context, site) {
            finding.add_beside(first.span, "the first")?;
        }
        return finding.advise(&[
            "put what both arms do into one, and decide inside it by `if` or `case`",
        ]);
    }
    find_label(context, site, text, finding)
}

/// An earlier arm of the same choice on the same channel.
fn earlier_arm(context: Context<'_>, arm: Site) -> Option<Site>
    ensures { IfSome result (λ one. (one.choice ≡ arm.choice) × (one.span.start < arm.span.start)
        × (text_of context.entry.source.now one.span ≡ text_of context.entry.source.now arm.span)) }
{
    for site in context.sites {
        if site.role == Role::Arm
            && site.choice == arm.choice
            && site.span.start < arm.span.start
            && *site_text(context, *site) == *site_text(context, arm)
        {
            return Some(*site);
        }
    }
    None
}

/// The value of a label.
fn label_value(context: Context<'_>, label: Site) -> Option<u64> {
    match label.number {
        Some(number) => Some(number),
        None => {
            let found = declaration_of(context.source, context.visible, site_text(context, label))?;
            if found.kind == Kind::Element {
                Some(found.number)
            } else {
                None
            }
        }
    }
}

/// The width of a label: of a number the least, of an element that of its enumeration.
fn label_width(context: Context<'_>, label: Site) -> Option<u64> {
    match label.number {
        Some(number) => Some(width_of_number(number)),
        None => declaration_of(context.source, context.visible, site_text(context, label))?.width,
    }
}

/// The expression of the `case` to which a label belongs.
fn subject_of(context: Context<'_>, label: Site) -> Option<Site> {
    for site in context.sites {
        if site.role == Role::Subject && site.choice == label.choice {
            return Some(*site);
        }
    }
    None
}

/// An earlier label of the same `case` with the same value.
fn earlier_label(context: Context<'_>, label: Site) -> Option<Site> {
    let value = label_value(context, label)?;
    for site in context.sites {
        if site.role == Role::Label
            && site.choice == label.choice
            && site.span.start < label.span.start
            && label_value(context, *site) == Some(value)
        {
            return Some(*site);
        }
    }
    None
}

/// A label that stands twice or is too wide.
fn find_label(
    context: Context<'_>,
    label: Site,
    text: &str,
    finding: &mut Finding,
) -> Result<(), AllocError> {
    let width = label_width(context, label).unwrap_or(0);
    let subject = subject_of(context, label);
    let room = subject.and_then(|site| site.width).unwrap_or(u64::MAX);
    if width > room {
        let text = short(text);
        write!(
            finding.what,
            "label `{text}` is {width} bits wide, and the expression of the `case` {room}"
        )?;
        if let Some(site) = subject {
            finding.add_beside(site.span, "the expression")?;
        }
        return finding.advise(&[
            "a label never comes that is wider than the expression: take it out, or widen the expression by `(e as T)`",
        ]);
    }
    let value = label_value(context, label).unwrap_or(0);
    let text = short(text);
    write!(
        finding.what,
        "label `{text}` stands for {value}, as an earlier label of this `case` does"
    )?;
    if let Some(first) = earlier_label(context, label) {
        finding.add_beside(first.span, "the earlier label")?;
    }
    finding.advise(&["each value has one arm: take one of the two out"])
}

/// The innermost arm that is open on the name around the offset: the last that begins, since arms stand in one another.
fn enclosing(context: Context<'_>, name: &[u8]) -> Option<Site>
    ensures { IfSome result (λ one. (one.body.0 ≤ context.entry.offset) × (context.entry.offset < one.body.1)
        × (text_of context.entry.source.now one.span ≡ name.now)) }
{
    for site in context.sites.iter().rev() {
        if matches!(site.role, Role::Arm | Role::Opened)
            && site.body.0 <= context.offset
            && context.offset < site.body.1
            && *site_text(context, *site) == *name
        {
            return Some(*site);
        }
    }
    None
}

/// Whether a name is that of a sync or a sync port, which carry no value.
fn is_sync(context: Context<'_>, name: &[u8]) -> bool {
    match declaration_of(context.source, context.visible, name) {
        Some(found) => matches!(found.kind, Kind::Sync | Kind::SyncPort),
        None => false,
    }
}

/// A channel that is used in an arm that is open on it.
pub fn find_enclosed(context: Context<'_>, finding: &mut Finding) -> Result<(), AllocError> {
    let name = text_between(context.source, finding.start, finding.stop);
    let without_value = is_sync(context, name.as_bytes());
    let what = if without_value {
        "and a sync carries no value"
    } else {
        "where its name is the value that was received"
    };
    finding.say(&["`", name, "` is open around this place, ", what])?;
    if let Some(arm) = enclosing(context, name.as_bytes()) {
        finding.add_beside(arm.span, "opened here")?;
    }
    if without_value {
        return advise_sync(context, name, finding);
    }
    finding.advise(&[
        "read the value by the name itself, as in `x := ",
        name,
        "`, and use the channel again behind the `end`",
    ])
}

/// What helps where a sync is used in an arm that is open on it.
fn advise_sync(context: Context<'_>, name: &str, finding: &mut Finding) -> Result<(), AllocError> {
    if matches!(role_at(context.sites, context.offset), Some(Role::Read)) {
        return finding.advise(&[
            "take `",
            name,
            "` out of the expression, or declare a channel with data in its place",
        ]);
    }
    finding.advise(&["use the sync again behind the `end`"])
}
