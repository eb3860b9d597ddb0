// Refusals 10 and 11: widths.
use crate::names::{Context, site_text};
use findings::{Finding, short, text_of};
use lexer::{Kind as TokenKind, Token};
use std::alloc::AllocError;
use written_names::{Declared, Role, Site, find as declaration_of};

/// So many bits a value has at most. A sum that would have more is refused for itself.
const MOST: u64 = 64;

/// What is too wide at the fault.
pub fn find(
    context: Context<'_>,
    tokens: &[Token],
    finding: &mut Finding,
) -> Result<(), AllocError> {
    if let Some(bits) = declared_width(tokens, context.offset) {
        write!(
            finding.what,
            "a width is from 1 to 64 bits, and this one is {bits}"
        )?;
        return finding.advise(&[if bits == 0 {
            "a value has one bit at least: a `sync` carries none"
        } else {
            "a value that is wider goes in parts, over two variables or channels"
        }]);
    }
    if let Some((target, value)) = handed_over(context) {
        return find_value(context, target, value, finding);
    }
    if let Some((from, into)) = received(context) {
        return find_received(context, from, into, finding);
    }
    finding.say(&["this sum would be 65 bits wide, and a value has 64 at most"])?;
    finding.advise(&[
        "a sum is one bit wider than the wider of its operands: cut one first, as in `(a as 63 bits) + b`",
    ])
}

/// The number of a width that is declared at the offset.
fn declared_width(tokens: &[Token], offset: u64) -> Option<u64> {
    let mut number = None;
    for token in tokens {
        if token.kind == TokenKind::BitsWord && number.is_some() {
            return number;
        }
        number = if token.kind == TokenKind::Number && token.span.start == offset {
            Some(token.number)
        } else {
            None
        };
    }
    None
}

/// The target and the value of the assignment or the send whose value begins at the fault and is wider than the target.
fn handed_over(context: Context<'_>) -> Option<(Site, Site)> {
    let mut before: Option<Site> = None;
    for site in context.sites {
        if matches!(site.role, Role::AssignedValue | Role::SentValue)
            && site.span.start == context.offset
            && let Some(target) = before
            && site.width? <= MOST
            && site.width? > declared(context, target)?.width?
        {
            return Some((target, *site));
        }
        before = Some(*site);
    }
    None
}

/// The channel and the variable of the receive whose variable stands at the fault.
fn received(context: Context<'_>) -> Option<(Site, Site)> {
    let mut before: Option<Site> = None;
    for site in context.sites {
        if site.role == Role::ReceivedInto
            && site.span.start == context.offset
            && let Some(from) = before
        {
            return Some((from, *site));
        }
        before = Some(*site);
    }
    None
}

/// The declaration of a site's name.
fn declared(context: Context<'_>, site: Site) -> Option<Declared> {
    declaration_of(context.source, context.visible, site_text(context, site))
}

/// The width of what a site's name is declared as, or 0.
fn width_at(context: Context<'_>, site: Site) -> u64 {
    declared(context, site)
        .and_then(|one| one.width)
        .unwrap_or(0)
}

/// Marks the declaration of a site's name.
fn add_declared(context: Context<'_>, site: Site, finding: &mut Finding) -> Result<(), AllocError> {
    match declared(context, site) {
        Some(one) => finding.add_beside(one.span, "declared here"),
        None => Ok(()),
    }
}

/// A value that is wider than what takes it.
fn find_value(
    context: Context<'_>,
    target: Site,
    value: Site,
    finding: &mut Finding,
) -> Result<(), AllocError> {
    finding.stop = value.span.stop;
    let wide = value.width.unwrap_or(0);
    let room = width_at(context, target);
    let name = short(text_of(context.source, target.span));
    let text = short(text_of(context.source, value.span));
    write!(
        finding.what,
        "`{text}` is {wide} bits wide, and `{name}` has {room}"
    )?;
    add_declared(context, target, finding)?;
    if text.bytes().all(|byte| byte.is_ascii_digit()) {
        let most = greatest(room);
        return write!(
            finding.help,
            "the greatest value of {room} bits is {most}: make `{name}` wider, or the number smaller"
        );
    }
    let inner = without_parentheses(text);
    write!(
        finding.help,
        "cut it by `({inner} as {room} bits)`, or make `{name}` wider"
    )
}

/// The greatest value of a width.
pub fn greatest(width: u64) -> u64 {
    if width >= MOST {
        return u64::MAX;
    }
    1_u64.checked_shl(width as u32).unwrap_or(0).wrapping_sub(1)
}

/// What stands in the parentheses around a text, where these are one pair and there is no cast in them.
fn without_parentheses(text: &str) -> &str {
    let bare = text
        .strip_prefix('(')
        .and_then(|rest| rest.strip_suffix(')'))
        .unwrap_or(text);
    if is_one_group(bare) && !bare.contains(" as ") {
        bare
    } else {
        text
    }
}

/// Whether no parenthesis in a text closes one that stands before it.
fn is_one_group(text: &str) -> bool {
    let mut depth = 0_usize;
    for byte in text.bytes() {
        if byte == b'(' {
            depth = depth.saturating_add(1);
        }
        if byte == b')' {
            if depth == 0 {
                return false;
            }
            depth = depth.saturating_sub(1);
        }
    }
    true
}

/// A channel that is wider than the variable that takes its value.
fn find_received(
    context: Context<'_>,
    from: Site,
    into: Site,
    finding: &mut Finding,
) -> Result<(), AllocError> {
    let channel = short(text_of(context.source, from.span));
    let variable = short(text_of(context.source, into.span));
    let wide = width_at(context, from);
    let room = width_at(context, into);
    write!(
        finding.what,
        "`{channel}` carries {wide} bits, and `{variable}` has {room}"
    )?;
    add_declared(context, from, finding)?;
    add_declared(context, into, finding)?;
    write!(
        finding.help,
        "make `{variable}` {wide} bits wide, or cut the value as it comes: `{channel} -> then {variable} := ({channel} as {room} bits) end`"
    )
}

/// A guard that is not one bit wide.
pub fn find_guard(context: Context<'_>, finding: &mut Finding) -> Result<(), AllocError> {
    for site in context.sites {
        if site.role == Role::Guard && site.span.start == context.offset {
            finding.stop = site.span.stop;
            let width = site.width.unwrap_or(0);
            let text = short(text_of(context.source, site.span));
            write!(
                finding.what,
                "the condition `{text}` is {width} bits wide, and a condition is 1 bit"
            )?;
            return finding.advise(&["compare it, as in `", text, " /= 0`"]);
        }
    }
    finding.say(&["this condition is not one bit wide"])?;
    finding.advise(&["compare it, as in `x /= 0`"])
}
