// Refusal 13: arguments and ports.
use crate::kinds::kind_text;
use crate::names::{Context, site_text};
use findings::{Finding, short, text_between, text_of};
use std::alloc::AllocError;
use written_names::{Declared, Kind, Role, Site, find as declaration_of, ports};

/// The call of a procedure whose arguments do not fit.
pub fn find(context: Context<'_>, finding: &mut Finding) -> Result<(), AllocError> {
    let alloc = finding.alloc;
    let name = text_between(context.source, finding.start, finding.stop);
    let arguments = arguments_at(context, finding)?;
    let Some(called) = declaration_of(context.source, context.visible, name.as_bytes()) else {
        return finding.say(&[
            "the arguments of this call do not fit the ports of `",
            name,
            "`",
        ]);
    };
    let index = (called.number as usize).wrapping_sub(1);
    let Some(procedure) = context.description.procedures.get(index) else {
        return finding.say(&[
            "the arguments of this call do not fit the ports of `",
            name,
            "`",
        ]);
    };
    let ports = ports(alloc, context.source, context.types, procedure)?;
    let misfit = Misfit {
        context,
        name,
        called,
        ports: ports.as_slice(),
        arguments: arguments.as_slice(),
    };
    if ports.len() != arguments.len() {
        return find_number(misfit, finding);
    }
    if let Some((first, second)) = twice(misfit) {
        return find_twice(misfit, first, second, finding);
    }
    find_pair(misfit, finding)
}

/// A call that does not fit.
#[derive(Clone, Copy)]
struct Misfit<'a> {
    context: Context<'a>,
    name: &'a str,
    called: Declared,
    ports: &'a [Declared],
    arguments: &'a [Site],
}

/// The arguments of the call at the fault.
fn arguments_at(context: Context<'_>, finding: &Finding) -> Result<Vec<Site>, AllocError> {
    let mut arguments = Vec::new(finding.alloc);
    let mut is_inside = false;
    for site in context.sites {
        if site.role != Role::Argument {
            is_inside = site.role == Role::Called && site.span.start == context.offset;
        } else if is_inside {
            arguments.push(*site)?;
        }
    }
    Ok(arguments)
}

/// Another number of arguments than of ports.
fn find_number(misfit: Misfit<'_>, finding: &mut Finding) -> Result<(), AllocError> {
    let name = short(misfit.name);
    let wanted = misfit.ports.len();
    let given = misfit.arguments.len();
    let ports = if wanted == 1 { "port" } else { "ports" };
    let arguments = if given == 1 { "argument" } else { "arguments" };
    write!(
        finding.what,
        "`{name}` has {wanted} {ports}, and this call gives it {given} {arguments}"
    )?;
    finding.add_beside(misfit.called.span, "declared here")?;
    finding.advise(&[
        "a call names a channel for each port, in the order of the ports: `",
        name,
        " (",
    ])?;
    let mut between = "";
    for port in misfit.ports {
        let text = text_of(misfit.context.source, port.span);
        finding.advise(&[between, text])?;
        between = ", ";
    }
    finding.advise(&[")`"])
}

/// Two arguments that are one channel.
fn twice(misfit: Misfit<'_>) -> Option<(Site, Site)> {
    for second in misfit.arguments {
        for first in misfit.arguments {
            if first.span.start < second.span.start
                && *site_text(misfit.context, *first) == *site_text(misfit.context, *second)
            {
                return Some((*first, *second));
            }
        }
    }
    None
}

/// A channel that stands twice.
fn find_twice(
    misfit: Misfit<'_>,
    first: Site,
    second: Site,
    finding: &mut Finding,
) -> Result<(), AllocError> {
    let text = text_of(misfit.context.source, second.span);
    finding.say(&[
        "this call gives `",
        misfit.name,
        "` the channel `",
        text,
        "` twice",
    ])?;
    finding.add_beside(first.span, "the first")?;
    finding.add_beside(second.span, "and again")?;
    finding.advise(&["each port takes a channel of its own"])
}

/// Whether an argument of a kind goes to a port.
fn goes_to(argument: Kind, port: Kind) -> bool {
    match port {
        Kind::Input => matches!(argument, Kind::Channel | Kind::Input),
        Kind::Output => matches!(argument, Kind::Channel | Kind::Output),
        _ => matches!(argument, Kind::Sync | Kind::SyncPort),
    }
}

/// The first port whose argument has another kind or width.
fn find_pair(misfit: Misfit<'_>, finding: &mut Finding) -> Result<(), AllocError> {
    let context = misfit.context;
    for (port, argument) in misfit.ports.iter().zip(misfit.arguments) {
        let text = site_text(context, *argument);
        if let Some(given) = declaration_of(context.source, context.visible, text)
            && (!goes_to(given.kind, port.kind) || given.width != port.width)
        {
            return say_pair(misfit, *port, *argument, given, finding);
        }
    }
    finding.say(&[
        "the arguments of this call do not fit the ports of `",
        misfit.name,
        "`",
    ])
}

/// How wide a port or channel is, in words.
fn add_width(text: &mut String, width: Option<u64>) -> Result<(), AllocError> {
    match width {
        Some(width) => write!(text, " of {width} bits"),
        None => Ok(()),
    }
}

/// Says that a port and its argument do not fit.
fn say_pair(
    misfit: Misfit<'_>,
    port: Declared,
    argument: Site,
    given: Declared,
    finding: &mut Finding,
) -> Result<(), AllocError> {
    let source = misfit.context.source;
    let port_name = text_of(source, port.span);
    let argument_name = text_of(source, argument.span);
    finding.say(&["port `", port_name, "` of `", misfit.name, "` is "])?;
    finding.say(&[kind_text(port.kind)])?;
    add_width(&mut finding.what, port.width)?;
    finding.say(&[", and `", argument_name, "` is "])?;
    finding.say(&[kind_text(given.kind)])?;
    add_width(&mut finding.what, given.width)?;
    finding.add_beside(port.span, "the port")?;
    finding.add_beside(argument.span, "its argument")?;
    if goes_to(given.kind, port.kind) {
        return finding.advise(&[
            "a port and its channel have one width: declare both with one type",
        ]);
    }
    match port.kind {
        Kind::Input => finding.advise(&["an input port takes a channel or an input port"]),
        Kind::Output => finding.advise(&["an output port takes a channel or an output port"]),
        _ => finding.advise(&["a sync port takes a sync or a sync port"]),
    }
}
