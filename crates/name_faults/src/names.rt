// Refusals 7 to 13 and 17: names, kinds and widths.
ghost use Rattle.std.specs.Prelude.{◌≡◌};
ghost use Rattle.written_names.specs.Texts.{text_of};

use crate::kinds::{fits, help_text, kind_text, wanted_text};
use crate::{calls, repeated, widths};
use findings::{Finding, Nearest, short, text_between};
use lexer::Token;
use std::alloc::AllocError;
use syntax::Description;
use written_names::{
    Declared, Role, Site, find as declaration_of, procedure_at, sites, text_at, types, visible,
};

/// What is known around a fault.
#[derive(Clone, Copy)]
pub struct Context<'a> {
    pub source: &'a [u8],
    pub description: &'a Description,
    pub types: &'a [Declared],
    /// What is visible in the procedure of the fault.
    pub visible: &'a [Declared],
    /// What stands in its body.
    pub sites: &'a [Site],
    /// The number of that procedure, from 1; 0 where the fault stands in none.
    pub owner: usize,
    /// The offset of the fault.
    pub offset: u64,
}

/// What was found about a fault of typing at the finding's place, in the description that the tokens of the source are.
pub fn find(
    source: &[u8],
    tokens: &[Token],
    description: &Description,
    number: u32,
    finding: &mut Finding,
) -> Result<(), AllocError> {
    let alloc = finding.alloc;
    finding.stop = token_stop(tokens, finding.start);
    let types = types(alloc, description)?;
    let owner = procedure_at(description, finding.start);
    let visible = visible(alloc, source, types.as_slice(), description, owner)?;
    let mut sites_found = Vec::new(alloc);
    if let Some(procedure) = description.procedures.get(owner.wrapping_sub(1)) {
        sites_found = sites(alloc, source, visible.as_slice(), procedure, finding.start)?;
    }
    let context = Context {
        source,
        description,
        types: types.as_slice(),
        visible: visible.as_slice(),
        sites: sites_found.as_slice(),
        owner,
        offset: finding.start,
    };
    find_by_number(context, tokens, number, finding)
}

/// What was found about a fault with this number.
fn find_by_number(
    context: Context<'_>,
    tokens: &[Token],
    number: u32,
    finding: &mut Finding,
) -> Result<(), AllocError> {
    match number {
        7 => find_unknown(context, finding),
        8 => repeated::find_name(context, finding),
        9 => find_kind(context, finding),
        10 => widths::find(context, tokens, finding),
        11 => widths::find_guard(context, finding),
        12 => repeated::find_arm(context, finding),
        13 => calls::find(context, finding),
        _ => repeated::find_enclosed(context, finding),
    }
}

/// Where the token that begins at the offset ends.
fn token_stop(tokens: &[Token], offset: u64) -> u64 {
    for token in tokens {
        if token.span.start == offset {
            return token.span.stop;
        }
    }
    offset
}

/// Whether a role is that of a name, and not of an expression.
fn is_of_name(role: Role) -> bool {
    !matches!(
        role,
        Role::AssignedValue | Role::SentValue | Role::Guard | Role::Subject
    )
}

/// What the name at an offset stands for; none where it stands in no command.
pub fn role_at(sites: &[Site], offset: u64) -> Option<Role> {
    for site in sites {
        if site.span.start == offset && is_of_name(site.role) {
            return Some(site.role);
        }
    }
    None
}

/// The name at the fault.
fn name_at<'a>(source: &'a [u8], finding: &Finding) -> &'a str {
    text_between(source, finding.start, finding.stop)
}

/// A name that nothing visible has.
fn find_unknown(context: Context<'_>, finding: &mut Finding) -> Result<(), AllocError> {
    let name = name_at(context.source, finding);
    let role = role_at(context.sites, context.offset);
    finding.say(&["nothing visible here is called `", name, "`"])?;
    let alloc = finding.alloc;
    let mut nearest = Nearest::none();
    for one in context.visible {
        if fits(role, one.kind) && one.span.start < context.offset {
            let candidate = text_between(context.source, one.span.start, one.span.stop);
            nearest.offer(alloc, name, candidate)?;
        }
    }
    if let Some(candidate) = nearest.name {
        let found = declaration_of(context.source, context.visible, candidate.as_bytes());
        let line = found.map_or(0, |one| one.span.line);
        let kind = found.map_or("a name", |one| kind_text(one.kind));
        return write!(
            finding.help,
            "did you mean `{candidate}`, {kind} of line {line}?"
        );
    }
    advise_unknown(context, name, role, finding)
}

/// What helps where no visible name is near.
fn advise_unknown(
    context: Context<'_>,
    name: &str,
    role: Option<Role>,
    finding: &mut Finding,
) -> Result<(), AllocError> {
    let mut number = 0_usize;
    for procedure in context.description.procedures.as_slice() {
        number = number.saturating_add(1);
        if *procedure.name.name.text() == *name.as_bytes() && number >= context.owner {
            let line = procedure.name.span.line;
            let name = short(name);
            if number == context.owner {
                return finding.advise(&[
                    "a procedure is visible behind its own `end` alone: none calls itself",
                ]);
            }
            return write!(
                finding.help,
                "procedure `{name}` begins on line {line}, behind this place: move it before this procedure"
            );
        }
    }
    match role {
        None | Some(Role::CastType) => {
            finding.advise(&[
                "declare it in front of the procedures, as in `type ",
                name,
                " is 8 bits`",
            ])
        }
        Some(Role::Called) => finding.advise(&["a procedure is called behind its declaration"]),
        Some(Role::Label) => finding.advise(&[
            "declare it as an element of an enumeration, or write a number",
        ]),
        _ => finding.advise(&[
            "declare it between `is` and `begin` of this procedure; locals of other procedures are not visible here",
        ]),
    }
}

/// A name of another kind than its place needs.
fn find_kind(context: Context<'_>, finding: &mut Finding) -> Result<(), AllocError> {
    let name = name_at(context.source, finding);
    let role = role_at(context.sites, context.offset);
    finding.say(&["`", name, "` is "])?;
    let Some(found) = declaration_of(context.source, context.visible, name.as_bytes()) else {
        return finding.say(&["of another kind: ", wanted_text(role)]);
    };
    finding.say(&[kind_text(found.kind), ", and ", wanted_text(role)])?;
    finding.add_beside(found.span, "declared here")?;
    finding.advise(&[help_text(role, found.kind)])
}

/// The bytes of a site's name.
pub fn site_text<'a>(context: Context<'a>, site: Site) -> &'a [u8]
    ensures { result.now ≡ text_of context.entry.source.now site.span }
{
    text_at(context.source, site.span)
}
