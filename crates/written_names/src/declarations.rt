ghost use Rattle.std.specs.Prelude.{◌≡◌, IfSome};
ghost use Rattle.written_names.specs.Texts.{text_of};

use std::alloc::{AllocError, Global};
use syntax::{
    Description, Identifier, Local, LocalKind, Port, PortKind, Procedure, Span, TypeDeclaration,
    TypeDefinition, TypeName,
};

/// What a declared name is.
#[derive(Clone, Copy, PartialEq, Eq)]
pub enum Kind {
    Type,
    Element,
    Procedure,
    Input,
    Output,
    SyncPort,
    Variable,
    SharedVariable,
    Channel,
    Sync,
}

/// A declared name.
#[derive(Clone, Copy)]
pub struct Declared {
    /// Where the name stands in its declaration.
    pub span: Span,
    pub kind: Kind,
    /// The width of what it is or holds, where it has one.
    pub width: Option<u64>,
    /// The number of an element, and that of a procedure, from 1.
    pub number: u64,
    /// The procedure whose port or local it is, from 1; 0 where it is of none.
    pub owner: usize,
}

/// The bytes of a span; none where the source does not have them.
pub fn text_at(source: &[u8], span: Span) -> &[u8]
    ensures { result.now ≡ text_of source.now span }
{
    let start = span.start as usize;
    let stop = span.stop as usize;
    if start <= stop && stop <= source.len() {
        &source[start..stop]
    } else {
        b""
    }
}

/// The first of some declarations that has this name.
pub fn find(source: &[u8], declared: &[Declared], name: &[u8]) -> Option<Declared>
    ensures { IfSome result (λ one. text_of source.now one.span ≡ name.now) }
{
    for one in declared {
        if *text_at(source, one.span) == *name {
            return Some(*one);
        }
    }
    None
}

/// The least width, of at least 1, that holds numbers up to this one.
pub fn width_of_number(number: u64) -> u64 {
    if number == 0 {
        return 1;
    }
    64_u64.saturating_sub(u64::from(number.leading_zeros()))
}

/// The width of a type, by the types that are declared.
pub fn type_width(source: &[u8], types: &[Declared], name: &TypeName) -> Option<u64> {
    match name {
        TypeName::Bits(width) => Some(width.bits),
        TypeName::Named(identifier) => {
            let found = find(source, types, identifier.get().name.text())?;
            if found.kind == Kind::Type {
                found.width
            } else {
                None
            }
        }
    }
}

/// Adds names of one kind.
fn add_names(
    declared: &mut Vec<Declared>,
    names: &[Identifier],
    kind: Kind,
    width: Option<u64>,
    owner: usize,
) -> Result<(), AllocError> {
    for name in names {
        declared.push(Declared {
            span: name.span,
            kind,
            width,
            number: 0,
            owner,
        })?;
    }
    Ok(())
}

/// Adds the elements of an enumeration.
fn add_elements(
    declared: &mut Vec<Declared>,
    names: &[Identifier],
    width: Option<u64>,
) -> Result<(), AllocError> {
    let mut number = 0_u64;
    for name in names {
        declared.push(Declared {
            span: name.span,
            kind: Kind::Element,
            width,
            number,
            owner: 0,
        })?;
        number = number.saturating_add(1);
    }
    Ok(())
}

/// Adds a type, and its elements.
fn add_type(declared: &mut Vec<Declared>, one: &TypeDeclaration) -> Result<(), AllocError> {
    let width = match &one.definition {
        TypeDefinition::Bits(width) => Some(width.bits),
        TypeDefinition::Enumeration(names) => {
            Some(width_of_number((names.len() as u64).saturating_sub(1)))
        }
    };
    declared.push(Declared {
        span: one.name.span,
        kind: Kind::Type,
        width,
        number: 0,
        owner: 0,
    })?;
    match &one.definition {
        TypeDefinition::Bits(_) => Ok(()),
        TypeDefinition::Enumeration(names) => add_elements(declared, names.as_slice(), width),
    }
}

/// Adds ports.
fn add_ports(
    source: &[u8],
    types: &[Declared],
    declared: &mut Vec<Declared>,
    ports: &[Port],
    owner: usize,
) -> Result<(), AllocError> {
    for port in ports {
        let (kind, width) = match &port.kind {
            PortKind::Input(name) => (Kind::Input, type_width(source, types, name)),
            PortKind::Output(name) => (Kind::Output, type_width(source, types, name)),
            PortKind::Sync => (Kind::SyncPort, None),
        };
        add_names(declared, port.names.as_slice(), kind, width, owner)?;
    }
    Ok(())
}

/// What a local is, with its width.
fn local_kind(source: &[u8], types: &[Declared], kind: &LocalKind) -> (Kind, Option<u64>) {
    match kind {
        LocalKind::Variable(name) => (Kind::Variable, type_width(source, types, name)),
        LocalKind::SharedVariable(name) => (Kind::SharedVariable, type_width(source, types, name)),
        LocalKind::Channel(name) => (Kind::Channel, type_width(source, types, name)),
        LocalKind::Sync => (Kind::Sync, None),
    }
}

/// Adds locals.
fn add_locals(
    source: &[u8],
    types: &[Declared],
    declared: &mut Vec<Declared>,
    locals: &[Local],
    owner: usize,
) -> Result<(), AllocError> {
    for local in locals {
        let (kind, width) = local_kind(source, types, &local.kind);
        add_names(declared, local.names.as_slice(), kind, width, owner)?;
    }
    Ok(())
}

/// The types that a description declares, and the elements of enumerations.
pub fn types(alloc: Global, description: &Description) -> Result<Vec<Declared>, AllocError> {
    let mut declared = Vec::new(alloc);
    for one in description.types.as_slice() {
        add_type(&mut declared, one)?;
    }
    Ok(declared)
}

/// The ports of a procedure.
pub fn ports(
    alloc: Global,
    source: &[u8],
    types: &[Declared],
    procedure: &Procedure,
) -> Result<Vec<Declared>, AllocError> {
    let mut declared = Vec::new(alloc);
    add_ports(source, types, &mut declared, procedure.ports.as_slice(), 0)?;
    Ok(declared)
}

/// What is visible in the procedure with this number, from 1, in the order of the source: types, elements, the
/// procedures before it, its ports and its locals.
pub fn visible(
    alloc: Global,
    source: &[u8],
    types: &[Declared],
    description: &Description,
    owner: usize,
) -> Result<Vec<Declared>, AllocError> {
    let mut declared = Vec::new(alloc);
    for one in types {
        declared.push(*one)?;
    }
    let mut number = 0_usize;
    for procedure in description.procedures.as_slice() {
        number = number.saturating_add(1);
        if number == owner {
            add_ports(
                source,
                types,
                &mut declared,
                procedure.ports.as_slice(),
                number,
            )?;
            add_locals(
                source,
                types,
                &mut declared,
                procedure.locals.as_slice(),
                number,
            )?;
        }
        if number < owner {
            declared.push(Declared {
                span: procedure.name.span,
                kind: Kind::Procedure,
                width: None,
                number: number as u64,
                owner: 0,
            })?;
        }
    }
    Ok(declared)
}

/// The number, from 1, of the procedure in which the byte at `offset` stands: of the last whose name begins there or
/// before. 0 where there is none.
pub fn procedure_at(description: &Description, offset: u64) -> usize {
    let mut number = 0_usize;
    let mut found = 0_usize;
    for procedure in description.procedures.as_slice() {
        number = number.saturating_add(1);
        if procedure.name.span.start <= offset {
            found = number;
        }
    }
    found
}
