// What a description declares: types, and procedures with their ports and locals.
ghost use Rattle.std.specs.Prelude.{◌≡◌, ◌≤◌, ◌^◌, [], ◌∷◌, ◌++◌, length, map, Ok, IfOk, IfErr, OnOk};
ghost use Rattle.types.specs.Declarations as spec;
ghost use Rattle.types.specs.Findings as findings;
ghost use Rattle.types.specs.internal.Judged.{scope_behind};
ghost use Rattle.types.specs.internal.Scopes.{entries, scope_of};
ghost use Rattle.types.specs.Names.{declared, is_fresh};
ghost use Rattle.types.specs.internal.Least.{least};
ghost use Rattle.types.specs.declared.scope.Meaning.TheVariants as meaning;

use crate::command::settled_command;
use crate::expression::{declared_width, type_width};
use crate::scope::{Meaning, Names, Scope};
use crate::verdict::{Settled, Verdict, and, both, with_next};
use crate::{Command, Fault, Local, LocalKind, Port, PortKind, Procedure};
use std::alloc::{AllocError, Global};
use syntax::{Identifier, Items, Name, TypeDeclaration, TypeDefinition, TypeName};
use value::{Value, Width};

/// Declares the types, each with its elements, in order.
pub(crate) fn declare_types(
    alloc: Global,
    names: &mut Names,
    types: &[TypeDeclaration],
) -> Settled<()>
    ensures { IfOk result (λ right.
        record { names = entries names.new; right = right }
        ≡ spec.with_types least (record { names = entries names.old; right = Ok tt }) types.now) }
{
    let mut right = Ok(());
    for declaration in types {
        right = declare_type(alloc, names, declaration, right)?;
    }
    Ok(right)
}

/// Declares the type, where the declarations so far are right or not.
fn declare_type(
    alloc: Global,
    names: &mut Names,
    declaration: &TypeDeclaration,
    right: Verdict<()>,
) -> Settled<()>
    ensures { IfOk result (λ made.
        record { names = entries names.new; right = made }
        ≡ spec.with_definition least
        (record { names = entries names.old; right = right }) declaration.now.name declaration.now.definition) }
{
    let name = &declaration.name;
    match &declaration.definition {
        TypeDefinition::Bits(width) => {
            declare_bits(alloc, names, name, declared_width(width), right)
        }
        TypeDefinition::Enumeration(elements) => {
            let width = enumeration_width(elements.len());
            let named = names.declare(alloc, name, Meaning::TypeName(width))?;
            declare_elements(alloc, names, elements.as_slice(), width, and(right, named))
        }
    }
}

/// Declares the type of the width.
fn declare_bits(
    alloc: Global,
    names: &mut Names,
    name: &Identifier,
    width: Verdict<Width>,
    right: Verdict<()>,
) -> Settled<()>
    ensures { IfOk result (λ made.
        record { names = entries names.new; right = made }
        ≡ spec.with_demand least
        (spec.with_name least (record { names = entries names.old; right = right }) name.now
        (meaning.TypeName (spec.width_or_one width))) (spec.demanded width)) }
{
    let demand = demanded(&width);
    let named = names.declare(alloc, name, Meaning::TypeName(width_or_one(width)))?;
    Ok(and(and(right, named), demand))
}

/// The least width of at least 1 that holds the numbers of so many elements.
fn enumeration_width(elements: usize) -> Width
    ensures holds { elements ≤ 2 ^ result }
    ensures value { result ≡ spec.enumeration_width elements }
{
    let width = value::least_width(elements.saturating_sub(1) as u64);
    Width::new(width).unwrap()
}

/// Declares the elements of an enumeration of the width, which are numbered from 0.
fn declare_elements(
    alloc: Global,
    names: &mut Names,
    elements: &[Identifier],
    width: Width,
    right: Verdict<()>,
) -> Settled<()>
    requires { length elements.now ≤ 2 ^ width }
    ensures { IfOk result (λ made.
        record { names = entries names.new; right = made }
        ≡ spec.with_elements least width 0 (record { names = entries names.old; right = right }) elements.now) }
{
    let mut right = right;
    for (number, element) in elements.iter().enumerate() {
        let value = Value::make(number as u64, width.bits());
        let next = names.declare(alloc, element, Meaning::Element(value))?;
        right = and(right, next);
    }
    Ok(right)
}

/// That the width is right.
fn demanded(width: &Verdict<Width>) -> Verdict<()>
    ensures { result ≡ spec.demanded width.now }
{
    match width {
        Ok(_) => Ok(()),
        Err(fault) => Err(*fault),
    }
}

/// The width, or one bit, so that a name whose type has a fault can be used without a further one.
fn width_or_one(width: Verdict<Width>) -> Width
    ensures { result ≡ spec.width_or_one width }
{
    match width {
        Ok(width) => width,
        Err(_) => Width::new(1).unwrap(),
    }
}

/// Settles the procedures behind those that are settled already, and makes each visible behind its end.
pub(crate) fn settled_procedures(
    alloc: Global,
    scope: &mut Scope,
    procedures: &[syntax::Procedure],
    settled: Verdict<Items<Procedure>>,
) -> Settled<Items<Procedure>>
    ensures made { IfOk result (λ made. made ≡ spec.with_procedures least (scope_of scope.old) settled procedures.now) }
    ensures visible { OnOk result (scope_of scope.new ≡ scope_behind (scope_of scope.old) procedures.now) }
{
    let mut settled = settled;
    for procedure in procedures {
        let next = settled_procedure(alloc, scope, procedure)?;
        settled = with_next(settled, next)?;
    }
    Ok(settled)
}

/// Settles the procedure, and makes it visible behind its end.
#[tactic(auto, unfolding(crate::specs::Declarations::judged_procedure, crate::specs::Declarations::declarations_right))]
fn settled_procedure(
    alloc: Global,
    scope: &mut Scope,
    procedure: &syntax::Procedure,
) -> Settled<Procedure>
    ensures made { IfOk result (λ made. made ≡ spec.judged_procedure least (scope_of scope.old) procedure.now) }
    ensures visible { OnOk result (scope_of scope.new ≡ spec.after_procedure least (scope_of scope.old) procedure.now) }
{
    let visible = scope.names.len();
    let (ports, new_ports) = declare_ports(alloc, &mut scope.names, procedure.ports.as_slice())?;
    let (locals, new_locals) = declare_locals(
        alloc,
        &mut scope.names,
        procedure.locals.as_slice(),
    )?;
    let types = and(
        port_types(&scope.names, procedure.ports.as_slice()),
        local_types(&scope.names, procedure.locals.as_slice()),
    );
    let body = settled_command(alloc, scope, &[], &procedure.body)?;
    scope.names.keep_first(visible);
    let signature = signature_of(alloc, ports.as_slice())?;
    let named = declare_name(alloc, scope, &procedure.name, signature)?;
    let right = and(named, and(and(new_ports, new_locals), types));
    let name = procedure.name.name.clone()?;
    Ok(whole(name, ports, locals, right, body))
}

/// The procedure, if its declarations and its body are right.
fn whole(
    name: Name,
    ports: Items<Port>,
    locals: Items<Local>,
    right: Verdict<()>,
    body: Verdict<Command>,
) -> Verdict<Procedure>
    ensures { result
        ≡ findings.becomes (λ q. record { name = name; ports = ports; locals = locals; body = q.1 })
        (findings.both least right body) }
{
    let (_, body) = both(right, body)?;
    Ok(Procedure {
        name,
        ports,
        locals,
        body,
    })
}

/// Makes a procedure with these ports visible.
fn declare_name(
    alloc: Global,
    scope: &mut Scope,
    name: &Identifier,
    signature: Items<PortKind>,
) -> Settled<()>
    ensures made { IfOk result (λ made. made ≡ is_fresh (entries scope.old.names) name.now.name name.now.span.start) }
    ensures names { OnOk result (entries scope.new.names
        ≡ declared (entries scope.old.names) name.now.name (meaning.Procedure (length scope.old.signatures))) }
    ensures signatures { OnOk result (scope.new.signatures ≡ scope.old.signatures ++ signature ∷ []) }
{
    let position = position_of(scope.signatures.len())?;
    scope.signatures.push(signature)?;
    scope
        .names
        .declare(alloc, name, Meaning::Procedure(position))
}

/// The position as a number of 32 bits. More names than those would not fit into memory.
fn position_of(position: usize) -> Result<u32, AllocError>
    ensures same { IfOk result (λ number. number ≡ position) }
    ensures beyond { IfErr result (λ _. 2 ^ 32 ≤ position) }
{
    if position < 1 << 32 {
        Ok(position as u32)
    } else {
        Err(AllocError)
    }
}

fn signature_of(alloc: Global, ports: &[Port]) -> Result<Items<PortKind>, AllocError>
    ensures { IfOk result (λ made. made ≡ map (λ q. q.kind) ports.now) }
{
    let mut signature = Items::with_capacity(alloc, ports.len())?;
    for port in ports {
        signature.push(port.kind)?;
    }
    Ok(signature)
}

/// Declares the ports, and says whether their names are new.
fn declare_ports(
    alloc: Global,
    names: &mut Names,
    declarations: &[syntax::Port],
) -> Result<(Items<Port>, Verdict<()>), AllocError>
    ensures { IfOk result (λ made.
        record { names = entries names.new; made = made.0; right = made.1 }
        ≡ spec.all_ports least (spec.behind least (entries names.old)) declarations.now) }
{
    let mut ports = Items::with_capacity(alloc, declarations.len())?;
    let mut right = Ok(());
    for declaration in declarations {
        let kind = port_kind(names, &declaration.kind);
        right = declare_port(
            alloc,
            names,
            declaration.names.as_slice(),
            kind,
            &mut ports,
            right,
        )?;
    }
    Ok((ports, right))
}

/// Declares ports of one kind behind those before.
fn declare_port(
    alloc: Global,
    names: &mut Names,
    declared: &[Identifier],
    kind: PortKind,
    ports: &mut Items<Port>,
    right: Verdict<()>,
) -> Settled<()>
    ensures { IfOk result (λ made.
        record { names = entries names.new; made = ports.new; right = made }
        ≡ spec.with_ports least kind
        (record { names = entries names.old; made = ports.old; right = right }) declared.now) }
{
    let mut right = right;
    for name in declared {
        let meaning = Meaning::of_port(position_of(ports.len())?, kind);
        let next = names.declare(alloc, name, meaning)?;
        let port = Port {
            name: name.name.clone()?,
            declared: name.span.start,
            kind,
        };
        ports.push(port)?;
        right = and(right, next);
    }
    Ok(right)
}

/// What a port of the declaration is for, as far as its type is right.
fn port_kind(names: &Names, kind: &syntax::PortKind) -> PortKind
    ensures { result ≡ spec.port_kind (entries names.now) kind.now }
{
    match kind {
        syntax::PortKind::Input(type_name) => PortKind::Input(type_width_or_one(names, type_name)),
        syntax::PortKind::Output(type_name) => PortKind::Output(type_width_or_one(
            names, type_name,
        )),
        syntax::PortKind::Sync => PortKind::Sync,
    }
}

/// What a local of the declaration is, as far as its type is right.
fn local_kind(names: &Names, kind: &syntax::LocalKind) -> LocalKind
    ensures { result ≡ spec.local_kind (entries names.now) kind.now }
{
    match kind {
        syntax::LocalKind::Variable(type_name) => {
            LocalKind::Variable(type_width_or_one(names, type_name))
        }
        syntax::LocalKind::SharedVariable(type_name) => {
            LocalKind::SharedVariable(type_width_or_one(names, type_name))
        }
        syntax::LocalKind::Channel(type_name) => {
            LocalKind::Channel(type_width_or_one(names, type_name))
        }
        syntax::LocalKind::Sync => LocalKind::Sync,
    }
}

/// The width of the type, or one bit where it has a fault.
fn type_width_or_one(names: &Names, type_name: &TypeName) -> Width
    ensures { result ≡ spec.type_width_or_one (entries names.now) type_name.now }
{
    width_or_one(type_width(names, &[], type_name))
}

/// Declares the locals, and says whether their names are new.
fn declare_locals(
    alloc: Global,
    names: &mut Names,
    declarations: &[syntax::Local],
) -> Result<(Items<Local>, Verdict<()>), AllocError>
    ensures { IfOk result (λ made.
        record { names = entries names.new; made = made.0; right = made.1 }
        ≡ spec.all_locals least (spec.behind least (entries names.old)) declarations.now) }
{
    let mut locals = Items::with_capacity(alloc, declarations.len())?;
    let mut right = Ok(());
    for declaration in declarations {
        let kind = local_kind(names, &declaration.kind);
        names.reserve(declaration.names.len())?;
        right = declare_local(
            alloc,
            names,
            declaration.names.as_slice(),
            kind,
            &mut locals,
            right,
        )?;
    }
    Ok((locals, right))
}

/// Declares locals of one kind behind those before.
fn declare_local(
    alloc: Global,
    names: &mut Names,
    declared: &[Identifier],
    kind: LocalKind,
    locals: &mut Items<Local>,
    right: Verdict<()>,
) -> Settled<()>
    ensures { IfOk result (λ made.
        record { names = entries names.new; made = locals.new; right = made }
        ≡ spec.with_locals least kind
        (record { names = entries names.old; made = locals.old; right = right }) declared.now) }
{
    let mut right = right;
    for name in declared {
        let meaning = Meaning::of_local(position_of(locals.len())?, kind);
        let next = names.declare(alloc, name, meaning)?;
        let local = Local {
            name: name.name.clone()?,
            declared: name.span.start,
            kind,
        };
        locals.push(local)?;
        right = and(right, next);
    }
    Ok(right)
}

/// That the types of the ports are right where all names of the procedure are visible.
fn port_types(names: &Names, declarations: &[syntax::Port]) -> Verdict<()>
    ensures { result ≡ spec.port_types least (entries names.now) declarations.now }
{
    let mut outcome = Ok(());
    for declaration in declarations {
        outcome = and(outcome, port_type(names, &declaration.kind));
    }
    outcome
}

fn port_type(names: &Names, kind: &syntax::PortKind) -> Verdict<()>
    ensures { result ≡ spec.port_type (entries names.now) kind.now }
{
    match kind {
        syntax::PortKind::Input(type_name) | syntax::PortKind::Output(type_name) => {
            demanded(&type_width(names, &[], type_name))
        }
        syntax::PortKind::Sync => Ok(()),
    }
}

/// That the types of the locals are right where all names of the procedure are visible.
fn local_types(names: &Names, declarations: &[syntax::Local]) -> Verdict<()>
    ensures { result ≡ spec.local_types least (entries names.now) declarations.now }
{
    let mut outcome = Ok(());
    for declaration in declarations {
        outcome = and(outcome, local_type(names, &declaration.kind));
    }
    outcome
}

fn local_type(names: &Names, kind: &syntax::LocalKind) -> Verdict<()>
    ensures { result ≡ spec.local_type (entries names.now) kind.now }
{
    match kind {
        syntax::LocalKind::Variable(type_name)
        | syntax::LocalKind::SharedVariable(type_name)
        | syntax::LocalKind::Channel(type_name) => demanded(&type_width(names, &[], type_name)),
        syntax::LocalKind::Sync => Ok(()),
    }
}
