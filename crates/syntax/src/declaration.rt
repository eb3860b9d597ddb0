use crate::{Command, Identifier, Items, TypeName, Width};

/// A whole source.
#[derive(Drop)]
pub struct Description {
    pub types: Items<TypeDeclaration>,
    /// One or more. The last one is the root.
    pub procedures: Items<Procedure>,
}

/// `type name is definition`
#[derive(Drop)]
pub struct TypeDeclaration {
    pub name: Identifier,
    pub definition: TypeDefinition,
}

/// What a declared type is.
#[derive(Drop)]
pub enum TypeDefinition {
    Bits(Width),
    /// Its elements in order, one or more.
    Enumeration(Items<Identifier>),
}

/// `procedure name (ports) is locals begin body end`
#[derive(Drop)]
pub struct Procedure {
    pub name: Identifier,
    pub ports: Items<Port>,
    pub locals: Items<Local>,
    pub body: Command,
}

/// A declaration of ports of one kind.
#[derive(Drop)]
pub struct Port {
    /// One or more.
    pub names: Items<Identifier>,
    pub kind: PortKind,
}

/// What a port is for, with the type of what passes through it.
#[derive(Drop)]
pub enum PortKind {
    Input(TypeName),
    Output(TypeName),
    Sync,
}

/// A declaration of locals of one kind.
#[derive(Drop)]
pub struct Local {
    /// One or more.
    pub names: Items<Identifier>,
    pub kind: LocalKind,
}

/// What a local is, with the type of what it holds or passes on.
#[derive(Drop)]
pub enum LocalKind {
    Variable(TypeName),
    /// a variable that any branches of a parallel may read and write
    SharedVariable(TypeName),
    Channel(TypeName),
    Sync,
}
