//! The trees of a Balsa description, as the parser builds them and as every later stage reads them.
//!
//! A tree holds its children in `Boxed`, `Shared` and `Items`, which contracts see as plain values and a
//! plain list, so a clause can say that a tree equals what a definition computes.
#![tactic(auto)]

mod boxed;
mod command;
mod declaration;
mod expression;
mod items;
mod name;
mod shared;
mod span;

pub use boxed::Boxed;
pub use command::{Action, Arm, CaseArm, Command, Guarded, Label, LabelValue};
pub use declaration::{
    Description, Local, LocalKind, Port, PortKind, Procedure, TypeDeclaration, TypeDefinition,
};
pub use expression::{Expr, Operator, Shape, TypeName, Width};
pub use items::Items;
pub use name::{Identifier, Name};
pub use shared::Shared;
pub use span::Span;
