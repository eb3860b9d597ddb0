//! The elaborated system: a tree of commands without calls, the environment's branches, and variables and channels by
//! number.
//!
//! Each expression has its widths. Here stand the values of expressions and what tests decide, and in `specs/` the
//! language's meaning: expressions, the residual (what is still to do), and the residual with which a system begins.
#![tactic(auto)]

mod command;
mod decision;
mod expression;
mod hash;
mod hash_positions;
mod prefix;
mod qualified_name;
mod system;
mod variable_table;
mod variables;

pub use command::{Action, Arm, Command, Guarded, Labelled};
pub use decision::Decision;
pub use expression::{Expression, Operator, Use};
pub use prefix::Prefix;
pub use qualified_name::QualifiedName;
pub use system::{Branch, Channel, ChannelKind, System, Variable};
pub use variable_table::VariableTable;
pub use variables::Variables;
