//! Names, kinds and widths of a description: which descriptions are typed, and what they become.
#![tactic(auto)]

ghost use Rattle.std.specs.Prelude.{◌≡◌, ◌⊎◌, Ok, IfOk, IfErr};
ghost use Rattle.types.specs.Declarations.{found_description};
ghost use Rattle.types.specs.Findings.{IsRefused};
ghost use Rattle.refusals.specs.declared.types.Fault.TheVariants.{Memory};

mod arms;
mod call;
mod command;
mod declaration;
mod expression;
mod forms;
mod laws;
mod scope;
mod tree;
mod typing;
mod uses;
mod verdict;

pub use laws::{
    declared_names_are_distinct, expressions_have_one_width, names_are_declared_once,
    names_may_stand_apart, tree_stays_the_same, unused_may_be_left_out,
    unused_name_may_be_left_out, what_fits_is_accepted, widths_fit,
};
pub use refusals::types::Fault;
use std::alloc::Global;
use syntax::Description;
pub use tree::{
    Action, Arm, Binding, ChannelUse, Command, Expression, Guarded, Labelled, Local, LocalKind,
    Port, PortKind, Procedure, Typed, VariableUse,
};
pub use typing::Typing;

/// The description with its names, kinds and widths settled, or why it is not typed: of all its faults that with the
/// least offset, and at one offset that with the least number.
pub fn check_types(alloc: Global, description: &Description) -> Result<Typed, Fault>
    ensures typed { IfOk result (λ typed. found_description description.now ≡ Ok typed) }
    ensures fault { IfErr result (λ fault. (fault ≡ Memory) ⊎ IsRefused (found_description description.now) fault) }
{
    let mut typing = Typing::new(alloc, description.types.as_slice())?;
    typing.add(alloc, description.procedures.as_slice())?;
    typing.finish()
}
