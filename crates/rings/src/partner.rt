// What an action that waits waits for.
ghost use Rattle.std.specs.Prelude.{◌≡◌, [], length, map, IfOk};
ghost use Rattle.syntax.specs.Lists.{In};
ghost use Rattle.system.specs.Expression.{Store};
ghost use Rattle.process_tree.specs.Remaining.{remaining};
ghost use Rattle.process_tree.specs.View.{tree_view};
ghost use Rattle.local_actions.specs.Actions.{Offered};
ghost use Rattle.local_actions.specs.View.{state_of};
ghost use Rattle.local_actions.specs.declared.action.LocalAction as any;
ghost use Rattle.rings.specs.Partners.{partner_in};
ghost use Rattle.rings.specs.internal.Ends as model;

use crate::among::among;
use crate::ends::{End, placed_ends};
use crate::look::look;
use crate::sought::Sought;
use crate::wanted::{uses_of, wanted_by};
use address::Address;
use dependence::UseTable;
use local_actions::LocalAction;
use process_tree::Tree;
use std::alloc::{AllocError, Global};

/// What has to go on before the partner of an action that waits can come.
#[derive(Drop)]
pub enum Partner {
    /// all that stands at this place and below it
    Behind(Address),
    /// nothing helps: none can come any more, or only behind what never ends
    Gone,
    /// it is there already, or may come from more than one branch
    Open,
}

/// For each of the actions, all of which the tree offers, what has to go on before its partner can come, in the order
/// of the actions. It takes one walk through the tree. It is an error if there is no memory.
pub fn partners_of(
    alloc: Global,
    tree: &Tree,
    actions: &[LocalAction],
) -> Result<Vec<Partner>, AllocError>
    ensures count { IfOk result (λ partners. length partners.items ≡ length actions.now) }
    ensures partners { (values : Store) →
        ((x : any.LocalAction) → In x actions.now → Offered (state_of tree.now values) x) →
        IfOk result (λ partners.
        partners.items ≡ map (partner_in (remaining [] (tree_view tree.now))) actions.now) }
{
    let wanted = wanted_by(alloc, actions)?;
    let found = look(alloc, tree.root(), wanted.as_slice())?;
    let ends = placed_ends(alloc, found)?;
    partners_among(alloc, ends.as_slice(), actions)
}

/// For each of the actions its partner among the ends.
fn partners_among(
    alloc: Global,
    ends: &[End],
    actions: &[LocalAction],
) -> Result<Vec<Partner>, AllocError>
    ensures { IfOk result (λ partners. partners.items ≡ map (model.partner_from ends.now) actions.now) }
{
    let uses = uses_of(alloc, ends)?;
    all_among(alloc, ends, &uses, actions)
}

/// The same with the numbers of the ends on each channel.
fn all_among(
    alloc: Global,
    ends: &[End],
    uses: &UseTable,
    actions: &[LocalAction],
) -> Result<Vec<Partner>, AllocError>
    requires { model.HasEnds uses.now ends.now }
    ensures { IfOk result (λ partners. partners.items ≡ map (model.partner_from ends.now) actions.now) }
{
    let mut partners = Vec::with_capacity(alloc, actions.len())?;
    for action in actions {
        partners.push(partner_of(alloc, ends, uses, action)?)?;
    }
    Ok(partners)
}

/// The partner of the action among the ends.
fn partner_of(
    alloc: Global,
    ends: &[End],
    uses: &UseTable,
    offered: &LocalAction,
) -> Result<Partner, AllocError>
    requires { model.HasEnds uses.now ends.now }
    ensures { IfOk result (λ partner. partner ≡ model.partner_from ends.now offered.now) }
{
    match Sought::by(&offered.action) {
        Some(sought) => among(alloc, ends, uses, sought, offered.place.entries()),
        None => Ok(Partner::Open),
    }
}
