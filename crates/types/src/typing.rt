// A description that is typed part by part.
ghost use Rattle.std.specs.Prelude.{◌≡◌, [], ◌++◌, Ok, Err, IfOk, IfErr, OnOk, OnErr};
ghost use Rattle.types.specs.Declarations.{found_description};
ghost use Rattle.types.specs.Findings.{IsRefused, becomes, both};
ghost use Rattle.types.specs.internal.Judged.{IsSpent, Judges};
ghost use Rattle.types.specs.internal.Least.{least};
ghost use Rattle.syntax.specs.declared.declaration.Description.{Description};
ghost use Rattle.refusals.specs.declared.types.Fault.TheVariants.{Memory};

use crate::declaration::{declare_types, settled_procedures};
use crate::scope::Scope;
use crate::verdict::Verdict;
use crate::{Fault, Procedure, Typed};
use std::alloc::{AllocError, Global};
use std::marker::Model;
use std::mem;
use syntax::{Items, TypeDeclaration};

/// A description of which the types and the first procedures are judged. Nothing of their tree is kept, and once a
/// fault is found no procedures either.
#[derive(Drop)]
pub struct Typing {
    scope: Scope,
    /// the procedures so far, or the fault that would be answered of what was judged
    found: Verdict<Items<Procedure>>,
}

impl Model for Typing {
    ghost use Rattle.types.specs.internal.Judged.{Judgement};
    ghost use Rattle.std.specs.Coded.{codes};
    ghost use Rattle.types.specs.contracts.tree.Procedure as procedure;

    ghost Value = { Judgement };

    ghost coded = { Prim.hlevel (codes, procedure.the_row.coded) };

    ghost use Rattle.types.specs.internal.Scopes.{scope_of};

    ghost view = { λ typing. record { scope = scope_of typing.scope; found = typing.found } };
}

impl Typing {
    /// The types of a description, and no procedures yet. It is refused for want of memory alone: a fault of the types
    /// is answered by `finish`.
    pub fn new(alloc: Global, types: &[TypeDeclaration]) -> Result<Typing, AllocError>
        ensures { IfOk result (λ typing. Judges typing (record { types = types.now; procedures = [] })) }
    {
        let mut scope = Scope::new(alloc);
        let right = declare_types(alloc, &mut scope.names, types)?;
        Ok(Typing {
            scope,
            found: without_procedures(alloc, right),
        })
    }

    /// Judges the procedures that stand behind those judged before. It is refused for want of memory alone: then the
    /// description is lost, and `finish` answers want of memory, whatever is added before.
    pub fn add(&mut self, alloc: Global, procedures: &[syntax::Procedure]) -> Result<(), AllocError>
        ensures judged { (d : Description) → Judges self.old d →
            OnOk result (Judges self.new (record { types = d.types; procedures = d.procedures ++ procedures.now })) }
        ensures refused { OnErr result (IsSpent self.new) }
        ensures spent { IsSpent self.old → IsSpent self.new }
    {
        let found = mem::replace(&mut self.found, Err(Fault::Memory));
        self.found = settled_procedures(alloc, &mut self.scope, procedures, found)?;
        Ok(())
    }

    /// The description with its names, kinds and widths settled, or of all its faults that with the least offset, and
    /// at one offset that with the least number. Behind an `add` that was refused it is `Memory`.
    pub fn finish(self) -> Result<Typed, Fault>
        ensures typed { (d : Description) → Judges self d → IfOk result (λ typed. found_description d ≡ Ok typed) }
        ensures fault { (d : Description) → Judges self d →
            IfErr result (λ fault. IsRefused (found_description d) fault) }
        ensures spent { IsSpent self → result ≡ Err Memory }
    {
        let Typing {
            scope: _scope,
            found,
        } = self;
        described(found)
    }
}

/// A description with no procedures, whose types are right or not.
fn without_procedures(alloc: Global, types: Verdict<()>) -> Verdict<Items<Procedure>>
    ensures { result ≡ becomes (λ p. p.1) (both least types (Ok [])) }
{
    types?;
    Ok(Items::new(alloc))
}

/// The typed description of these procedures, if they are right.
fn described(found: Verdict<Items<Procedure>>) -> Verdict<Typed>
    ensures { result ≡ found }
{
    Ok(Typed::new(found?))
}
