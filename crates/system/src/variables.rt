ghost use Rattle.std.specs.Prelude.{◌≡◌, ◌≤◌, ◌↔◌, List, [], length, IsTrue, IfOk, OnOk, OnErr, MatchOption};
ghost use Rattle.std.specs.List.{insert};
ghost use Rattle.system.specs.Expression as model;
ghost use Rattle.system.specs.Translation.{expression_of};
ghost use Rattle.system.specs.internal.Variables.{inserted_all};

use crate::Expression;
use smallvec::SmallVec;
use std::alloc::{AllocError, Global};
use std::marker::Model;

/// Variables by number, ascending and each once as long as they come in by `insert`. Up to 3 take no memory of their
/// own.
#[derive(Debug, Drop)]
pub struct Variables {
    numbers: SmallVec<u32, 3>,
}

impl Model for Variables {
    ghost use Rattle.std.specs.Prelude.{ℕ, List};

    ghost Value = { List ℕ };

    ghost view = { λ variables. variables.numbers.items };
}

impl Variables {
    /// No variables, and no memory yet.
    pub fn none(alloc: Global) -> Variables
        ensures { result ≡ [] }
    {
        Variables {
            numbers: SmallVec::new(alloc),
        }
    }

    /// The numbers of `numbers` as they stand, in its memory.
    pub fn from_vec(numbers: Vec<u32>) -> Variables
        ensures { result ≡ numbers.items }
    {
        Variables {
            numbers: SmallVec::from_vec(numbers),
        }
    }

    /// The numbers in order.
    pub fn as_slice(&self) -> &[u32]
        ensures { result.now ≡ self.now }
    {
        self.numbers.as_slice()
    }

    /// The same variables in memory of their own.
    pub fn copy(&self, alloc: Global) -> Result<Variables, AllocError>
        ensures { IfOk result (λ made. made ≡ self.now) }
    {
        let numbers = SmallVec::from_slice(alloc, self.as_slice())?;
        Ok(Variables { numbers })
    }

    /// Puts the variable at its position, unless it is there. Without memory nothing changes.
    pub fn insert(&mut self, number: u32) -> Result<(), AllocError>
        ensures ok { OnOk result (self.new ≡ model.inserted number self.old) }
        ensures err { OnErr result (self.new ≡ self.old) }
    {
        if let Some(position) = place_for(self.as_slice(), number) {
            self.numbers.insert(position, number)?;
        }
        Ok(())
    }
}

/// Where the number is to be inserted, or `None` where it stands already.
fn place_for(numbers: &[u32], number: u32) -> Option<usize>
    ensures position { MatchOption result (model.inserted number numbers.now ≡ numbers.now) (λ position.
        model.inserted number numbers.now ≡ insert numbers.now position number) }
    ensures within { MatchOption result (Unit {0}) (λ position. position ≤ length numbers.now) }
{
    for (position, held) in numbers.iter().enumerate() {
        if *held == number {
            return None;
        }
        if number < *held {
            return Some(position);
        }
    }
    Some(numbers.len())
}

impl PartialEq for Variables {
    ghost use Rattle.std.specs.Prelude.{◌≡◌, ◌↔◌, IsTrue};
    ghost use Rattle.std.specs.Cmp.{partial_equiv_from_equiv};
    ghost use Rattle.std.specs.Str.{bytes_eq};
    ghost use Rattle.std.proofs.lemmas.Cmp.{nat_list_eq_equiv};

    ghost eq = { bytes_eq };

    ghost laws = { partial_equiv_from_equiv nat_list_eq_equiv };

    fn eq(&self, other: &Variables) -> bool
        ensures value { result ≡ bytes_eq self.now other.now }
        ensures equal { IsTrue result ↔ (self.now ≡ other.now) }
    {
        self.as_slice() == other.as_slice()
    }
}

impl Eq for Variables {
    ghost use Rattle.std.proofs.lemmas.Cmp.{nat_list_eq_equiv};

    ghost laws = { nat_list_eq_equiv };
}

impl Expression {
    /// The variables that stand in the expression.
    #[tactic(auto, using(crate::proofs::Insertions::inserted_all_none))]
    pub fn variables(&self, alloc: Global) -> Result<Variables, AllocError>
        ensures { IfOk result (λ made. made ≡ model.ascending (model.variables (expression_of self.now))) }
    {
        let mut found = Variables::none(alloc);
        self.add_variables(&mut found)?;
        Ok(found)
    }

    /// Inserts the variables that stand in the expression. Without memory only some of them may be inserted.
    pub(crate) fn add_variables(&self, found: &mut Variables) -> Result<(), AllocError>
        ensures { IfOk result (λ _. found.new ≡ inserted_all (model.variables (expression_of self.now)) found.old) }
    {
        match self {
            Expression::Constant(_) | Expression::Received(_, _) => {}
            Expression::Variable(variable, _) => found.insert(variable.number)?,
            Expression::Binary(_, left, right) => {
                left.get().add_variables(found)?;
                right.get().add_variables(found)?;
            }
            Expression::Not(operand) | Expression::Cast(operand, _) => {
                operand.get().add_variables(found)?;
            }
        }
        Ok(())
    }
}
