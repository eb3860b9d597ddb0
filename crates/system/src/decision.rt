ghost use Rattle.std.specs.Prelude.{◌≡◌, [], IfOk, map};
ghost use Rattle.system.specs.Expression as model;
ghost use Rattle.system.specs.Translation.{expression_of, decision_of};

use crate::{Expression, Variables};
use std::alloc::{AllocError, Global};
use syntax::Items;
use value::Value;

/// What an `if` or a `case` decides by. The last part says whether there is an `else`, which counts as one arm more.
#[derive(Drop)]
pub enum Decision {
    /// the guard of each arm; a guard is true where it is 1
    Guards(Items<Expression>, bool),
    /// the expression, and the labels of each arm
    Labels(Expression, Items<Items<u64>>, bool),
}

impl Decision {
    /// The arm that is taken, counted from 0: the first one whose guard is true or which has the label, or else the
    /// `else`. `None` where there is none.
    pub fn decide(&self, variables: &[Value]) -> Option<u64>
        ensures { result ≡ model.decide variables.now (decision_of self.now) }
    {
        match self {
            Decision::Guards(guards, otherwise) => {
                first_true(guards.as_slice(), *otherwise, variables)
            }
            Decision::Labels(subject, labels, otherwise) => {
                let bits = subject.value(variables).bits();
                first_labelled(labels.as_slice(), *otherwise, bits)
            }
        }
    }

    /// The variables that stand in the guards of all arms, or in the expression.
    pub fn variables(&self, alloc: Global) -> Result<Variables, AllocError>
        ensures { IfOk result (λ made. made ≡ model.ascending (model.decision_variables (decision_of self.now))) }
    {
        match self {
            Decision::Guards(guards, _) => variables_of_all(alloc, guards.as_slice()),
            Decision::Labels(subject, _, _) => subject.variables(alloc),
        }
    }

    /// An equal test in memory of its own.
    pub fn copy(&self, alloc: Global) -> Result<Decision, AllocError>
        ensures { IfOk result (λ made. made ≡ self.now) }
    {
        match self {
            Decision::Guards(guards, otherwise) => {
                let guards = copy_all(alloc, guards.as_slice())?;
                Ok(Decision::Guards(guards, *otherwise))
            }
            Decision::Labels(subject, labels, otherwise) => {
                let subject = subject.copy(alloc)?;
                let labels = copy_labels(alloc, labels.as_slice())?;
                Ok(Decision::Labels(subject, labels, *otherwise))
            }
        }
    }

    /// A copy in which the value, cut or widened to the channel's width, stands for each name of the channel.
    pub fn with_received(
        &self,
        alloc: Global,
        channel: u32,
        value: Value,
    ) -> Result<Decision, AllocError>
        ensures { IfOk result (λ made. decision_of made ≡ model.put_decision channel value (decision_of self.now)) }
    {
        match self {
            Decision::Guards(guards, otherwise) => {
                let guards = all_with_received(alloc, guards.as_slice(), channel, value)?;
                Ok(Decision::Guards(guards, *otherwise))
            }
            Decision::Labels(subject, labels, otherwise) => {
                let subject = subject.with_received(alloc, channel, value)?;
                let labels = copy_labels(alloc, labels.as_slice())?;
                Ok(Decision::Labels(subject, labels, *otherwise))
            }
        }
    }
}

/// The first arm whose guard is true, or the `else`.
fn first_true(guards: &[Expression], otherwise: bool, variables: &[Value]) -> Option<u64>
    ensures { result
        ≡ model.first_of_tests 0 (model.guards_hold variables.now (map expression_of guards.now)) otherwise }
{
    for (arm, guard) in guards.iter().enumerate() {
        if guard.value(variables).bits() == 1 {
            return Some(arm as u64);
        }
    }
    else_arm(guards.len() as u64, otherwise)
}

/// The first arm that has the label, or the `else`.
fn first_labelled(labels: &[Items<u64>], otherwise: bool, bits: u64) -> Option<u64>
    ensures { result ≡ model.first_of_tests 0 (model.labels_hold bits labels.now) otherwise }
{
    for (arm, of_arm) in labels.iter().enumerate() {
        if has_label(of_arm.as_slice(), bits) {
            return Some(arm as u64);
        }
    }
    else_arm(labels.len() as u64, otherwise)
}

/// Whether the number is one of the labels.
fn has_label(labels: &[u64], bits: u64) -> bool
    ensures { result ≡ model.is_in bits labels.now }
{
    for label in labels {
        if *label == bits {
            return true;
        }
    }
    false
}

/// The arm after so many, where there is an `else`.
fn else_arm(arms: u64, otherwise: bool) -> Option<u64>
    ensures { result ≡ model.first_of_tests arms [] otherwise }
{
    if otherwise { Some(arms) } else { None }
}

/// The variables that stand in the guards.
#[tactic(auto, using(crate::proofs::Insertions::inserted_all_none))]
fn variables_of_all(alloc: Global, guards: &[Expression]) -> Result<Variables, AllocError>
    ensures { IfOk result (λ made. made ≡ model.ascending (model.variables_of_all (map expression_of guards.now))) }
{
    let mut found = Variables::none(alloc);
    for guard in guards {
        guard.add_variables(&mut found)?;
    }
    Ok(found)
}

/// Equal guards in memory of their own.
fn copy_all(alloc: Global, guards: &[Expression]) -> Result<Items<Expression>, AllocError>
    ensures { IfOk result (λ made. made ≡ guards.now) }
{
    let mut copies = Items::with_capacity(alloc, guards.len())?;
    for guard in guards {
        copies.push(guard.copy(alloc)?)?;
    }
    Ok(copies)
}

/// Equal labels in memory of their own.
fn copy_labels(alloc: Global, labels: &[Items<u64>]) -> Result<Items<Items<u64>>, AllocError>
    ensures { IfOk result (λ made. made ≡ labels.now) }
{
    let mut copies = Items::with_capacity(alloc, labels.len())?;
    for of_arm in labels {
        let copy = Vec::from_slice(alloc, of_arm.as_slice())?;
        copies.push(Items::from_vec(copy))?;
    }
    Ok(copies)
}

/// Copies of the guards in which the value stands for each name of the channel.
fn all_with_received(
    alloc: Global,
    guards: &[Expression],
    channel: u32,
    value: Value,
) -> Result<Items<Expression>, AllocError>
    ensures { IfOk result (λ made.
        map expression_of made ≡ model.put_all channel value (map expression_of guards.now)) }
{
    let mut copies = Items::with_capacity(alloc, guards.len())?;
    for guard in guards {
        copies.push(guard.with_received(alloc, channel, value)?)?;
    }
    Ok(copies)
}
