ghost use Rattle.std.specs.Prelude.{◌≡◌, [], length, IfOk, OnOk, slice_get};
ghost use Rattle.sharing_check.specs.internal.Crossing as model;
ghost use Rattle.sharing_rule.specs.Rule.{is_shared_variable};

use crate::touched::{Touched, lesser};
use indexmap::IndexMap;
use std::alloc::{AllocError, Global};
use std::marker::Model;
use std::mem;
use system::Variable;

/// The most variables of a table that is emptied rather than dropped.
const FEW: usize = 64;

/// Where a part of a command touches variables, by their numbers.
#[derive(Drop)]
pub struct Touches {
    by_variable: IndexMap<u32, Touched>,
}

impl Model for Touches {
    ghost use Rattle.sharing_check.specs.internal.Crossing.{Table};

    ghost Value = { Table };

    ghost view = { λ touches. touches.by_variable.entries };
}

impl Touches {
    /// Nothing, and no memory yet.
    pub fn new(alloc: Global) -> Touches
        ensures { result ≡ [] }
    {
        Touches {
            by_variable: IndexMap::new(alloc),
        }
    }

    /// Whether there are a few variables.
    pub fn has_few(&self) -> bool {
        let count = self.by_variable.len();
        0 < count && count <= FEW
    }

    /// Takes everything out, and keeps the memory.
    pub fn clear(&mut self)
        ensures { self.new ≡ [] }
    {
        self.by_variable.clear();
    }

    /// How many variables there are.
    fn len(&self) -> usize
        ensures { result ≡ length self.now }
    {
        self.by_variable.len()
    }

    /// The variable at the place, and where it is touched.
    fn entry(&self, place: usize) -> Option<(u32, Touched)>
        ensures { result ≡ slice_get self.now place }
    {
        match self.by_variable.get_index(place) {
            Some((variable, touched)) => Some((*variable, *touched)),
            None => None,
        }
    }

    /// Adds where the variable is touched, and answers where it was touched before.
    pub fn add(&mut self, variable: u32, touched: Touched) -> Result<Touched, AllocError>
        ensures before { IfOk result (λ before. before ≡ model.touched_at self.old variable) }
        ensures added { OnOk result (self.new ≡ model.with_touched self.old variable touched) }
    {
        if let Some(held) = self.by_variable.get_mut(&variable) {
            let before = *held;
            *held = before.with(touched);
            return Ok(before);
        }
        self.by_variable.insert(variable, touched)?;
        Ok(Touched::NOWHERE)
    }

    /// Adds all that another part touches.
    pub fn add_all(&mut self, other: &Touches) -> Result<(), AllocError>
        ensures { IfOk result (λ _. self.new ≡ model.noted_all other.now self.old) }
    {
        for place in 0..other.len() {
            if let Some((variable, touched)) = other.entry(place) {
                self.add(variable, touched)?;
            }
        }
        Ok(())
    }

    /// Adds all that another branch of a parallel touches, and answers the least of `least` and of the offsets at which
    /// the two clash.
    pub fn add_branch(
        &mut self,
        other: &Touches,
        variables: &[Variable],
        least: Option<u64>,
    ) -> Result<Option<u64>, AllocError>
        ensures least { IfOk result (λ found. found ≡ model.least_with variables.now other.now self.old least) }
        ensures added { OnOk result (self.new ≡ model.noted_all other.now self.old) }
    {
        let mut least = least;
        for place in 0..other.len() {
            if let Some((variable, touched)) = other.entry(place) {
                let before = self.add(variable, touched)?;
                least = with_clash(variables, variable, before.clash(touched), least);
            }
        }
        Ok(least)
    }
}

/// Makes the one with fewer variables the second.
pub fn put_larger_first(one: &mut Touches, other: &mut Touches)
    ensures larger { one.new ≡ model.larger one.old other.old }
    ensures smaller { other.new ≡ model.smaller one.old other.old }
{
    if one.len() < other.len() {
        mem::swap(one, other);
    }
}

/// The least of `least` and of an offset at which two branches clash in the variable, if they may not share it.
fn with_clash(
    variables: &[Variable],
    variable: u32,
    clash: Option<u64>,
    least: Option<u64>,
) -> Option<u64>
    ensures { result ≡ model.with_clash variables.now variable clash least }
{
    if is_shared(variables, variable) {
        least
    } else {
        lesser(least, clash)
    }
}

/// Whether branches may share the variable.
fn is_shared(variables: &[Variable], number: u32) -> bool
    ensures { result ≡ is_shared_variable (slice_get variables.now number) }
{
    match variables.get(number as usize) {
        Some(variable) => variable.shared,
        None => false,
    }
}
