ghost use Rattle.std.specs.Prelude.{◌≡◌, [], None, IfOk};
ghost use Rattle.std.specs.Option.{IfSome};
ghost use Rattle.sharing_check.specs.internal.Gathering as model;

use crate::touched::Touched;
use crate::touches::{Touches, put_larger_first};
use std::alloc::{AllocError, Global};
use std::marker::Model;
use std::mem;
use system::{Use, Variable};

/// What is found in the commands so far.
#[derive(Drop)]
pub struct Found {
    touches: Touches,
    /// the least offset of a use that clashes
    least: Option<u64>,
    /// nothing, in memory that serves the next branch
    spare: Option<Touches>,
}

impl Model for Found {
    ghost use Rattle.std.specs.Prelude.{◌≡◌, []};
    ghost use Rattle.std.specs.Option.{IfSome};
    ghost use Rattle.sharing_check.specs.internal.Gathering.{Gathered, gathered};

    ghost Value = { Gathered };

    ghost view = { λ found. gathered found.touches found.least };

    ghost invariant = { λ found. IfSome found.spare (λ table. table ≡ []) };
}

impl Found {
    /// Nothing, and no memory yet.
    pub fn new(alloc: Global) -> Found
        ensures { result ≡ model.gathered [] None }
    {
        Found {
            touches: Touches::new(alloc),
            least: None,
            spare: None,
        }
    }

    /// The least offset of a use that clashes.
    pub fn least(&self) -> Option<u64>
        ensures { result ≡ self.now.least }
    {
        self.least
    }

    /// Adds a use of a variable.
    pub fn add(&mut self, variable: Use, writes: bool) -> Result<(), AllocError>
        ensures { IfOk result (λ _. self.new ≡ model.mentioned variable writes self.old) }
    {
        self.touches
            .add(variable.number, Touched::at(variable.offset, writes))?;
        Ok(())
    }

    /// Takes out what was touched so far, so that what comes is found alone.
    pub fn take_touches(&mut self, alloc: Global) -> Touches
        ensures taken { result ≡ self.old.touched }
        ensures left { self.new ≡ model.gathered [] self.old.least }
    {
        let nothing = touch_nothing(&mut self.spare, alloc);
        mem::replace(&mut self.touches, nothing)
    }

    /// Puts back what was touched before.
    pub fn put_back(&mut self, earlier: Touches) -> Result<(), AllocError>
        ensures { IfOk result (λ _. self.new ≡ model.put_back earlier self.old) }
    {
        let mut earlier = earlier;
        put_larger_first(&mut self.touches, &mut earlier);
        self.touches.add_all(&earlier)?;
        keep_memory(&mut self.spare, earlier);
        Ok(())
    }

    /// Puts back what the branches before this one touched, with the clashes between them and this one.
    pub fn join(&mut self, variables: &[Variable], earlier: Touches) -> Result<(), AllocError>
        ensures { IfOk result (λ _. self.new ≡ model.joined variables.now earlier self.old) }
    {
        let mut earlier = earlier;
        put_larger_first(&mut self.touches, &mut earlier);
        self.least = self.touches.add_branch(&earlier, variables, self.least)?;
        keep_memory(&mut self.spare, earlier);
        Ok(())
    }
}

/// A table of nothing, in spare memory where there is some.
fn touch_nothing(spare: &mut Option<Touches>, alloc: Global) -> Touches
    requires { IfSome spare.old (λ table. table ≡ []) }
    ensures nothing { result ≡ [] }
    ensures taken { spare.new ≡ None }
{
    match spare.take() {
        Some(table) => table,
        None => Touches::new(alloc),
    }
}

/// Keeps the memory of a table that is done with, where it has few variables: to empty a large one takes long.
fn keep_memory(spare: &mut Option<Touches>, done: Touches)
    requires { IfSome spare.old (λ table. table ≡ []) }
    ensures { IfSome spare.new (λ table. table ≡ []) }
{
    if !done.has_few() {
        return;
    }
    let mut done = done;
    done.clear();
    *spare = Some(done);
}
