// What the walk through the bodies of procedures has found.
ghost use Rattle.std.specs.Prelude.{◌≡◌, ◌++◌, OnOk};
ghost use Rattle.described.specs.Telling as model;

use crate::call::CallEntry;
use crate::walk::Entered;
use std::alloc::{AllocError, Global};
use syntax::Items;
use system::QualifiedName;
use types::{Local, LocalKind, Procedure};

/// A call in as many calls as these is counted alone: its name would be as long as they are many.
const MOST_CALLS: u64 = 64;

/// What the walk has found.
#[derive(Drop)]
pub(crate) struct Found {
    pub(crate) calls: Items<CallEntry>,
    /// how many calls are too deep to be told
    pub(crate) deeper: u64,
    /// the offset at which each variable is declared
    pub(crate) variables: Items<u64>,
}

impl Found {
    /// Nothing.
    pub(crate) fn nothing(alloc: Global) -> Found
        ensures { result ≡ model.nothing_found }
    {
        Found {
            calls: Items::new(alloc),
            deeper: 0,
            variables: Items::new(alloc),
        }
    }

    /// Adds a call, or counts it where it stands in too many others.
    pub(crate) fn add_call(
        &mut self,
        alloc: Global,
        entered: &Entered,
        called: &Procedure,
        line: u64,
    ) -> Result<(), AllocError>
        ensures { OnOk result (self.new ≡ model.with_call entered.now called.now.name line self.old) }
    {
        if entered.depth > MOST_CALLS {
            return self.count_deeper();
        }
        let name = QualifiedName::new(entered.prefix.clone()?, called.name.clone()?);
        let place = entered.place.copy(alloc)?;
        self.calls.push(CallEntry { name, place, line })
    }

    /// Counts a call that is not told.
    fn count_deeper(&mut self) -> Result<(), AllocError>
        ensures { OnOk result (self.new ≡ model.one_deeper self.old) }
    {
        match self.deeper.checked_add(1) {
            Some(deeper) => {
                self.deeper = deeper;
                Ok(())
            }
            None => Err(AllocError),
        }
    }

    /// Adds the variables among the locals.
    pub(crate) fn add_locals(&mut self, locals: &[Local]) -> Result<(), AllocError>
        ensures { OnOk result (self.new ≡ model.with_locals locals.now self.old) }
    {
        for local in locals {
            self.add_local(local)?;
        }
        Ok(())
    }

    /// Adds the local, if it is a variable.
    fn add_local(&mut self, local: &Local) -> Result<(), AllocError>
        ensures { OnOk result (self.new ≡ model.with_local local.now.declared local.now.kind self.old) }
    {
        match local.kind {
            LocalKind::Variable(_) | LocalKind::SharedVariable(_) => {
                self.variables.push(local.declared)
            }
            LocalKind::Channel(_) | LocalKind::Sync => Ok(()),
        }
    }
}
