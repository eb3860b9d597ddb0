// The ends of each channel, in rows by its number.
ghost use Rattle.std.specs.Prelude.{◌≡◌, ◌<◌, ◌^◌, ℕ, [], length, IfOk, OnOk};
ghost use Rattle.outline.specs.EndTable as model;

use crate::branches::{BranchEntry, branches_of};
use crate::ends::End;
use sharing_check::Checked;
use std::alloc::{AllocError, Global};
use syntax::Items;

/// An end of a channel, and the number of the branch that uses it.
#[derive(Clone, Copy)]
pub struct BranchEnd {
    pub branch: u32,
    pub end: End,
}

/// The ends of each channel.
#[derive(Drop)]
pub struct EndTable {
    /// by number of the channel, as far as one is used
    pub rows: Vec<Items<BranchEnd>>,
}

impl EndTable {
    /// The ends that a system has, by channel: of each channel those of the branches in order of their numbers, of each
    /// branch in the order of the source. It takes one walk through the source. It is an error if there is no memory.
    pub fn of(alloc: Global, checked: &Checked) -> Result<EndTable, AllocError>
        ensures { IfOk result (λ table. model.HasEnds checked.now table) }
    {
        let branches = branches_of(alloc, checked.system())?;
        let mut table = EndTable {
            rows: Vec::new(alloc),
        };
        table.add_branches(branches.as_slice())?;
        Ok(table)
    }

    /// The ends of the channel.
    pub fn on(&self, channel: u32) -> &[BranchEnd]
        ensures { result.now ≡ model.row_of self.now channel }
    {
        match self.rows.get(channel as usize) {
            Some(row) => row.as_slice(),
            None => &[],
        }
    }

    /// Adds the ends of these branches.
    fn add_branches(&mut self, branches: &[BranchEntry]) -> Result<(), AllocError>
        ensures { OnOk result ((c : ℕ) → model.row_of self.new c
            ≡ model.with_branches c branches.now (model.row_of self.old c)) }
    {
        for branch in branches {
            self.add_branch(branch)?;
        }
        Ok(())
    }

    /// Adds the ends of a branch.
    fn add_branch(&mut self, branch: &BranchEntry) -> Result<(), AllocError>
        ensures { OnOk result ((c : ℕ) → model.row_of self.new c
            ≡ model.with_ends c branch.now.number branch.now.ends (model.row_of self.old c)) }
    {
        for end in branch.ends.as_slice() {
            self.add_end(branch.number, *end)?;
        }
        Ok(())
    }

    /// Adds an end of this branch.
    fn add_end(&mut self, branch: u32, end: End) -> Result<(), AllocError>
        ensures { OnOk result ((c : ℕ) → model.row_of self.new c
            ≡ model.with_end c branch end (model.row_of self.old c)) }
    {
        let row = end.channel as usize;
        self.make_rows(row)?;
        self.rows[row].push(BranchEnd { branch, end })
    }

    /// Makes empty rows up to this one.
    fn make_rows(&mut self, number: usize) -> Result<(), AllocError>
        requires { number < 2 ^ 32 }
        ensures same { OnOk result ((c : ℕ) → model.row_of self.new c ≡ model.row_of self.old c) }
        ensures within { OnOk result (number < length self.new.rows.items) }
    {
        let alloc = *self.rows.allocator();
        'rows: while self.rows.len() <= number {
            self.rows.push(Items::new(alloc))?;
        }
        Ok(())
    }
}
