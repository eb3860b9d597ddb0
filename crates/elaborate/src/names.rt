// Places by name.
ghost use Rattle.std.specs.Prelude.{◌≡◌, [], OnOk};
ghost use Rattle.system.specs.internal.Hashing as hashing;
ghost use Rattle.elaborate.specs.internal.NamePositions as model;

use indexmap::IndexMap;
use std::alloc::{AllocError, Global};
use std::marker::Model;
use syntax::Name;

/// For each name of a list the first position at which it stands.
#[derive(Drop)]
pub struct Places {
    index: IndexMap<Vec<u8>, usize>,
}

impl Model for Places {
    ghost use Rattle.std.specs.Prelude.{ℕ, List, map};

    ghost Value = { List (List ℕ × ℕ) };

    ghost view = { λ positions. map (λ e. (e.0.items, e.1)) positions.index.entries };
}

impl Places {
    /// No names.
    pub fn new(alloc: Global) -> Places
        ensures { result ≡ [] }
    {
        Places {
            index: IndexMap::new(alloc),
        }
    }

    /// The position of the name, if it has one.
    pub fn find(&self, name: &[u8]) -> Option<usize>
        ensures { result ≡ model.position_at self.now name.now }
    {
        self.index.get(name).copied()
    }

    /// Gives the name this position, unless it has one.
    pub fn note(&mut self, alloc: Global, name: &Name, position: usize) -> Result<(), AllocError>
        ensures { OnOk result (self.new ≡ model.with_name self.old name.now position) }
    {
        if self.find(name.text()).is_some() {
            return Ok(());
        }
        let key = Vec::from_slice(alloc, name.text())?;
        self.index.insert(key, position)?;
        Ok(())
    }
}
