// Where a walk through a tree is, and what it has found.
ghost use Rattle.std.specs.Prelude.{◌≡◌, [], ◌∷◌, ◌^◌, ◌≤◌, length, IfOk, OnOk, OnErr};
ghost use Rattle.process_tree.specs.Remaining.{with_value};
ghost use Rattle.local_actions.specs.Walk.{action_at, added, down, up, within_arm, outside};

use crate::action::{ActionKind, LocalAction};
use crate::around::Around;
use address::{Address, Entry};
use smallvec::SmallVec;
use std::alloc::{AllocError, Global};
use std::marker::Model;
use syntax::Items;
use value::Value;

/// So many entries of a place take no memory of their own.
const INLINE: usize = 8;

/// A place in a tree, what was received in the arms around it, and the actions found so far.
#[derive(Drop)]
pub struct Cursor {
    entries: SmallVec<Entry, INLINE>,
    around: Around,
    found: Items<LocalAction>,
}

impl Model for Cursor {
    ghost use Rattle.local_actions.specs.Walk.{Walk};

    ghost Value = { Walk };

    ghost view = { λ a. record {
      place = a.entries.items;
      received = a.around;
      actions = a.found;
    } };
}

impl Cursor {
    /// The root of a tree, and nothing found.
    pub fn new(alloc: Global) -> Cursor
        ensures { result ≡ record { place = []; received = []; actions = [] } }
    {
        Cursor {
            entries: SmallVec::new(alloc),
            around: Around::new(alloc),
            found: Items::new(alloc),
        }
    }

    /// This place, with what was received in the arms around it, and nothing found. It is an error if there is no memory.
    pub(crate) fn at(alloc: Global, place: &[Entry], around: Around) -> Result<Cursor, AllocError>
        ensures { IfOk result (λ made.
            made ≡ record { place = place.now; received = around; actions = [] }) }
    {
        Ok(Cursor {
            entries: SmallVec::from_slice(alloc, place)?,
            around,
            found: Items::new(alloc),
        })
    }

    /// What was received in the arms around the place.
    pub(crate) fn around(&self) -> &Around
        ensures { result.now ≡ self.now.received }
    {
        &self.around
    }

    /// What was found.
    pub fn into_found(self) -> Items<LocalAction>
        ensures { result ≡ self.actions }
    {
        let Cursor { found, .. } = self;
        found
    }

    /// How many actions were found.
    pub fn count(&self) -> usize
        ensures { result ≡ length self.now.actions }
    {
        self.found.len()
    }

    /// Goes to the child of this number in a sequence. A number of 2^32 and more has no place: it takes more memory to
    /// get there than there is, and the answer is the same.
    pub fn enter_child(&mut self, number: u64) -> Result<(), AllocError>
        ensures { OnOk result (self.new ≡ down (Entry.Ordered number) self.old) }
    {
        let entry = Entry::Ordered(small(number)?);
        self.entries.push(entry)?;
        Ok(())
    }

    /// Goes to the branch of this number in a parallel. It is an error if there is no memory.
    pub fn enter_branch(&mut self, number: u64) -> Result<(), AllocError>
        ensures { OnOk result (self.new ≡ down (Entry.Branch number) self.old) }
    {
        let entry = Entry::Branch(small(number)?);
        self.entries.push(entry)?;
        Ok(())
    }

    /// Goes back from a child or branch.
    pub fn leave(&mut self)
        ensures { self.new ≡ up self.old }
    {
        self.entries.pop();
    }

    /// Goes into an arm that opened on this channel, and received this if anything. It is an error if there is no
    /// memory.
    pub fn receive(&mut self, channel: u32, value: Option<Value>) -> Result<(), AllocError>
        ensures { OnOk result (self.new ≡ within_arm (with_value channel value self.old.received) self.old) }
    {
        self.around.receive(channel, value)
    }

    /// Goes out of such an arm.
    pub fn forget(&mut self)
        ensures { self.new ≡ within_arm (outside self.old.received) self.old }
    {
        self.around.forget();
    }

    /// Adds an action at the place itself. It is an error if there is no memory; then none is added.
    pub(crate) fn add(&mut self, alloc: Global, action: ActionKind) -> Result<(), AllocError>
        ensures { OnOk result (self.new ≡ added (action_at [] action ∷ []) self.old) }
    {
        let place = Address::new(alloc, self.entries.as_slice())?;
        self.found.push(LocalAction { place, action })
    }

    /// Adds an action at this act of the command at the place. It is an error if there is no memory; then none is
    /// added.
    pub fn add_act(&mut self, alloc: Global, act: u64, action: ActionKind) -> Result<(), AllocError>
        ensures { OnOk result (self.new ≡ added (action_at (Entry.Ordered act ∷ []) action ∷ []) self.old) }
    {
        let last = Entry::Ordered(small(act)?);
        let place = Address::below(alloc, self.entries.as_slice(), last)?;
        self.found.push(LocalAction { place, action })
    }
}

/// The number as one of a place or arm.
pub(crate) fn small(number: u64) -> Result<u32, AllocError>
    ensures same { IfOk result (λ same. same ≡ number) }
    ensures large { OnErr result (2 ^ 32 ≤ number) }
{
    match u32::try_from(number) {
        Ok(same) => Ok(same),
        Err(_) => Err(AllocError),
    }
}
