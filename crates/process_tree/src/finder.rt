// Where a walk through a tree is, and the offers that it has found.
ghost use Rattle.std.specs.Prelude.{◌≡◌, ◌≤◌, ◌^◌, [], ◌∷◌, IfOk, OnOk, OnErr};
ghost use Rattle.process_tree.specs.internal.Listed.{offer_at, added, down, up};

use crate::offer::{Offer, OfferKind};
use address::{Address, Entry};
use std::alloc::{AllocError, Global};
use syntax::Items;

/// A place in a tree, and the offers found so far.
#[derive(Drop)]
pub(crate) struct Finder {
    entries: Items<Entry>,
    found: Items<Offer>,
}

impl Finder {
    /// The root of a tree, and nothing found.
    pub(crate) fn new(alloc: Global) -> Finder
        ensures entries { result.entries ≡ [] }
        ensures found { result.found ≡ [] }
    {
        Finder {
            entries: Items::new(alloc),
            found: Items::new(alloc),
        }
    }

    /// What was found.
    pub(crate) fn into_found(self) -> Items<Offer>
        ensures { result ≡ self.found }
    {
        let Finder { found, .. } = self;
        found
    }

    /// Goes to the child of this number in a sequence. A number of 2^32 and more has no place: it takes more memory to
    /// get there than there is, and the answer is the same.
    pub(crate) fn enter_child(&mut self, number: u64) -> Result<(), AllocError>
        ensures { OnOk result (self.new ≡ down (Entry.Ordered number) self.old) }
    {
        self.entries.push(Entry::Ordered(small(number)?))
    }

    /// Goes to the branch of this number in a parallel.
    pub(crate) fn enter_branch(&mut self, number: u64) -> Result<(), AllocError>
        ensures { OnOk result (self.new ≡ down (Entry.Branch number) self.old) }
    {
        self.entries.push(Entry::Branch(small(number)?))
    }

    /// Goes back from a child or branch.
    pub(crate) fn leave(&mut self)
        ensures { self.new ≡ up self.old }
    {
        self.entries.pop();
    }

    /// Adds an offer at the place itself.
    pub(crate) fn add(&mut self, alloc: Global, kind: OfferKind) -> Result<(), AllocError>
        ensures { OnOk result (self.new ≡ added (offer_at [] kind ∷ []) self.old) }
    {
        let place = Address::new(alloc, self.entries.as_slice())?;
        self.found.push(Offer { place, kind })
    }

    /// Adds an offer at this act of the command at the place.
    pub(crate) fn add_act(
        &mut self,
        alloc: Global,
        act: u64,
        kind: OfferKind,
    ) -> Result<(), AllocError>
        ensures { OnOk result (self.new ≡ added (offer_at (Entry.Ordered act ∷ []) kind ∷ []) self.old) }
    {
        let last = Entry::Ordered(small(act)?);
        let place = Address::below(alloc, self.entries.as_slice(), last)?;
        self.found.push(Offer { place, kind })
    }
}

/// The number as one of a place or arm.
pub(crate) fn small(number: u64) -> Result<u32, AllocError>
    ensures same { IfOk result (λ same. same ≡ number) }
    ensures large { OnErr result (2 ^ 32 ≤ number) }
{
    match u32::try_from(number) {
        Ok(same) => Ok(same),
        Err(_) => Err(AllocError),
    }
}
