ghost use Rattle.std.specs.Prelude.{◌≡◌, [], ◌∷◌, ◌++◌, ◌<◌, length, slice_get, ◌↔◌, IsTrue, IfOk, MatchOption, OnOk, OnErr, OnSome};
ghost use Rattle.std.specs.Option.{option_copied};

use std::alloc::{AllocError, Global};
use std::marker::Model;

/// A `Vec` that contracts see as the list of its elements.
///
/// A recursive type that goes through `Items` has no pointer and no capacity in its value, so two
/// trees with the same nodes are equal.
#[derive(Debug, Drop)]
pub struct Items<T> {
    elements: Vec<T>,
}

impl<T> Model for Items<T> {
    ghost use Rattle.std.specs.Prelude.{List};
    ghost use Rattle.std.specs.Coded.{coded_list};

    ghost Value = { List T };

    ghost coded = { coded_list T.code };

    ghost view = { λ list. list.elements.items };
}

impl<T> Items<T> {
    /// No elements, and no memory yet.
    pub fn new(alloc: Global) -> Items<T>
        ensures { result ≡ [] }
    {
        Items {
            elements: Vec::new(alloc),
        }
    }

    /// No elements, with room for `capacity` of them.
    pub fn with_capacity(alloc: Global, capacity: usize) -> Result<Items<T>, AllocError>
        ensures { IfOk result (λ list. list ≡ []) }
    {
        Ok(Items {
            elements: Vec::with_capacity(alloc, capacity)?,
        })
    }

    /// The elements of `elements`, in its memory.
    pub fn from_vec(elements: Vec<T>) -> Items<T>
        ensures { result ≡ elements.items }
    {
        Items { elements }
    }

    /// The elements, in the same memory.
    pub fn into_vec(self) -> Vec<T>
        ensures { result.items ≡ self }
    {
        let Items { elements } = self;
        elements
    }

    /// The elements in order.
    pub fn as_slice(&self) -> &[T]
        ensures { result.now ≡ self.now }
    {
        self.elements.as_slice()
    }

    /// How many elements there are.
    pub fn len(&self) -> usize
        ensures { result ≡ length self.now }
    {
        self.elements.len()
    }

    /// Whether there are none.
    pub fn is_empty(&self) -> bool
        ensures { IsTrue result ↔ (self.now ≡ []) }
    {
        self.elements.is_empty()
    }

    /// The element at `index`, counted from 0, if there are so many.
    pub fn get(&self, index: usize) -> Option<&T>
        ensures value { option_copied result ≡ slice_get self.now index }
        ensures within { OnSome result (index < length self.now) }
    {
        self.elements.get(index)
    }

    /// Takes the last element off.
    pub fn pop(&mut self) -> Option<T>
        ensures { MatchOption result ((self.old ≡ []) × (self.new ≡ [])) (λ last. self.old ≡ self.new ++ last ∷ []) }
    {
        self.elements.pop()
    }
}

impl<T: Drop> Items<T> {
    /// Adds `element` at the end. Without memory it is dropped, and nothing changes.
    pub fn push(&mut self, element: T) -> Result<(), AllocError>
        ensures ok { OnOk result (self.new ≡ self.old ++ element ∷ []) }
        ensures err { OnErr result (self.new ≡ self.old) }
    {
        self.elements.push(element)?;
        Ok(())
    }
}
