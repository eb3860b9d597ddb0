ghost use Rattle.std.specs.Prelude.{◌≡◌, IfOk};

use std::alloc::{AllocError, Global};
use std::marker::Model;

/// One value on the heap, which contracts see as the value itself.
///
/// A recursive type that goes through `Boxed` has no pointer in its value, so two trees with the
/// same nodes are equal.
#[derive(Debug, Drop)]
pub struct Boxed<T> {
    pointer: Box<T>,
}

impl<T> Model for Boxed<T> {
    ghost Value = { T };

    ghost coded = { T.code };

    ghost view = { λ boxed. boxed.pointer.value };
}

impl<T> Boxed<T> {
    /// The value.
    pub fn get(&self) -> &T
        ensures { result.now ≡ self.now }
    {
        &self.pointer
    }

    /// Gives the value back and frees its place on the heap.
    pub fn into_inner(self) -> T
        ensures { result ≡ self }
    {
        let Boxed { pointer } = self;
        Box::into_inner(pointer)
    }
}

impl<T: Drop> Boxed<T> {
    /// Moves `value` to the heap. Without memory it is dropped.
    pub fn new(alloc: Global, value: T) -> Result<Boxed<T>, AllocError>
        ensures { IfOk result (λ boxed. boxed ≡ value) }
    {
        Ok(Boxed {
            pointer: Box::new(alloc, value)?,
        })
    }
}
