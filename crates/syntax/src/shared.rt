ghost use Rattle.std.specs.Prelude.{◌≡◌, IfOk};
ghost use Rattle.std.specs.Option.{IfSome};

use std::alloc::{AllocError, Global};
use std::marker::Model;
use std::sync::Arc;

/// One value on the heap with several owners, which contracts see as the value itself.
pub struct Shared<T> {
    pointer: Arc<T>,
}

impl<T> Model for Shared<T> {
    ghost Value = { T };

    ghost coded = { T.code };

    ghost view = { λ shared. shared.pointer.value };
}

// Said here, so that a type that holds itself through this one drops it as one of its fields.
impl<T: Drop> Drop for Shared<T> {
    fn drop(self) {
        let Shared { pointer } = self;
        drop(pointer);
    }
}

impl<T: Drop> Clone for Shared<T> {
    ghost is_clone = { λ shared copy. copy ≡ shared };

    fn clone(&self) -> Result<Shared<T>, AllocError> {
        let pointer = self.pointer.clone()?;
        Ok(Shared { pointer })
    }
}

impl<T> Shared<T> {
    /// The value.
    pub fn get(&self) -> &T
        ensures { result.now ≡ self.now }
    {
        &self.pointer
    }

    /// The value, where no one else has it. Otherwise this owner is given up.
    pub fn into_inner(self) -> Option<T>
        ensures { IfSome result (λ value. value ≡ self) }
    {
        let Shared { pointer } = self;
        Arc::into_inner(pointer)
    }
}

impl<T: Drop> Shared<T> {
    /// Moves `value` to the heap. Without memory it is dropped.
    pub fn new(alloc: Global, value: T) -> Result<Shared<T>, AllocError>
        ensures { IfOk result (λ shared. shared ≡ value) }
    {
        Ok(Shared {
            pointer: Arc::new(alloc, value)?,
        })
    }
}
