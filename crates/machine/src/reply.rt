// What is answered where a call may want memory.
ghost use Rattle.std.specs.Prelude.{◌≡◌, Ok, Err, IfOk, MatchResult};

use runs::Refusal;
use std::alloc::AllocError;
use syntax::Items;

/// What was told, or that there was no memory for it.
pub(crate) fn or_no_memory<T>(told: Result<T, AllocError>) -> Result<T, Refusal>
    ensures { MatchResult told (λ value. result ≡ Ok value) (λ _. result ≡ Err Refusal.Memory) }
{
    match told {
        Ok(value) => Ok(value),
        Err(_) => Err(Refusal::Memory),
    }
}

/// What was told, as a vector in the same memory.
pub(crate) fn in_vec<T>(told: Result<Items<T>, AllocError>) -> Result<Vec<T>, AllocError>
    ensures { IfOk result (λ made. told ≡ Ok made.items) }
{
    match told {
        Ok(items) => Ok(items.into_vec()),
        Err(refused) => Err(refused),
    }
}
