// What stands before the names that are made for a call. All names of a call share it, and it shares that of the call
// around it, so that a chain of calls takes memory for each call once.
ghost use Rattle.std.specs.Prelude.{◌≡◌, ◌++◌, [], nat_eq, reverse, IsTrue, IfOk, OnOk};
ghost use Rattle.std.specs.Cmp.Lexicographic.{pointwise};
ghost use Rattle.system.specs.internal.Hashing.{hash_of};
ghost use Rattle.system.specs.Named.{prefix_of_call};

use crate::hash::hash_onto;
use std::alloc::{AllocError, Global};
use std::marker::Model;
use std::sync::Arc;

/// The number of each call around a name, a `:` behind each, which contracts see as the list of its bytes.
#[cycle(prefix)]
pub struct Prefix {
    innermost: Option<Arc<Call>>,
}

/// A call and the prefix of those around it.
#[cycle(prefix)]
#[derive(Drop)]
struct Call {
    around: Prefix,
    /// its number and the `:`
    text: Vec<u8>,
    /// the hash of the prefix up to here
    hash: u64,
}

impl Model for Prefix {
    ghost use Rattle.std.specs.Prelude.{List, ℕ, length};
    ghost use Rattle.std.proofs.Common.{arith, length-append};

    ghost Value = { List ℕ };

    ghost use Rattle.system.specs.Named.{prefix_bytes};
    ghost use Rattle.system.specs.internal.SharedPrefix.{IsHashed};

    ghost view = { λ prefix. prefix_bytes prefix.innermost };

    ghost invariant = { λ prefix. IsHashed prefix.innermost };

    ghost size = { length };

    ghost size_decreases = { λ a h. Prim.grind (arith, length-append) };
}

// A loop, so that a long chain takes no stack.
impl Drop for Prefix {
    fn drop(mut self) {
        loop {
            match self {
                Prefix { innermost: None } => return,
                Prefix {
                    innermost: Some(call),
                } => match Arc::into_inner(call) {
                    Some(
                        Call {
                            around,
                            text: _,
                            hash: _,
                        },
                    ) => self = around,
                    None => return,
                },
            }
        }
    }
}

impl Clone for Prefix {
    ghost is_clone = { λ prefix copy. copy ≡ prefix };

    fn clone(&self) -> Result<Prefix, AllocError> {
        match &self.innermost {
            Some(call) => Ok(Prefix {
                innermost: Some(call.clone()?),
            }),
            None => Ok(Prefix { innermost: None }),
        }
    }
}

impl Prefix {
    /// That of the root: nothing.
    pub fn root() -> Prefix
        ensures { result ≡ [] }
    {
        Prefix { innermost: None }
    }

    /// Whether it is that of the root.
    pub(crate) fn is_root(&self) -> bool
        ensures { IsTrue result → self.now ≡ [] }
    {
        matches!(&self.innermost, None)
    }

    /// What stands before the names that are made for the call of this number.
    pub fn of_call(self, alloc: Global, number: u64) -> Result<Prefix, AllocError>
        ensures { IfOk result (λ made. made ≡ prefix_of_call self number) }
    {
        let text = format!(in alloc; "{number}:")?.into_bytes();
        let hash = hash_onto(self.hash(), text.as_slice());
        let call = Call {
            around: self,
            text,
            hash,
        };
        Ok(Prefix {
            innermost: Some(Arc::new(alloc, call)?),
        })
    }

    /// The hash of its bytes.
    pub(crate) fn hash(&self) -> u64
        ensures { result ≡ hash_of self.now }
    {
        match &self.innermost {
            Some(call) => call.hash,
            None => 0,
        }
    }

    /// Whether these are its bytes.
    pub(crate) fn is(&self, text: &[u8]) -> bool
        ensures { result ≡ pointwise nat_eq self.now text.now }
    {
        let mut prefix = self;
        let mut left = text;
        while let Some(call) = &prefix.innermost {
            match left.strip_suffix(call.text.as_slice()) {
                Some(shorter) => {
                    left = shorter;
                    prefix = &call.around;
                }
                None => return false,
            }
        }
        left.is_empty()
    }

    /// Adds its bytes, the last one first.
    pub(crate) fn write_backwards(&self, out: &mut Vec<u8>) -> Result<(), AllocError>
        ensures { OnOk result (reverse out.new.items ≡ self.now ++ reverse out.old.items) }
    {
        let mut prefix = self;
        while let Some(call) = &prefix.innermost {
            push_backwards(out, call.text.as_slice())?;
            prefix = &call.around;
        }
        Ok(())
    }
}

/// Adds the bytes, the last one first.
pub(crate) fn push_backwards(out: &mut Vec<u8>, bytes: &[u8]) -> Result<(), AllocError>
    ensures { OnOk result (reverse out.new.items ≡ bytes.now ++ reverse out.old.items) }
{
    let mut left = bytes;
    while let [rest @ .., last] = left {
        out.push(*last)?;
        left = rest;
    }
    Ok(())
}
