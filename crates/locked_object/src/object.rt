ghost use Rattle.std.specs.Prelude.{◌≡◌, ◌<◌, ℕ, IfOk, IfErr, OnErr};

use recorded_calls::Sequential;
use std::marker::PhantomData;

/// An object of one thread. C is what it can be asked, R what it replies.
pub trait Object<C, R>: Drop {
    // Of the object before, the number of the pass, the command, the reply and the object after: what is recorded.
    ghost performs: { Self → ℕ → C → R → Self → Type 0 };

    // Of the object, the number of the pass and the command: what it may reply without a record.
    ghost refuses: { Self → ℕ → C → R → Type 0 };

    /// Answers the command of a pass, 0 to 15. An error is a reply that is not recorded: nothing has changed.
    fn perform(&mut self, pass: u32, command: &C) -> Result<R, R>
        requires { pass < 16 }
        ensures done { IfOk result (λ reply. performs self.old pass command.now reply self.new) }
        ensures refused { IfErr result (λ reply. refuses self.old pass command.now reply) }
        ensures same { OnErr result (self.new ≡ self.old) };
}

/// What the object D replies.
pub struct Replies<D> {
    object: PhantomData<D>,
}

impl<C, R, D: Object<C, R>> Sequential<D, C, R> for Replies<D> {
    ghost performs = { D.performs };
}

/// Why a call was not recorded. The object and the history are as they were.
#[derive(Drop)]
pub enum NotRecorded<R> {
    /// the object replied so, and did nothing
    Refused(R),
    /// 2^63 calls are recorded
    Full,
}
