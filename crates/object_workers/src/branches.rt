ghost use Rattle.std.specs.Prelude.{◌≡◌, ℕ, Bool};

use locked_object::Object;

/// An object with branches, numbered from 0, that can be stepped one at a time.
pub trait Branches<C: Drop, R: Drop>: Object<C, R> {
    // The command that steps a branch.
    ghost asks: { ℕ → C };

    // Whether a reply tells of a step.
    ghost steps: { R → Bool };

    /// The command that steps this branch.
    fn ask(branch: u32) -> C
        ensures { result ≡ asks branch };

    /// Whether the reply tells of a step.
    fn is_step(reply: &R) -> bool
        ensures { result ≡ steps reply.now };
}
