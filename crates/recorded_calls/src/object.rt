ghost use Rattle.std.specs.Prelude.{ℕ};

/// The object of one thread that the passes speak to. O is its state, C a command and R a reply.
pub trait Sequential<O, C, R> {
    // Of the state before, the number of the pass, the command, the reply and the state after.
    ghost performs: { O → ℕ → C → R → O → Type 0 };
}
