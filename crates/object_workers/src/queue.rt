// The queue of branch numbers: each number stands once in the queue or in one worker's hands.
use crossbeam_queue::RuledArrayQueue;
use crossbeam_queue::protocol::{Lesson, Outcome, Protocol, Split};
use std::alloc::Global;
use std::collections::LinkedList;
use std::marker::{Brand, PhantomData};

/// The numbers in one worker's hands. No value of it is made.
pub struct Hand {
    pub numbers: LinkedList<u32>,
}

/// How many branches there are. Each run picks it.
pub(crate) trait Branching {
    ghost use Rattle.std.specs.Prelude.{ℕ};

    ghost count: { ℕ };
}

impl Branching for Brand {
    ghost count = { 0 };
}

/// The rule over the numbers below a count.
pub struct Dealing<B> {
    count: PhantomData<B>,
}

impl<B: Branching> Protocol<u32, Hand> for Dealing<B> {
    ghost use Rattle.object_workers.specs.Dealt.{Dealt, hand, range};

    ghost holds = { Dealt B.count };

    ghost first = { hand (range 0 B.count) };
}

/// A number goes into the queue.
pub(crate) struct Gives<B> {
    count: PhantomData<B>,
}

impl<B: Branching> Outcome<u32, Hand> for Gives<B> {
    ghost use Rattle.std.specs.Prelude.{◌≡◌, ◌∷◌};

    ghost then = { λ v x w. v.numbers ≡ x ∷ w.numbers };
}

impl<B: Branching> Lesson<u32, Hand> for Gives<B> {
    ghost use Rattle.std.specs.Prelude.{◌≤◌, ◌+◌, length};

    ghost fact = { λ v items. length items + length v.numbers ≤ B.count };
}

/// A number comes out of the queue.
pub(crate) struct Takes<B> {
    count: PhantomData<B>,
}

impl<B: Branching> Outcome<u32, Hand> for Takes<B> {
    ghost use Rattle.std.specs.Prelude.{◌≡◌, ◌<◌, ◌∷◌};

    ghost then = { λ v x w. (w.numbers ≡ x ∷ v.numbers) × (x < B.count) };
}

impl<B: Branching> Lesson<u32, Hand> for Takes<B> {
    ghost fact = { λ _ _. Unit {0} };
}

/// One worker more, with empty hands.
pub(crate) struct Comes;

impl Split<Hand> for Comes {
    ghost use Rattle.std.specs.Prelude.{[]};
    ghost use Rattle.object_workers.specs.Dealt.{hand};

    ghost left = { λ v. v };

    ghost right = { λ _. hand [] };
}

/// The queue of branch numbers.
pub(crate) type Queue<B> = RuledArrayQueue<u32, Hand, Dealing<B>, Global>;
