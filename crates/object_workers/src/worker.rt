// One worker: its pass, its place at the queue, and what it counts.
ghost use Rattle.std.specs.Prelude.{ℕ, List, ◌-◌, ◌≡◌, ◌⊎◌, ◌≤◌, ◌<◌, ◌+◌, ◌^◌, ◌∷◌, if◌then◌else◌, MatchResult};
ghost use Rattle.crossbeam_queue.specs.Passes as queue;
ghost use Rattle.locked_object.specs.Passes as locked;
ghost use Rattle.object_workers.specs.internal.Workers.{WorkerFits, WorkerRan, InHands, AskedFor};

use crate::queue::{Branching, Gives, Hand, Queue, Takes};
use crate::{Branches, Gate};
use locked_object::{NotRecorded, Pass, Shared};
use std::sync::Wait;

/// What all workers share.
#[derive(Drop)]
pub(crate) struct Work<'a, C: Drop, R: Drop, D: Branches<C, R>, G: Gate, B: Branching> {
    pub(crate) shared: &'a Shared<C, R, D>,
    pub(crate) queue: &'a Queue<B>,
    pub(crate) gate: &'a G,
}

/// A pass, its place at the queue, the number of the worker, which is its pass's place from 0, and how many of its
/// turns were steps and were lost.
#[derive(Drop)]
pub(crate) struct Worker<D, C, R> {
    pub(crate) pass: Pass<D, C, R>,
    pub(crate) seat: crossbeam_queue::Pass<u32, Hand>,
    pub(crate) number: u32,
    pub(crate) stepped: u64,
    pub(crate) lost: u64,
}

impl<C: Drop, R: Drop, D: Branches<C, R>> Worker<D, C, R> {
    /// Takes so many turns.
    pub(crate) fn run<W: Wait, G: Gate, B: Branching>(
        &mut self,
        rt: &W,
        work: &Work<'_, C, R, D, G, B>,
        turns: u64,
    )
        requires fits { WorkerFits work.now.shared.now.board.table.shared.table_id
            work.now.shared.now.board.table.shared.key work.now.queue.now.table.shared.table_id self.old }
        requires new { (self.old.stepped ≡ 0) × (self.old.lost ≡ 0) }
        requires room { B.count ≤ queue.ruled_capacity work.now.queue.now }
        ensures { WorkerRan work.now.shared.now.board.table.shared.table_id work.now.shared.now.board.table.shared.key
            D.performs D.asks D.steps B.count turns self.old self.new }
    {
        for turn in 0..turns {
            self.turn(rt, work, turn);
        }
    }

    /// Takes a branch from the queue, asks for a step of it, and puts it back; of branch 0 where the queue is empty.
    fn turn<W: Wait, G: Gate, B: Branching>(
        &mut self,
        rt: &W,
        work: &Work<'_, C, R, D, G, B>,
        turn: u64,
    )
        requires fits { WorkerFits work.now.shared.now.board.table.shared.table_id
            work.now.shared.now.board.table.shared.key work.now.queue.now.table.shared.table_id self.old }
        requires few { (self.old.stepped ≤ turn) × (self.old.lost ≤ turn) × (turn < 2 ^ 64 - 1) }
        requires room { B.count ≤ queue.ruled_capacity work.now.queue.now }
        ensures fits { WorkerFits work.now.shared.now.board.table.shared.table_id
            work.now.shared.now.board.table.shared.key work.now.queue.now.table.shared.table_id self.new }
        ensures ran { WorkerRan work.now.shared.now.board.table.shared.table_id
            work.now.shared.now.board.table.shared.key D.performs D.asks D.steps B.count 1 self.old self.new }
    {
        match work.queue.pop_as::<Takes<B>, W>(rt, &mut self.seat) {
            Some(branch) => {
                self.call(rt, work, branch, turn);
                put_back(rt, work.queue, &mut self.seat, branch);
            }
            None => self.call(rt, work, 0, turn),
        }
    }

    /// Asks for a step of the branch in its hands, of branch 0 where they are empty, and counts what it is told.
    fn call<W: Wait, G: Gate, B: Branching>(
        &mut self,
        rt: &W,
        work: &Work<'_, C, R, D, G, B>,
        branch: u32,
        turn: u64,
    )
        requires pass { locked.IsPassOf work.now.shared.now.board.table.shared.table_id
            work.now.shared.now.board.table.shared.key self.old.pass }
        requires branch { (branch < B.count) ⊎ ((B.count ≡ 0) × (branch ≡ 0)) }
        requires held { InHands (queue.view self.old.seat).numbers branch }
        requires few { (self.old.stepped ≤ turn) × (self.old.lost ≤ turn) × (turn < 2 ^ 64 - 1) }
        ensures asked { AskedFor D.asks branch self.old.pass self.new.pass }
        ensures seat { (self.new.seat ≡ self.old.seat) × (self.new.number ≡ self.old.number) }
        ensures ran { WorkerRan work.now.shared.now.board.table.shared.table_id
            work.now.shared.now.board.table.shared.key D.performs D.asks D.steps B.count 1 self.old self.new }
    {
        work.gate.before(self.number, turn);
        let command = D::ask(branch);
        let told = work.shared.call(rt, &mut self.pass, &command);
        work.gate.after(self.number, turn);
        self.count(&told);
    }

    /// Counts a step, or a turn that was lost.
    fn count(&mut self, told: &Result<R, NotRecorded<R>>)
        requires { (self.old.stepped < 2 ^ 64 - 1) × (self.old.lost < 2 ^ 64 - 1) }
        ensures same { (self.new.pass ≡ self.old.pass) × (self.new.seat ≡ self.old.seat)
            × (self.new.number ≡ self.old.number) }
        ensures counted { MatchResult told.now
            (λ reply. (self.new.stepped ≡ self.old.stepped + (if D.steps reply then 1 else 0))
            × (self.new.lost ≡ self.old.lost))
            (λ _. (self.new.stepped ≡ self.old.stepped) × (self.new.lost ≡ self.old.lost + 1)) }
    {
        match told {
            Ok(reply) => {
                if D::is_step(reply) {
                    self.stepped += 1;
                }
            }
            Err(_) => self.lost += 1,
        }
    }
}

/// Puts the only number in one's hands into the queue, where there is room for it.
pub(crate) fn put_back<W: Wait, B: Branching>(
    rt: &W,
    line: &Queue<B>,
    seat: &mut crossbeam_queue::Pass<u32, Hand>,
    number: u32,
)
    requires fits { queue.IsPassOf line.now seat.old }
    requires room { B.count ≤ queue.ruled_capacity line.now }
    requires held { (rest : List ℕ) × ((queue.view seat.old).numbers ≡ number ∷ rest) }
    ensures fits { queue.IsSamePass seat.old seat.new }
    ensures given { (queue.view seat.old).numbers ≡ number ∷ (queue.view seat.new).numbers }
{
    match line.push_as::<Gives<B>, W>(rt, seat, number) {
        Ok(()) => {}
        Err(_) => unreachable!(),
    }
}
