// The workers in threads of their own.
ghost use Rattle.std.specs.Prelude.{◌≡◌, ◌≤◌, ◌<◌, ◌^◌, [], length, IfOk, IfErr};
ghost use Rattle.std.specs.Vec.{vec_capacity};
ghost use Rattle.crossbeam_queue.specs.Passes as queue;
ghost use Rattle.object_workers.specs.Dealt.{hand, range};
ghost use Rattle.object_workers.specs.Runs.{PassesFit, WorkersRan, AllSawLegal};
ghost use Rattle.object_workers.specs.internal.Workers.{WorkerRan, Ready, IsReady, AllReady, AllRan, CountsFew, IsCounted};

use crate::queue::{Branching, Comes, Hand, Queue};
use crate::worker::{Work, Worker, put_back};
use crate::{Branches, Gate};
use locked_object::{Pass, Shared};
use std::alloc::{AllocError, Global};
use std::marker::Brand;
use std::sync::Wait;
use std::thread::{Threads, for_each_mut};

/// What workers have done.
#[derive(Drop)]
pub struct Ran<D, C, R> {
    /// the passes, in their order
    pub passes: Vec<Pass<D, C, R>>,
    /// how many replies told of a step
    pub stepped: u64,
    /// how many turns were lost: their call was not recorded
    pub lost: u64,
}

/// What is made before the first worker begins.
struct Room<D, C, R, B: Branching> {
    queue: Queue<B>,
    seat: crossbeam_queue::Pass<u32, Hand>,
    workers: Vec<Worker<D, C, R>>,
    done: Vec<Pass<D, C, R>>,
}

/// Runs one worker for each pass, each in a thread of its own where one can be made, and each for so many turns: it
/// takes the number of a branch from a queue, asks for a step of it, and puts it back; where the queue is empty it asks
/// for a step of branch 0. The gate is told of each call, with the place of its pass. Without memory the passes come
/// back as they were, and no worker has begun.
pub fn run_workers<
    W: Threads + Wait + Sync,
    C: Drop + Send + Sync,
    R: Drop + Send + Sync,
    D: Branches<C, R> + Send + Sync,
    G: Gate + Sync,
>(
    rt: &W,
    alloc: Global,
    shared: &Shared<C, R, D>,
    branches: u32,
    passes: Vec<Pass<D, C, R>>,
    gate: &G,
    turns: u64,
) -> Result<Ran<D, C, R>, (Vec<Pass<D, C, R>>, AllocError)>
    requires passes { PassesFit shared.now.board.table.shared.table_id shared.now.board.table.shared.key passes.items }
    requires few { length passes.items ≤ 16 }
    requires turns { turns ≤ 2 ^ 57 }
    ensures ran { IfOk result (λ ran.
        WorkersRan shared.now.board.table.shared.table_id shared.now.board.table.shared.key D.asks branches turns
        D.steps passes.items ran.passes.items ran.stepped ran.lost) }
    ensures legal { IfOk result (λ ran.
        AllSawLegal D.performs shared.now.board.table.shared.key passes.items ran.passes.items) }
    ensures refused { IfErr result (λ back. back.0.items ≡ passes.items) }
{
    run_dealt::<Brand, W, C, R, D, G>(rt, alloc, shared, branches, passes, gate, turns)
}

/// The same, with the number of branches by its name, from which the queue's rule takes it.
fn run_dealt<
    B: Branching + Send + Sync,
    W: Threads + Wait + Sync,
    C: Drop + Send + Sync,
    R: Drop + Send + Sync,
    D: Branches<C, R> + Send + Sync,
    G: Gate + Sync,
>(
    rt: &W,
    alloc: Global,
    shared: &Shared<C, R, D>,
    branches: u32,
    passes: Vec<Pass<D, C, R>>,
    gate: &G,
    turns: u64,
) -> Result<Ran<D, C, R>, (Vec<Pass<D, C, R>>, AllocError)>
    requires count { B.count ≡ branches }
    requires passes { PassesFit shared.now.board.table.shared.table_id shared.now.board.table.shared.key passes.items }
    requires few { length passes.items ≤ 16 }
    requires turns { turns ≤ 2 ^ 57 }
    ensures ran { IfOk result (λ ran.
        WorkersRan shared.now.board.table.shared.table_id shared.now.board.table.shared.key D.asks B.count turns D.steps
        passes.items ran.passes.items ran.stepped ran.lost) }
    ensures legal { IfOk result (λ ran.
        AllSawLegal D.performs shared.now.board.table.shared.key passes.items ran.passes.items) }
    ensures refused { IfErr result (λ back. back.0.items ≡ passes.items) }
{
    let Ok(room) = room_for::<B, D, C, R>(alloc, branches, passes.len()) else {
        return Err((passes, AllocError));
    };
    let Room {
        queue,
        mut seat,
        mut workers,
        done,
    } = room;
    deal(rt, &queue, &mut seat, branches);
    make_ready(&queue, &mut seat, passes, &mut workers);
    let work = Work {
        shared,
        queue: &queue,
        gate,
    };
    run_list(rt, &work, &mut workers, turns);
    Ok(counted(workers, done))
}

/// The queue, and room for so many workers.
fn room_for<B: Branching, D, C, R>(
    alloc: Global,
    branches: u32,
    count: usize,
) -> Result<Room<D, C, R, B>, AllocError>
    requires { B.count ≡ branches }
    ensures line { IfOk result (λ r. queue.IsPassOf r.queue r.seat × (queue.view r.seat ≡ hand (range 0 B.count))
        × (B.count ≤ queue.ruled_capacity r.queue)) }
    ensures workers { IfOk result (λ r. (r.workers.items ≡ []) × (count ≤ vec_capacity r.workers)) }
    ensures done { IfOk result (λ r. (r.done.items ≡ []) × (count ≤ vec_capacity r.done)) }
{
    let room = if branches == 0 { 1 } else { branches as usize };
    let (queue, seat) = Queue::<B>::ruled(alloc, room)?;
    Ok(Room {
        queue,
        seat,
        workers: Vec::with_capacity(alloc, count)?,
        done: Vec::with_capacity(alloc, count)?,
    })
}

/// Puts all numbers into the queue, the least first.
fn deal<W: Wait, B: Branching>(
    rt: &W,
    line: &Queue<B>,
    seat: &mut crossbeam_queue::Pass<u32, Hand>,
    branches: u32,
)
    requires count { B.count ≡ branches }
    requires fits { queue.IsPassOf line.now seat.old }
    requires room { B.count ≤ queue.ruled_capacity line.now }
    requires held { queue.view seat.old ≡ hand (range 0 B.count) }
    ensures { queue.IsPassOf line.now seat.new × (queue.view seat.new ≡ hand []) }
{
    for number in 0..branches {
        put_back(rt, line, seat, number);
    }
}

/// A worker for each pass, numbered from 0 in their order, with empty hands as the seat has that they come from.
fn make_ready<B: Branching, D, C, R>(
    line: &Queue<B>,
    seat: &mut crossbeam_queue::Pass<u32, Hand>,
    passes: Vec<Pass<D, C, R>>,
    workers: &mut Vec<Worker<D, C, R>>,
)
    requires fits { queue.IsPassOf line.now seat.old × (queue.view seat.old ≡ hand []) }
    requires few { length passes.items ≤ 16 }
    requires room { (workers.old.items ≡ []) × (length passes.items ≤ vec_capacity workers.old) }
    ensures ready { Ready line.now.table.shared.table_id 0 passes.items workers.new.items }
    ensures empty { queue.view seat.new ≡ hand [] }
{
    let mut number = 0;
    for pass in passes {
        let worker = Worker {
            pass,
            seat: line.another::<Comes>(seat),
            number,
            stepped: 0,
            lost: 0,
        };
        workers.push_reserved(worker);
        number += 1;
    }
}

/// Runs the workers of the list.
fn run_list<
    W: Threads + Wait + Sync,
    C: Drop + Send + Sync,
    R: Drop + Send + Sync,
    D: Branches<C, R> + Send + Sync,
    G: Gate + Sync,
    B: Branching + Send + Sync,
>(rt: &W, work: &Work<'_, C, R, D, G, B>, workers: &mut Vec<Worker<D, C, R>>, turns: u64)
    requires ready { AllReady work.now.shared.now.board.table.shared.table_id work.now.shared.now.board.table.shared.key
        work.now.queue.now.table.shared.table_id workers.old.items }
    requires room { B.count ≤ queue.ruled_capacity work.now.queue.now }
    ensures { AllRan work.now.shared.now.board.table.shared.table_id work.now.shared.now.board.table.shared.key
        D.performs D.asks D.steps B.count turns workers.old.items workers.new.items }
{
    run_all(rt, work, workers.as_mut_slice(), turns);
}

/// Runs the workers, each in a thread of its own where one can be made.
fn run_all<
    W: Threads + Wait + Sync,
    C: Drop + Send + Sync,
    R: Drop + Send + Sync,
    D: Branches<C, R> + Send + Sync,
    G: Gate + Sync,
    B: Branching + Send + Sync,
>(rt: &W, work: &Work<'_, C, R, D, G, B>, workers: &mut [Worker<D, C, R>], turns: u64)
    requires ready { AllReady work.now.shared.now.board.table.shared.table_id work.now.shared.now.board.table.shared.key
        work.now.queue.now.table.shared.table_id workers.old }
    requires room { B.count ≤ queue.ruled_capacity work.now.queue.now }
    ensures { AllRan work.now.shared.now.board.table.shared.table_id work.now.shared.now.board.table.shared.key
        D.performs D.asks D.steps B.count turns workers.old workers.new }
{
    if workers.is_empty() {
        return;
    }
    let threads = workers.len();
    let run = |_place: usize, worker: &mut Worker<D, C, R>|
        requires { IsReady work.now.shared.now.board.table.shared.table_id work.now.shared.now.board.table.shared.key
            work.now.queue.now.table.shared.table_id worker.now × (B.count ≤ queue.ruled_capacity work.now.queue.now) }
        ensures { WorkerRan work.entry.now.shared.now.board.table.shared.table_id
            work.entry.now.shared.now.board.table.shared.key D.performs D.asks D.steps B.count turns worker.entry.now
            worker.exit.now }
    { worker.run(rt, work, turns) };
    for_each_mut(rt, workers, threads, &run);
}

/// The passes of the workers, and what these have counted.
fn counted<D, C, R>(workers: Vec<Worker<D, C, R>>, mut done: Vec<Pass<D, C, R>>) -> Ran<D, C, R>
    requires few { CountsFew workers.items }
    requires room { (done.items ≡ []) × (length workers.items ≤ vec_capacity done) }
    ensures { IsCounted workers.items result.passes.items result.stepped result.lost }
{
    let mut stepped = 0;
    let mut lost = 0;
    for worker in workers {
        stepped += worker.stepped;
        lost += worker.lost;
        done.push_reserved(worker.pass);
    }
    Ran {
        passes: done,
        stepped,
        lost,
    }
}
