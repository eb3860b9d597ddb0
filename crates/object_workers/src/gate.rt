/// What is told of each call that a worker makes: a test can hold a worker here, a tool can count.
pub trait Gate: Sync {
    /// This worker, numbered from 0 in the order of the passes, is about to make the call of this turn, from 0.
    fn before(&self, worker: u32, turn: u64);

    /// It has been answered.
    fn after(&self, worker: u32, turn: u64);
}
