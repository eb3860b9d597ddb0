/// A recorded call: the number of the pass that made it, what it asked, and what it was told.
#[derive(Drop)]
pub struct Entry<C, R> {
    pub pass: u32,
    pub command: C,
    pub reply: R,
}
