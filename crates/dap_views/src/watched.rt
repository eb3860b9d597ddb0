/// What is watched.
#[derive(Clone, Copy, Debug, PartialEq, Eq)]
pub enum Watched {
    /// the variable of this number, where an event writes it
    Variable(u32),
    /// the channel of this number, where an event is on it
    Channel(u32),
}
