use value::Value;

/// What an event asks for at one of its places.
#[derive(Clone, Copy)]
pub enum Ask {
    /// an assignment
    Assign,
    /// a test that takes this arm, or none; of a loop with a guard the body is arm 0
    Test(Option<u32>),
    /// a new turn of a loop without a guard
    Turn,
    /// a send that is met at once
    Send,
    /// a send or sync that is held until the close
    Hold,
    /// a receive
    Receive,
    /// an arm of an enclosed input, `select` or `arbitrate` opens: its number, and the value received if the channel
    /// has data
    Open(u32, Option<Value>),
    /// a sync that is met at once
    Sync,
    /// what is held goes on
    Release,
    /// the end of an arm that was opened
    Close,
}
