use address::Address;

/// What a command could do next, without values: which arm a test takes and what is sent is for the store to say.
#[derive(Clone, Copy)]
pub enum OfferKind {
    /// to the variable
    Assigns(u32),
    /// takes an arm or none
    Tests,
    Turns,
    /// on the channel
    Sends(u32),
    /// on the channel, into the variable or into none
    Receives(u32, Option<u32>),
    Syncs(u32),
    /// on the channel, this arm
    Opens(u32, u32),
    Releases(u32),
    Closes(u32),
}

/// A move that a tree offers, and its place.
#[derive(Drop)]
pub struct Offer {
    pub place: Address,
    pub kind: OfferKind,
}
