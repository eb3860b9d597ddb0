// What follows from these contracts, the contract of a function that does nothing.
ghost use Rattle.dap_server.specs.Objects.{LinesAreEvents, ShortEvents, ShortResponses};

/// What is sent where there is no memory for an answer is JSON too, each of one message of the protocol; so is the line
/// that tells of a message that is passed over.
pub fn short_laws()
    ensures lines { LinesAreEvents }
    ensures responses { ShortResponses }
    ensures events { ShortEvents }
{}
