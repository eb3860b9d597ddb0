// The laws of what processes stem from, each the contract of a function that does nothing.
ghost use Rattle.channel_uses.specs.OnChannel.{OffersNothingUnused};
ghost use Rattle.channel_uses.specs.StemsFrom.{StartedStems, MovesKeepOrigin, RunsKeepOrigin};

/// A command that has made no move stems from itself, and a move keeps what a process stems from. So what stands for a
/// run of a system stems from the command of the system.
pub fn moves_keep_origin()
    ensures started { StartedStems }
    ensures moves { MovesKeepOrigin }
    ensures runs { RunsKeepOrigin }
{}

/// A process offers nothing on a channel that its command does not use.
pub fn unused_offers_nothing()
    ensures { OffersNothingUnused }
{}
