// The other end of a channel that an action waits for.
ghost use Rattle.std.specs.Prelude.{◌≡◌};
ghost use Rattle.rings.specs.Partners as model;
ghost use Rattle.rings.specs.internal.Ends as ends;

use local_actions::ActionKind;

/// What could be the partner of an action that waits.
#[derive(Clone, Copy)]
pub(crate) enum Sought {
    /// a receive, or an arm that opens, on the channel
    Receiver(u32),
    /// a send or a sync on the channel
    Sender(u32),
    /// a sync, or an arm that opens, on the channel
    Partner(u32),
    /// the close on the channel
    Close(u32),
}

impl Sought {
    /// What the action waits for; what acts alone waits for none.
    pub(crate) fn by(action: &ActionKind) -> Option<Sought>
        ensures { result ≡ model.sought_by action.now }
    {
        match action {
            ActionKind::Sends(channel, _, _) => Some(Sought::Receiver(*channel)),
            ActionKind::Receives(channel, _) | ActionKind::Opens(channel, _) => Some(Sought::Sender(
                *channel,
            )),
            ActionKind::Syncs(channel) => Some(Sought::Partner(*channel)),
            ActionKind::Releases(channel) => Some(Sought::Close(*channel)),
            ActionKind::Assigns(_, _, _)
            | ActionKind::Tests(_, _)
            | ActionKind::Turns
            | ActionKind::Closes(_) => None,
        }
    }

    /// Its channel.
    pub(crate) fn channel(self) -> u32
        ensures { result ≡ ends.channel_of self }
    {
        match self {
            Sought::Receiver(channel)
            | Sought::Sender(channel)
            | Sought::Partner(channel)
            | Sought::Close(channel) => { channel }
        }
    }

    /// A number that nothing else has.
    pub(crate) fn number(self) -> u64
        ensures { result ≡ ends.number_of self }
    {
        match self {
            Sought::Receiver(channel) => 4 * u64::from(channel),
            Sought::Sender(channel) => 4 * u64::from(channel) + 1,
            Sought::Partner(channel) => 4 * u64::from(channel) + 2,
            Sought::Close(channel) => 4 * u64::from(channel) + 3,
        }
    }

    /// Whether both are one.
    pub(crate) fn is_same(self, other: Sought) -> bool
        ensures { result ≡ ends.same_sought self other }
    {
        match (self, other) {
            (Sought::Receiver(one), Sought::Receiver(other)) => one == other,
            (Sought::Sender(one), Sought::Sender(other)) => one == other,
            (Sought::Partner(one), Sought::Partner(other)) => one == other,
            (Sought::Close(one), Sought::Close(other)) => one == other,
            _ => false,
        }
    }
}
