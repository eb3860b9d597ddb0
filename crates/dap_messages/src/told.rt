ghost use Rattle.std.specs.Prelude.{◌≡◌};
ghost use Rattle.dap_messages.specs.Messages.{event_name, reason_of};

/// Why nothing moves, as a `stopped` tells it.
#[derive(Clone, Copy, Debug, PartialEq, Eq)]
pub enum Stop {
    /// no step is taken that could be taken back
    Entry,
    /// a step was taken, or taken back; or there was none to take
    Stepped,
    /// nothing goes on, as many steps were taken as may be, or it was asked to stand
    Pause,
    /// before a step of which an action is on a line with a breakpoint
    AtLine,
    /// behind a step that is watched, or where one was taken back
    Watched,
    /// a step was refused, for the reason of this number; and whether that is an exception to the client
    Refused(u64, bool),
}

impl Stop {
    /// The reason, as the protocol has it.
    pub fn reason(self) -> &'static str
        ensures { result.now ≡ reason_of self }
    {
        match self {
            Stop::Entry => "entry",
            Stop::Stepped => "step",
            Stop::Pause => "pause",
            Stop::AtLine => "breakpoint",
            Stop::Watched => "data breakpoint",
            Stop::Refused(_, true) => "exception",
            Stop::Refused(_, false) => "step",
        }
    }
}

/// What is told without being asked: the events of the protocol that are used.
#[derive(Clone, Copy, Debug, PartialEq, Eq)]
pub enum Told {
    /// breakpoints may be set now
    Initialized,
    /// a text
    Output,
    /// nothing moves until the next request to run
    Stopped(Stop),
    /// the run has ended, with a status
    Exited,
    /// there is nothing more to debug
    Terminated,
    /// a breakpoint has changed
    Breakpoint,
}

impl Told {
    /// Its name in the protocol.
    pub fn name(self) -> &'static str
        ensures { result.now ≡ event_name self }
    {
        match self {
            Told::Initialized => "initialized",
            Told::Output => "output",
            Told::Stopped(_) => "stopped",
            Told::Exited => "exited",
            Told::Terminated => "terminated",
            Told::Breakpoint => "breakpoint",
        }
    }
}
