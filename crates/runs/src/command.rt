ghost use Rattle.std.specs.Prelude.{◌≡◌};
ghost use Rattle.runs.specs.Refusals.{refusal_number};

use thiserror::Error;

/// The most events that may be live at one time.
pub const MOST_LIVE_EVENTS: u64 = 65_536;

/// The greatest ticket, 2^63. Tickets count from 1.
pub const LAST_TICKET: u64 = 1 << 63;

/// Why a command was refused. A refusal changes nothing.
#[derive(Clone, Copy, Debug, PartialEq, Eq, Error)]
pub enum Refusal {
    /// there was no memory for it
    #[error("there is no memory left")]
    Memory,
    /// no event with this choice may be taken now
    #[error("no event may be taken there now")]
    NotReady,
    /// as many events are live as may be
    #[error("as many events are live as may be")]
    HistoryFull,
    /// no live event has this ticket
    #[error("no live event has this ticket")]
    NoSuchEvent,
    /// the live event of this ticket depends on it; no lesser one does
    #[error("event {0} depends on it")]
    NeededBy(u64),
    /// no live event wrote the variable, or there is no such variable
    #[error("no live event wrote this variable")]
    NeverWritten,
    /// no ticket is left
    #[error("no ticket is left")]
    Spent,
    /// as many lines have a breakpoint as may have one
    #[error("as many lines have a breakpoint as may have one")]
    BreaksFull,
    /// no command begins on this line
    #[error("no command begins on this line")]
    NoSuchLine,
}

impl Refusal {
    /// The number by which programs know the refusal.
    pub fn number(&self) -> u8
        ensures { result ≡ refusal_number self.now }
    {
        match self {
            Refusal::Memory => 1,
            Refusal::NotReady => 21,
            Refusal::HistoryFull => 22,
            Refusal::NoSuchEvent => 23,
            Refusal::NeededBy(_) => 24,
            Refusal::NeverWritten => 25,
            Refusal::Spent => 26,
            Refusal::BreaksFull => 27,
            Refusal::NoSuchLine => 28,
        }
    }
}
