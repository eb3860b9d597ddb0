use locked_execution::{Command, Desk, Refusal, Reply};

/// What a line asks of the desk.
#[derive(Debug, Drop)]
pub enum Deed {
    /// nothing
    Rest,
    /// the lines that follow are those of this session, 0 to 15
    Turn(u32),
    /// to answer this command of the session
    Ask(Command),
    /// to take the step that has this number, from 1, among those that were numbered last
    Take(u64),
    /// to take the next step of this branch
    Next(u32),
    /// to take the next step of the branch that was stepped last
    NextAgain,
    /// to step the branches in turn, so often at most
    Run(u64),
    /// to take back so many of the newest steps
    Back(u64),
}

/// What was done.
#[derive(Debug, Drop)]
pub enum Done {
    /// nothing was asked of the desk
    Rested,
    /// the command was answered so
    Told(Reply),
    /// no step has the number, or no branch was stepped yet: no command was asked
    Unknown,
    /// the branches were stepped in turn, up to this
    Ran(End),
    /// steps were taken back: all that were asked for, or all that there were; else the answer to the last
    Back(Option<Reply>),
}

/// Why a run ended.
#[derive(Clone, Copy, Debug, PartialEq, Eq)]
pub enum End {
    /// as many steps were taken as were asked for
    Enough,
    /// no branch has a step
    Idle,
    /// the branch whose turn it was has steps on lines with a breakpoint alone, the first of them on this line
    AtBreak(u64),
    /// the step was refused
    Refused(Refusal),
}

/// What sees each command that is asked, with its session, once it was answered.
pub trait Watch {
    fn see(&mut self, desk: &Desk, session: u32, command: &Command, reply: &Reply);
}
