use locked_execution::Command;

/// What a line of a script says.
#[derive(Debug, Drop)]
pub enum Line {
    /// a command of the session
    Asked(Command),
    /// the lines that follow are those of this session
    Session(u32),
    /// the view of the source is asked for
    View,
    /// the trace of the live events is asked for
    Trace,
    /// nothing; it has no answer
    Empty,
}
