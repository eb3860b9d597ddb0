ghost use Rattle.std.specs.Prelude.{◌≡◌};
ghost use Rattle.dap_messages.specs.Kinds.{kind_named};

/// What a request asks for.
#[derive(Clone, Copy, Debug, PartialEq, Eq)]
pub enum Kind {
    Initialize,
    Launch,
    Attach,
    ConfigurationDone,
    Restart,
    Terminate,
    Disconnect,
    Threads,
    StackTrace,
    Scopes,
    Variables,
    Evaluate,
    Completions,
    SetBreakpoints,
    BreakpointLocations,
    SetExceptionBreakpoints,
    ExceptionInfo,
    DataBreakpointInfo,
    SetDataBreakpoints,
    Next,
    StepIn,
    StepOut,
    StepInTargets,
    Continue,
    Pause,
    StepBack,
    ReverseContinue,
    /// a request that is not known
    Other,
}

/// What the request of this name asks for.
pub fn kind_of(name: &str) -> Kind
    ensures { result ≡ kind_named name.now }
{
    match name {
        "initialize" => Kind::Initialize,
        "launch" => Kind::Launch,
        "attach" => Kind::Attach,
        "configurationDone" => Kind::ConfigurationDone,
        "restart" => Kind::Restart,
        "terminate" => Kind::Terminate,
        "disconnect" => Kind::Disconnect,
        "threads" => Kind::Threads,
        "stackTrace" => Kind::StackTrace,
        "scopes" => Kind::Scopes,
        "variables" => Kind::Variables,
        "evaluate" => Kind::Evaluate,
        "completions" => Kind::Completions,
        "setBreakpoints" => Kind::SetBreakpoints,
        "breakpointLocations" => Kind::BreakpointLocations,
        "setExceptionBreakpoints" => Kind::SetExceptionBreakpoints,
        "exceptionInfo" => Kind::ExceptionInfo,
        "dataBreakpointInfo" => Kind::DataBreakpointInfo,
        "setDataBreakpoints" => Kind::SetDataBreakpoints,
        "next" => Kind::Next,
        "stepIn" => Kind::StepIn,
        "stepOut" => Kind::StepOut,
        "stepInTargets" => Kind::StepInTargets,
        "continue" => Kind::Continue,
        "pause" => Kind::Pause,
        "stepBack" => Kind::StepBack,
        "reverseContinue" => Kind::ReverseContinue,
        _ => Kind::Other,
    }
}
