ghost use Rattle.promise.specs.Promise.{PromiseIsKept};

/// Where `debug` of `debug_session` ends well, its answer is that of one accepted description to the lines of the
/// script, and the headline of `run_commands` of `locked_execution` holds of what they leave. (Where it ends at a
/// fault, its own contract says which fault is due and which answers are out.)
pub fn promise_law()
    ensures { PromiseIsKept }
{}
