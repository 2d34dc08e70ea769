//! What a trace tells, as the contract of a function without code.
ghost use Rattle.trace_texts.specs.Told.{TracesTell};

/// The trace of a run's values tells the run.
pub fn traces_tell()
    ensures { TracesTell }
{}
