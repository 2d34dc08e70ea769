//! What the values of a trace tell of runs, as the contract of a function without code.
ghost use Rattle.trace_reading.specs.Told.{RunsAreTold};

/// A run with the values of a trace is told by the trace.
pub fn runs_are_told()
    ensures { RunsAreTold }
{}
