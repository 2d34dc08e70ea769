//! The laws, each the contract of a function without code.
ghost use Rattle.printed_traces.specs.Printed.{FalsifyingTracesReplay, PrintedTracesReplay, TracesAreReadBack, TracesAreReadOneWay};
ghost use Rattle.printed_traces.specs.Names.{ObligationsHaveDistinctNames, TraceNamesArePlain};

/// What a report prints for a trace of an obligation is read back as that trace of that obligation.
pub fn traces_are_read_back()
    ensures { TracesAreReadBack }
{}

/// What bytes say is one trace.
pub fn traces_are_read_one_way()
    ensures { TracesAreReadOneWay }
{}

/// The trace of a run that falsifies its obligation replays so.
pub fn falsifying_traces_replay()
    ensures { FalsifyingTracesReplay }
{}

/// No two obligations of a model that a file stands for have one name.
pub fn obligations_have_distinct_names()
    ensures { ObligationsHaveDistinctNames }
{}

/// The names in a trace are plain, where files stand for the model and the design.
pub fn trace_names_are_plain()
    ensures { TraceNamesArePlain }
{}

/// A trace that a report prints, for a setting that files stand for, is read as that trace alone and replays as falsifying.
pub fn printed_traces_replay()
    ensures { PrintedTracesReplay }
{}
