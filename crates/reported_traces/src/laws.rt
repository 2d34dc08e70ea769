//! The laws, each the contract of a function without code.
ghost use Rattle.reported_traces.specs.Reported.{FailedChecksPrintTraces, PrintedTracesFail};

use check_cases::laws::{files_are_one_setting, settings_are_not_refused};
use printed_traces::laws::printed_traces_replay;

/// A check that ends with Failed has printed a trace.
pub fn failed_checks_print_traces()
    ensures { FailedChecksPrintTraces }
{}

/// A trace that a check printed replays as Failed, with the same files.
pub fn printed_traces_fail()
    ensures { PrintedTracesFail }
{
    files_are_one_setting();
    settings_are_not_refused();
    printed_traces_replay();
}
