//! The top call.

ghost use Rattle.std.specs.Prelude.{◌≡◌, ◌≤◌, ◌≢◌, [], IsSome, map, string_bytes};
ghost use Rattle.wb_outside.specs.Outside.{Rose, next_count};
ghost use Rattle.wb_top.specs.Asked.{AskedAll, AskedSome};
ghost use Rattle.wb_top.specs.Outcome.{AskForCheck, Headline, Wrote, WrotePrefix};
ghost use Rattle.wb_top.specs.Showing.{shown_by};
ghost use Rattle.wb_top.specs.Words.{command_of};

use crate::outcome::{outcome, written};
use crate::status::{Ended, Status};
use crate::stop::Stop;
use std::alloc::Global;
use wb_outside::{Shelf, Sink};

/// Does what the words ask for: reads the files that they name from the shelf, and writes the outcome's text by one write.
///
/// The words are `PROGRAM check --model MODEL --map MAP [--budget N] VERILOG..`, `PROGRAM simulate --model MODEL --script SCRIPT`,
/// `PROGRAM simulate-rtl --top TOP --clock CLOCK --script SCRIPT VERILOG..`, `PROGRAM replay --model MODEL --map MAP --trace TRACE VERILOG..`,
/// `PROGRAM simulate-both --model MODEL --map MAP --script SCRIPT VERILOG..` or `PROGRAM emit --model MODEL [--map-only]`; all others end
/// with `Usage`, or out of memory.
pub fn workbench<S: Shelf, K: Sink>(
    alloc: Global,
    words: &[String],
    shelf: &mut S,
    out: &mut K,
) -> Ended
    // The headline: where a check ends with `Done`, every run of the design, of any length and from any first registers, that is
    // from reset and has one command in flight refines the model.
    ensures headline { AskForCheck (map string_bytes words.now) → result.status ≡ Status.Done → Headline (S.holds shelf.old) (map string_bytes words.now) }

    // What was written, and why: a report, each of whose lines is true; what the model, or the design, does under the script, line by
    // line; what the trace shows of its obligation; what the design's run under the script shows of the model; the Verilog of a design of
    // the model, or its map; or the text of a refusal or of a limit.
    ensures done { result.status ≡ Status.Done → Wrote (S.holds shelf.old) (map string_bytes words.now) Status.Done (shown_by result) (K.written out.old) (K.written out.new) }
    ensures failed { result.status ≡ Status.Failed → Wrote (S.holds shelf.old) (map string_bytes words.now) Status.Failed (shown_by result) (K.written out.old) (K.written out.new) }
    ensures unknown { result.status ≡ Status.Unknown → Wrote (S.holds shelf.old) (map string_bytes words.now) Status.Unknown (shown_by result) (K.written out.old) (K.written out.new) }
    ensures usage { result.status ≡ Status.Usage → Wrote (S.holds shelf.old) (map string_bytes words.now) Status.Usage (shown_by result) (K.written out.old) (K.written out.new) }
    ensures refused { result.status ≡ Status.Refused → Wrote (S.holds shelf.old) (map string_bytes words.now) Status.Refused (shown_by result) (K.written out.old) (K.written out.new) }
    ensures limit { result.status ≡ Status.Limit → Wrote (S.holds shelf.old) (map string_bytes words.now) Status.Limit (shown_by result) (K.written out.old) (K.written out.new) }
    ensures write_fault { result.status ≡ Status.WriteFault → WrotePrefix (S.holds shelf.old) (map string_bytes words.now) (shown_by result) (K.written out.old) (K.written out.new) }
    ensures read_fault { result.status ≡ Status.ReadFault → (K.written out.new ≡ K.written out.old) × (shown_by result ≡ []) }
    ensures no_memory { result.status ≡ Status.NoMemory → (K.written out.new ≡ K.written out.old) × (shown_by result ≡ []) }

    // An outcome is written by one write, and nothing is written where there is none.
    ensures one_write { result.status ≢ Status.ReadFault → result.status ≢ Status.NoMemory → K.writes out.new ≡ next_count (K.writes out.old) }
    ensures read_fault_unwritten { result.status ≡ Status.ReadFault → K.writes out.new ≡ K.writes out.old }
    ensures no_memory_unwritten { result.status ≡ Status.NoMemory → K.writes out.new ≡ K.writes out.old }

    // Faults come from outside alone.
    ensures read_command { result.status ≡ Status.ReadFault → IsSome (command_of (map string_bytes words.now)) }
    ensures shelf_rose { result.status ≡ Status.ReadFault → Rose (S.faults shelf.old) (S.faults shelf.new) }
    ensures sink_rose { result.status ≡ Status.WriteFault → Rose (K.faults out.old) (K.faults out.new) }
    ensures shelf_never_falls { S.faults shelf.old ≤ S.faults shelf.new }
    ensures sink_never_falls { K.faults out.old ≤ K.faults out.new }

    // Which files were asked for.
    ensures keeps { S.holds shelf.new ≡ S.holds shelf.old }
    ensures asked { AskedSome (command_of (map string_bytes words.now)) (S.asked shelf.old) (S.asked shelf.new) }
    ensures asked_all { result.status ≢ Status.ReadFault → result.status ≢ Status.NoMemory →
        AskedAll (command_of (map string_bytes words.now)) (S.asked shelf.old) (S.asked shelf.new) }
{
    match outcome(alloc, words, shelf) {
        Ok(outcome) => {
            let status = written(&outcome, out);
            Ended {
                status,
                spent: outcome.spent,
            }
        }
        Err(Stop::ReadFault) => nothing_shown(Status::ReadFault),
        Err(Stop::NoMemory) => nothing_shown(Status::NoMemory),
    }
}

/// A call that ends with a status and shows nothing beside it.
fn nothing_shown(status: Status) -> Ended
    ensures status { result.status ≡ status }
    ensures nothing { shown_by result ≡ [] }
{
    Ended {
        status,
        spent: None,
    }
}
