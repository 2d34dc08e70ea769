//! A trace file read and replayed.

ghost use Rattle.std.specs.Prelude.{IfOk};
ghost use Rattle.ila_model.specs.Model.{model_of};
ghost use Rattle.refinement.specs.Map.{Setting};
ghost use Rattle.mapped_designs.specs.Mapped.{IsSortedFor};
ghost use Rattle.mapped_designs.specs.View.{mapped_of};
ghost use Rattle.obligation_check.specs.Decided.{IsSettingBy};
ghost use Rattle.replay_report.specs.Ending.{IsEnding};
ghost use Rattle.replay_report.specs.View.{ending_view};

use check_report::bounds;
use ila_model::IlaModel;
use mapped_designs::MappedDesign;
use mapped_runs::laws::{obligations_are_within, runs_have_values};
use obligation_lists::{MapCounts, obligations};
use std::alloc::Global;
use trace_reading::laws::runs_are_told;
use trace_reading::{TraceRead, TraceRefusal, read_trace};
use trace_replay::{Replayed, replay, replay_text};
use wb_terms::NoMemory;

/// What comes of a trace file.
#[derive(Drop)]
pub enum Ending {
    /// What the replay tells, and the line that says so.
    Told(Replayed, String),
    /// A rule refuses the file.
    Refused(TraceRefusal),
}

/// Replays a trace of the bytes of its file, for every setting of the model and the design with its map.
///
/// # Errors
///
/// Out of memory, which says nothing of the file.
pub fn replayed(
    alloc: Global,
    model: &IlaModel,
    mapped: &MappedDesign,
    bytes: &[u8],
) -> Result<Ending, NoMemory>
    requires sorted { IsSortedFor (model_of model.now) (mapped_of mapped.now) }
    ensures { IfOk result (λ e. (s : Setting) → IsSettingBy (model_of model.now) (mapped_of mapped.now) s → IsEnding s bytes.now (ending_view e)) }
{
    let bounds = bounds(alloc, mapped)?;
    let counts = MapCounts {
        reset_cycles: mapped.reset_cycles,
        assume: mapped.assume.len(),
        invariants: mapped.invariants.len(),
        bounds: bounds.as_slice(),
    };
    let list = obligations(alloc, model, counts)?;
    match read_trace(alloc, bytes, &mapped.design, &list)? {
        TraceRead::Trace(trace) => {
            obligations_are_within();
            runs_are_told();
            runs_have_values();
            let obligation = &list[trace.obligation];
            let answer = replay(
                alloc,
                model,
                mapped,
                counts,
                obligation,
                &trace.registers,
                &trace.inputs,
            )?;
            let line = replay_text(alloc, &obligation.name, &answer)?;
            Ok(Ending::Told(answer, line))
        }
        TraceRead::Refused(broken) => Ok(Ending::Refused(broken)),
    }
}
