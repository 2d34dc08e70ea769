//! What a trace shows of a model and a design under a map, from the bytes of all four.

ghost use Rattle.std.specs.Prelude.{◌≡◌, [], IfOk, map};
ghost use Rattle.ila_model.specs.Model.{model_of};
ghost use Rattle.refinement.specs.Map.{Setting};
ghost use Rattle.mapped_designs.specs.Mapped.{IsSortedFor};
ghost use Rattle.mapped_designs.specs.View.{mapped_of};
ghost use Rattle.obligation_check.specs.Decided.{IsSettingBy};
ghost use Rattle.wb_top.specs.Showing.{told_of};
ghost use Rattle.trace_replay.specs.Replayed.{replayed_view};
ghost use Rattle.wb_top.specs.Replayed.{IsReplayed, IsReplayedSetting, status_for};

use crate::answer::Outcome;
use crate::cases::{Case, case_of};
use crate::status::Status;
use crate::stop::NoMemory;
use crate::texts::refusal_of_trace;
use ila_model::IlaModel;
use mapped_designs::MappedDesign;
use replay_report::{Ending, Replayed};
use std::alloc::Global;

/// A replay of files of which none is too long, with the names of its Verilog files.
pub(crate) fn replayed(
    alloc: Global,
    names: &[String],
    model: &[u8],
    map_file: &[u8],
    trace: &[u8],
    designs: &[Vec<u8>],
) -> Result<Outcome, NoMemory>
    ensures told { IfOk result (λ o. IsReplayed model.now map_file.now trace.now (map (λ d. d.items) designs.now) o.status o.text.items) }
    ensures nothing { IfOk result (λ o. (told_of o).spent ≡ []) }
{
    match case_of(alloc, names, model, map_file, designs)? {
        Case::Setting(model, mapped) => {
            let outcome = replayed_case(alloc, &model, &mapped, trace)?;
            Ok(outcome)
        }
        Case::Refused(text) => Ok(Outcome::plain(Status::Refused, text)),
    }
}

/// A replay of a trace for a model and a design with its map.
fn replayed_case(
    alloc: Global,
    model: &IlaModel,
    mapped: &MappedDesign,
    trace: &[u8],
) -> Result<Outcome, NoMemory>
    requires sorted { IsSortedFor (model_of model.now) (mapped_of mapped.now) }
    ensures told { IfOk result (λ o. (s : Setting) → IsSettingBy (model_of model.now) (mapped_of mapped.now) s → IsReplayedSetting s trace.now o.status o.text.items) }
    ensures nothing { IfOk result (λ o. (told_of o).spent ≡ []) }
{
    match replay_report::replayed(alloc, model, mapped, trace)? {
        Ending::Told(answer, line) => Ok(Outcome::plain(status_of(&answer), line.into_bytes())),
        Ending::Refused(broken) => {
            let text = refusal_of_trace(alloc, &broken)?;
            Ok(Outcome::plain(Status::Refused, text))
        }
    }
}

/// The status of a replay that tells this.
fn status_of(answer: &Replayed) -> Status
    ensures { result ≡ status_for (replayed_view answer.now) }
{
    match answer {
        Replayed::Falsifies => Status::Failed,
        Replayed::HypothesisFails(_) | Replayed::Holds => Status::Done,
    }
}
