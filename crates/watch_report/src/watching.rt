//! A script read, and the run that it gives watched beside the model.

ghost use Rattle.std.specs.Prelude.{IfOk};
ghost use Rattle.ila_model.specs.Model.{model_of};
ghost use Rattle.refinement.specs.Map.{Setting};
ghost use Rattle.mapped_designs.specs.Mapped.{IsSortedFor};
ghost use Rattle.mapped_designs.specs.View.{mapped_of};
ghost use Rattle.obligation_check.specs.Decided.{IsSettingBy};
ghost use Rattle.watch_report.specs.Ending.{IsEnding};
ghost use Rattle.watch_report.specs.View.{ending_view};

use ila_model::IlaModel;
use mapped_designs::MappedDesign;
use mapped_runs::laws::values_have_runs;
use run_watch::{Watched, watch, watched_text};
use script_cycles::{ScriptRead, ScriptRefusal, script_cycles};
use std::alloc::Global;
use wb_terms::NoMemory;

/// What comes of a script.
#[derive(Drop)]
pub enum Ending {
    /// The answer for its run, and the line that says so.
    Told(Watched, String),
    /// A rule refuses the script.
    Refused(ScriptRefusal),
}

/// Watches the run of a script of these bytes beside the model, for every setting of the model and the design with its map.
///
/// # Errors
///
/// Out of memory, which says nothing of the script.
pub fn watched(
    alloc: Global,
    model: &IlaModel,
    mapped: &MappedDesign,
    script: &[u8],
) -> Result<Ending, NoMemory>
    requires sorted { IsSortedFor (model_of model.now) (mapped_of mapped.now) }
    ensures { IfOk result (λ e. (s : Setting) → IsSettingBy (model_of model.now) (mapped_of mapped.now) s → IsEnding s script.now (ending_view e)) }
{
    match script_cycles(alloc, &mapped.design, script)? {
        ScriptRead::Cycles(cycles) => {
            values_have_runs();
            let answer = watch(alloc, model, mapped, &cycles.registers, &cycles.inputs)?;
            let line = watched_text(alloc, model, &answer)?;
            Ok(Ending::Told(answer, line))
        }
        ScriptRead::Refused(refusal) => Ok(Ending::Refused(refusal)),
    }
}
