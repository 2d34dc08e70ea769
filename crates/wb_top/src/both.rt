//! What a run of a design under a script shows of the model, from the bytes of the model, the map, the script and the Verilog files.

ghost use Rattle.std.specs.Prelude.{◌≡◌, [], IfOk, map};
ghost use Rattle.ila_model.specs.Model.{model_of};
ghost use Rattle.refinement.specs.Map.{Setting};
ghost use Rattle.mapped_designs.specs.Mapped.{IsSortedFor};
ghost use Rattle.mapped_designs.specs.View.{mapped_of};
ghost use Rattle.obligation_check.specs.Decided.{IsSettingBy};
ghost use Rattle.run_watch.specs.View.{watched_of};
ghost use Rattle.wb_top.specs.Showing.{told_of};
ghost use Rattle.wb_top.specs.SimulatedBoth.{IsSimulatedBoth, IsSimulatedSetting, status_for};

use crate::answer::Outcome;
use crate::cases::{Case, case_of};
use crate::status::Status;
use crate::stop::NoMemory;
use crate::texts::refusal_of_script;
use ila_model::IlaModel;
use mapped_designs::MappedDesign;
use std::alloc::Global;
use watch_report::{Ending, Watched, watched};

/// A simulation of the model and the design side by side, of files of which none is too long, with the names of its Verilog files.
pub(crate) fn simulated_both(
    alloc: Global,
    names: &[String],
    model: &[u8],
    map_file: &[u8],
    script: &[u8],
    designs: &[Vec<u8>],
) -> Result<Outcome, NoMemory>
    ensures told { IfOk result (λ o. IsSimulatedBoth model.now map_file.now script.now (map (λ d. d.items) designs.now) o.status o.text.items) }
    ensures nothing { IfOk result (λ o. (told_of o).spent ≡ []) }
{
    match case_of(alloc, names, model, map_file, designs)? {
        Case::Setting(model, mapped) => {
            let outcome = simulated_case(alloc, &model, &mapped, script)?;
            Ok(outcome)
        }
        Case::Refused(text) => Ok(Outcome::plain(Status::Refused, text)),
    }
}

/// A simulation of a model and a design with its map, side by side.
fn simulated_case(
    alloc: Global,
    model: &IlaModel,
    mapped: &MappedDesign,
    script: &[u8],
) -> Result<Outcome, NoMemory>
    requires sorted { IsSortedFor (model_of model.now) (mapped_of mapped.now) }
    ensures told { IfOk result (λ o. (s : Setting) → IsSettingBy (model_of model.now) (mapped_of mapped.now) s → IsSimulatedSetting s script.now o.status o.text.items) }
    ensures nothing { IfOk result (λ o. (told_of o).spent ≡ []) }
{
    match watched(alloc, model, mapped, script)? {
        Ending::Told(answer, line) => Ok(Outcome::plain(status_of(&answer), line.into_bytes())),
        Ending::Refused(refusal) => {
            let text = refusal_of_script(alloc, &refusal)?;
            Ok(Outcome::plain(Status::Refused, text))
        }
    }
}

/// The status of a run with this answer.
fn status_of(answer: &Watched) -> Status
    ensures { result ≡ status_for (watched_of answer.now) }
{
    match answer {
        Watched::Disagrees(_, _) => Status::Failed,
        Watched::Agrees(_) | Watched::Outside(_, _) => Status::Done,
    }
}
