//! What a design of a model looks like, from the bytes of the model.

ghost use Rattle.std.specs.Prelude.{◌≡◌, ◌++◌, ◌∷◌, [], cond, IfOk, string_bytes};
ghost use Rattle.ila_model.specs.Model.{model_of};
ghost use Rattle.wb_top.specs.Showing.{told_of};
ghost use Rattle.wb_top.specs.Emitted.{for_model, subject_of, IsEmitted};

use crate::answer::Outcome;
use crate::status::Status;
use crate::stop::NoMemory;
use crate::texts::{refusal_by, refusal_of_children};
use ila_emit::{EmitStop, Emitted, emit};
use ila_json::{ModelStop, read_model};
use ila_model::IlaModel;
use std::alloc::{AllocError, Global};

/// The answer to an emission of a model file: the Verilog of a design, or its map alone.
#[tactic(auto, unfolding(crate::specs::Emitted::subject_of))]
pub(crate) fn emitted(alloc: Global, model: &[u8], map_only: bool) -> Result<Outcome, NoMemory>
    ensures { IfOk result (λ o. IsEmitted map_only (subject_of model.now) o.status o.text.items × ((told_of o).spent ≡ [])) }
{
    match read_model(alloc, model) {
        Ok(model) => {
            let outcome = of_model(alloc, &model, map_only)?;
            Ok(outcome)
        }
        Err(ModelStop::Refused(broken)) => {
            let text = refusal_by(alloc, &broken)?;
            Ok(Outcome::plain(Status::Refused, text))
        }
        Err(ModelStop::NoMemory) => Err(AllocError),
    }
}

/// The answer to an emission of a model.
fn of_model(alloc: Global, model: &IlaModel, map_only: bool) -> Result<Outcome, NoMemory>
    ensures told { IfOk result (λ o. IsEmitted map_only (for_model (model_of model.now)) o.status o.text.items) }
    ensures nothing { IfOk result (λ o. (told_of o).spent ≡ []) }
{
    match emit(alloc, model) {
        Ok(texts) => {
            let text = chosen(texts, map_only)?;
            Ok(Outcome::plain(Status::Done, text))
        }
        Err(EmitStop::NotYet) => {
            let text = refusal_of_children(alloc)?;
            Ok(Outcome::plain(Status::Refused, text))
        }
        Err(EmitStop::NoMemory) => Err(AllocError),
    }
}

/// The text that is asked for: the Verilog, or the map and a line feed.
fn chosen(texts: Emitted, map_only: bool) -> Result<Vec<u8>, NoMemory>
    ensures { IfOk result (λ text. text.items ≡ cond map_only (string_bytes texts.map ++ 10 ∷ []) (string_bytes texts.verilog)) }
{
    if map_only {
        let mut text = texts.map;
        text.push_str("\n")?;
        return Ok(text.into_bytes());
    }
    Ok(texts.verilog.into_bytes())
}
