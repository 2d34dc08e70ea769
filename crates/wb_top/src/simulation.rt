//! What a model does under a script, from the bytes of both.

ghost use Rattle.std.specs.Prelude.{◌≡◌, [], IfOk};
ghost use Rattle.scripts.specs.Script.{script_reading, settables_of};
ghost use Rattle.ila_model.specs.Model.{model_of};
ghost use Rattle.wb_top.specs.Showing.{told_of};
ghost use Rattle.wb_top.specs.Simulated.{pair_of, with_script, IsSimulated};

use crate::answer::Outcome;
use crate::status::Status;
use crate::stop::NoMemory;
use crate::texts::{refusal_by, refusal_of_script};
use ila_json::{ModelStop, read_model};
use ila_model::IlaModel;
use ila_sim::Simulation;
use std::alloc::{AllocError, Global};

/// The answer to a simulation of a model file under a script.
#[tactic(auto, unfolding(crate::specs::Simulated::pair_of))]
pub(crate) fn simulated(alloc: Global, model: &[u8], script: &[u8]) -> Result<Outcome, NoMemory>
    ensures { IfOk result (λ o. IsSimulated (pair_of model.now script.now) o.status o.text.items × ((told_of o).spent ≡ [])) }
{
    match read_model(alloc, model) {
        Ok(model) => {
            let outcome = run(alloc, &model, script)?;
            Ok(outcome)
        }
        Err(ModelStop::Refused(broken)) => {
            let text = refusal_by(alloc, &broken)?;
            Ok(Outcome::plain(Status::Refused, text))
        }
        Err(ModelStop::NoMemory) => Err(AllocError),
    }
}

/// The answer to a simulation of a model under a script.
fn run(alloc: Global, model: &IlaModel, script: &[u8]) -> Result<Outcome, NoMemory>
    ensures { IfOk result (λ o. IsSimulated (with_script (model_of model.now) (script_reading (settables_of (model_of model.now)) script.now)) o.status o.text.items × ((told_of o).spent ≡ [])) }
{
    match ila_sim::simulated(alloc, model, script)? {
        Simulation::Text(text) => Ok(Outcome::plain(Status::Done, text)),
        Simulation::Refused(refusal) => {
            let text = refusal_of_script(alloc, &refusal)?;
            Ok(Outcome::plain(Status::Refused, text))
        }
    }
}
