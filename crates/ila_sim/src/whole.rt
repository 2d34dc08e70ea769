//! A simulation from the text of its script to the text that tells it.

ghost use Rattle.std.specs.Prelude.{IfOk};
ghost use Rattle.scripts.specs.Script.{settables_of, script_reading};
ghost use Rattle.ila_model.specs.Model.{model_of};
ghost use Rattle.ila_sim.specs.Whole.{IsSimulated, IsSimulationNoted};

use crate::naming::names_of;
use crate::reading::read_script;
use crate::refusal::{ScriptRefusal, ScriptStop};
use crate::running::simulated_text;
use ila_model::IlaModel;
use std::alloc::{AllocError, Global};
use wb_terms::NoMemory;

/// What a simulation gives.
#[derive(Drop)]
pub enum Simulation {
    /// The text that tells what the model does under the script.
    Text(Vec<u8>),
    /// The script is none.
    Refused(ScriptRefusal),
}

/// Reads a script, runs it on the model, and tells what the model does, or refuses the script with the note of the first line that
/// is bad, or that leaves out an input. No more than one state is kept at a time.
pub fn simulated(alloc: Global, model: &IlaModel, script: &[u8]) -> Result<Simulation, NoMemory>
    ensures told { IfOk result (IsSimulated (model_of model.now) (script_reading (settables_of (model_of model.now)) script.now)) }
    ensures note { IfOk result (IsSimulationNoted (settables_of (model_of model.now)) script.now) }
{
    let names = names_of(alloc, model)?;
    match read_script(alloc, script, &names) {
        Ok(script) => {
            let text = simulated_text(alloc, model, &script)?;
            Ok(Simulation::Text(text))
        }
        Err(ScriptStop::Refused(refusal)) => Ok(Simulation::Refused(refusal)),
        Err(ScriptStop::NoMemory) => Err(AllocError),
    }
}
