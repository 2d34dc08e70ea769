//! Scripts run on a model.

ghost use Rattle.std.specs.Prelude.{◌≡◌, IfOk, OnOk, IsTrue, map};
ghost use Rattle.std.specs.List.{All};
ghost use Rattle.scripts.specs.Script.{settables_of, inputs_of};
ghost use Rattle.model_meaning.specs.Outcome.{IsOutcome};
ghost use Rattle.scripts.specs.Simulation.{IsSimulation};
ghost use Rattle.ila_model.specs.Model.{model_of};
ghost use Rattle.ila_child.specs.State.{IsStateOf, state_valuation};
ghost use Rattle.ila_sim.specs.Lines.{sets_view};
ghost use Rattle.ila_child.specs.Runs.{IsRunnerOf, state_in, stepped_of};
ghost use Rattle.ila_child.specs.Step.{outcome_view, IsWell};
ghost use Rattle.ila_sim.specs.Outcomes.{values_after, IsTold};
ghost use Rattle.ila_sim.specs.Scripts.{script_view, IsScriptWithin};
ghost use Rattle.ila_sim.specs.Sets.{are_right};

use crate::beginning::{first_state, line_inputs};
use crate::script::Script;
use crate::set::Set;
use crate::text::append_moved;
use ila_child::{Moved, Runner, Stepped};
use ila_model::IlaModel;
use std::alloc::Global;
use wb_terms::NoMemory;

/// What the model does in its state under the inputs of a line.
fn answer(
    alloc: Global,
    model: &IlaModel,
    runner: &mut Runner,
    sets: &[Set],
) -> Result<Moved, NoMemory>
    requires made { IsRunnerOf model.now.parts runner.old }
    requires state { IsStateOf (model_of model.now) (state_in model.now.parts runner.old) }
    requires sets { IsTrue (are_right (settables_of (model_of model.now)).inputs sets.now) }
    ensures made { OnOk result (IsRunnerOf model.now.parts runner.new) }
    ensures outcome { IfOk result (λ a. IsOutcome (model_of model.now) (state_valuation (model_of model.now) (state_in model.now.parts runner.old)) (inputs_of (model_of model.now) (sets_view (settables_of (model_of model.now)).inputs sets.now)) (outcome_view (model_of model.now) (stepped_of a (state_in model.now.parts runner.new)))) }
    ensures well { IfOk result (λ a. IsWell (model_of model.now) (stepped_of a (state_in model.now.parts runner.new))) }
    ensures after { IfOk result (λ a. state_in model.now.parts runner.new ≡ values_after (state_in model.now.parts runner.old) (stepped_of a (state_in model.now.parts runner.new))) }
{
    let inputs = line_inputs(alloc, model, sets)?;
    let moved = runner.step(alloc, model, &inputs)?;
    Ok(moved)
}

/// What the model does, line by line of the script. It begins in its initial values, zeros where none are stated, and the
/// settings of the script's state line; where a step leads to no next state the state stays. Each state in the answer has a
/// value for each state of the model, of its sort, and no more.
pub fn simulate(alloc: Global, model: &IlaModel, script: &Script) -> Result<Vec<Stepped>, NoMemory>
    requires { IsScriptWithin (settables_of (model_of model.now)) script.now }
    ensures outcomes { IfOk result (λ v. IsSimulation (model_of model.now) (script_view (settables_of (model_of model.now)) script.now) (map (outcome_view (model_of model.now)) v.items)) }
    ensures well { IfOk result (λ v. All (IsWell (model_of model.now)) v.items) }
{
    let state = first_state(alloc, model, &script.state)?;
    let mut runner = Runner::new(alloc, model, &state)?;
    let mut answers = Vec::with_capacity(alloc, script.inputs.len())?;
    for sets in &script.inputs {
        let moved = answer(alloc, model, &mut runner, sets)?;
        let stepped = runner.answer(alloc, model, moved)?;
        answers.push(stepped)?;
    }
    Ok(answers)
}

/// The text of such a run. No more than one state is kept at a time.
pub fn simulated_text(alloc: Global, model: &IlaModel, script: &Script) -> Result<Vec<u8>, NoMemory>
    requires { IsScriptWithin (settables_of (model_of model.now)) script.now }
    ensures { IfOk result (λ v. IsTold (model_of model.now) (script_view (settables_of (model_of model.now)) script.now) v.items) }
{
    let state = first_state(alloc, model, &script.state)?;
    let mut runner = Runner::new(alloc, model, &state)?;
    let mut text = Vec::new(alloc);
    for (place, sets) in script.inputs.iter().enumerate() {
        let moved = answer(alloc, model, &mut runner, sets)?;
        append_moved(alloc, &mut text, model, place + 1, &runner, moved)?;
    }
    Ok(text)
}
