//! What one instruction does, whether or not it starts.

ghost use Rattle.std.specs.Prelude.{◌≡◌, ◌<◌, IfOk, length};
ghost use Rattle.ila_model.specs.Model.{model_of};
ghost use Rattle.ila_child.specs.State.{IsStateOf, AreInputsOf};
ghost use Rattle.ila_child.specs.Applied.{IsApplied, state_of_step};
ghost use Rattle.ila_child.specs.Runs.{IsRunnerOf, state_in, stepped_of};

use crate::evaluation::holds_at;
use crate::runs::{Moved, Runner, first_point, set_inputs, start_or_stay};
use crate::states::{Inputs, State};
use ila_model::IlaModel;
use std::alloc::Global;
use wb_terms::NoMemory;

/// What an instruction does at a state under inputs, whether or not it starts there.
#[derive(Drop)]
pub struct Applied {
    /// Whether its decode condition holds.
    pub decodes: bool,
    /// The state that it leads to, or none where a child program of it does not end.
    pub state: Option<State>,
}

/// What the instruction at a place of the model's order does at a state under inputs, whatever the valid condition and the decode
/// conditions are there.
pub fn apply(
    alloc: Global,
    model: &IlaModel,
    place: usize,
    state: &State,
    inputs: &Inputs,
) -> Result<Applied, NoMemory>
    requires place { place < length model.now.parts.instructions.items }
    requires state { IsStateOf (model_of model.now) state.now }
    requires inputs { AreInputsOf (model_of model.now) inputs.now }
    ensures { IfOk result (IsApplied (model_of model.now) place state.now inputs.now) }
{
    let mut point = first_point(alloc, model, state)?;
    let terms = &model.parts.terms;
    set_inputs(alloc, model, &mut point, inputs.values())?;
    point.let_go(alloc)?;
    let instruction = &model.parts.instructions[place];
    let decodes = holds_at(terms, &mut point, instruction.decode)?;
    let moved = start_or_stay(alloc, model, place, &mut point)?;
    let runner = Runner { point };
    Ok(Applied {
        decodes,
        state: next_state(model, runner, moved),
    })
}

/// The state that an answer leads to, if it leads to one.
fn next_state(model: &IlaModel, runner: Runner, moved: Moved) -> Option<State>
    requires { IsRunnerOf model.now.parts runner }
    ensures { result ≡ state_of_step (stepped_of moved (state_in model.now.parts runner)) }
{
    match moved {
        Moved::Next(_) => Some(runner.into_state(model)),
        _ => None,
    }
}
