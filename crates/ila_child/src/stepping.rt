//! One step of a model from a state under inputs.

ghost use Rattle.std.specs.Prelude.{◌≡◌, IfOk};
ghost use Rattle.ila_model.specs.Model.{model_of};
ghost use Rattle.ila_child.specs.State.{IsStateOf, AreInputsOf};
ghost use Rattle.ila_child.specs.Step.{IsStepped};
ghost use Rattle.ila_child.specs.Runs.{IsRunnerOf, state_in, stepped_of};

use crate::runs::{Moved, Runner};
use crate::states::{Inputs, State};
use ila_model::IlaModel;
use std::alloc::Global;
use wb_terms::NoMemory;

/// What a model does at a state under inputs. Instructions are named by their places in the model's order, from 0. The
/// outermost child program has depth 1, and its steps count from 0 at each entry.
#[derive(Drop)]
pub enum Stepped {
    /// This instruction starts, its child programs run to their ends, and it leads to this state.
    Next(usize, State),
    /// The valid condition does not hold.
    NotValid,
    /// No instruction decodes.
    NoInstruction,
    /// Several instructions decode; these are the first two.
    Several(usize, usize),
    /// An instruction starts, and in the child at this depth not exactly one decode condition holds at this step.
    ChildStuck(u32, u32),
    /// An instruction starts, and the valid condition of the child at this depth still holds after its limit of steps.
    ChildTooLong(u32),
}

/// One step of the model. Each answer comes exactly where its cause holds: no two causes hold together. Of troubles in child
/// programs the first in the order of execution is answered.
pub fn step(
    alloc: Global,
    model: &IlaModel,
    state: &State,
    inputs: &Inputs,
) -> Result<Stepped, NoMemory>
    requires state { IsStateOf (model_of model.now) state.now }
    requires inputs { AreInputsOf (model_of model.now) inputs.now }
    ensures { IfOk result (IsStepped (model_of model.now) state.now inputs.now) }
{
    let mut runner = Runner::new(alloc, model, state)?;
    let moved = runner.step(alloc, model, inputs)?;
    Ok(answer(model, runner, moved))
}

/// The answer, with the state after the step.
fn answer(model: &IlaModel, runner: Runner, moved: Moved) -> Stepped
    requires { IsRunnerOf model.now.parts runner }
    ensures { result ≡ stepped_of moved (state_in model.now.parts runner) }
{
    match moved {
        Moved::Next(place) => Stepped::Next(place, runner.into_state(model)),
        Moved::NotValid => Stepped::NotValid,
        Moved::NoInstruction => Stepped::NoInstruction,
        Moved::Several(first, second) => Stepped::Several(first, second),
        Moved::ChildStuck(depth, step) => Stepped::ChildStuck(depth, step),
        Moved::ChildTooLong(depth) => Stepped::ChildTooLong(depth),
    }
}
