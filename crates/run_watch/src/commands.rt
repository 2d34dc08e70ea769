//! The instruction of a command that begins, and the state to which it leads the model.

ghost use Rattle.std.specs.Prelude.{IfOk};
ghost use Rattle.ila_model.specs.Model.{model_of};
ghost use Rattle.ila_child.specs.State.{IsStateOf, AreInputsOf, state_valuation, input_valuation};
ghost use Rattle.run_watch.specs.Turns.{IsFirstDecoding, IsStart, IsBegun, mapped_or, DiffersFirst};

use crate::standing::{Begun, Other};
use ila_child::{Inputs, State, Stepped, apply, step};
use ila_model::IlaModel;
use std::alloc::Global;
use wb_terms::NoMemory;

/// The first instruction whose decode condition holds.
fn first_decoding(
    alloc: Global,
    model: &IlaModel,
    state: &State,
    inputs: &Inputs,
) -> Result<Option<usize>, NoMemory>
    requires state { IsStateOf (model_of model.now) state.now }
    requires inputs { AreInputsOf (model_of model.now) inputs.now }
    ensures { IfOk result (IsFirstDecoding (model_of model.now) (state_valuation (model_of model.now) state.now) (input_valuation (model_of model.now) inputs.now)) }
{
    for k in 0..model.parts.instructions.len() {
        let applied = apply(alloc, model, k, state, inputs)?;
        if applied.decodes {
            return Ok(Some(k));
        }
    }
    Ok(None)
}

/// The instruction that starts at a state under inputs, whether or not its child programs end.
fn starting(
    alloc: Global,
    model: &IlaModel,
    state: &State,
    inputs: &Inputs,
) -> Result<Option<usize>, NoMemory>
    requires state { IsStateOf (model_of model.now) state.now }
    requires inputs { AreInputsOf (model_of model.now) inputs.now }
    ensures { IfOk result (IsStart (model_of model.now) (state_valuation (model_of model.now) state.now) (input_valuation (model_of model.now) inputs.now)) }
{
    let stepped = step(alloc, model, state, inputs)?;
    match stepped {
        Stepped::Next(place, _) => Ok(Some(place)),
        Stepped::ChildStuck(_, _) => {
            let found = first_decoding(alloc, model, state, inputs)?;
            Ok(found)
        }
        Stepped::ChildTooLong(_) => {
            let found = first_decoding(alloc, model, state, inputs)?;
            Ok(found)
        }
        _ => Ok(None),
    }
}

/// What begins where the model is in a state and the mapped state is that one or another: an instruction that starts at the mapped
/// state, and the state to which the model goes from its own.
pub(crate) fn begun(
    alloc: Global,
    model: &IlaModel,
    q: &State,
    inputs: &Inputs,
    other: &Option<Other>,
) -> Result<Option<Begun>, NoMemory>
    requires state { IsStateOf (model_of model.now) q.now }
    requires inputs { AreInputsOf (model_of model.now) inputs.now }
    requires other { DiffersFirst (model_of model.now) q.now other.now }
    ensures { IfOk result (IsBegun (model_of model.now) (state_valuation (model_of model.now) (mapped_or q.now other.now)) (state_valuation (model_of model.now) q.now)
        (input_valuation (model_of model.now) inputs.now)) }
{
    let stepped = step(alloc, model, q, inputs)?;
    match stepped {
        Stepped::Next(place, next) => match other {
            None => Ok(Some(Begun {
                instruction: place,
                next,
            })),
            Some(other) => match starting(alloc, model, &other.mapped, inputs)? {
                Some(instruction) => Ok(Some(Begun { instruction, next })),
                None => Ok(None),
            },
        },
        _ => Ok(None),
    }
}
