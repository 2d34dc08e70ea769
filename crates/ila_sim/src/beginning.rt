//! The state in which a script begins, and the inputs that its lines give.

ghost use Rattle.std.specs.Prelude.{◌≡◌, IfOk, OnOk, IsTrue, map};
ghost use Rattle.scripts.specs.Script.{settables_of, initial_state, with_sets, inputs_of};
ghost use Rattle.wb_terms.specs.Environment.{as_value};
ghost use Rattle.ila_model.specs.Model.{model_of};
ghost use Rattle.ila_child.specs.State.{IsStateOf, AreInputsOf, state_valuation, input_valuation};
ghost use Rattle.ila_sim.specs.Lines.{sets_view};
ghost use Rattle.ila_sim.specs.Outcomes.{with_all, zero_values};
ghost use Rattle.ila_sim.specs.Sets.{are_right};

use crate::set::Set;
use crate::values::{set_all, zero};
use ila_child::{Inputs, State, initial_state};
use ila_model::IlaModel;
use std::alloc::Global;
use wb_terms::{NoMemory, Value};

/// The state in which a script begins: initial values, where none are stated zeros, and then what is set.
pub(crate) fn first_state(alloc: Global, model: &IlaModel, sets: &[Set]) -> Result<State, NoMemory>
    requires { IsTrue (are_right (settables_of (model_of model.now)).states sets.now) }
    ensures values { IfOk result (λ q. state_valuation (model_of model.now) q ≡ with_sets (initial_state (model_of model.now)) (sets_view (settables_of (model_of model.now)).states sets.now)) }
    ensures sorted { IfOk result (IsStateOf (model_of model.now)) }
{
    let mut state = initial_state(alloc, model)?;
    set_states(&mut state, sets)?;
    Ok(state)
}

/// Makes the settings of a line in a state.
fn set_states(state: &mut State, sets: &[Set]) -> Result<(), NoMemory>
    ensures { OnOk result (state.new ≡ with_all state.old sets.now) }
{
    for k in 0..sets.len() {
        let one = sets[k];
        state.set_word(one.place, one.word, one.value)?;
    }
    Ok(())
}

/// The zeros of the inputs.
fn zeros(alloc: Global, model: &IlaModel) -> Result<Vec<Value>, NoMemory>
    ensures { IfOk result (λ v. map as_value v.items ≡ zero_values (model_of model.now).inputs) }
{
    let mut zeros = Vec::with_capacity(alloc, model.input_count())?;
    for place in 0..model.input_count() {
        zeros.push(zero(alloc, model.input_sort(place))?)?;
    }
    Ok(zeros)
}

/// The inputs that a line gives.
pub(crate) fn line_inputs(alloc: Global, model: &IlaModel, sets: &[Set]) -> Result<Inputs, NoMemory>
    requires { IsTrue (are_right (settables_of (model_of model.now)).inputs sets.now) }
    ensures values { IfOk result (λ w. input_valuation (model_of model.now) w ≡ inputs_of (model_of model.now) (sets_view (settables_of (model_of model.now)).inputs sets.now)) }
    ensures sorted { IfOk result (AreInputsOf (model_of model.now)) }
{
    let mut values = zeros(alloc, model)?;
    set_all(&mut values, sets);
    Ok(Inputs::new(values))
}
