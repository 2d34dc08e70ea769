//! The names of states and inputs, in the order of their bytes.

ghost use Rattle.std.specs.Prelude.{◌≡◌, map, IfOk};
ghost use Rattle.ila_model.specs.Model.{model_of};
ghost use Rattle.emitted_designs.specs.Map.{in_byte_order, mapped_state_names, mapped_input_names};

use ila_model::IlaModel;
use std::alloc::{AllocError, Global};

/// Memory ran out.
pub type NoMemory = AllocError;

/// Puts the names into the order of their bytes.
fn sort(names: &mut Vec<&str>)
    ensures { map (λ n. n.now) names.new.items ≡ in_byte_order (map (λ n. n.now) names.old.items) }
{
    names.sort_unstable();
}

/// The names of the model's states, in the order of their bytes.
pub(crate) fn state_names(alloc: Global, model: &IlaModel) -> Result<Vec<&str>, NoMemory>
    ensures { IfOk result (λ names. map (λ n. n.now) names.items ≡ mapped_state_names (model_of model.now)) }
{
    let mut states = Vec::new(alloc);
    for place in 0..model.state_count() {
        states.push(model.state_name(place))?;
    }
    sort(&mut states);
    Ok(states)
}

/// The names of the model's inputs, in the order of their bytes.
pub(crate) fn input_names(alloc: Global, model: &IlaModel) -> Result<Vec<&str>, NoMemory>
    ensures { IfOk result (λ names. map (λ n. n.now) names.items ≡ mapped_input_names (model_of model.now)) }
{
    let mut inputs = Vec::new(alloc);
    for place in 0..model.input_count() {
        inputs.push(model.input_name(place))?;
    }
    sort(&mut inputs);
    Ok(inputs)
}
