//! The names that a script for a model may set.

ghost use Rattle.std.specs.Prelude.{◌≡◌, ◌≤◌, ◌<◌, ◌^◌, IfOk, IsTrue, Some, length, map, slice_get};
ghost use Rattle.wb_values.specs.Value.{Name};
ghost use Rattle.model_meaning.specs.Term.{is_sort};
ghost use Rattle.model_meaning.specs.Model.{states_of};
ghost use Rattle.scripts.specs.Script.{settable, settables_of};
ghost use Rattle.wb_terms.specs.Sort.{as_sort};
ghost use Rattle.ila_model.specs.Model.{model_of};
ghost use Rattle.ila_sim.specs.Kinds.{width_of, end_of};
ghost use Rattle.ila_sim.specs.Names.{settable_with, settable_of};
ghost use Rattle.ila_sim.specs.Settables.{settables_view};

use crate::names::{Kind, Settable};
use crate::settables::Names;
use ila_model::IlaModel;
use std::alloc::Global;
use wb_terms::{NoMemory, Sort};

/// Which values fit a name of the sort, and which words it has.
fn kind_of(sort: Sort) -> Kind
    requires { IsTrue (is_sort (as_sort sort)) }
    ensures settable { (n : Name) → settable_with n result ≡ settable n (as_sort sort) }
    ensures narrow { width_of result ≤ 128 }
    ensures near { end_of result ≤ 2 ^ 64 }
{
    match sort {
        Sort::Truth => Kind::Truth,
        Sort::Word(width) => Kind::Word(width),
        Sort::Memory(address_width, width) => Kind::Memory(0, 1u64 << address_width, width),
    }
}

/// A name of the sort.
fn settable(alloc: Global, name: &str, sort: Sort) -> Result<Settable, NoMemory>
    requires { IsTrue (is_sort (as_sort sort)) }
    ensures { IfOk result (λ s. settable_of s ≡ settable name.now (as_sort sort)) }
{
    let name = Vec::from_slice(alloc, name.as_bytes())?;
    let kind = kind_of(sort);
    Ok(Settable {
        name,
        kind,
        masks: None,
    })
}

/// The state at a place.
fn state_at(alloc: Global, model: &IlaModel, place: usize) -> Result<Settable, NoMemory>
    requires { place < length (states_of (model_of model.now).top) }
    ensures { IfOk result (λ s. slice_get (settables_of (model_of model.now)).states place ≡ Some (settable_of s)) }
{
    let state = settable(alloc, model.state_name(place), model.state_sort(place))?;
    Ok(state)
}

/// The input at a place.
fn input_at(alloc: Global, model: &IlaModel, place: usize) -> Result<Settable, NoMemory>
    requires { place < length (model_of model.now).inputs }
    ensures { IfOk result (λ s. slice_get (settables_of (model_of model.now)).inputs place ≡ Some (settable_of s)) }
{
    let input = settable(alloc, model.input_name(place), model.input_sort(place))?;
    Ok(input)
}

/// What a state line may set.
fn states(alloc: Global, model: &IlaModel) -> Result<Vec<Settable>, NoMemory>
    ensures { IfOk result (λ v. map settable_of v.items ≡ (settables_of (model_of model.now)).states) }
{
    let mut states = Vec::new(alloc);
    for place in 0..model.state_count() {
        states.push(state_at(alloc, model, place)?)?;
    }
    Ok(states)
}

/// What an input line may set.
fn inputs(alloc: Global, model: &IlaModel) -> Result<Vec<Settable>, NoMemory>
    ensures { IfOk result (λ v. map settable_of v.items ≡ (settables_of (model_of model.now)).inputs) }
{
    let mut inputs = Vec::new(alloc);
    for place in 0..model.input_count() {
        inputs.push(input_at(alloc, model, place)?)?;
    }
    Ok(inputs)
}

/// The names that a script for the model may set. Private states of children are not among them.
pub fn names_of(alloc: Global, model: &IlaModel) -> Result<Names, NoMemory>
    ensures { IfOk result (λ n. settables_view n ≡ settables_of (model_of model.now)) }
{
    let states = states(alloc, model)?;
    let inputs = inputs(alloc, model)?;
    Ok(Names { states, inputs })
}
