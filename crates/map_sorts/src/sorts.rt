//! The sorts of states and of inputs in tables by their names.

ghost use Rattle.std.specs.Prelude.{◌≡◌, IfOk, cond, Some, None, option_map};
ghost use Rattle.wb_values.specs.Value.{Name, same_name};
ghost use Rattle.wb_values.specs.Choice.{first_of};
ghost use Rattle.wb_terms.specs.Sort.{as_sort};
ghost use Rattle.ila_model.specs.Model.{model_of};
ghost use Rattle.map_rules.specs.Case.{state_sort, input_sort};
ghost use Rattle.map_sorts.specs.Tables.{sort_in, sort_of_input_in, sort_of_state_in};

use ila_model::IlaModel;
use std::alloc::{AllocError, Global};
use std::collections::BTreeMap;
use wb_terms::Sort;

/// The sorts of the states of a model's top machine, and of its inputs, by their names.
#[derive(Drop)]
pub struct ModelSorts<'m> {
    states: BTreeMap<&'m str, Sort>,
    inputs: BTreeMap<&'m str, Sort>,
}

/// Puts a sort under a name unless one stands there.
fn add_first<'m>(
    table: &mut BTreeMap<&'m str, Sort>,
    name: &'m str,
    sort: Sort,
) -> Result<(), AllocError>
    ensures { IfOk result (λ _. (q : Name) → sort_in table.new q ≡ first_of (sort_in table.old q) (cond (same_name name.now q) (Some (as_sort sort)) None)) }
{
    if !table.contains_key(name) {
        table.insert(name, sort)?;
    }
    Ok(())
}

/// The sorts of the states.
fn state_sorts<'m>(
    alloc: Global,
    model: &'m IlaModel,
) -> Result<BTreeMap<&'m str, Sort>, AllocError>
    ensures { IfOk result (λ t. (q : Name) → sort_in t q ≡ state_sort (model_of model.now) q) }
{
    let mut table = BTreeMap::new(alloc);
    for place in 0..model.state_count() {
        add_first(&mut table, model.state_name(place), model.state_sort(place))?;
    }
    Ok(table)
}

/// The sorts of the inputs.
fn input_sorts<'m>(
    alloc: Global,
    model: &'m IlaModel,
) -> Result<BTreeMap<&'m str, Sort>, AllocError>
    ensures { IfOk result (λ t. (q : Name) → sort_in t q ≡ input_sort (model_of model.now) q) }
{
    let mut table = BTreeMap::new(alloc);
    for place in 0..model.input_count() {
        add_first(&mut table, model.input_name(place), model.input_sort(place))?;
    }
    Ok(table)
}

impl<'m> ModelSorts<'m> {
    /// The sorts that a model declares.
    pub fn of(alloc: Global, model: &'m IlaModel) -> Result<ModelSorts<'m>, AllocError>
        ensures states { IfOk result (λ s. (q : Name) → sort_of_state_in s q ≡ state_sort (model_of model.now) q) }
        ensures inputs { IfOk result (λ s. (q : Name) → sort_of_input_in s q ≡ input_sort (model_of model.now) q) }
    {
        let states = state_sorts(alloc, model)?;
        let inputs = input_sorts(alloc, model)?;
        Ok(ModelSorts { states, inputs })
    }

    /// The sort of the state of this name, where the model's top machine has one.
    pub fn state(&self, name: &str) -> Option<Sort>
        ensures { option_map as_sort result ≡ sort_of_state_in self.now name.now }
    {
        self.states.get(name).copied()
    }

    /// The sort of the input of this name, where the model has one.
    pub fn input(&self, name: &str) -> Option<Sort>
        ensures { option_map as_sort result ≡ sort_of_input_in self.now name.now }
    {
        self.inputs.get(name).copied()
    }
}
