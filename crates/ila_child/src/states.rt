//! States of a model and its inputs: a value for each state, and one for each input.

ghost use Rattle.std.specs.Prelude.{◌≡◌, ◌≤◌, ◌<◌, ◌+◌, ◌++◌, ◌∷◌, [], ◌↔◌, IfOk, IfSome, OnOk, OnErr, IsTrue, is_some, map, length, take, drop, slice_index_or, slice_set};
ghost use Rattle.wb_values.specs.Value as meaning;
ghost use Rattle.wb_values.specs.Value.{HasSort};
ghost use Rattle.model_meaning.specs.Term.{is_sort};
ghost use Rattle.model_meaning.specs.Model.{states_of};
ghost use Rattle.wb_terms.specs.Sort.{as_sort};
ghost use Rattle.wb_terms.specs.Environment.{AreOfSorts, as_value};
ghost use Rattle.term_evaluation.specs.Slots.{with_number};
ghost use Rattle.ila_model.specs.Model.{model_of};
ghost use Rattle.ila_child.specs.Values.{beginning};
ghost use Rattle.ila_child.specs.State.{IsStateOf, AreInputsOf, initial_values};

use crate::values::are_of_sorts;
use ila_model::IlaModel;
use std::alloc::Global;
use std::marker::Model;
use term_evaluation::SharedValues;
use wb_terms::{NameId, NoMemory, Sort, Terms, Value};

/// A state: a value for each state of a model, in the model's order. Contracts see the list of the values.
#[derive(Drop)]
pub struct State {
    values: SharedValues,
}

impl Model for State {
    ghost use Rattle.std.specs.Prelude.{List};
    ghost use Rattle.wb_values.specs.Value as meaning;

    ghost Value = { List meaning.Value };

    ghost view = { λ s. s.values };
}

/// Inputs: a value for each input of a model, in the model's order. Contracts see the list of the values.
#[derive(Drop)]
pub struct Inputs {
    values: Vec<Value>,
}

impl Model for Inputs {
    ghost use Rattle.std.specs.Prelude.{List, map};
    ghost use Rattle.wb_values.specs.Value as meaning;
    ghost use Rattle.wb_terms.specs.Environment.{as_value};

    ghost Value = { List meaning.Value };

    ghost view = { λ s. map as_value s.values.items };
}

impl State {
    /// The state of these values.
    pub fn new(values: SharedValues) -> State
        ensures { result ≡ values }
    {
        State { values }
    }

    /// The state of these values, exactly where there is one for each state of the model, of its sort.
    pub fn checked(
        alloc: Global,
        model: &IlaModel,
        values: &[Value],
    ) -> Result<Option<State>, NoMemory>
        ensures sorted { IfOk result (λ o. IsTrue (is_some o) ↔ IsStateOf (model_of model.now) (map as_value values.now)) }
        ensures values { IfOk result (λ o. IfSome o (λ q. q ≡ map as_value values.now)) }
    {
        if !are_of_sorts(&model.parts.terms, 0, model.state_count(), values) {
            return Ok(None);
        }
        let values = shared_values(alloc, &model.parts.terms, values)?;
        Ok(Some(State { values }))
    }

    /// The state of these values, one for each state of the model.
    pub fn of_values(alloc: Global, model: &IlaModel, values: &[Value]) -> Result<State, NoMemory>
        requires { IsStateOf (model_of model.now) (map as_value values.now) }
        ensures { IfOk result (λ q. q ≡ map as_value values.now) }
    {
        let values = shared_values(alloc, &model.parts.terms, values)?;
        Ok(State { values })
    }

    /// The values, in the order of the states.
    pub fn values(&self) -> &SharedValues
        ensures { result.now ≡ self.now }
    {
        &self.values
    }

    /// Sets a word of a memory, or all of another value. Where there is no such state it does nothing.
    pub fn set_word(&mut self, place: usize, word: u64, number: u128) -> Result<(), NoMemory>
        ensures { OnOk result (self.new ≡ slice_set self.old place (with_number (slice_index_or self.old place (meaning.number 0)) word number)) }
    {
        if place < self.values.len() {
            self.values.set_word(place, word, number)?;
        }
        Ok(())
    }
}

impl Inputs {
    /// The inputs of these values.
    pub fn new(values: Vec<Value>) -> Inputs
        ensures { result ≡ map as_value values.items }
    {
        Inputs { values }
    }

    /// The inputs of these values, exactly where there is one for each input of the model, of its sort.
    pub fn checked(model: &IlaModel, values: Vec<Value>) -> Option<Inputs>
        ensures sorted { IsTrue (is_some result) ↔ AreInputsOf (model_of model.now) (map as_value values.items) }
        ensures values { IfSome result (λ w. w ≡ map as_value values.items) }
    {
        if are_of_sorts(
            &model.parts.terms,
            model.state_count(),
            model.input_count(),
            &values,
        ) {
            Some(Inputs { values })
        } else {
            None
        }
    }

    /// The values, in the order of the inputs.
    pub fn values(&self) -> &[Value]
        ensures { map as_value result.now ≡ self.now }
    {
        &self.values
    }
}

/// The values of the first names of a store, one after the other.
fn shared_values(alloc: Global, terms: &Terms, values: &[Value]) -> Result<SharedValues, NoMemory>
    requires { AreOfSorts (take (length values.now) terms.now.names) (map as_value values.now) }
    ensures { IfOk result (λ v. v ≡ map as_value values.now) }
{
    let _names = terms.name_count();
    let mut shared = SharedValues::new(alloc)?;
    for k in 0..values.len() {
        shared.push(&values[k], terms.name_sort(NameId(k)))?;
    }
    Ok(shared)
}

/// The state in which the model begins: each state has the initial value that the model states, else false, 0 or zeros.
pub fn initial_state(alloc: Global, model: &IlaModel) -> Result<State, NoMemory>
    ensures values { IfOk result (λ q. q ≡ initial_values (states_of (model_of model.now).top)) }
    ensures sorted { IfOk result (IsStateOf (model_of model.now)) }
{
    let mut values = SharedValues::new(alloc)?;
    for place in 0..model.state_count() {
        let sort = model.state_sort(place);
        push_initial(&mut values, sort, model.initial_value(place))?;
    }
    Ok(State { values })
}

/// Adds the value with which a state of this sort begins: the stated one, if any, else the zero of the sort.
fn push_initial(
    values: &mut SharedValues,
    sort: Sort,
    initial: &Option<Value>,
) -> Result<(), NoMemory>
    requires in_range { IsTrue (is_sort (as_sort sort)) }
    requires sort { HasSort (beginning (as_sort sort) initial.now) (as_sort sort) }
    ensures { OnOk result (values.new ≡ values.old ++ beginning (as_sort sort) initial.now ∷ []) }
{
    match initial {
        Some(value) => values.push(value, sort),
        None => values.push_zero(sort),
    }
}
