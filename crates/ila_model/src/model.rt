//! A model: its name and its parts, which are well sorted and keep the rules of models.

ghost use Rattle.std.specs.Prelude.{◌≡◌, IsTrue, string_bytes};
ghost use Rattle.model_meaning.specs.Invariant.{IsModel, IsModel-prop};
ghost use Rattle.ila_model.specs.Meaning.{model_from};
ghost use Rattle.ila_model.specs.Sorted.{is_well_sorted};

use crate::parts::Parts;
use crate::sorting::SortedParts;
use wb_terms::{NameId, Sort, Value};

/// A model: well sorted, with legal and distinct names, private states that begin with stated values and are no memories,
/// and memories that no instruction copies.
#[derive(Drop)]
pub struct IlaModel {
    pub name: String,
    pub parts: Parts,
    pub ghost well_sorted: { IsTrue (is_well_sorted parts) },
    pub ghost kept: { IsModel (model_from (string_bytes name) parts) } by { IsModel-prop (model_from (string_bytes name) parts) },
}

impl IlaModel {
    ghost use Rattle.std.specs.Prelude.{◌+◌, ◌<◌, ◌≤◌, length, option_map, slice_get};
    ghost use Rattle.model_meaning.specs.Term.{is_sort};
    ghost use Rattle.model_meaning.specs.Model.{states_of};
    ghost use Rattle.wb_terms.specs.Sort.{as_sort};
    ghost use Rattle.wb_terms.specs.Environment.{as_value};
    ghost use Rattle.ila_model.specs.Model.{model_of};

    /// The model of this name and of these parts.
    pub fn new(name: String, sorted: SortedParts) -> IlaModel
        requires kept { IsModel (model_from (string_bytes name) sorted.parts) }
        ensures name { result.name ≡ name }
        ensures parts { result.parts ≡ sorted.parts }
        ensures model { model_of result ≡ model_from (string_bytes name) sorted.parts }
    {
        IlaModel {
            name,
            parts: sorted.parts,
        }
    }

    /// How many states the model has.
    pub fn state_count(&self) -> usize
        ensures states { result ≡ length (states_of (model_of self.now).top) }
        ensures place { result ≡ length self.now.parts.initial_values.items }
        ensures within { result ≤ length self.now.parts.terms.names }
    {
        self.parts.initial_values.len()
    }

    /// How many inputs the model has.
    pub fn input_count(&self) -> usize
        ensures inputs { result ≡ length (model_of self.now).inputs }
        ensures place { result ≡ self.now.parts.inputs }
        ensures within { length self.now.parts.initial_values.items + result ≤ length self.now.parts.terms.names }
    {
        self.parts.inputs
    }

    /// The name of a state, by its place in the order of the states.
    pub fn state_name(&self, place: usize) -> &str
        requires { place < length (states_of (model_of self.now).top) }
        ensures { option_map (λ s. s.state_name) (slice_get (states_of (model_of self.now).top) place) ≡ Some result.now }
    {
        self.parts.terms.name(NameId(place))
    }

    /// The sort of a state, by its place in the order of the states.
    pub fn state_sort(&self, place: usize) -> Sort
        requires { place < length (states_of (model_of self.now).top) }
        ensures sort { option_map (λ s. s.sort) (slice_get (states_of (model_of self.now).top) place) ≡ Some (as_sort result) }
        ensures in_range { IsTrue (is_sort (as_sort result)) }
    {
        self.parts.terms.name_sort(NameId(place))
    }

    /// The initial value that the model states for a state, if any, by its place in the order of the states.
    pub fn initial_value(&self, place: usize) -> &Option<Value>
        requires { place < length (states_of (model_of self.now).top) }
        ensures { option_map (λ s. s.init) (slice_get (states_of (model_of self.now).top) place) ≡ Some (option_map as_value result.now) }
    {
        &self.parts.initial_values[place]
    }

    /// The name of an input, by its place in the order of the inputs.
    pub fn input_name(&self, place: usize) -> &str
        requires { place < length (model_of self.now).inputs }
        ensures { option_map (λ s. s.input_name) (slice_get (model_of self.now).inputs place) ≡ Some result.now }
    {
        self.parts.terms.name(self.input_id(place))
    }

    /// The sort of an input, by its place in the order of the inputs.
    pub fn input_sort(&self, place: usize) -> Sort
        requires { place < length (model_of self.now).inputs }
        ensures sort { option_map (λ s. s.sort) (slice_get (model_of self.now).inputs place) ≡ Some (as_sort result) }
        ensures in_range { IsTrue (is_sort (as_sort result)) }
    {
        self.parts.terms.name_sort(self.input_id(place))
    }

    /// The place of an input in the table of names.
    fn input_id(&self, place: usize) -> NameId
        requires { length self.now.parts.initial_values.items + place < length self.now.parts.terms.names }
        ensures { result.0 ≡ length self.now.parts.initial_values.items + place }
    {
        let _names = self.parts.terms.name_count();
        NameId(self.parts.initial_values.len() + place)
    }
}
