//! Terms of a map, read in the last cycle of a simulated design.

ghost use Rattle.std.specs.Prelude.{◌≡◌, ◌<◌, List, All, IfOk, IsTrue, length, map};
ghost use Rattle.wb_values.specs.Value as meaning;
ghost use Rattle.wb_values.specs.Value.{truth, as_truth};
ghost use Rattle.wb_terms.specs.Environment.{Fits, as_value, value_of};
ghost use Rattle.wb_terms.specs.Held.{Holds};
ghost use Rattle.ila_model.specs.Model.{model_of};
ghost use Rattle.ila_child.specs.State.{IsStateOf, AreInputsOf};
ghost use Rattle.v_design.specs.Seen.{parts_of};
ghost use Rattle.v_design.specs.Parts.{is_term_of, value_in};
ghost use Rattle.v_cycle.specs.Running.{IsCycleOf, IsRun, HasRun};
ghost use Rattle.mapped_designs.specs.Mapped.{IsSortedFor};
ghost use Rattle.mapped_designs.specs.View.{mapped_of};

use ila_child::{Inputs, State, holds, term_value};
use ila_model::IlaModel;
use mapped_designs::MappedDesign;
use std::alloc::Global;
use v_cycle::Cycle;
use wb_terms::{NoMemory, TermId, Terms, Value};

/// Whether a condition of the map holds in the last cycle.
pub fn holds_in(cycle: &Cycle, mapped: &MappedDesign, id: TermId) -> bool
    requires run { IsRun (parts_of mapped.now.design) cycle.now }
    requires condition { IsTrue (is_term_of (parts_of mapped.now.design).graph truth id.0) }
    ensures { (rs is : List meaning.Value) → HasRun (parts_of mapped.now.design) cycle.now rs is
        → result ≡ as_truth (value_in (parts_of mapped.now.design) rs is id.0) }
{
    holds(&mapped.design.terms, cycle.env(), cycle.words(), id)
}

/// The values of terms in the last cycle.
fn term_values(
    alloc: Global,
    cycle: &Cycle,
    terms: &Terms,
    ids: &[TermId],
) -> Result<Vec<Value>, NoMemory>
    requires within { All (λ (id : _). id.0 < length terms.now.nodes) ids.now }
    requires run { Holds terms.now cycle.now.env cycle.now.words }
    requires fits { Fits terms.now cycle.now.env }
    ensures { IfOk result (λ values. map as_value values.items ≡ map (λ id. value_of terms.now cycle.now.env id.0) ids.now) }
{
    let mut values = Vec::with_capacity(alloc, ids.len())?;
    for id in ids {
        values.push(term_value(alloc, terms, cycle.env(), cycle.words(), *id)?)?;
    }
    Ok(values)
}

/// What the states of the model are mapped to in the last cycle.
pub fn mapped_state(
    alloc: Global,
    cycle: &Cycle,
    model: &IlaModel,
    mapped: &MappedDesign,
) -> Result<State, NoMemory>
    requires sorted { IsSortedFor (model_of model.now) (mapped_of mapped.now) }
    requires made { IsCycleOf (parts_of mapped.now.design) cycle.now }
    requires run { IsRun (parts_of mapped.now.design) cycle.now }
    ensures sorted { IfOk result (IsStateOf (model_of model.now)) }
    ensures values { IfOk result (λ q. (rs is : List meaning.Value) → HasRun (parts_of mapped.now.design) cycle.now rs is
        → q ≡ map (value_in (parts_of mapped.now.design) rs is) (mapped_of mapped.now).states) }
{
    let values = term_values(alloc, cycle, &mapped.design.terms, &mapped.states)?;
    let state = State::of_values(alloc, model, &values)?;
    Ok(state)
}

/// What the inputs of the model are mapped to in the last cycle.
pub fn mapped_inputs(
    alloc: Global,
    cycle: &Cycle,
    model: &IlaModel,
    mapped: &MappedDesign,
) -> Result<Inputs, NoMemory>
    requires sorted { IsSortedFor (model_of model.now) (mapped_of mapped.now) }
    requires made { IsCycleOf (parts_of mapped.now.design) cycle.now }
    requires run { IsRun (parts_of mapped.now.design) cycle.now }
    ensures sorted { IfOk result (AreInputsOf (model_of model.now)) }
    ensures values { IfOk result (λ w. (rs is : List meaning.Value) → HasRun (parts_of mapped.now.design) cycle.now rs is
        → w ≡ map (value_in (parts_of mapped.now.design) rs is) (mapped_of mapped.now).inputs) }
{
    let values = term_values(alloc, cycle, &mapped.design.terms, &mapped.inputs)?;
    Ok(Inputs::new(values))
}
