//! Facts on states of the model.

ghost use Rattle.std.specs.Prelude.{◌≡◌, ◌<◌, ◌≤◌, length, Some, IfOk, slice_get};
ghost use Rattle.model_meaning.specs.Model.{StateDeclaration, states_of};
ghost use Rattle.refinement.specs.Obligation.{initial, same};
ghost use Rattle.wb_terms.specs.Graph.{Graph};
ghost use Rattle.term_copies.specs.Copies.{IsExtended};
ghost use Rattle.ila_model.specs.Model.{model_of};
ghost use Rattle.mapped_designs.specs.View.{mapped_of};
ghost use Rattle.mapped_designs.specs.Runs.{Shows, shown_state};
ghost use Rattle.condition_terms.specs.Told.{Tells};
ghost use Rattle.obligation_lists.specs.Within.{IsStateIn};
ghost use Rattle.fact_terms.specs.Shown.{run_of};
ghost use Rattle.fact_terms.specs.Ready.{IsShown, IsReady};

use crate::NoMemory;
use crate::reading::shown_at;
use crate::shared::Shared;
use condition_terms::{constant, equal, has_value};
use obligation_lists::StateAt;
use wb_terms::{TermId, Terms};

/// The term of what a state of the model is mapped to at a cycle.
pub fn state_at(shared: &Shared<'_>, place: usize, cycle: u64) -> TermId
    requires ready { (g : Graph) × IsReady g shared.now }
    requires cycle { cycle ≤ length shared.now.read.now }
    requires state { place < length (states_of (model_of shared.now.model.now).top) }
    ensures { (g : Graph) (d : StateDeclaration) → IsReady g shared.now → slice_get (states_of (model_of shared.now.model.now).top) place ≡ Some d
        → IsShown g result.0 d.sort (λ v. shown_state (model_of shared.now.model.now) (mapped_of shared.now.mapped.now)
        (run_of (mapped_of shared.now.mapped.now) (length shared.now.read.now) v) cycle d.state_name) }
{
    shown_at(shared, cycle, shared.mapped.states[place])
}

/// Whether a state has its stated initial value at a cycle, if one is stated.
pub fn has_initial(
    terms: &mut Terms,
    shared: &Shared<'_>,
    state: StateAt<'_>,
    cycle: u64,
) -> Result<TermId, NoMemory>
    requires ready { IsReady terms.old shared.now }
    requires cycle { cycle ≤ length shared.now.read.now }
    requires state { IsStateIn (model_of shared.now.model.now) state }
    ensures extended { IsExtended terms.old terms.new }
    ensures told { IfOk result (λ r. Tells terms.new r.0 (λ v. Shows (model_of shared.now.model.now) (mapped_of shared.now.mapped.now)
        (run_of (mapped_of shared.now.mapped.now) (length shared.now.read.now) v) (initial state.entry.name.now cycle))) }
{
    match shared.model.initial_value(state.place) {
        Some(value) => {
            let id = has_value(terms, state_at(shared, state.place, cycle), value)?;
            Ok(id)
        }
        None => {
            let id = constant(terms, true)?;
            Ok(id)
        }
    }
}

/// Whether a state is equal at the first two cycles.
pub fn is_same(
    terms: &mut Terms,
    shared: &Shared<'_>,
    state: StateAt<'_>,
) -> Result<TermId, NoMemory>
    requires ready { IsReady terms.old shared.now }
    requires cycle { 1 ≤ length shared.now.read.now }
    requires state { IsStateIn (model_of shared.now.model.now) state }
    ensures extended { IsExtended terms.old terms.new }
    ensures told { IfOk result (λ r. Tells terms.new r.0 (λ v. Shows (model_of shared.now.model.now) (mapped_of shared.now.mapped.now)
        (run_of (mapped_of shared.now.mapped.now) (length shared.now.read.now) v) (same state.entry.name.now))) }
{
    let before = state_at(shared, state.place, 0);
    let after = state_at(shared, state.place, 1);
    let id = equal(terms, after, before)?;
    Ok(id)
}
