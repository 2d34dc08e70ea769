//! Facts on instructions of the model.

ghost use Rattle.std.specs.Prelude.{◌<◌, ◌≤◌, length, IfOk};
ghost use Rattle.refinement.specs.Obligation.{decoded, commit, ends, result_of};
ghost use Rattle.wb_terms.specs.Graph.{Graph};
ghost use Rattle.term_copies.specs.Copies.{IsExtended};
ghost use Rattle.ila_model.specs.Model.{model_of};
ghost use Rattle.mapped_designs.specs.View.{mapped_of};
ghost use Rattle.mapped_designs.specs.Runs.{Shows};
ghost use Rattle.condition_terms.specs.Told.{Tells};
ghost use Rattle.obligation_lists.specs.Within.{IsStateIn, IsInstructionPlace};
ghost use Rattle.fact_terms.specs.Shown.{run_of};
ghost use Rattle.fact_terms.specs.Ready.{IsReady};

use crate::NoMemory;
use crate::reading::read_at;
use crate::shared::Shared;
use crate::states::state_at;
use condition_terms::{either, equal, negation};
use obligation_lists::StateAt;
use wb_terms::{TermId, Terms};

/// Whether an instruction decodes at the first cycle.
pub fn decodes(shared: &Shared<'_>, place: usize) -> TermId
    requires ready { (g : Graph) × IsReady g shared.now }
    requires place { IsInstructionPlace (model_of shared.now.model.now) place }
    ensures { (g : Graph) → IsReady g shared.now → Tells g result.0 (λ v. Shows (model_of shared.now.model.now) (mapped_of shared.now.mapped.now)
        (run_of (mapped_of shared.now.mapped.now) (length shared.now.read.now) v) (decoded place)) }
{
    shared.modelled.instructions[place].decode
}

/// Whether an instruction leads to a state from the first cycle.
pub fn does_end(shared: &Shared<'_>, place: usize) -> TermId
    requires ready { (g : Graph) × IsReady g shared.now }
    requires place { IsInstructionPlace (model_of shared.now.model.now) place }
    ensures { (g : Graph) → IsReady g shared.now → Tells g result.0 (λ v. Shows (model_of shared.now.model.now) (mapped_of shared.now.mapped.now)
        (run_of (mapped_of shared.now.mapped.now) (length shared.now.read.now) v) (ends place)) }
{
    shared.modelled.instructions[place].ends
}

/// Whether an instruction's commit holds at a cycle.
pub fn commits(shared: &Shared<'_>, place: usize, cycle: u64) -> TermId
    requires ready { (g : Graph) × IsReady g shared.now }
    requires place { IsInstructionPlace (model_of shared.now.model.now) place }
    requires cycle { cycle ≤ length shared.now.read.now }
    ensures { (g : Graph) → IsReady g shared.now → Tells g result.0 (λ v. Shows (model_of shared.now.model.now) (mapped_of shared.now.mapped.now)
        (run_of (mapped_of shared.now.mapped.now) (length shared.now.read.now) v) (commit place cycle)) }
{
    read_at(shared, cycle, shared.mapped.instructions[place].commit)
}

/// Whether a state has at a cycle the value that an instruction gives it from the first cycle, if that leads to a state.
pub fn has_result(
    terms: &mut Terms,
    shared: &Shared<'_>,
    place: usize,
    state: StateAt<'_>,
    cycle: u64,
) -> Result<TermId, NoMemory>
    requires ready { IsReady terms.old shared.now }
    requires place { IsInstructionPlace (model_of shared.now.model.now) place }
    requires state { IsStateIn (model_of shared.now.model.now) state }
    requires cycle { cycle ≤ length shared.now.read.now }
    ensures extended { IsExtended terms.old terms.new }
    ensures told { IfOk result (λ r. Tells terms.new r.0 (λ v. Shows (model_of shared.now.model.now) (mapped_of shared.now.mapped.now)
        (run_of (mapped_of shared.now.mapped.now) (length shared.now.read.now) v) (result_of place state.entry.name.now cycle))) }
{
    let ends = does_end(shared, place);
    let wanted = shared.modelled.instructions[place].results[state.place];
    let shown = state_at(shared, state.place, cycle);
    let is_result = equal(terms, shown, wanted)?;
    let no_end = negation(terms, ends)?;
    let id = either(terms, no_end, is_result)?;
    Ok(id)
}
