//! Facts of a run: whether it shows them.

ghost use Rattle.std.specs.Prelude.{◌<◌, ◌≤◌, length, IfOk};
ghost use Rattle.refinement.specs.Obligation.{reset_active, reset_inactive, assumed, invariant, start, no_start, no_commit, one_decodes, never};
ghost use Rattle.wb_terms.specs.Graph.{Graph};
ghost use Rattle.term_copies.specs.Copies.{IsExtended};
ghost use Rattle.ila_model.specs.Model.{model_of};
ghost use Rattle.mapped_designs.specs.View.{mapped_of};
ghost use Rattle.mapped_designs.specs.Runs.{Shows};
ghost use Rattle.condition_terms.specs.Told.{Tells};
ghost use Rattle.obligation_lists.specs.Claims.{fact_of};
ghost use Rattle.obligation_lists.specs.Within.{IsInstructionPlace};
ghost use Rattle.fact_terms.specs.Shown.{run_of};
ghost use Rattle.fact_terms.specs.Ready.{IsReady};
ghost use Rattle.fact_terms.specs.Asked.{IsTold};

use crate::NoMemory;
use crate::instructions::{commits, decodes, does_end, has_result};
use crate::reading::{read_at, shown_at};
use crate::shared::Shared;
use crate::states::{has_initial, is_same};
use condition_terms::{constant, negation};
use obligation_lists::Fact;
use wb_terms::{TermId, Terms};

/// Whether reset is active at a cycle.
pub fn is_reset_active(shared: &Shared<'_>, cycle: u64) -> TermId
    requires ready { (g : Graph) × IsReady g shared.now }
    requires cycle { cycle ≤ length shared.now.read.now }
    ensures { (g : Graph) → IsReady g shared.now → Tells g result.0 (λ v. Shows (model_of shared.now.model.now) (mapped_of shared.now.mapped.now)
        (run_of (mapped_of shared.now.mapped.now) (length shared.now.read.now) v) (reset_active cycle)) }
{
    read_at(shared, cycle, shared.mapped.reset)
}

/// Whether a command starts at a cycle.
pub fn is_start(shared: &Shared<'_>, cycle: u64) -> TermId
    requires ready { (g : Graph) × IsReady g shared.now }
    requires cycle { cycle ≤ length shared.now.read.now }
    ensures { (g : Graph) → IsReady g shared.now → Tells g result.0 (λ v. Shows (model_of shared.now.model.now) (mapped_of shared.now.mapped.now)
        (run_of (mapped_of shared.now.mapped.now) (length shared.now.read.now) v) (start cycle)) }
{
    read_at(shared, cycle, shared.mapped.start)
}

/// Whether an assumption of the map holds at a cycle.
pub fn assumption(shared: &Shared<'_>, place: usize, cycle: u64) -> TermId
    requires ready { (g : Graph) × IsReady g shared.now }
    requires place { place < length (mapped_of shared.now.mapped.now).assume }
    requires cycle { cycle ≤ length shared.now.read.now }
    ensures { (g : Graph) → IsReady g shared.now → Tells g result.0 (λ v. Shows (model_of shared.now.model.now) (mapped_of shared.now.mapped.now)
        (run_of (mapped_of shared.now.mapped.now) (length shared.now.read.now) v) (assumed place cycle)) }
{
    read_at(shared, cycle, shared.mapped.assume[place])
}

/// Whether an invariant of the map holds at a cycle.
pub fn holds_invariant(shared: &Shared<'_>, place: usize, cycle: u64) -> TermId
    requires ready { (g : Graph) × IsReady g shared.now }
    requires place { place < length (mapped_of shared.now.mapped.now).invariants }
    requires cycle { cycle ≤ length shared.now.read.now }
    ensures { (g : Graph) → IsReady g shared.now → Tells g result.0 (λ v. Shows (model_of shared.now.model.now) (mapped_of shared.now.mapped.now)
        (run_of (mapped_of shared.now.mapped.now) (length shared.now.read.now) v) (invariant place cycle)) }
{
    shown_at(shared, cycle, shared.mapped.invariants[place])
}

/// Whether the model is valid and exactly one instruction decodes at the first cycle.
pub fn one_decodes_there(shared: &Shared<'_>) -> TermId
    requires ready { (g : Graph) × IsReady g shared.now }
    ensures { (g : Graph) → IsReady g shared.now → Tells g result.0 (λ v. Shows (model_of shared.now.model.now) (mapped_of shared.now.mapped.now)
        (run_of (mapped_of shared.now.mapped.now) (length shared.now.read.now) v) (one_decodes)) }
{
    shared.modelled.started
}

/// Whether reset is inactive at a cycle.
fn is_reset_inactive(terms: &mut Terms, shared: &Shared<'_>, cycle: u64) -> Result<TermId, NoMemory>
    requires ready { IsReady terms.old shared.now }
    requires cycle { cycle ≤ length shared.now.read.now }
    ensures extended { IsExtended terms.old terms.new }
    ensures told { IfOk result (λ r. Tells terms.new r.0 (λ v. Shows (model_of shared.now.model.now) (mapped_of shared.now.mapped.now)
        (run_of (mapped_of shared.now.mapped.now) (length shared.now.read.now) v) (reset_inactive cycle))) }
{
    let active = is_reset_active(shared, cycle);
    let id = negation(terms, active)?;
    Ok(id)
}

/// Whether no command starts at a cycle.
fn is_no_start(terms: &mut Terms, shared: &Shared<'_>, cycle: u64) -> Result<TermId, NoMemory>
    requires ready { IsReady terms.old shared.now }
    requires cycle { cycle ≤ length shared.now.read.now }
    ensures extended { IsExtended terms.old terms.new }
    ensures told { IfOk result (λ r. Tells terms.new r.0 (λ v. Shows (model_of shared.now.model.now) (mapped_of shared.now.mapped.now)
        (run_of (mapped_of shared.now.mapped.now) (length shared.now.read.now) v) (no_start cycle))) }
{
    let start = is_start(shared, cycle);
    let id = negation(terms, start)?;
    Ok(id)
}

/// Whether an instruction's commit does not hold at a cycle.
fn is_no_commit(
    terms: &mut Terms,
    shared: &Shared<'_>,
    place: usize,
    cycle: u64,
) -> Result<TermId, NoMemory>
    requires ready { IsReady terms.old shared.now }
    requires place { IsInstructionPlace (model_of shared.now.model.now) place }
    requires cycle { cycle ≤ length shared.now.read.now }
    ensures extended { IsExtended terms.old terms.new }
    ensures told { IfOk result (λ r. Tells terms.new r.0 (λ v. Shows (model_of shared.now.model.now) (mapped_of shared.now.mapped.now)
        (run_of (mapped_of shared.now.mapped.now) (length shared.now.read.now) v) (no_commit place cycle))) }
{
    let commit = commits(shared, place, cycle);
    let id = negation(terms, commit)?;
    Ok(id)
}

/// What never holds.
fn is_never(terms: &mut Terms, shared: &Shared<'_>) -> Result<TermId, NoMemory>
    requires ready { IsReady terms.old shared.now }
    ensures extended { IsExtended terms.old terms.new }
    ensures told { IfOk result (λ r. Tells terms.new r.0 (λ v. Shows (model_of shared.now.model.now) (mapped_of shared.now.mapped.now)
        (run_of (mapped_of shared.now.mapped.now) (length shared.now.read.now) v) (never))) }
{
    let id = constant(terms, false)?;
    Ok(id)
}

/// Whether a run shows a fact.
pub fn shows(terms: &mut Terms, shared: &Shared<'_>, fact: &Fact<'_>) -> Result<TermId, NoMemory>
    requires ready { IsReady terms.old shared.now }
    requires told { IsTold (model_of shared.now.model.now) (mapped_of shared.now.mapped.now) (length shared.now.read.now) fact.now }
    ensures extended { IsExtended terms.old terms.new }
    ensures told { IfOk result (λ r. Tells terms.new r.0 (λ v. Shows (model_of shared.now.model.now) (mapped_of shared.now.mapped.now)
        (run_of (mapped_of shared.now.mapped.now) (length shared.now.read.now) v) (fact_of fact.now))) }
{
    match fact {
        Fact::ResetActive(cycle) => Ok(is_reset_active(shared, *cycle)),
        Fact::ResetInactive(cycle) => is_reset_inactive(terms, shared, *cycle),
        Fact::Assumed(place, cycle) => Ok(assumption(shared, *place, *cycle)),
        Fact::Invariant(place, cycle) => Ok(holds_invariant(shared, *place, *cycle)),
        Fact::Start(cycle) => Ok(is_start(shared, *cycle)),
        Fact::NoStart(cycle) => is_no_start(terms, shared, *cycle),
        Fact::Decoded(place) => Ok(decodes(shared, *place)),
        Fact::Commit(place, cycle) => Ok(commits(shared, *place, *cycle)),
        Fact::NoCommit(place, cycle) => is_no_commit(terms, shared, *place, *cycle),
        Fact::Initial(state, cycle) => has_initial(terms, shared, *state, *cycle),
        Fact::Same(state) => is_same(terms, shared, *state),
        Fact::OneDecodes => Ok(one_decodes_there(shared)),
        Fact::Ends(place) => Ok(does_end(shared, *place)),
        Fact::ResultOf(place, state, cycle) => has_result(terms, shared, *place, *state, *cycle),
        Fact::Never => is_never(terms, shared),
    }
}
