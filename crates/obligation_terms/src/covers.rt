//! Terms of covers over a store that is ready.

ghost use Rattle.std.specs.Prelude.{◌≡◌, ◌+◌, ◌<◌, ◌≤◌, ℕ, length, IfOk};
ghost use Rattle.wb_values.specs.Value.{truth};
ghost use Rattle.refinement.specs.Map.{Map};
ghost use Rattle.refinement.specs.Obligation.{running_at};
ghost use Rattle.term_copies.specs.Copies.{IsExtended};
ghost use Rattle.ila_model.specs.Model.{model_of};
ghost use Rattle.mapped_designs.specs.Broken.{HasCountsOf, IsCommandBy};
ghost use Rattle.mapped_designs.specs.View.{mapped_of};
ghost use Rattle.mapped_designs.specs.Runs.{IsRestZero, ShowsAll};
ghost use Rattle.condition_terms.specs.Told.{IsTermOf, Tells};
ghost use Rattle.obligation_lists.specs.Within.{IsInstructionPlace};
ghost use Rattle.fact_terms.specs.Shown.{run_of};
ghost use Rattle.fact_terms.specs.Ready.{IsReady};
ghost use Rattle.obligation_terms.specs.Asked.{IsFalseWhere, HasEnd};
ghost use Rattle.obligation_terms.specs.Open.{open_at};

use crate::NoMemory;
use crate::hypotheses::shows_hypotheses;
use condition_terms::{both, constant, either, negation};
use fact_terms::{Shared, assumption, commits, is_reset_active, is_start};
use obligation_lists::Hypotheses;
use std::alloc::Global;
use wb_terms::{TermId, Terms};

/// Whether a run shows the premises of a cycle, and no start at it.
fn shows_running(terms: &mut Terms, shared: &Shared<'_>, cycle: u64) -> Result<TermId, NoMemory>
    requires ready { IsReady terms.old shared.now }
    requires cycle { cycle ≤ length shared.now.read.now }
    ensures extended { IsExtended terms.old terms.new }
    ensures term { IfOk result (λ r. IsTermOf terms.new r.0 truth) }
    ensures told { IfOk result (λ r. (p : Map) → HasCountsOf p (mapped_of shared.now.mapped.now)
        → Tells terms.new r.0 (λ v. ShowsAll (model_of shared.now.model.now) (mapped_of shared.now.mapped.now)
        (run_of (mapped_of shared.now.mapped.now) (length shared.now.read.now) v) (running_at p cycle))) }
{
    let active = is_reset_active(shared, cycle);
    let mut all = negation(terms, active)?;
    for place in 0..shared.mapped.assume.len() {
        let here = assumption(shared, place, cycle);
        all = both(terms, all, here)?;
    }
    let start = is_start(shared, cycle);
    let quiet = negation(terms, start)?;
    let id = both(terms, all, quiet)?;
    Ok(id)
}

/// Whether a command of the instruction is open at a cycle, where `before` says so of the cycle before, if there is one.
fn shows_open(
    alloc: Global,
    terms: &mut Terms,
    shared: &Shared<'_>,
    instruction: usize,
    before: TermId,
    cycle: u64,
) -> Result<TermId, NoMemory>
    requires ready { IsReady terms.old shared.now }
    requires place { IsInstructionPlace (model_of shared.now.model.now) instruction }
    requires cycle { cycle ≤ length shared.now.read.now }
    requires condition { IsTermOf terms.old before.0 truth }
    requires told { (p : Map) (c : ℕ) → HasCountsOf p (mapped_of shared.now.mapped.now) → cycle ≡ c + 1
        → Tells terms.old before.0 (λ v. ShowsAll (model_of shared.now.model.now) (mapped_of shared.now.mapped.now)
        (run_of (mapped_of shared.now.mapped.now) (length shared.now.read.now) v) (open_at p instruction c)) }
    ensures extended { IsExtended terms.old terms.new }
    ensures term { IfOk result (λ r. IsTermOf terms.new r.0 truth) }
    ensures told { IfOk result (λ r. (p : Map) → HasCountsOf p (mapped_of shared.now.mapped.now)
        → Tells terms.new r.0 (λ v. ShowsAll (model_of shared.now.model.now) (mapped_of shared.now.mapped.now)
        (run_of (mapped_of shared.now.mapped.now) (length shared.now.read.now) v) (open_at p instruction cycle))) }
{
    if cycle == 0 {
        let started = Hypotheses::StartedBy(instruction);
        return shows_hypotheses(alloc, terms, shared, started);
    }
    let commit = commits(shared, instruction, cycle - 1);
    let open = negation(terms, commit)?;
    let still = both(terms, before, open)?;
    let running = shows_running(terms, shared, cycle)?;
    let id = both(terms, still, running)?;
    Ok(id)
}

/// A term that is false under a whole command of the instruction: what does not count of the first registers is 0, and the hypotheses of
/// its commit hold for some cycle below its bound. Each cycle adds to what was put for the one before, so the number of terms grows with
/// the bound in a straight line.
pub(crate) fn put_cover(
    alloc: Global,
    terms: &mut Terms,
    shared: &Shared<'_>,
    rest: TermId,
    instruction: usize,
) -> Result<TermId, NoMemory>
    requires ready { IsReady terms.old shared.now }
    requires rest { Tells terms.old rest.0 (λ v. IsRestZero (mapped_of shared.now.mapped.now).parts
        (run_of (mapped_of shared.now.mapped.now) (length shared.now.read.now) v).first) }
    requires end { HasEnd (mapped_of shared.now.mapped.now) instruction (length shared.now.read.now) }
    ensures extended { IsExtended terms.old terms.new }
    ensures term { IfOk result (λ r. IsTermOf terms.new r.0 truth) }
    ensures means { IfOk result (λ r. (p : Map) → HasCountsOf p (mapped_of shared.now.mapped.now)
        → IsFalseWhere terms.new r.0 (mapped_of shared.now.mapped.now).parts (length shared.now.read.now)
        (λ x. IsCommandBy (model_of shared.now.model.now) (mapped_of shared.now.mapped.now) p x instruction)) }
{
    let bound = shared.mapped.instructions[instruction].bound;
    let mut any = constant(terms, false)?;
    let mut open = any;
    for cycle in 0..bound {
        open = shows_open(alloc, terms, shared, instruction, open, cycle)?;
        let commit = commits(shared, instruction, cycle);
        let here = both(terms, open, commit)?;
        any = either(terms, any, here)?;
    }
    let command = both(terms, rest, any)?;
    let id = negation(terms, command)?;
    Ok(id)
}
