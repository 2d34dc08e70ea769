//! Hypotheses of obligations.

ghost use Rattle.std.specs.Prelude.{◌≡◌, [], length, IfOk};
ghost use Rattle.wb_values.specs.Value.{truth};
ghost use Rattle.refinement.specs.Map.{Map};
ghost use Rattle.term_copies.specs.Copies.{IsExtended};
ghost use Rattle.ila_model.specs.Model.{model_of};
ghost use Rattle.mapped_designs.specs.Broken.{HasCountsOf};
ghost use Rattle.mapped_designs.specs.View.{mapped_of};
ghost use Rattle.mapped_designs.specs.Runs.{ShowsAll};
ghost use Rattle.condition_terms.specs.Told.{IsTermOf, Tells};
ghost use Rattle.obligation_lists.specs.Claims.{hypotheses_of};
ghost use Rattle.obligation_lists.specs.Within.{AreHypothesesOf};
ghost use Rattle.obligation_lists.specs.declared.claims.MapCounts.{MapCounts as Counts};
ghost use Rattle.fact_terms.specs.Asked.{AreCountsIn};
ghost use Rattle.fact_terms.specs.Shown.{run_of};
ghost use Rattle.fact_terms.specs.Ready.{IsReady};

use crate::NoMemory;
use crate::together::shows_all;
use fact_terms::Shared;
use obligation_lists::{Hypotheses, MapCounts, hypotheses};
use std::alloc::Global;
use wb_terms::{TermId, Terms};

/// Whether a run shows hypotheses.
pub(crate) fn shows_hypotheses(
    alloc: Global,
    terms: &mut Terms,
    shared: &Shared<'_>,
    given: Hypotheses,
) -> Result<TermId, NoMemory>
    requires ready { IsReady terms.old shared.now }
    requires told { (counts : Counts) × AreCountsIn (mapped_of shared.now.mapped.now) counts
        × AreHypothesesOf (model_of shared.now.model.now) counts (length shared.now.read.now) given }
    ensures extended { IsExtended terms.old terms.new }
    ensures term { IfOk result (λ r. IsTermOf terms.new r.0 truth) }
    ensures told { IfOk result (λ r. (p : Map) → HasCountsOf p (mapped_of shared.now.mapped.now) → p.reset_cycles ≡ (mapped_of shared.now.mapped.now).reset_cycles
        → Tells terms.new r.0 (λ v. ShowsAll (model_of shared.now.model.now) (mapped_of shared.now.mapped.now)
        (run_of (mapped_of shared.now.mapped.now) (length shared.now.read.now) v) (hypotheses_of p given))) }
{
    let counts = MapCounts {
        reset_cycles: shared.mapped.reset_cycles,
        assume: shared.mapped.assume.len(),
        invariants: shared.mapped.invariants.len(),
        bounds: &[],
    };
    let facts = hypotheses(alloc, counts, given)?;
    let id = shows_all(terms, shared, &facts)?;
    Ok(id)
}
