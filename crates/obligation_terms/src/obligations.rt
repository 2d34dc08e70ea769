//! Terms of obligations over a store that is ready.

ghost use Rattle.std.specs.Prelude.{◌≡◌, length, IfOk};
ghost use Rattle.refinement.specs.Map.{Map};
ghost use Rattle.term_copies.specs.Copies.{IsExtended};
ghost use Rattle.wb_values.specs.Value.{truth};
ghost use Rattle.ila_model.specs.Model.{model_of};
ghost use Rattle.mapped_designs.specs.Broken.{BreaksObligation, HasCountsOf};
ghost use Rattle.mapped_designs.specs.View.{mapped_of};
ghost use Rattle.mapped_designs.specs.Runs.{IsRestZero};
ghost use Rattle.condition_terms.specs.Told.{IsTermOf, Tells};
ghost use Rattle.obligation_lists.specs.Claims.{obligation_of};
ghost use Rattle.fact_terms.specs.Shown.{run_of};
ghost use Rattle.fact_terms.specs.Ready.{IsReady};
ghost use Rattle.obligation_terms.specs.Asked.{IsFalseWhere, IsStated};

use crate::NoMemory;
use crate::hypotheses::shows_hypotheses;
use condition_terms::{both, either, negation};
use fact_terms::{Shared, shows};
use obligation_lists::Obligation;
use std::alloc::Global;
use wb_terms::{TermId, Terms};

/// A term that is false where the obligation is broken: what does not count of the first registers is 0, its hypotheses hold, and its
/// claim does not.
pub(crate) fn put_obligation(
    alloc: Global,
    terms: &mut Terms,
    shared: &Shared<'_>,
    rest: TermId,
    obligation: &Obligation<'_>,
) -> Result<TermId, NoMemory>
    requires ready { IsReady terms.old shared.now }
    requires rest { Tells terms.old rest.0 (λ v. IsRestZero (mapped_of shared.now.mapped.now).parts
        (run_of (mapped_of shared.now.mapped.now) (length shared.now.read.now) v).first) }
    requires stated { IsStated (model_of shared.now.model.now) (mapped_of shared.now.mapped.now) obligation.now }
    requires cycles { obligation.now.cycles ≡ length shared.now.read.now }
    ensures extended { IsExtended terms.old terms.new }
    ensures term { IfOk result (λ r. IsTermOf terms.new r.0 truth) }
    ensures means { IfOk result (λ r. (p : Map) → HasCountsOf p (mapped_of shared.now.mapped.now) → p.reset_cycles ≡ (mapped_of shared.now.mapped.now).reset_cycles
        → IsFalseWhere terms.new r.0 (mapped_of shared.now.mapped.now).parts (length shared.now.read.now)
        (λ x. BreaksObligation (model_of shared.now.model.now) (mapped_of shared.now.mapped.now) x (obligation_of p obligation.now))) }
{
    let given = shows_hypotheses(alloc, terms, shared, obligation.hypotheses)?;
    let premises = both(terms, rest, given)?;
    let claim = shows(terms, shared, &obligation.claim)?;
    let outside = negation(terms, premises)?;
    let id = either(terms, outside, claim)?;
    Ok(id)
}
