//! Facts that hold together.

ghost use Rattle.std.specs.Prelude.{length, map, IfOk};
ghost use Rattle.term_copies.specs.Copies.{IsExtended};
ghost use Rattle.ila_model.specs.Model.{model_of};
ghost use Rattle.mapped_designs.specs.View.{mapped_of};
ghost use Rattle.mapped_designs.specs.Runs.{ShowsAll};
ghost use Rattle.condition_terms.specs.Told.{Tells};
ghost use Rattle.obligation_lists.specs.Claims.{fact_of};
ghost use Rattle.fact_terms.specs.Shown.{run_of};
ghost use Rattle.fact_terms.specs.Ready.{IsReady};
ghost use Rattle.fact_terms.specs.Asked.{AreTold};

use crate::NoMemory;
use condition_terms::{both, constant};
use fact_terms::{Shared, shows};
use obligation_lists::Fact;
use wb_terms::{TermId, Terms};

/// Whether a run shows all of some facts.
pub(crate) fn shows_all(
    terms: &mut Terms,
    shared: &Shared<'_>,
    facts: &[Fact<'_>],
) -> Result<TermId, NoMemory>
    requires ready { IsReady terms.old shared.now }
    requires told { AreTold (model_of shared.now.model.now) (mapped_of shared.now.mapped.now) (length shared.now.read.now) facts.now }
    ensures extended { IsExtended terms.old terms.new }
    ensures told { IfOk result (λ r. Tells terms.new r.0 (λ v. ShowsAll (model_of shared.now.model.now) (mapped_of shared.now.mapped.now)
        (run_of (mapped_of shared.now.mapped.now) (length shared.now.read.now) v) (map fact_of facts.now))) }
{
    let mut all = constant(terms, true)?;
    for place in 0..facts.len() {
        let fact = &facts[place];
        let here = shows(terms, shared, fact)?;
        all = both(terms, all, here)?;
    }
    Ok(all)
}
