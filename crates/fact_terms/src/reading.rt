//! Terms of the design at a cycle.

ghost use Rattle.std.specs.Prelude.{◌<◌, ◌≤◌, length, IsTrue};
ghost use Rattle.wb_values.specs.Value.{Sort};
ghost use Rattle.wb_terms.specs.Graph.{Graph};
ghost use Rattle.v_design.specs.Parts.{is_term_of};
ghost use Rattle.mapped_designs.specs.View.{mapped_of};
ghost use Rattle.mapped_designs.specs.Runs.{worth_at, worth_of_registers_at};
ghost use Rattle.fact_terms.specs.Shown.{run_of};
ghost use Rattle.fact_terms.specs.Ready.{IsShown, IsReady};

use crate::shared::Shared;
use wb_terms::TermId;

/// The term of what a term of the design is worth at a cycle. At the one after the last the inputs are 0.
pub fn read_at(shared: &Shared<'_>, cycle: u64, id: TermId) -> TermId
    requires ready { (g : Graph) × IsReady g shared.now }
    requires cycle { cycle ≤ length shared.now.read.now }
    requires id { id.0 < length shared.now.mapped.now.design.terms.nodes }
    ensures { (g : Graph) (s : Sort) → IsReady g shared.now → IsTrue (is_term_of shared.now.mapped.now.design.terms s id.0)
        → IsShown g result.0 s (λ v. worth_at (mapped_of shared.now.mapped.now).parts (run_of (mapped_of shared.now.mapped.now) (length shared.now.read.now) v) cycle id.0) }
{
    let place = cycle as usize;
    if place < shared.read.len() {
        shared.read[place][id.0]
    } else {
        shared.shown[place][id.0]
    }
}

/// The term of what a term of the design is worth at a cycle with inputs that are 0.
pub fn shown_at(shared: &Shared<'_>, cycle: u64, id: TermId) -> TermId
    requires ready { (g : Graph) × IsReady g shared.now }
    requires cycle { cycle ≤ length shared.now.read.now }
    requires id { id.0 < length shared.now.mapped.now.design.terms.nodes }
    ensures { (g : Graph) (s : Sort) → IsReady g shared.now → IsTrue (is_term_of shared.now.mapped.now.design.terms s id.0)
        → IsShown g result.0 s (λ v. worth_of_registers_at (mapped_of shared.now.mapped.now).parts (run_of (mapped_of shared.now.mapped.now) (length shared.now.read.now) v) cycle id.0) }
{
    let place = cycle as usize;
    shared.shown[place][id.0]
}
