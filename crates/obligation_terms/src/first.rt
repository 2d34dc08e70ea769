//! What the map says of the first cycle of a run.

ghost use Rattle.std.specs.Prelude.{◌≡◌, ℕ, map, length, IfOk};
ghost use Rattle.model_meaning.specs.Model.{Model, states_of};
ghost use Rattle.term_copies.specs.Copies.{copy_of};
ghost use Rattle.ila_child.specs.State.{sorts_of_states, sorts_of_inputs};
ghost use Rattle.mapped_designs.specs.Mapped.{IsSortedFor};
ghost use Rattle.mapped_designs.specs.View.{mapped_of};
ghost use Rattle.mapped_designs.specs.Runs.{worth_at, worth_of_registers_at};
ghost use Rattle.run_terms.specs.Names.{values_of_run};
ghost use Rattle.run_terms.specs.Leaves.{AreBelow};
ghost use Rattle.run_terms.specs.Worth.{AreWorth};
ghost use Rattle.run_terms.specs.Unrolled.{IsUnrolled};

use crate::NoMemory;
use mapped_designs::MappedDesign;
use run_terms::RunTerms;
use std::alloc::Global;
use wb_terms::TermId;

/// The terms of a cycle that stand for some terms of the design.
fn terms_at(alloc: Global, row: &[TermId], ids: &[TermId]) -> Result<Vec<TermId>, NoMemory>
    requires { AreBelow (length row.now) ids.now }
    ensures { IfOk result (λ found. found.items ≡ map (copy_of row.now) ids.now) }
{
    let mut found = Vec::new(alloc);
    for id in ids {
        found.push(row[id.0])?;
    }
    Ok(found)
}

/// What the states of the model are mapped to at the first cycle.
pub(crate) fn first_states(
    alloc: Global,
    run: &RunTerms,
    mapped: &MappedDesign,
) -> Result<Vec<TermId>, NoMemory>
    requires sorted { (m : Model) × IsSortedFor m (mapped_of mapped.now) }
    requires unrolled { (n : ℕ) × IsUnrolled (mapped_of mapped.now).parts n run.now }
    ensures { IfOk result (λ ids. (m : Model) (n : ℕ) → IsSortedFor m (mapped_of mapped.now) → IsUnrolled (mapped_of mapped.now).parts n run.now
        → AreWorth run.now.terms (sorts_of_states (states_of m.top)) ids.items
        (λ v. map (worth_of_registers_at (mapped_of mapped.now).parts (values_of_run (mapped_of mapped.now).parts n v) 0) (mapped_of mapped.now).states)) }
{
    terms_at(alloc, &run.shown[0], &mapped.states)
}

/// What the inputs of the model are mapped to at the first cycle. After a run of no cycle the inputs of the design are 0.
pub(crate) fn first_inputs(
    alloc: Global,
    run: &RunTerms,
    mapped: &MappedDesign,
) -> Result<Vec<TermId>, NoMemory>
    requires sorted { (m : Model) × IsSortedFor m (mapped_of mapped.now) }
    requires unrolled { (n : ℕ) × IsUnrolled (mapped_of mapped.now).parts n run.now }
    ensures { IfOk result (λ ids. (m : Model) (n : ℕ) → IsSortedFor m (mapped_of mapped.now) → IsUnrolled (mapped_of mapped.now).parts n run.now
        → AreWorth run.now.terms (sorts_of_inputs m.inputs) ids.items
        (λ v. map (worth_at (mapped_of mapped.now).parts (values_of_run (mapped_of mapped.now).parts n v) 0) (mapped_of mapped.now).inputs)) }
{
    if run.read.is_empty() {
        terms_at(alloc, &run.shown[0], &mapped.inputs)
    } else {
        terms_at(alloc, &run.read[0], &mapped.inputs)
    }
}
