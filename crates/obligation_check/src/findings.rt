//! What is found of a term of a run's store.

ghost use Rattle.std.specs.Prelude.{◌≡◌, ◌<◌, length, IfOk, Some};
ghost use Rattle.wb_values.specs.Value.{truth};
ghost use Rattle.model_meaning.specs.Term.{sort_of};
ghost use Rattle.wb_terms.specs.Graph.{tree};
ghost use Rattle.v_design.specs.Seen.{parts_of};
ghost use Rattle.run_terms.specs.Names.{names_of_run};
ghost use Rattle.obligation_check.specs.Found.{IsFinding};

use crate::NoMemory;
use crate::values::{RunValues, run_values};
use ob_mem::expand;
use sat_base::Log;
use sat_gates::Blasted;
use sat_settle::{Settled, settle};
use std::alloc::{AllocError, Global};
use v_design::Design;
use wb_terms::{TermId, Terms};

/// What shows that a budget was spent.
#[derive(Drop)]
pub struct Spent {
    /// The formula of a claim, and the variables of its names.
    pub formula: Blasted,
    /// As many lemmas over it as the budget allows.
    pub log: Log,
    /// Of how many cycles the claim speaks.
    pub cycles: u64,
}

/// What is found of a claim about the first registers and the inputs of a run.
#[derive(Drop)]
pub enum Finding {
    /// It holds for all values: a checked log refutes its formula.
    Holds,
    /// It breaks under these values.
    Breaks(RunValues),
    /// The budget is spent.
    Spent(Spent),
}

/// What is found of a term of truth sort in the store of a run of so many cycles, with a budget of lemmas above 0.
pub(crate) fn find(
    alloc: Global,
    design: &Design,
    cycles: u64,
    terms: &Terms,
    id: TermId,
    budget: u64,
) -> Result<Finding, NoMemory>
    requires names { terms.now.names ≡ names_of_run (parts_of design.now) cycles }
    requires id { id.0 < length terms.now.nodes }
    requires sort { sort_of (tree terms.now id.0) ≡ Some truth }
    requires budget { 0 < budget }
    ensures found { IfOk result (IsFinding (parts_of design.now) cycles terms.now id.0 budget) }
{
    let expanded = expand(alloc, terms, id)?;
    let _names = expanded.terms.name_count();
    match settle(alloc, &expanded.terms, expanded.goal, budget) {
        Ok(Settled::Holds(_)) => Ok(Finding::Holds),
        Ok(Settled::Breaks(values)) => {
            let registers = design.register_count();
            let inputs = design.input_count();
            let values = run_values(alloc, terms, &values, registers, inputs, cycles)?;
            Ok(Finding::Breaks(values))
        }
        Ok(Settled::Spent(formula, log)) => Ok(Finding::Spent(Spent {
            formula,
            log,
            cycles,
        })),
        Err(_) => Err(AllocError),
    }
}
