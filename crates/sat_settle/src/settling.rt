//! Settling a term: its formula, the solver's answer, and the check of a refutation.

ghost use Rattle.std.specs.Prelude.{◌≡◌, ◌<◌, List, Bool, length, true, IfOk, Some};
ghost use Rattle.wb_values.specs.Value.{truth};
ghost use Rattle.model_meaning.specs.Term.{sort_of};
ghost use Rattle.wb_terms.specs.Graph.{tree};
ghost use Rattle.sat_base.specs.Formula.{Satisfies};
ghost use Rattle.sat_base.specs.Log.{Refutes};
ghost use Rattle.sat_gates.specs.Names.{is_blastable};
ghost use Rattle.sat_settle.specs.Settled.{IsSettled, IsShown};

use crate::refuting::Checked;
use sat_base::{Cnf, Log, NoMemory};
use sat_gates::{Blasted, blast, read_back};
use sat_solve::{Answer, solve};
use std::alloc::Global;
use wb_terms::{Env, TermId, Terms};

/// What is known of a term of truth sort.
#[derive(Drop)]
pub enum Settled {
    /// It is false under these values of the store's names.
    Breaks(Env),
    /// It is true under all values. The checker found that a log refutes its formula.
    Holds(Checked),
    /// The budget is spent: its formula, and as many lemmas over it as the budget allows.
    Spent(Blasted, Log),
}

/// Settles a term of truth sort with a budget of lemmas, which is above 0.
pub fn settle(alloc: Global, terms: &Terms, id: TermId, budget: u64) -> Result<Settled, NoMemory>
    requires id { id.0 < length terms.now.nodes }
    requires sort { sort_of (tree terms.now id.0) ≡ Some truth }
    requires blastable { is_blastable (tree terms.now id.0) ≡ true }
    requires budget { 0 < budget }
    ensures settled { IfOk result (IsSettled terms.now id.0 budget) }
    ensures shown { IfOk result (IsShown terms.now id.0) }
{
    let blasted = blast(alloc, terms, id)?;
    match solve(alloc, &blasted.cnf, budget)? {
        Answer::Model(assignment) => {
            let values = read_back(alloc, terms, id, &blasted, &assignment)?;
            Ok(Settled::Breaks(values))
        }
        Answer::Refuted(log) => {
            let refutation = check_refutation(alloc, blasted.cnf, log)?;
            Ok(Settled::Holds(refutation))
        }
        Answer::Spent(log) => Ok(Settled::Spent(blasted, log)),
    }
}

/// Has the checker go over a log that refutes a formula. It never finds a step that does not follow.
fn check_refutation(alloc: Global, cnf: Cnf, log: Log) -> Result<Checked, NoMemory>
    requires { Refutes cnf log }
    ensures formula { IfOk result (λ c. c.formula ≡ cnf) }
    ensures refutes { IfOk result (λ c. Refutes c.formula c.log) }
    ensures unsatisfiable { IfOk result (λ _. (a : List Bool) → ¬ Satisfies a cnf) }
{
    match Checked::new(alloc, cnf, log)? {
        Some(refutation) => Ok(refutation),
        None => unreachable!(),
    }
}
