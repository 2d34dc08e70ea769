//! The checker: which step of a log, if any, keeps it from refuting the formula.
ghost use Rattle.std.specs.Prelude.{◌≡◌, ℕ, ◌<◌, ◌↔◌, List, [], Bool, length, take, slice_index_or, IsTrue, IfOk};
ghost use Rattle.sat_base.specs.Formula.{Satisfies};
ghost use Rattle.sat_base.specs.Propagation.{Follows};
ghost use Rattle.sat_base.specs.Log.{Refutes};
ghost use Rattle.sat_check.specs.Verdict.{numbered_clauses, StopsAt};

use crate::arena::Arena;
use crate::marks::Marks;
use crate::{numbering, walk};
use sat_base::{Cnf, Log, NoMemory};
use std::alloc::Global;
use std::marker::Model;

/// What a checker says of a log.
#[derive(Clone, Copy, Debug, PartialEq, Eq)]
pub enum Verdict {
    /// The log refutes the formula.
    Yes,
    /// Step `k` is the first that does not follow, and no step before it is empty; or all steps follow,
    /// none is empty, and `k` is the log's length.
    No(u64),
}

/// A checker, made for a formula and a log, with all the memory that it needs for them. Contracts see
/// the list of the clauses by their numbers: the formula's from 0, and then the lemmas.
#[derive(Drop)]
pub struct Checker {
    variables: Vec<u64>,
    clauses: Arena,
    marks: Marks,
}

impl Model for Checker {
    ghost use Rattle.std.specs.Prelude.{List, map};
    ghost use Rattle.sat_base.specs.declared.literals.Lit.{Lit};
    ghost use Rattle.sat_check.specs.Numbering.{literal_at};
    ghost use Rattle.sat_check.specs.Checker.{IsReady};

    ghost Value = { List (List Lit) };

    ghost view = { λ c. map (map (literal_at c.variables.items)) c.clauses };

    ghost invariant = { λ c. IsReady c.variables.items c.clauses c.marks };
}

impl Checker {
    /// The checker for this formula and this log. It takes all the memory that checking needs.
    pub fn new(alloc: Global, formula: &Cnf, log: &Log) -> Result<Self, NoMemory>
        ensures { IfOk result (λ checker. checker ≡ numbered_clauses formula.now log.now) }
    {
        let clauses = formula.clauses();
        let variables = numbering::variables_of(alloc, clauses, log)?;
        // Literals have numbers of 32 bits. More than 2^31 variables take more than 16 GiB.
        if variables.len() > 1 << 31 {
            return Err(NoMemory);
        }
        let mut arena = Arena::new(alloc);
        numbering::add_clauses(alloc, variables.as_slice(), clauses, &mut arena)?;
        numbering::add_lemmas(alloc, variables.as_slice(), log, &mut arena)?;
        let marks = Marks::new(alloc, 2 * variables.len())?;
        Ok(Checker {
            variables,
            clauses: arena,
            marks,
        })
    }

    /// Whether the log refutes the formula, and where it stops if it doesn't. Steps after the first
    /// empty one are not looked at. It takes no memory. The time is linear in the literals of the steps
    /// and of the clauses that their hints name.
    pub fn check(&mut self, formula: &Cnf, log: &Log) -> Verdict
        requires { self.old ≡ numbered_clauses formula.now log.now }
        ensures yes { (result ≡ Verdict.Yes) ↔ Refutes formula.now log.now }
        ensures no { (k : ℕ) → (result ≡ Verdict.No k) ↔ StopsAt formula.now log.now k }
        ensures unsatisfiable { result ≡ Verdict.Yes → (a : List Bool) → ¬ Satisfies a formula.now }
        ensures kept { self.new ≡ self.old }
    {
        let first = formula.clauses().len();
        // That there are so many clauses tells the proof that their numbers fit.
        let _ = self.count();
        for k in 0..log.len() {
            if !self.follows(first + k, log.hints(k)) {
                return Verdict::No(k as u64);
            }
            if log.codes(k).is_empty() {
                return Verdict::Yes;
            }
        }
        Verdict::No(log.len() as u64)
    }

    // How many clauses it has, the lemmas among them.
    fn count(&self) -> usize
        ensures { result ≡ length self.now }
    {
        self.clauses.len()
    }

    // Whether the clause of this number follows by the hints from the clauses before it.
    fn follows(&mut self, number: usize, hints: &[u32]) -> bool
        requires { number < length self.old }
        ensures decides { IsTrue result ↔ Follows (take number self.old) (slice_index_or self.old number []) hints.now }
        ensures kept { self.new ≡ self.old }
    {
        walk::mark_all(&mut self.marks, self.clauses.list(number));
        let holds = walk::leads_to_conflict(&self.clauses, &mut self.marks, number, hints);
        self.marks.clear();
        holds
    }
}
