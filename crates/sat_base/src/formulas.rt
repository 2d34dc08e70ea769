//! Formulas in conjunctive normal form, and assignments to their variables.
ghost use Rattle.std.specs.Prelude.{◌≡◌, ◌<◌, ◌↔◌, IsTrue, IsOk, All, take, slice_get, Some, Bool, List, length, IfOk, IfErr, IfSome, IfNone};
ghost use Rattle.sat_base.specs.Formula.{IsClauseOver, IsFirstUnknown, value, SatisfiesClause, Satisfies};

use crate::clauses::Clause;
use crate::literals::Lit;
use std::marker::Model;

/// A formula in conjunctive normal form: clauses over the variables below `vars`. Contracts see the
/// record of `vars` and the list of the clauses. Clauses are numbered from 0.
#[derive(Debug, Drop)]
pub struct Cnf {
    vars: u64,
    clauses: Vec<Clause>,
}

impl Model for Cnf {
    ghost use Rattle.std.specs.Prelude.{All};
    ghost use Rattle.sat_base.specs.Formula.{Formula, IsClauseOver};

    ghost Value = { Formula };

    ghost view = { λ f. record { vars = f.vars; clauses = f.clauses.items } };

    ghost invariant = { λ f. All (IsClauseOver f.vars) f.clauses.items };
}

/// The clause of this number is the first with a variable that is not below the formula's `vars`.
#[derive(Clone, Copy, Debug, PartialEq, Eq)]
pub struct UnknownVariable {
    pub clause: u64,
}

impl Cnf {
    /// The formula of these clauses over the variables below `vars`. It takes no further memory. It is
    /// refused where a clause has another variable, by the number of the first such clause.
    pub fn new(vars: u64, clauses: Vec<Clause>) -> Result<Self, UnknownVariable>
        ensures ok { IfOk result (λ f. f ≡ record { vars = vars; clauses = clauses.items }) }
        ensures all_known { IsOk result ↔ All (IsClauseOver vars) clauses.items }
        ensures first_unknown { IfErr result (λ e. IsFirstUnknown vars clauses.items e.clause) }
    {
        match first_unknown(vars, clauses.as_slice()) {
            Some(clause) => Err(UnknownVariable { clause }),
            None => Ok(Cnf { vars, clauses }),
        }
    }

    /// The variables are those below this number.
    pub fn vars(&self) -> u64
        ensures { result ≡ self.now.vars }
    {
        self.vars
    }

    /// The clauses, in the order of their numbers.
    pub fn clauses(&self) -> &[Clause]
        ensures clauses { result.now ≡ self.now.clauses }
        ensures known { All (IsClauseOver self.now.vars) self.now.clauses }
    {
        self.clauses.as_slice()
    }
}

// The number of the first clause with a variable that is not below `vars`.
fn first_unknown(vars: u64, clauses: &[Clause]) -> Option<u64>
    ensures some { IfSome result (IsFirstUnknown vars clauses.now) }
    ensures none { IfNone result (All (IsClauseOver vars) clauses.now) }
{
    for (i, clause) in clauses.iter().enumerate() {
        if !is_over(vars, clause.as_slice()) {
            return Some(i as u64);
        }
    }
    None
}

// Whether each variable of the literals is below `vars`.
fn is_over(vars: u64, lits: &[Lit]) -> bool
    ensures { IsTrue result ↔ IsClauseOver vars lits.now }
{
    lits.iter().all(|lit| lit.var < vars)
}

/// Truth values for the variables from 0 on. A variable past its end is false.
#[derive(Debug, Drop)]
pub struct Assignment {
    values: Vec<bool>,
}

impl Model for Assignment {
    ghost use Rattle.std.specs.Prelude.{Bool, List};

    ghost Value = { List Bool };

    ghost view = { λ a. a.values.items };
}

impl Assignment {
    /// The assignment of these values, which takes no further memory.
    pub fn from_vec(values: Vec<bool>) -> Self
        ensures { result ≡ values.items }
    {
        Assignment { values }
    }

    /// Its values, from variable 0 on.
    pub fn as_slice(&self) -> &[bool]
        ensures { result.now ≡ self.now }
    {
        self.values.as_slice()
    }

    /// The truth value of a literal.
    pub fn value(&self, lit: Lit) -> bool
        ensures { result ≡ value self.now lit }
    {
        let positive = match self.values.get(lit.var as usize) {
            Some(value) => *value,
            None => false,
        };
        positive != lit.negative
    }

    /// Whether it satisfies the formula: whether each clause has a true literal.
    pub fn satisfies(&self, formula: &Cnf) -> bool
        ensures { IsTrue result ↔ Satisfies self.now formula.now }
    {
        for clause in formula.clauses() {
            if !self.satisfies_clause(clause.as_slice()) {
                return false;
            }
        }
        true
    }

    // Whether a literal of the clause is true.
    fn satisfies_clause(&self, lits: &[Lit]) -> bool
        ensures { IsTrue result ↔ SatisfiesClause self.now lits.now }
    {
        lits.iter().any(|lit| self.value(*lit))
    }
}
