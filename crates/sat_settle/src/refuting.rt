//! Refutations that the checker has gone over.

ghost use Rattle.std.specs.Prelude.{◌≡◌, ◌↔◌, List, Bool, is_some, IsTrue, IfOk, IfSome};
ghost use Rattle.sat_base.specs.Formula.{Satisfies};
ghost use Rattle.sat_base.specs.Log.{Refutes};
ghost use Rattle.sat_settle.specs.Refutation.{Refutation};

use sat_base::{Cnf, Log, NoMemory};
use sat_check::{Checker, Verdict};
use std::alloc::Global;
use std::marker::Model;

/// A formula and a log of which the checker said that it refutes the formula. Nothing but `new` makes one.
#[derive(Drop)]
pub struct Checked {
    cnf: Cnf,
    log: Log,
}

impl Model for Checked {
    ghost use Rattle.sat_settle.specs.Refutation.{Refutation};

    ghost Value = { Refutation };

    ghost view = { λ c. record { formula = c.cnf; log = c.log } };
}

impl Checked {
    /// The formula and the log as a checked refutation, where the checker says that the log refutes the formula.
    pub fn new(alloc: Global, cnf: Cnf, log: Log) -> Result<Option<Checked>, NoMemory>
        ensures some { IfOk result (λ o. IsTrue (is_some o) ↔ Refutes cnf log) }
        ensures same { IfOk result (λ o. IfSome o (λ c. c ≡ record { formula = cnf; log = log })) }
        ensures refutes { IfOk result (λ o. IfSome o (λ c. Refutes c.formula c.log)) }
        ensures unsatisfiable { IfOk result (λ o. IfSome o (λ _. (a : List Bool) → ¬ Satisfies a cnf)) }
    {
        let mut checker = Checker::new(alloc, &cnf, &log)?;
        match checker.check(&cnf, &log) {
            Verdict::Yes => Ok(Some(Checked { cnf, log })),
            Verdict::No(_) => Ok(None),
        }
    }

    /// The formula that is refuted.
    pub fn cnf(&self) -> &Cnf
        ensures { result.now ≡ self.now.formula }
    {
        &self.cnf
    }

    /// The log that refutes it.
    pub fn log(&self) -> &Log
        ensures { result.now ≡ self.now.log }
    {
        &self.log
    }
}
