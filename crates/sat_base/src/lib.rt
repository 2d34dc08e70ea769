//! Literals, clauses, formulas, assignments and logs of lemmas, and what it is for a log to refute a formula.
#![tactic(auto)]

pub use clauses::{Clause, Hints};
pub use codes::{decode, encode};
pub use formulas::{Assignment, Cnf, UnknownVariable};
pub use literals::Lit;
pub use logs::{Lemma, Log};
pub use memory::NoMemory;

pub mod clauses;
pub mod codes;
pub mod examples;
pub mod formulas;
pub mod laws;
pub mod literals;
pub mod logs;
pub mod memory;
