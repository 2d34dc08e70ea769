//! A checker of logs: whether each lemma follows by its hints, and whether the log refutes the formula.
#![tactic(auto)]

pub use checker::{Checker, Verdict};

mod arena;
pub mod checker;
mod marks;
mod numbering;
mod walk;
