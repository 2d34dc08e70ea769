//! A solver for formulas in conjunctive normal form: it finds a model, or a log that refutes the
//! formula, or a log of as many new lemmas as its budget allows.
#![tactic(auto)]

pub use solver::{Answer, solve};

mod arena;
mod clauses;
mod learning;
mod lists;
mod marks;
mod minimizing;
mod order;
mod pace;
mod pairs;
mod solver;
mod trail;
mod walk;
mod watches;
