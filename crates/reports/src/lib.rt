//! Formulas about runs, traces, and what each line of a report claims. The functions have no code: they carry the laws.
#![tactic(auto)]

pub mod laws;
