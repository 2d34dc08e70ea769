//! That the obligations of a map give refinement of every run, and keep the invariants. The functions have no code: they carry the laws.
#![tactic(auto)]

pub mod laws;
