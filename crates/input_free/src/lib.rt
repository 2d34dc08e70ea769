//! What uses no input is worth the same whatever the inputs are: bits, expressions of a map, and the terms that are mapped to states and
//! invariants. The functions have no code: they carry the laws.
#![tactic(auto)]

pub mod laws;
