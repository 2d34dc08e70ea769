//! Refinement maps, runs, refinement, and the obligations that give it. The functions have no code: each carries worked values.
#![tactic(auto)]

pub mod laws;
