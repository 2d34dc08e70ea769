//! What models mean: terms, instructions and child programs. The functions have no code: each carries a law.
#![tactic(auto)]

pub mod laws;
