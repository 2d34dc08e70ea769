//! What a map that no rule refuses keeps. The functions have no code: each carries a law.
#![tactic(auto)]

pub mod laws;
