//! Laws on rules that rest on constants alone. The functions have no code: each carries laws.
#![tactic(auto)]

pub mod laws;
