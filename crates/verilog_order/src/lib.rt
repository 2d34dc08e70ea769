//! Laws on designs whose drivers are evaluated one after the other. The functions have no code: each carries laws.
#![tactic(auto)]

pub mod laws;
