//! Laws on designs that have settled. The functions have no code: each carries one law.
#![tactic(auto)]

pub mod laws;
