//! Laws on designs that scripts are run on. The functions have no code: each carries a law.
#![tactic(auto)]

pub mod laws;
