//! The emitted modules of models. The functions have no code.
#![tactic(auto)]

pub mod laws;
