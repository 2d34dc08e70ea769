//! The maps of emitted designs over emitted modules, as the contracts of functions without code.
#![tactic(auto)]

pub mod laws;
