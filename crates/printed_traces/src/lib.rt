//! Laws on traces that are printed and read back. It has no code that runs.
#![tactic(auto)]

pub mod laws;
