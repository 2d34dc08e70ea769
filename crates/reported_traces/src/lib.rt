//! Laws on traces that a check prints, replayed with the same files. It has no code that runs.
#![tactic(auto)]

pub mod laws;
