//! Laws on runs that are watched beside a model, cycle by cycle. It has no code that runs.
#![tactic(auto)]

pub mod laws;
