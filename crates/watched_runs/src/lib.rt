//! What is said of a run that is watched beside its model: it agrees, it leaves the premises, or it disagrees. It has no code that runs.
#![tactic(auto)]

pub mod laws;
