//! What the files of a check stand for, and the first kind that refuses them. It has no code but functions that carry laws.
#![tactic(auto)]

pub mod laws;
