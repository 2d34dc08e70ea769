//! Laws on designs whose sources are trees of texts.
#![tactic(auto)]

pub mod laws;
