//! What the emitted design of a model and its map are. The functions have no code: each carries a law.
#![tactic(auto)]

pub mod laws;
