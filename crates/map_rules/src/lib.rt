//! Which maps are refused for a model and a design, by which rule, and the map that an accepted one stands for. It has no code but
//! functions that carry laws and worked cases.
#![tactic(auto)]

pub mod laws;
pub mod worked;
