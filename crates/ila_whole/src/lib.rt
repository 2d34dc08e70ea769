//! The model as a whole that a model file as it is written stands for.
#![tactic(auto)]

mod building;
mod whole;

pub use whole::whole_model;
