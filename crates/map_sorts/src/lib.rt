//! The sorts of a model's states and inputs, by their names.
#![tactic(auto)]

mod sorts;

pub use sorts::ModelSorts;
