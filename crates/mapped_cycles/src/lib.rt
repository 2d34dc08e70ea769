//! What a simulated design shows of a map: the map's conditions, and what the states and inputs of a model are mapped to, in the
//! last cycle.
#![tactic(auto)]

mod reading;

pub use reading::{holds_in, mapped_inputs, mapped_state};
pub use wb_terms::NoMemory;
