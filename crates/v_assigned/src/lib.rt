//! Names that are assigned where they may not be: wires in blocks, variables by continuous assignments, input ports, parameters.
#![tactic(auto)]

mod item;
pub mod laws;
mod name;
mod statement;
mod target;

pub use item::has_bad_name;
