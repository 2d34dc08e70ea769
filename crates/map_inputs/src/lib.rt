//! Which bits of a design come from inputs of its top, and which expressions use them.
#![tactic(auto)]

mod inputs;
pub mod laws;
mod uses;

pub use inputs::comes_from_inputs;
pub use uses::uses_input;
