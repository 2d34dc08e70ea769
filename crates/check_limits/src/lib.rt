//! What a check is limited by: the memory bits of a model and a design together, and the unrolled micro-steps of an instruction.
#![tactic(auto)]

mod laws;
mod limits;
mod memories;

pub use laws::{a_design_has_one_limit, registers_count_as_declared};
pub use limits::{Limit, limit_of};
