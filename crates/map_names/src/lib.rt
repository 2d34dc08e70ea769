//! The rules on names and bounds of written maps: whether a map breaks them for a model, and where first.
#![tactic(auto)]

mod bounds;
mod listed;
mod mapped;
mod named;
mod sets;

pub use bounds::bad_bound;
pub use mapped::{unknown_input, unknown_state, unmapped_input, unmapped_state};
pub use named::{missing_bound, unknown_instruction};
