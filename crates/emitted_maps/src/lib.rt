//! Maps of emitted designs as text, and within how many cycles the instructions of emitted designs end.
#![tactic(auto)]

mod bounds;
mod names;
mod text;

pub use bounds::{greatest_bound, has_children, instruction_bound, nesting_of};
pub use names::NoMemory;
pub use text::map_text;
