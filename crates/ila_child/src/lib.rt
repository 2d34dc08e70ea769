//! One step of an instruction-level model: its states and inputs as values, and what the model does at them.
#![tactic(auto)]

mod applying;
mod decoding;
mod evaluation;
mod running;
mod runs;
mod states;
mod stepping;
mod updating;
mod values;

pub use applying::{Applied, apply};
pub use evaluation::{holds, term_value};
pub use runs::{Moved, Runner};
pub use states::{Inputs, State, initial_state};
pub use stepping::{Stepped, step};
