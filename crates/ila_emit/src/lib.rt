//! The emitted design of a model, with its map, as texts: for models without child programs.
#![tactic(auto)]

mod emission;
mod stop;

pub use emission::{Emitted, emit};
pub use stop::EmitStop;
