//! Facts of a run of a design with a map, judged on values: the run is simulated once, and each fact is read off what was noted.
#![tactic(auto)]

mod bits;
mod conditions;
mod facts;
mod given;
mod instructions;
mod rows;
mod running;
mod seen;
mod shown;
mod states;

pub use facts::is_shown;
pub use given::Given;
pub use shown::{Shown, show};
pub use wb_terms::NoMemory;
