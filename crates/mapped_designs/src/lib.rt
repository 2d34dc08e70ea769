//! A design together with a refinement map, as terms of one store, and what these show in the cycles of a run.
#![tactic(auto)]

mod design;

pub use design::{MappedDesign, MappedInstruction};
