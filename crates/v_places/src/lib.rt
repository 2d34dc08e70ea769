//! The modules that stand in a design, each with its parent and with those of its parameters that have values (IEEE 1364-2005, 12.1, 12.2
//! and 12.5).
#![tactic(auto)]

mod below;
pub mod laws;
mod modules;
mod place;
mod queue;
mod walk;

pub use place::Place;
pub use walk::places;
