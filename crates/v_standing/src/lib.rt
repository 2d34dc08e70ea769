//! The modules that stand in a design: its top, and those that stand below it by their names.
#![tactic(auto)]

mod below;
mod design;
mod listed;
mod named;

pub use design::standing;
