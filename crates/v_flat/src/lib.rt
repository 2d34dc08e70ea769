//! A design with instances in one scope: its names under names that tell the module, and its assignments, connections and blocks as one list of items.
#![tactic(auto)]

mod connection;
mod driven;
mod flat;
mod item;
pub mod laws;
mod names;
mod own;
mod tables;

pub use flat::{FlatDesign, flat_design};
pub use names::{Dotted, DottedNames, PlaceNames, numbered_names};
pub use own::items_with_outputs;
pub use tables::tables_of;
