//! Written maps for a model and a design, by all rules in their order: the map that one stands for, or the first rule that refuses it.
#![tactic(auto)]

mod entries;
mod expressions;
mod flags;
mod listed;
mod memories;
mod names;
mod passed;
mod places;
mod reading;

pub use reading::read_map;
