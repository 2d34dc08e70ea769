//! The obligations of a model and a map as data, in order.
#![tactic(auto)]

mod claims;
mod facts;
mod groups;
pub mod laws;
mod listing;

pub use claims::{Fact, Hypotheses, MapCounts, Obligation, StateAt};
pub use facts::hypotheses;
pub use listing::{cover_names, obligations};
pub use wb_terms::NoMemory;
