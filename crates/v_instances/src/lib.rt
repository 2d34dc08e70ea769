//! Instances and parameters of a module: which connections do not fit the module below, and which of the rules on expressions the
//! overrides, the connections and the parameters break.
#![tactic(auto)]

mod connection;
pub mod interface;
pub mod laws;
pub mod listing;
mod output;
mod parameter;
mod ports;
mod rules;
mod shape;

pub use ports::has_bad_instance;
pub use rules::{instances_rules, parameters_rules};
