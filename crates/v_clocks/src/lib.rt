//! The clock nets of all modules of a design, and whether one stands elsewhere than as an event or as the whole of what is connected to an
//! input (IEEE 1364-2005, 9.7, 12.3.9).
#![tactic(auto)]

mod connected;
mod data;
mod expression;
mod nets;
mod uses;
mod whole;

pub use data::has_clock_as_data;
pub use nets::clock_nets;
