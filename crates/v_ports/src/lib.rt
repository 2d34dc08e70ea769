//! What is refused of the ports of a module (IEEE 1364-2005, 12.3).
#![tactic(auto)]

mod ports;
mod ranges;

pub use ports::has_bad_port;
