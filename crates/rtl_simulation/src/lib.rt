//! What a design of Verilog trees does under a script.
#![tactic(auto)]

mod simulation;

pub use simulation::{RtlSimulation, simulated_rtl};
