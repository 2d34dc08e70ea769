//! From the tree of a Verilog source to the design that it is: its top and all modules below it, elaborated in one scope.
#![tactic(auto)]

mod declaring;
mod design;
mod elements;
mod flat;
mod keeping;
mod memory;
mod naming;
mod parts;
mod ports;
mod settled;
mod source;
mod start;
mod tables;
mod told;

pub use source::{Elaborated, elaborate};
pub use v_design::Design;
pub use v_judged::DesignKind;

/// Out of memory.
pub type NoMemory = std::alloc::AllocError;
