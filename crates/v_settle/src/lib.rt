//! The nets of a Verilog module evaluated to terms: what each name has in the settled valuation.
#![tactic(auto)]

mod copy;
mod driver;
pub mod laws;
mod module;
mod reading;
mod span;
mod turn;
mod width;
mod writing;

pub use module::settle;

/// Out of memory.
pub type NoMemory = std::alloc::AllocError;
