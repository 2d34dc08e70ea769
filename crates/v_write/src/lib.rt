//! Lowers assignments and statements of a Verilog module to terms: what each name is worth after them.
#![tactic(auto)]

mod block;
mod changing;
mod choosing;
pub mod laws;
mod part;
mod preparing;
mod reading;
mod statement;
mod writing;

pub use block::{lower_statement, write_target};

/// Out of memory.
pub type NoMemory = std::alloc::AllocError;
