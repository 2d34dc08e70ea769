//! The registers of a Verilog module without instances, in the order of declaration, and which of their bits count: those that a clocked
//! block may assign.
#![tactic(auto)]

mod clocked;
mod groups;
mod masks;
mod once;
mod placed;
mod registers;

pub use once::first_names;
pub use registers::{Register, Split, registers_among, word_count};

/// Out of memory.
pub type NoMemory = std::alloc::AllocError;
