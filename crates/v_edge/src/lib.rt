//! The clocked blocks of a module lowered to terms: what its registers hold after the clock's edge.
#![tactic(auto)]

mod edge;

pub use edge::lower_edge;

/// Out of memory.
pub type NoMemory = std::alloc::AllocError;
