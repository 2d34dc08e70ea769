//! Terms with constants in place of what is fixed where they are false.
#![tactic(auto)]

mod copying;
mod fixes;
mod fixing;
mod guards;
mod known;
mod nodes;

pub use fixing::with_fixed;

/// Out of memory.
pub type NoMemory = std::alloc::AllocError;
