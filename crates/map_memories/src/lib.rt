//! The rule on memories of written maps: whether each memory of a model is mapped to one of its shape, and where first it is not.
#![tactic(auto)]

mod assigned;
mod kept;
mod memories;
mod mismatch;

pub use mismatch::memory_mismatch;

/// Out of memory.
pub type NoMemory = std::alloc::AllocError;
