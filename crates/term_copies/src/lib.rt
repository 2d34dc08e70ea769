//! Copies of the terms of a store in another one, with terms in place of names: a design or a model at a cycle of a run.
#![tactic(auto)]

mod copies;
mod nodes;

pub use copies::put_copies;

/// Out of memory.
pub type NoMemory = std::alloc::AllocError;
