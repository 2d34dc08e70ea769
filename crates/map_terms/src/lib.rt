//! The expressions of a refinement map as terms over a design.
#![tactic(auto)]

mod ends;
mod mapping;
mod places;
mod reset;
mod states;
mod terms;

pub use mapping::map_terms;

/// Out of memory.
pub type NoMemory = std::alloc::AllocError;
