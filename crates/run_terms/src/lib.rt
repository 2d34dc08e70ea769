//! A design unrolled over the cycles of a run: a store of terms over its first registers and its inputs at each cycle.
#![tactic(auto)]

mod leaves;
mod naming;
mod nodes;
mod unrolling;

pub use unrolling::{RunTerms, run_terms};

/// Out of memory.
pub type NoMemory = std::alloc::AllocError;
