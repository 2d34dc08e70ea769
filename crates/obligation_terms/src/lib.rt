//! Obligations and covers of a model and a design with a map, as terms over the first registers and the inputs of a run.
#![tactic(auto)]

mod covers;
mod first;
mod hypotheses;
mod nodes;
mod obligations;
mod rest;
mod terms;
mod together;

pub use terms::ObligationTerms;

/// Out of memory.
pub type NoMemory = std::alloc::AllocError;
