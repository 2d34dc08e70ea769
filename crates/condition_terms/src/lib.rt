//! Conditions as terms: what holds of the values of a store's names, with its parts joined and turned, and whether two terms are equal.
#![tactic(auto)]

mod conditions;
mod equality;
mod nodes;
mod sorts;

pub use conditions::{both, constant, either, negation};
pub use equality::{equal, has_value};
pub use sorts::check_sorts;

/// Out of memory.
pub type NoMemory = std::alloc::AllocError;
