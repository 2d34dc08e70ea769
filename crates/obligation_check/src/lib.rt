//! What is found of each obligation and each cover of a design with a map: which hold, which break and by what values, and where the budget is spent.
#![tactic(auto)]

mod deciding;
mod findings;
mod values;

pub use deciding::{Found, decide};
pub use findings::{Finding, Spent};
pub use values::RunValues;

/// Out of memory.
pub type NoMemory = std::alloc::AllocError;
