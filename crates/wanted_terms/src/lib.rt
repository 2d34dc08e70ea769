//! Copies of those terms of a store that are wanted, with all that they stand on, in another store.
#![tactic(auto)]

mod copying;
mod nodes;
mod reach;

pub use copying::put_wanted_copies;
pub use reach::closed;

/// Out of memory.
pub type NoMemory = std::alloc::AllocError;
