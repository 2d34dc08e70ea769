//! Memories whose words stand in trees over the bits of an address, which share what did not change.
#![tactic(auto)]

mod copies;
mod equality;
mod listing;
mod pool;
mod words;

pub use copies::Copies;
pub use listing::SetWord;
pub use pool::{Memory, Pool};

/// Want of memory.
pub type NoMemory = std::alloc::AllocError;
