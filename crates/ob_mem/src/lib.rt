//! Terms of truth sort without memories: each word of a memory becomes a name of its own.
#![tactic(auto)]

mod expansion;
mod images;
mod loads;
mod names;
mod rows;
mod words;

pub use expansion::{Expanded, expand};
pub use words::MemoryWord;

/// Want of memory.
pub type NoMemory = std::alloc::AllocError;
