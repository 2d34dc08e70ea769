//! The text of a model's emitted design, for models without child programs.
#![tactic(auto)]

mod checking;
pub mod laws;
mod text;

pub use text::emitted_text;

/// Out of memory.
pub type NoMemory = std::alloc::AllocError;
