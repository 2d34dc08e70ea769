//! The module of a model's emitted design as a tree of the code, for models without child programs.
#![tactic(auto)]

mod clocked;
mod decoding;
mod expressions;
mod items;
mod lists;
mod module;
mod nodes;
mod ports;
mod resets;
mod statements;
mod updates;
mod ways;
mod words;

pub use module::emitted_tree;

/// Out of memory.
pub type NoMemory = std::alloc::AllocError;
