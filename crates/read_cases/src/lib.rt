//! From the bytes of the files of a check to the model and the design with its map, or to the first kind that refuses the files.
#![tactic(auto)]

mod case;
mod names;
mod scope;
mod sound;

pub use case::{FilesCase, case_of_files};

/// Out of memory.
pub type NoMemory = std::alloc::AllocError;
