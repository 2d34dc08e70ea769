//! Facts of a model and a design with a map, as terms over the first registers and the inputs of a run.
#![tactic(auto)]

mod facts;
mod instructions;
mod reading;
mod shared;
mod states;

pub use facts::{assumption, holds_invariant, is_reset_active, is_start, one_decodes_there, shows};
pub use instructions::{commits, decodes, does_end, has_result};
pub use reading::{read_at, shown_at};
pub use shared::Shared;
pub use states::{has_initial, is_same, state_at};

/// Out of memory.
pub type NoMemory = std::alloc::AllocError;
