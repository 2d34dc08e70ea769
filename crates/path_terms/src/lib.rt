//! Terms over a design: of what dotted names mean in it, and of expressions that read them.
#![tactic(auto)]

pub mod laws;
mod naming;
mod origins;
mod places;
mod reading;

pub use naming::named_terms;
pub use origins::{Origin, origins_of};
pub use reading::{condition, conditions, mapped_term};

/// Out of memory.
pub type NoMemory = std::alloc::AllocError;
