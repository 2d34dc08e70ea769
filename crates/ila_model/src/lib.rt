//! Instruction-level models: states, inputs, a valid condition, instructions and child programs over a store of terms, well sorted.
#![tactic(auto)]

mod model;
mod parts;
mod scopes;
mod sorted;
mod sorting;

pub use model::IlaModel;
pub use parts::{Child, ChildId, Instruction, Parts, Update};
pub use scopes::Scope;
pub use sorting::SortedParts;
