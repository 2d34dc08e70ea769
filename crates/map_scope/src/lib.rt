//! The scope of a map's expressions: what dotted names mean in a design.
#![tactic(auto)]

pub mod laws;
mod scope;

pub use scope::{map_scope, scope_of};
