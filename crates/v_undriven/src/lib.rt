//! Whether a module reads a bit that nothing drives. For modules without parameters and instances.
#![tactic(auto)]

pub mod laws;
mod module;
mod name;
mod output;
mod read;
mod table;

pub use module::has_undriven;
