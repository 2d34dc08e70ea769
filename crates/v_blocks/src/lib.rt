//! Blocks of a module: which kinds of assignments stand in them, and which may not.
#![tactic(auto)]

mod assignments;
mod items;
pub mod laws;

pub use assignments::{Assignments, assignments_in};
pub use items::{first_blocking_in_clocked, first_nonblocking_in_combinational, is_clocked};
