//! Which of a map's expressions is the first that uses an input of the top, in an accepted design.
#![tactic(auto)]

mod asking;
mod first;
mod inputs;
pub mod laws;
mod making;
mod names;
mod table;

pub use first::first_user;
