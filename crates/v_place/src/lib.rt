//! The place at which tokens are refused: the first token with which no source, or no expression, goes on.
#![tactic(auto)]

mod first_wrong;
mod grammar;
pub mod laws;
mod matching;
mod stack;
mod step;
mod symbols;

pub use first_wrong::{left_at_first_wrong, left_at_first_wrong_in_expression};
