//! The rules on expressions of maps: which of them break one, and the widths of the others.
#![tactic(auto)]

pub mod laws;
mod sizes;

pub use sizes::{Judgement, judged};
