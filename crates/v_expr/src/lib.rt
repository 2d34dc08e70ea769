//! Expressions and selects of Verilog, read from tokens, and the laws of what is read.
#![tactic(auto)]

mod front;
pub mod laws;
mod limit;
mod made;
mod nested;
pub mod node;
pub mod number;
pub mod operator;
pub mod reader;
mod start;
mod stop;
pub mod worked;

pub use front::{expression, selects};
pub use stop::ExpressionStop;
