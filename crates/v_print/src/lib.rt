//! Trees of Verilog sources written as text that reads as the same trees.
#![tactic(auto)]

mod byte;
pub mod expression;
pub mod last;
pub mod laws;
mod level;
mod mark;
mod number;
mod operator;
pub mod print;
pub mod writer;
