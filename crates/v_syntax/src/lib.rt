//! Syntax trees of Verilog sources: flat trees that borrow their text, with views into the pure trees.
#![tactic(auto)]

pub mod module;
pub mod tree;
