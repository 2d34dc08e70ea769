//! Targets and statements of Verilog: the law of how they are read from tokens, and their reader.
#![tactic(auto)]

pub mod laws;
mod list;
mod node;
mod part;
pub mod statement;
pub mod target;
pub mod word;
