//! Tokens of Verilog text.
#![tactic(auto)]

pub mod token;
