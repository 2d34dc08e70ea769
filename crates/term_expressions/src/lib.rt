//! Verilog expressions for the terms of models, and the laws that they are worth the same. The functions have no code.
#![tactic(auto)]

pub mod laws;
