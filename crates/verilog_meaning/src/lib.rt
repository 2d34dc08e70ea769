//! What Verilog sources mean, from expressions to the next registers (IEEE 1364-2005). The functions have no code: each carries
//! worked values or a law.
#![tactic(auto)]

pub mod laws;
