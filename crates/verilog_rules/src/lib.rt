//! What is refused in Verilog sources: rules over the trees, one for each kind (IEEE 1364-2005). The functions have no code: each
//! carries worked cases.
#![tactic(auto)]

pub mod worked;
