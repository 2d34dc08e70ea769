//! Syntax trees of Verilog sources (IEEE 1364-2005). It has no code.
#![tactic(auto)]
