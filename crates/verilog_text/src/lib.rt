//! Which tokens Verilog texts have, and which trees tokens spell (IEEE 1364-2005). It has no code.
#![tactic(auto)]
