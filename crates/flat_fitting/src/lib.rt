//! Laws on items whose drivers break no rule: what is asked of them before drivers, paths and loops are looked at holds. The functions
//! have no code: each carries a law.
#![tactic(auto)]

pub mod laws;
