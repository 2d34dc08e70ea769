//! Laws by which the rules on drivers of a design are judged on its drivers in one scope. The functions have no code: each carries laws.
#![tactic(auto)]

pub mod laws;
