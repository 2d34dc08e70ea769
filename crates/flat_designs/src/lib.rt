//! Laws on a design with instances and its drivers in one scope. The functions have no code: each carries laws.
#![tactic(auto)]

pub mod laws;
