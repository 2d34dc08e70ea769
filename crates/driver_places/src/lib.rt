//! Laws by which the rule on drivers is judged module by module, with instances. The functions have no code: each carries laws.
#![tactic(auto)]

pub mod laws;
