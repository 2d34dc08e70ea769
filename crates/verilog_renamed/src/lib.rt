//! Laws on trees with other names, and on scopes that agree on the names of a tree. The functions have no code: each carries laws.
#![tactic(auto)]

pub mod agreement;
pub mod known_names;
pub mod laws;
