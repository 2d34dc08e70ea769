//! Laws on the drivers of a flat design: they break no rule where its modules break none. The functions have no code: each carries laws.
#![tactic(auto)]

pub mod laws;
