//! The values of a design with a map say what runs of the design say, and so what holds of all runs. But for two functions that look
//! at a store, the functions have no code: they carry the laws.
#![tactic(auto)]

pub mod laws;
pub mod sound;
