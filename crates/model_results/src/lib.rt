//! What an instruction of a model does with its child programs, as a function: laws on the definitions of `model_meaning`.
#![tactic(auto)]

pub mod laws;
