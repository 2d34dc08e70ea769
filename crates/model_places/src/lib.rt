//! Where the parts of a model file stand, and which of them breaks a rule first. The function has no code: it carries a law.
#![tactic(auto)]

pub mod laws;
