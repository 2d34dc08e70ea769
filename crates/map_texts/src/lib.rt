//! What the texts of written maps say, as the contracts of functions without code.
#![tactic(auto)]

pub mod laws;
