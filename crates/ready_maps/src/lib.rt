//! Accepted maps have all that is asked of a map whose expressions are brought to terms. The functions have no code: they carry the laws.
#![tactic(auto)]

pub mod laws;
