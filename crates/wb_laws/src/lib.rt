//! Laws that a reader expects of the definitions. The functions have no code: each carries one law.
#![tactic(auto)]

pub mod laws;
