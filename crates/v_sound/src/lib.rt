//! What holds of modules, statements, targets and expressions that break none of the rules, and of rules in two scopes, as laws.
#![tactic(auto)]

pub mod laws;
